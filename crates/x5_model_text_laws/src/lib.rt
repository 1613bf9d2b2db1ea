//! What is printed reads back, and a normal form is its own: laws of the texts of `x5_model_text` and of the normal forms of `x5_model`. Each is the contract of a function that does nothing.
#![tactic(auto)]

ghost use Rattle.std.specs.Prelude.{◌≡◌, ℕ, ◌<◌, Bool, true, List, [], ◌∷◌, length, map, None, Some, Ok};
ghost use Rattle.std.specs.List.{AllByRecursion, list_all};
ghost use Rattle.std.specs.Str.{is_utf8};
ghost use Rattle.x5_model.specs.Values.{TypeRef, Known, TextValue, OctetsValue, OidValue, NameOf, NameValue, Name, Value, written};
ghost use Rattle.x5_model.specs.Types.{Kind, table, OctetsKind, OidKind, NameKind};
ghost use Rattle.x5_model.specs.Normal.{is_oid, is_part_of_kind, is_text_of_kind, folded, part_normal, text_normal, value_over, normal_of, normal_form, written_key, IsStored, stored};
ghost use Rattle.x5_model_text.specs.TypeText.{text_of_type, type_of_text};
ghost use Rattle.x5_model_text.specs.NameText.{kind_of_type, text_of_pairs, text_of_written, text_of_name, name_of_text, rdn_of_text, text_of_value, value_of_resolved, value_of_text};
ghost use Rattle.x5_model_text.specs.ValueText.{escaped, resolved};
ghost use Rattle.x5_model_text_laws.specs.Given.{is_given_type, are_utf8, IsGivenName, IsGiven, is_printed, is_printed_in_name};

/// A text with its escapes resolves to itself, wherever it stands.
#[tactic(auto, using(crate::proofs::Escapes::resolved_escaped))]
pub fn escapes_read_back()
    ensures { (at : ℕ) (text : List ℕ) → AllByRecursion (λ b. b < 256) text → resolved at (escaped text) ≡ Ok text }
{}

/// The printed text of a value that is a text, read for any type, is what the text itself stands for.
#[tactic(auto, using(crate::proofs::Escapes::text_read_back))]
pub fn texts_read_back()
    ensures { (type : TypeRef) (text : List ℕ) → AllByRecursion (λ b. b < 256) text → value_of_text type (text_of_value (TextValue text)) ≡ value_of_resolved (kind_of_type type) (Ok text) }
{}

/// The printed keyword of each type of the table, read, is the type.
pub fn keywords_read_back()
    ensures { map (λ r. type_of_text r.keyword) table ≡ map (λ r. Some (Known r.number)) table }
{}

/// What a text gives as a type is one of the table or another object identifier; the text of such a type reads as the type.
#[tactic(auto, using(crate::proofs::Types::type_given, crate::proofs::Types::type_back, crate::proofs::Types::type_again))]
pub fn types_read_back()
    ensures given { (text : List ℕ) (type : TypeRef) → type_of_text text ≡ Some type → is_given_type type ≡ true }
    ensures types { (type : TypeRef) → is_given_type type ≡ true → type_of_text (text_of_type type) ≡ Some type }
    ensures again { (text : List ℕ) (type : TypeRef) → type_of_text text ≡ Some type → type_of_text (text_of_type type) ≡ Some type }
{}

/// Octets within the limit, printed and read for a type of octets, are themselves.
#[tactic(auto, using(crate::proofs::Octets::octets_read_back))]
pub fn octets_read_back()
    ensures { (type : TypeRef) (octets : List ℕ) → kind_of_type type ≡ OctetsKind → AllByRecursion (λ b. b < 256) octets → 0 < length octets → value_over (OctetsValue octets) ≡ None → value_of_text type (text_of_value (OctetsValue octets)) ≡ Ok (OctetsValue octets) }
{}

/// An object identifier within the limit, printed and read for a type of object identifiers, is itself.
#[tactic(auto, using(crate::proofs::Oids::oids_read_back))]
pub fn oids_read_back()
    ensures { (type : TypeRef) (arcs : List ℕ) → kind_of_type type ≡ OidKind → is_oid arcs ≡ true → value_over (OidValue arcs) ≡ None → value_of_text type (text_of_value (OidValue arcs)) ≡ Ok (OidValue arcs) }
{}

/// What a text gives as a name, or as an RDN alone, has pairs in order, of types that may name, each once, with texts of their kinds, and passes no limit.
pub fn read_names_are_given()
    ensures names { (text : List ℕ) (name : NameValue) → name_of_text text ≡ Ok name → IsGivenName name }
    ensures rdns { (text : List ℕ) (rdn : List (ℕ × List ℕ)) → rdn_of_text text ≡ Ok rdn → IsGivenName (rdn ∷ []) }
    ensures stored { (text : List ℕ) (name : NameValue) → name_of_text text ≡ Ok name → IsStored (stored name) }
{}

/// The text of such a name reads as the very same name, and that of an RDN as the RDN; so what was read, printed and read again is the same.
#[tactic(auto, using(crate::proofs::Names::name_read_back, crate::proofs::Names::name_read_again, crate::proofs::Names::rdn_read_back))]
pub fn names_read_back()
    ensures names { (name : NameValue) → IsGivenName name → name_of_text (text_of_written name) ≡ Ok name }
    ensures again { (text : List ℕ) (name : NameValue) → name_of_text text ≡ Ok name → name_of_text (text_of_written name) ≡ Ok name }
    ensures rdns { (rdn : List (ℕ × List ℕ)) → IsGivenName (rdn ∷ []) → rdn_of_text (text_of_pairs rdn) ≡ Ok rdn }
{}

/// The text of a name with its normal forms reads as that name, spelling and key.
pub fn stored_names_read_back()
    ensures { (name : Name) → IsStored name → list_all are_utf8 (written name) ≡ true → (name_of_text (text_of_name name) ≡ Ok (written name)) × (stored (written name) ≡ name) }
{}

/// What a text gives as a value of a type is octets, an object identifier or a name where the type's kind has those, or a text that can't be read as one; and it passes no limit.
pub fn read_values_are_given()
    ensures { (type : TypeRef) (text : List ℕ) (value : Value) → value_of_text type text ≡ Ok value → IsGiven (kind_of_type type) value }
{}

/// The text of such a value, read for that type, is the very same value; so what was read, printed and read again is the same.
pub fn values_read_back()
    ensures values { (type : TypeRef) (value : Value) → IsGiven (kind_of_type type) value → value_of_text type (text_of_value value) ≡ Ok value }
    ensures again { (type : TypeRef) (text : List ℕ) (value : Value) → value_of_text type text ≡ Ok value → value_of_text type (text_of_value value) ≡ Ok value }
{}

/// Folding the case of a text twice is folding it once.
#[tactic(auto, using(crate::proofs::NormalForms::folds_once))]
pub fn folding_stands()
    ensures { (text : List ℕ) → is_utf8 text ≡ true → folded (folded text) ≡ folded text }
{}

/// The normal form of a text, or of a part of one, is its own normal form, and its characters may stand where the text's may. Where it isn't empty (as that of spaces alone is) it is of the kind as well,
/// and where it passes no limit (case folding can make a text longer) the kind has a normal form of it, itself.
#[tactic(auto, using(crate::proofs::NormalForms::normal_twice, crate::proofs::NormalForms::part_kind_stays, crate::proofs::NormalForms::kind_stays, crate::proofs::NormalForms::normal_again))]
pub fn normal_forms_stand()
    ensures twice { (kind : Kind) (first last : Bool) (text : List ℕ) → is_utf8 text ≡ true → part_normal kind first last (part_normal kind first last text) ≡ part_normal kind first last text }
    ensures characters { (kind : Kind) (first last : Bool) (text : List ℕ) → is_utf8 text ≡ true → is_part_of_kind kind text ≡ true → is_part_of_kind kind (part_normal kind first last text) ≡ true }
    ensures kind { (kind : Kind) (text : List ℕ) → is_utf8 text ≡ true → is_text_of_kind kind text ≡ true → 0 < length (text_normal kind text) → is_text_of_kind kind (text_normal kind text) ≡ true }
    ensures normal { (kind : Kind) (text normal : List ℕ) → is_utf8 text ≡ true → normal_of kind (TextValue text) ≡ Ok normal → 0 < length normal → value_over (TextValue normal) ≡ None → normal_of kind (TextValue normal) ≡ Ok normal }
{}

/// The normal forms of two names, or of two object identifiers, are the same only where their keys, or their arcs, are.
#[tactic(auto, using(crate::proofs::Telling::names_told, crate::proofs::Telling::oids_told))]
pub fn normal_forms_tell_apart()
    ensures names { (name other : NameValue) → IsGivenName name → IsGivenName other → normal_form NameKind (NameOf name) ≡ normal_form NameKind (NameOf other) → written_key name ≡ written_key other }
    ensures oids { (arcs other : List ℕ) → is_oid arcs ≡ true → is_oid other ≡ true → normal_form OidKind (OidValue arcs) ≡ normal_form OidKind (OidValue other) → arcs ≡ other }
{}

/// What is printed of a value is one word: no space, no control character, nothing that ends or joins words, pairs or filters. In a name's text stand also `/`, `+` and `=`, and both are UTF-8.
#[tactic(auto, using(crate::proofs::Words::value_word, crate::proofs::Words::name_word, crate::proofs::Words::value_utf8, crate::proofs::NameUtf8::name_utf8))]
pub fn printed_texts_are_words()
    ensures values { (kind : Kind) (value : Value) → IsGiven kind value → list_all is_printed (text_of_value value) ≡ true }
    ensures names { (name : NameValue) → IsGivenName name → list_all is_printed_in_name (text_of_written name) ≡ true }
    ensures values_utf8 { (kind : Kind) (value : Value) → IsGiven kind value → is_utf8 (text_of_value value) ≡ true }
    ensures names_utf8 { (name : NameValue) → IsGivenName name → is_utf8 (text_of_written name) ≡ true }
{}
