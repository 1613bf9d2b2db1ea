//! The attribute types that agents know, and what their values are (X.520, X.501, X.509; docs/FORMATS.md, attribute types).

ghost use Rattle.std.specs.Prelude.{◌≡◌, ◌↔◌, IsTrue, IfOk, None, Some, if◌then◌else◌};
ghost use Rattle.std.specs.Option.{option_map};
ghost use Rattle.std.specs.Str.{str_eq_ignore_ascii_case};
ghost use Rattle.x5_model.specs.Types as model;
ghost use Rattle.x5_model_text.specs.TypeText as text_of;
ghost use Rattle.x5_model_text.specs.TypeText.{keyword_of, row_of_word};

use crate::containers::Text;
use crate::oid::Oid;
use std::alloc::{AllocError, Global};
use std::marker::Model;
use x5_memory::NoMemory;

/// What the values of a type are.
#[derive(Clone, Copy, PartialEq, Eq)]
pub enum Kind {
    Text,
    Printable,
    Country,
    Numeric,
    Telephone,
    Oid,
    Name,
    Octets,
}

impl Kind {
    ghost use Rattle.x5_syntax.specs.Views.{kind_view};

    /// Whether values of the kind have an order (X.520: ordering rules).
    pub fn has_order(self) -> bool
        ensures { result ≡ model.has_order (kind_view self) }
    {
        matches!(
            self,
            Kind::Text | Kind::Printable | Kind::Country | Kind::Numeric
        )
    }

    /// Whether values of the kind have substrings (X.520: substrings rules).
    pub fn has_substrings(self) -> bool
        ensures { result ≡ model.has_substrings (kind_view self) }
    {
        self.has_order() || self == Kind::Telephone
    }
}

/// A type of the table, by its number below 2.5.4.
#[derive(Clone, Copy)]
pub struct TypeId(pub u8);

impl Model for TypeId {
    ghost use Rattle.std.specs.Prelude.{ℕ, IsTrue};
    ghost use Rattle.x5_model.specs.Types.{is_known};

    ghost Value = { ℕ };

    ghost view = { λ t. t.0 };

    ghost invariant = { λ t. IsTrue (is_known t.0) };

    ghost inverse = { λ n. record { 0 = n } };
}

/// Whether two words are the same but for ASCII case.
fn is_same(word: &str, keyword: &str) -> bool
    ensures { result ≡ str_eq_ignore_ascii_case word.now keyword.now }
{
    word.eq_ignore_ascii_case(keyword)
}

/// Whether the table has the number.
fn is_known(number: u8) -> bool
    ensures { result ≡ model.is_known number }
{
    matches!(
        number,
        0 | 1 | 3 | 4 | 5 | 6 | 7 | 8 | 10 | 11 | 12 | 13 | 17 | 20 | 24 | 31 | 32 | 34 | 35
    )
}

impl TypeId {
    ghost use Rattle.x5_syntax.specs.Views.{kind_view};

    /// The type with the number, if the table has it. No memory.
    pub fn new(number: u8) -> Option<TypeId>
        ensures { result ≡ (if model.is_known number then Some number else None) }
    {
        if is_known(number) {
            Some(TypeId(number))
        } else {
            None
        }
    }

    /// The type whose keyword the word is, in any case of ASCII. No memory.
    pub fn from_keyword(word: &str) -> Option<TypeId>
        ensures { result ≡ option_map (λ r. r.number) (row_of_word word.now) }
    {
        let number = if is_same(word, "objectClass") {
            0
        } else if is_same(word, "aliasedEntryName") {
            1
        } else if is_same(word, "CN") {
            3
        } else if is_same(word, "SN") {
            4
        } else if is_same(word, "serialNumber") {
            5
        } else if is_same(word, "C") {
            6
        } else if is_same(word, "L") {
            7
        } else if is_same(word, "ST") {
            8
        } else if is_same(word, "O") {
            10
        } else if is_same(word, "OU") {
            11
        } else if is_same(word, "title") {
            12
        } else if is_same(word, "description") {
            13
        } else if is_same(word, "postalCode") {
            17
        } else if is_same(word, "telephoneNumber") {
            20
        } else if is_same(word, "x121Address") {
            24
        } else if is_same(word, "member") {
            31
        } else if is_same(word, "owner") {
            32
        } else if is_same(word, "seeAlso") {
            34
        } else if is_same(word, "userPassword") {
            35
        } else {
            return None;
        };
        Some(TypeId(number))
    }

    /// Its number. No memory.
    pub fn number(self) -> u8
        ensures same { result ≡ self }
        ensures known { IsTrue (model.is_known result) }
    {
        self.0
    }

    /// What is printed of it. No memory.
    pub fn keyword(self) -> &'static str
        ensures { result.now ≡ keyword_of self }
    {
        match self.0 {
            0 => "objectClass",
            1 => "aliasedEntryName",
            3 => "CN",
            4 => "SN",
            5 => "serialNumber",
            6 => "C",
            7 => "L",
            8 => "ST",
            10 => "O",
            11 => "OU",
            12 => "title",
            13 => "description",
            17 => "postalCode",
            20 => "telephoneNumber",
            24 => "x121Address",
            31 => "member",
            32 => "owner",
            34 => "seeAlso",
            35 => "userPassword",
            _ => "",
        }
    }

    /// What its values are. No memory.
    pub fn kind(self) -> Kind
        ensures { kind_view result ≡ model.kind_of self }
    {
        match self.0 {
            0 => Kind::Oid,
            3 | 4 | 7 | 8 | 10 | 11 | 12 | 13 | 17 => Kind::Text,
            5 => Kind::Printable,
            6 => Kind::Country,
            20 => Kind::Telephone,
            24 => Kind::Numeric,
            1 | 31 | 32 | 34 => Kind::Name,
            _ => Kind::Octets,
        }
    }

    /// Whether it may stand in an RDN. No memory.
    pub fn may_name(self) -> bool
        ensures { result ≡ model.may_name self }
    {
        matches!(
            self.0,
            3 | 4 | 5 | 6 | 7 | 8 | 10 | 11 | 12 | 13 | 17 | 20 | 24
        )
    }

    /// Whether an entry has one value of it at most. No memory.
    pub fn is_single(self) -> bool
        ensures { result ≡ model.is_single self }
    {
        self.0 == 1 || self.0 == 6
    }
}

/// An attribute type: one of the table, or any other object identifier.
#[derive(Drop)]
pub enum TypeRef {
    Known(TypeId),
    Unknown(Oid),
}

impl TypeRef {
    ghost use Rattle.x5_syntax.specs.TypeView.{type_view, number_of};
    ghost use Rattle.x5_syntax.specs.Views.{kind_view};
    ghost use Rattle.x5_model_text.specs.TypeText.{type_of_text, type_of_arcs, text_of_type, arcs_of_type};
    ghost use Rattle.x5_model_text.specs.NameText.{kind_of_type};

    /// The type that a text spells: a keyword in any case of ASCII, or dotted decimals.
    pub fn parse(alloc: Global, text: &str) -> Result<Option<TypeRef>, NoMemory>
        ensures { IfOk result (λ found. option_map type_view found ≡ type_of_text text.now) }
    {
        if let Some(known) = TypeId::from_keyword(text) {
            return Ok(Some(TypeRef::Known(known)));
        }
        match Oid::parse(alloc, text)? {
            Some(oid) => Ok(Some(TypeRef::from_oid(oid))),
            None => Ok(None),
        }
    }

    /// The type that the object identifier names. No memory.
    pub fn from_oid(oid: Oid) -> TypeRef
        ensures { type_view result ≡ type_of_arcs oid }
    {
        match known_below(oid.arcs()) {
            Some(known) => TypeRef::Known(known),
            None => TypeRef::Unknown(oid),
        }
    }

    /// The type, if it's one of the table. No memory.
    pub fn known(&self) -> Option<TypeId>
        ensures { result ≡ number_of (type_view self.now) }
    {
        match self {
            TypeRef::Known(known) => Some(*known),
            TypeRef::Unknown(_) => None,
        }
    }

    /// What its values are: texts, where nobody knows the type. No memory.
    pub fn kind(&self) -> Kind
        ensures { kind_view result ≡ kind_of_type (type_view self.now) }
    {
        match self {
            TypeRef::Known(known) => known.kind(),
            TypeRef::Unknown(_) => Kind::Text,
        }
    }

    /// What is printed of it: its keyword, or dotted decimals.
    pub fn text(&self, alloc: Global) -> Result<Text, NoMemory>
        ensures { IfOk result (λ text. text ≡ text_of_type (type_view self.now)) }
    {
        match self {
            TypeRef::Known(known) => Text::new(alloc, known.keyword()),
            TypeRef::Unknown(oid) => oid.text(alloc),
        }
    }

    /// Whether the two are one type. No memory.
    pub fn is_same(&self, other: &TypeRef) -> bool
        ensures { IsTrue result ↔ (type_view self.now ≡ type_view other.now) }
    {
        match (self, other) {
            (TypeRef::Known(a), TypeRef::Known(b)) => a.number() == b.number(),
            (TypeRef::Unknown(a), TypeRef::Unknown(b)) => a.arcs() == b.arcs(),
            _ => false,
        }
    }
}

/// The type of the table with these arcs.
fn known_below(arcs: &[u32]) -> Option<TypeId>
    ensures { result ≡ text_of.known_below arcs.now }
{
    match arcs {
        [2, 5, 4, number] if *number < 256 => TypeId::new(*number as u8),
        _ => None,
    }
}

impl Clone for TypeRef {
    ghost is_clone = { λ a b. b ≡ a };

    fn clone(&self) -> Result<TypeRef, AllocError> {
        match self {
            TypeRef::Known(known) => Ok(TypeRef::Known(*known)),
            TypeRef::Unknown(oid) => Ok(TypeRef::Unknown(oid.clone()?)),
        }
    }
}
