//! What a directory's names, values, entries, requests and answers are. This crate has definitions (`specs/`), which clauses cite, and the laws of keys and lists (`proofs/`).
//! Each function states one law by its clauses; none does anything.
#![tactic(auto)]

ghost use Rattle.std.specs.Prelude.{◌≡◌, true, ◌+◌, ◌<◌, List, length};
ghost use Rattle.std.specs.Bool.{Decides};
ghost use Rattle.std.specs.Cmp.{IsTotalOrder};
ghost use Rattle.std.specs.declared.cmp.Ordering.TheVariants.{Equal};
ghost use Rattle.x5_model.specs.Words.{ascending, distinct};
ghost use Rattle.x5_model.specs.Members.{In};
ghost use Rattle.x5_model.specs.Keys.{Key, IsPrefix, parent, same_key, is_prefix, is_child, is_below, key_cmp, key_below};

/// The order of keys is total, and its ties are equality.
#[tactic(auto, using(crate::proofs::KeyLaws::key_cmp_total, crate::proofs::KeyLaws::equal_keys, crate::proofs::KeyLaws::key_itself))]
pub fn keys_are_ordered()
    ensures total { IsTotalOrder key_cmp }
    ensures ties { (a b : Key) → key_cmp a b ≡ Equal → a ≡ b }
    ensures itself { (a : Key) → key_cmp a a ≡ Equal }
{}

/// Prefix is a partial order.
#[tactic(auto, using(crate::proofs::Prefixes::prefix_itself, crate::proofs::Prefixes::prefix_chain, crate::proofs::Prefixes::prefix_both_ways))]
pub fn prefixes_are_ordered()
    ensures itself { (a : Key) → IsPrefix a a }
    ensures chain { (a b c : Key) → IsPrefix a b → IsPrefix b c → IsPrefix a c }
    ensures both_ways { (a b : Key) → IsPrefix a b → IsPrefix b a → a ≡ b }
{}

/// The tests on keys say what the relations say.
#[tactic(auto, using(crate::proofs::KeyLaws::key_decides, crate::proofs::Prefixes::prefix_decides, crate::proofs::Prefixes::child_decides, crate::proofs::Prefixes::below_decides))]
pub fn tests_are_exact()
    ensures same { (a b : Key) → Decides (same_key a b) (a ≡ b) }
    ensures prefix { (a b : Key) → Decides (is_prefix a b) (IsPrefix a b) }
    ensures child { (above a : Key) → Decides (is_child above a) ((0 < length a) × (parent a ≡ above)) }
    ensures below { (above a : Key) → Decides (is_below above a) ((length above < length a) × IsPrefix above a) }
{}

/// In a list in order each key comes once, and two such lists with the same members are one.
#[tactic(auto, using(crate::proofs::Ascending::keys_once, crate::proofs::Ascending::one_list_of_keys))]
pub fn lists_in_order_are_sets()
    ensures once { (xs : List Key) → ascending key_below xs ≡ true → distinct same_key xs ≡ true }
    ensures one { (xs ys : List Key) → ascending key_below xs ≡ true → ascending key_below ys ≡ true → ((z : Key) → In z xs → In z ys) → ((z : Key) → In z ys → In z xs) → xs ≡ ys }
{}
