//! The order of RDNs.

ghost use Rattle.std.specs.Prelude.{◌≡◌};
ghost use Rattle.std.specs.Cmp.Lexicographic.{slice_cmp};
ghost use Rattle.std.specs.Prelude.{map};
ghost use Rattle.x5_model.specs.Keys.{pair_cmp};
ghost use Rattle.x5_model.specs.Values.{key_of_pair};

use std::cmp::Ordering;
use x5_names::Pair;

/// The order of pairs: by type numbers, and then by normal values.
fn compare_pairs(a: &Pair, b: &Pair) -> Ordering
    ensures { result ≡ pair_cmp (key_of_pair a.now) (key_of_pair b.now) }
{
    a.kind()
        .number()
        .cmp(&b.kind().number())
        .then(a.normal().as_slice().cmp(b.normal().as_slice()))
}

/// The order of the RDNs of these pairs: pair by pair, a beginning first (X.501, section 9: relative distinguished names). No memory.
pub fn compare_rdns(a: &[Pair], b: &[Pair]) -> Ordering
    ensures { result ≡ slice_cmp pair_cmp (map key_of_pair a.now) (map key_of_pair b.now) }
{
    for (i, pair) in a.iter().enumerate() {
        if i == b.len() {
            return Ordering::Greater;
        }
        let order = compare_pairs(pair, &b[i]);
        if order.is_ne() {
            return order;
        }
    }
    if a.len() == b.len() {
        Ordering::Equal
    } else {
        Ordering::Less
    }
}
