//! The order of names, by their RDNs.

ghost use Rattle.std.specs.Prelude.{◌≡◌, map};
ghost use Rattle.x5_model.specs.Keys.{key_cmp, is_prefix};
ghost use Rattle.x5_model.specs.Values.{key_of};

use std::cmp::Ordering;
use x5_dse::compare_rdns;
use x5_names::Rdn;

/// The order of the names of these RDNs: RDN by RDN, a beginning first. No memory.
pub(crate) fn compare_names(a: &[Rdn], b: &[Rdn]) -> Ordering
    ensures { result ≡ key_cmp (key_of a.now) (key_of b.now) }
{
    for (i, rdn) in a.iter().enumerate() {
        if i == b.len() {
            return Ordering::Greater;
        }
        let order = compare_rdns(rdn.pairs(), b[i].pairs());
        if order.is_ne() {
            return order;
        }
    }
    if a.len() == b.len() {
        Ordering::Equal
    } else {
        Ordering::Less
    }
}

/// Whether the name of these RDNs begins with those. No memory.
pub(crate) fn begins_with(name: &[Rdn], rdns: &[Rdn]) -> bool
    ensures { result ≡ is_prefix (key_of rdns.now) (key_of name.now) }
{
    rdns.len() <= name.len() && compare_names(&name[..rdns.len()], rdns).is_eq()
}
