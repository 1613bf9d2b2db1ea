//! Names that are spelled alike, so that none has to be copied.

ghost use Rattle.std.specs.Prelude.{◌≡◌, ◌++◌, ◌∷◌, [], IfOk};
ghost use Rattle.std.specs.Cmp.Lexicographic.{pointwise};
ghost use Rattle.x5_model.specs.Values.{last_rdn as last_rdn_of};
ghost use Rattle.x5_model_tree.specs.Described.{same_pair_spelled, same_spelling};
ghost use Rattle.x5_world_members.specs.Spelling.{is_spelled_above as spelled_above};

use crate::names::last_rdn;
use std::alloc::Global;
use x5_memory::NoMemory;
use x5_names::{Name, Pair, Rdn};

/// Whether the two pairs are the same, spelling and all. No memory.
fn same_pair(a: &Pair, b: &Pair) -> bool
    ensures { result ≡ same_pair_spelled a.now b.now }
{
    a.kind().number() == b.kind().number()
        && a.text().as_str() == b.text().as_str()
        && a.normal().as_slice() == b.normal().as_slice()
}

/// Whether the two RDNs are the same, spelling and all. No memory.
fn same_rdn(a: &Rdn, b: &Rdn) -> bool
    ensures { result ≡ pointwise same_pair_spelled a.now b.now }
{
    let mut left = b.pairs();
    for pair in a.pairs() {
        let [other, rest @ ..] = left else {
            return false;
        };
        if !same_pair(pair, other) {
            return false;
        }
        left = rest;
    }
    left.is_empty()
}

/// Whether the two names of these RDNs are the same, spelling and all. No memory.
fn same_name(a: &[Rdn], b: &[Rdn]) -> bool
    ensures { result ≡ same_spelling a.now b.now }
{
    let mut left = b;
    for rdn in a {
        let [other, rest @ ..] = left else {
            return false;
        };
        if !same_rdn(rdn, other) {
            return false;
        }
        left = rest;
    }
    left.is_empty()
}

/// Whether the name is spelled as the name above it and an RDN more. No memory.
fn is_spelled_above(above: &Name, name: &Name) -> bool
    ensures { result ≡ spelled_above above.now name.now }
{
    let rdns = name.rdns();
    !rdns.is_empty() && same_name(above.rdns(), &rdns[..rdns.len() - 1])
}

/// The name below another one by the last RDN of a name. A name that is spelled so already is moved, not copied.
#[tactic(auto, using(crate::proofs::Spelled::spelled_below))]
pub(crate) fn moved_below(alloc: Global, above: &Name, name: Name) -> Result<Name, NoMemory>
    ensures { IfOk result (λ n. n ≡ above.now ++ last_rdn_of name ∷ []) }
{
    if is_spelled_above(above, &name) {
        return Ok(name);
    }
    let rdn = last_rdn(alloc, &name)?;
    above.below(alloc, &rdn)
}
