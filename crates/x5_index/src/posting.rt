//! Postings: what an index has of a value of an entry, and their order.

ghost use Rattle.std.specs.Prelude.{◌≡◌, IsTrue};
ghost use Rattle.std.specs.Bool.{Decides};
ghost use Rattle.x5_model.specs.Keys.{pair_cmp};
ghost use Rattle.x5_model.specs.Members.{In};
ghost use Rattle.x5_model.specs.Words.{ascending};
ghost use Rattle.x5_index.specs.Index.{posting_cmp, posting_below, term_below};
ghost use Rattle.x5_index.specs.Places.{IsFoundAt};

use std::cmp::Ordering;
use std::marker::Model;
use x5_syntax::{Normal, TypeId};

/// A value by which an entry is found: its type and its normal form.
#[derive(Drop)]
pub(crate) struct Term {
    pub(crate) kind: TypeId,
    pub(crate) normal: Normal,
}

impl Model for Term {
    ghost use Rattle.x5_model.specs.Keys.{KeyPair};

    ghost Value = { KeyPair };

    ghost view = { λ t. (t.kind, t.normal) };
}

/// A value that an entry has, and the number of the entry's node.
#[derive(Drop)]
pub(crate) struct Posting {
    pub(crate) term: Term,
    pub(crate) node: usize,
}

impl Model for Posting {
    ghost use Rattle.x5_index.specs.Index as index;

    ghost Value = { index.Posting };

    ghost view = { λ p. record { term = p.term; node = p.node } };
}

/// How a term stands to one of this type and normal form.
pub(crate) fn compare_terms(term: &Term, kind: TypeId, normal: &Normal) -> Ordering
    ensures { result ≡ pair_cmp term.now (kind, normal.now) }
{
    match term.kind.number().cmp(&kind.number()) {
        Ordering::Equal => term.normal.as_slice().cmp(normal.as_slice()),
        unequal => unequal,
    }
}

/// Whether the value of this type and normal form is among these. No memory.
pub(crate) fn has_term(terms: &[Term], kind: TypeId, normal: &Normal) -> bool
    requires { IsTrue (ascending term_below terms.now) }
    ensures { Decides result (In (kind, normal.now) terms.now) }
{
    terms
        .binary_search_by(|term| compare_terms(term, kind, normal))
        .is_ok()
}

/// How a posting stands to one of this type, normal form and node.
fn compare(posting: &Posting, kind: TypeId, normal: &Normal, node: usize) -> Ordering
    ensures { result ≡ posting_cmp posting.now (record { term = (kind, normal.now); node = node }) }
{
    match compare_terms(&posting.term, kind, normal) {
        Ordering::Equal => posting.node.cmp(&node),
        unequal => unequal,
    }
}

/// How a posting stands to another.
pub(crate) fn compare_postings(one: &Posting, other: &Posting) -> Ordering
    ensures { result ≡ posting_cmp one.now other.now }
{
    compare(one, other.term.kind, &other.term.normal, other.node)
}

/// The place of the posting of this type, normal form and node, or where it would go. No memory.
pub(crate) fn find(
    postings: &[Posting],
    kind: TypeId,
    normal: &Normal,
    node: usize,
) -> Result<usize, usize>
    requires { IsTrue (ascending posting_below postings.now) }
    ensures { IsFoundAt postings.now (record { term = (kind, normal.now); node = node }) result }
{
    postings.binary_search_by(|posting| compare(posting, kind, normal, node))
}
