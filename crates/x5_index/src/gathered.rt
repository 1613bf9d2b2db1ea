//! Postings that are gathered as they come, and put into order at once.

ghost use Rattle.std.specs.Prelude.{◌≡◌, ◌+◌, ◌≤◌, ◌++◌, false, length, map, vec_len, vec_capacity, OnOk, OnErr, IsTrue};
ghost use Rattle.std.specs.List.Sorted.{IsPermutation, IsSortedBy};
ghost use Rattle.x5_model.specs.Attributes.{is_ordered};
ghost use Rattle.x5_model.specs.Entries.{Entry as entry};
ghost use Rattle.x5_model.specs.Members.{Once};
ghost use Rattle.x5_model.specs.Words.{ascending};
ghost use Rattle.x5_index.specs.Index.{posting_below, terms_of, is_there, IsPut};
ghost use Rattle.x5_index.specs.Places.{HaveSame, postings_for};

use crate::posting::{Posting, Term, compare_postings};
use crate::postings::Postings;
use crate::room::Room;
use std::marker::Model;
use x5_syntax::NoMemory;

/// Nodes with the values of their entries in the order in which they came, of which an index is made when all are there. So
/// that many entries are put into an index in the time of one sort.
#[derive(Drop)]
pub struct Gathered {
    postings: Vec<Posting>,
}

impl Model for Gathered {
    ghost use Rattle.std.specs.Prelude.{◌-◌, vec_len, vec_capacity};
    ghost use Rattle.x5_model.specs.Members.{Once};
    ghost use Rattle.x5_index.specs.Index as index;

    ghost Value = { index.Index };

    ghost view = { λ g. record { postings = g.postings.items; spare = vec_capacity g.postings - vec_len g.postings } };

    ghost invariant = { λ g. Once g.postings.items };
}

/// Adds a posting of the node for each term. No memory: there is room.
fn push_terms(postings: &mut Vec<Posting>, node: usize, terms: Vec<Term>)
    requires { vec_len postings.old + length terms.items ≤ vec_capacity postings.old }
    ensures items { postings.new.items ≡ postings.old.items ++ postings_for node terms.items }
    ensures len { vec_len postings.new ≡ vec_len postings.old + length terms.items }
    ensures capacity { vec_capacity postings.old ≤ vec_capacity postings.new }
{
    for term in terms {
        if postings.push(Posting { term, node }).is_err() {
            unreachable!();
        }
    }
}

/// Puts postings into their order, with memory. Entries mostly come in the order of their names, and so many postings of one type
/// in theirs: once those of each type stand together, a stable sort keeps such runs.
fn sort_by_runs(postings: &mut Vec<Posting>) -> Result<(), NoMemory>
    ensures permutation { IsPermutation postings.old.items postings.new.items }
    ensures sorted { OnOk result (IsSortedBy posting_below postings.new.items) }
{
    postings.sort_by_key(|posting| posting.term.kind.number())?;
    postings.sort_by(|one, other| compare_postings(one, other))?;
    Ok(())
}

/// Puts postings into their order.
fn sort_in_place(postings: &mut Vec<Posting>)
    ensures permutation { IsPermutation postings.old.items postings.new.items }
    ensures sorted { IsSortedBy posting_below postings.new.items }
{
    postings.sort_unstable_by(|one, other| compare_postings(one, other));
}

/// Puts postings, each of which is there once, into their order. It needs no memory: where there is none, they are sorted in place.
fn put_in_order(postings: &mut Vec<Posting>)
    requires { Once postings.old.items }
    ensures ordered { IsTrue (ascending posting_below postings.new.items) }
    ensures same { HaveSame postings.old.items postings.new.items }
{
    if sort_by_runs(postings).is_err() {
        sort_in_place(postings);
    }
}

impl Gathered {
    /// These postings, in the order in which they come. No memory.
    pub(crate) fn of(postings: Vec<Posting>) -> Gathered
        requires { Once postings.items }
        ensures postings { result.postings ≡ postings.items }
    {
        Gathered { postings }
    }

    /// Makes room for so many values. After want of memory all is as it was.
    pub fn reserve(&mut self, count: usize) -> Result<(), NoMemory>
        ensures postings { self.new.postings ≡ self.old.postings }
        ensures spare { self.old.spare ≤ self.new.spare }
        ensures ok { OnOk result (count ≤ self.new.spare) }
        ensures err { OnErr result (self.new ≡ self.old) }
    {
        self.postings.reserve(count)?;
        Ok(())
    }

    /// Puts a node that isn't there, with the entry whose values the room has. No memory: it needs `spare`, which falls by
    /// their number at most.
    pub fn put(&mut self, node: usize, room: Room)
        requires absent { is_there self.old.postings node ≡ false }
        requires spare { length room ≤ self.old.spare }
        ensures put { (e : entry) → IsTrue (is_ordered e) → room ≡ terms_of e → IsPut self.old.postings node e self.new.postings }
        ensures spare { self.old.spare ≤ self.new.spare + length room }
    {
        push_terms(&mut self.postings, node, room.into_terms());
    }

    /// The index of the same nodes, with the same values. It needs no memory; with some it's quicker.
    pub fn in_order(self) -> Postings
        ensures { HaveSame self.postings result.postings }
    {
        let Gathered { mut postings } = self;
        put_in_order(&mut postings);
        Postings::of(postings)
    }
}
