//! The postings of all entries that are there.

ghost use Rattle.std.specs.Prelude.{◌≡◌, ◌+◌, ◌≤◌, ◌<◌, ◌∷◌, [], false, length, vec_len, vec_capacity, IfOk, OnOk, OnErr, IsTrue};
ghost use Rattle.x5_model.specs.Attributes.{is_ordered};
ghost use Rattle.x5_model.specs.Entries.{Entry as entry};
ghost use Rattle.x5_model.specs.Members.{In, Once};
ghost use Rattle.x5_model.specs.Words.{ascending};
ghost use Rattle.x5_match.specs.FilterView.{filter_view};
ghost use Rattle.x5_index.specs.Index.{posting_below, term_below, terms_in, terms_of, is_there, IsEntryAt, IsPut, IsDropped};
ghost use Rattle.x5_index.specs.Lookup.{IsLookUp};
ghost use Rattle.x5_index.specs.Places.{AreAdded, AreTaken};

use crate::gathered::Gathered;
use crate::lookup::{NodeList, asserted, assertion_of};
use crate::posting::{Posting, Term, find, has_term};
use crate::room::Room;
use std::alloc::Global;
use std::marker::Model;
use x5_match::{Entry, Filter, Stored};
use x5_syntax::{NoMemory, Normal, TypeId};

/// The nodes that are there, each with the values of its entry. A node is a number that its owner gives; an entry is known by
/// its types and normal forms.
#[derive(Drop)]
pub struct Postings {
    postings: Vec<Posting>,
}

impl Model for Postings {
    ghost use Rattle.std.specs.Prelude.{◌-◌, vec_len, vec_capacity, IsTrue};
    ghost use Rattle.x5_model.specs.Words.{ascending};
    ghost use Rattle.x5_index.specs.Index as index;

    ghost Value = { index.Index };

    ghost view = { λ p. record { postings = p.postings.items; spare = vec_capacity p.postings - vec_len p.postings } };

    ghost invariant = { λ p. IsTrue (ascending index.posting_below p.postings.items) };
}

/// Puts a posting at its place, unless it's there. No memory: there is room.
fn put_posting(postings: &mut Vec<Posting>, posting: Posting)
    requires in_order { IsTrue (ascending posting_below postings.old.items) }
    requires room { vec_len postings.old < vec_capacity postings.old }
    ensures added { AreAdded postings.old.items posting.node (posting.term ∷ []) postings.new.items }
    ensures most { vec_len postings.new ≤ vec_len postings.old + 1 }
    ensures absent { ¬ In posting postings.old.items → vec_len postings.new ≡ vec_len postings.old + 1 }
    ensures capacity { vec_capacity postings.new ≡ vec_capacity postings.old }
{
    let Term { kind, normal } = &posting.term;
    if let Err(place) = find(postings, *kind, normal, posting.node) {
        if postings.insert(place, posting).is_err() {
            unreachable!();
        }
    }
}

/// Puts a posting of the node for each term, unless it's there. No memory: there is room.
fn put_terms(postings: &mut Vec<Posting>, node: usize, terms: Vec<Term>)
    requires in_order { IsTrue (ascending posting_below postings.old.items) }
    requires once { Once terms.items }
    requires room { vec_len postings.old + length terms.items ≤ vec_capacity postings.old }
    ensures added { AreAdded postings.old.items node terms.items postings.new.items }
    ensures most { vec_len postings.new ≤ vec_len postings.old + length terms.items }
    ensures absent { is_there postings.old.items node ≡ false → vec_len postings.new ≡ vec_len postings.old + length terms.items }
    ensures capacity { vec_capacity postings.new ≡ vec_capacity postings.old }
{
    for term in terms {
        put_posting(postings, Posting { term, node });
    }
}

/// Takes a posting away, if it's there and its term isn't kept. No memory.
fn take_posting(
    postings: &mut Vec<Posting>,
    node: usize,
    kind: TypeId,
    normal: &Normal,
    kept: &[Term],
)
    requires in_order { IsTrue (ascending posting_below postings.old.items) }
    requires kept { IsTrue (ascending term_below kept.now) }
    ensures taken { AreTaken postings.old.items node ((kind, normal.now) ∷ []) kept.now postings.new.items }
    ensures len { vec_len postings.new ≤ vec_len postings.old }
    ensures capacity { vec_capacity postings.new ≡ vec_capacity postings.old }
{
    if has_term(kept, kind, normal) {
        return;
    }
    if let Ok(place) = find(postings, kind, normal, node) {
        postings.remove(place);
    }
}

/// Takes the node's postings of an attribute's values away, but for the kept terms. No memory.
fn take_terms(postings: &mut Vec<Posting>, node: usize, attribute: &Stored, kept: &[Term])
    requires in_order { IsTrue (ascending posting_below postings.old.items) }
    requires kept { IsTrue (ascending term_below kept.now) }
    ensures taken { AreTaken postings.old.items node (terms_in attribute.now) kept.now postings.new.items }
    ensures len { vec_len postings.new ≤ vec_len postings.old }
    ensures capacity { vec_capacity postings.new ≡ vec_capacity postings.old }
{
    for value in attribute.values.as_slice() {
        take_posting(postings, node, attribute.kind, &value.normal, kept);
    }
}

/// Takes the node's postings of an entry's values away, but for the kept terms. No memory.
fn take_entry(postings: &mut Vec<Posting>, node: usize, entry: &Entry, kept: &[Term])
    requires in_order { IsTrue (ascending posting_below postings.old.items) }
    requires kept { IsTrue (ascending term_below kept.now) }
    ensures taken { AreTaken postings.old.items node (terms_of entry.now) kept.now postings.new.items }
    ensures len { vec_len postings.new ≤ vec_len postings.old }
    ensures capacity { vec_capacity postings.new ≡ vec_capacity postings.old }
{
    for attribute in entry.attributes() {
        take_terms(postings, node, attribute, kept);
    }
}

impl Postings {
    /// No node. No memory.
    pub fn new(alloc: Global) -> Postings
        ensures { result.postings ≡ [] }
    {
        Postings {
            postings: Vec::new(alloc),
        }
    }

    /// Postings in their order. No memory.
    pub(crate) fn of(postings: Vec<Posting>) -> Postings
        requires { IsTrue (ascending posting_below postings.items) }
        ensures { result.postings ≡ postings.items }
    {
        Postings { postings }
    }

    /// The same nodes with the same values, to which others can be put that come in no order. No memory.
    pub fn gathered(self) -> Gathered
        ensures { result.postings ≡ self.postings }
    {
        let Postings { postings } = self;
        Gathered::of(postings)
    }

    /// How many values can be put without memory. No memory.
    pub fn spare(&self) -> usize
        ensures { result ≡ self.now.spare }
    {
        self.postings.capacity() - self.postings.len()
    }

    /// Makes room for so many values. After want of memory all is as it was.
    pub fn reserve(&mut self, count: usize) -> Result<(), NoMemory>
        ensures postings { self.new.postings ≡ self.old.postings }
        ensures spare { self.old.spare ≤ self.new.spare }
        ensures ok { OnOk result (count ≤ self.new.spare) }
        ensures err { OnErr result (self.new ≡ self.old) }
    {
        self.postings.reserve(count)?;
        Ok(())
    }

    /// Puts a node that isn't there, with the entry whose values the room has. No memory: it needs `spare`, which falls by
    /// their number.
    pub fn put(&mut self, node: usize, room: Room)
        requires absent { is_there self.old.postings node ≡ false }
        requires spare { length room ≤ self.old.spare }
        ensures put { (e : entry) → IsTrue (is_ordered e) → room ≡ terms_of e → IsPut self.old.postings node e self.new.postings }
        ensures spare { self.new.spare + length room ≡ self.old.spare }
    {
        put_terms(&mut self.postings, node, room.into_terms());
    }

    /// Adds a node that isn't there, with its entry. After want of memory all is as it was.
    pub fn add(&mut self, node: usize, entry: &Entry) -> Result<(), NoMemory>
        requires { is_there self.old.postings node ≡ false }
        ensures ok { OnOk result (IsPut self.old.postings node entry.now self.new.postings) }
        ensures spare { OnOk result (self.old.spare ≤ self.new.spare + length (terms_of entry.now)) }
        ensures err { OnErr result (self.new ≡ self.old) }
    {
        let room = Room::new(*self.postings.allocator(), entry)?;
        self.reserve(room.len())?;
        self.put(node, room);
        Ok(())
    }

    /// Drops a node that is there with this entry. No memory; `spare` doesn't fall.
    pub fn drop_node(&mut self, node: usize, entry: &Entry)
        requires { IsEntryAt self.old.postings node entry.now }
        ensures dropped { IsDropped self.old.postings node self.new.postings }
        ensures spare { self.old.spare ≤ self.new.spare }
    {
        take_entry(&mut self.postings, node, entry, &[]);
    }

    /// Gives a node that is there with one entry another, whose values the room has: as dropping and putting it does, but the
    /// postings of values that both have stay where they are. No memory: it needs `spare`, which falls by the number of the
    /// room's values at most.
    pub fn change(&mut self, node: usize, before: &Entry, room: Room)
        requires before { IsEntryAt self.old.postings node before.now }
        requires spare { length room ≤ self.old.spare }
        ensures put { (e : entry) → IsTrue (is_ordered e) → room ≡ terms_of e → IsPut self.old.postings node e self.new.postings }
        ensures spare { self.old.spare ≤ self.new.spare + length room }
    {
        take_entry(&mut self.postings, node, before, room.as_slice());
        put_terms(&mut self.postings, node, room.into_terms());
    }

    /// The nodes whose entries make the filter's equality item on a known type true, or that of the first such member of an
    /// `and` (X.511, section 7.8): None exactly where the filter has no such item. All entries that the filter selects are
    /// among them.
    pub fn candidates(&self, alloc: Global, filter: &Filter) -> Result<Option<NodeList>, NoMemory>
        ensures { IfOk result (λ found. IsLookUp self.now.postings (filter_view filter.now) found) }
    {
        match assertion_of(filter) {
            Some(assertion) => Ok(Some(asserted(alloc, &self.postings, assertion)?)),
            None => Ok(None),
        }
    }
}
