//! Contexts to which many entries are added, and whose index is made when all of them are there.

ghost use Rattle.std.specs.Prelude.{◌≡◌, ◌<◌, ◌≤◌, IfOk, IfErr, OnOk, OnErr, IsTrue, length};
ghost use Rattle.x5_model.specs.Attributes.{is_ordered};
ghost use Rattle.x5_model.specs.Values.{key_of};
ghost use Rattle.x5_dse.specs.Changes.{Inserted, NotInserted};
ghost use Rattle.x5_index.specs.Index.{terms_of};
ghost use Rattle.x5_holdings.specs.State.{OnlyEntries};

use crate::held::Held;
use crate::log::ChangeLog;
use crate::pins::Pins;
use std::marker::Model;
use x5_dse::{DseFault, DseTree, NodeId};
use x5_index::{Gathered, Room};
use x5_match::Entry;
use x5_memory::NoMemory;
use x5_names::Name;
use x5_ops::{NssrList, SpecificList};

/// A naming context to which entries are added, and whose index isn't in order yet: that takes the time of one sort for all of
/// them (X.501, section 22).
#[derive(Drop)]
pub struct Filling {
    prefix: Name,
    tree: DseTree,
    postings: Gathered,
    log: ChangeLog,
    subordinate: SpecificList,
    nssrs: NssrList,
    below: Pins,
    wide: Pins,
}

impl Model for Filling {
    ghost use Rattle.x5_holdings.specs.State.{Kept};

    ghost Value = { Kept };

    ghost use Rattle.x5_holdings.specs.Inside as inside;

    ghost view = { inside.filling_view };

    ghost invariant = { inside.IsFilling };
}

impl Held {
    /// The context, to which many entries are to be added. No memory.
    pub fn filling(self) -> Filling
        ensures nodes { result.nodes ≡ self.nodes }
        ensures others { OnlyEntries self result }
    {
        Filling {
            prefix: self.prefix,
            tree: self.tree,
            postings: self.postings.gathered(),
            log: self.log,
            subordinate: self.subordinate,
            nssrs: self.nssrs,
            below: self.below,
            wide: self.wide,
        }
    }
}

impl Filling {
    /// Makes room for so many entries with so many values. After want of memory the context is as it was.
    pub fn reserve(&mut self, entries: usize, values: usize) -> Result<(), NoMemory>
        ensures nodes { self.new.nodes.nodes ≡ self.old.nodes.nodes }
        ensures postings { self.new.postings.postings ≡ self.old.postings.postings }
        ensures others { OnlyEntries self.old self.new }
        ensures entries { OnOk result (entries ≤ self.new.nodes.spare) }
        ensures values { OnOk result (values ≤ self.new.postings.spare) }
    {
        self.tree.reserve(entries)?;
        self.postings.reserve(values)?;
        Ok(())
    }

    /// Adds the entry of the name, whose values the room has, below the one just above it (X.511, section 11.1). No memory: it
    /// needs room for both.
    pub fn insert(&mut self, name: Name, entry: Entry, room: Room) -> Result<NodeId, DseFault>
        requires spare { 0 < self.old.nodes.spare }
        requires values { room ≡ terms_of entry }
        requires ordered { IsTrue (is_ordered entry) }
        requires posted { length room ≤ self.old.postings.spare }
        ensures ok { IfOk result (λ id. Inserted self.old.nodes name entry id self.new.nodes) }
        ensures fault { IfErr result (λ fault. NotInserted self.old.nodes.nodes (key_of name) fault) }
        ensures err { OnErr result (self.new ≡ self.old) }
        ensures others { OnlyEntries self.old self.new }
    {
        let node = self.tree.insert(name, entry)?;
        self.postings.put(node.0, room);
        Ok(node)
    }

    /// The context with its index. No memory.
    pub fn finish(self) -> Held
        ensures nodes { result.nodes ≡ self.nodes }
        ensures others { OnlyEntries self result }
    {
        Held {
            prefix: self.prefix,
            tree: self.tree,
            postings: self.postings.in_order(),
            log: self.log,
            subordinate: self.subordinate,
            nssrs: self.nssrs,
            below: self.below,
            wide: self.wide,
            listing: None,
        }
    }
}
