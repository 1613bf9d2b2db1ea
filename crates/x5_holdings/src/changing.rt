//! Changes of a context's entries, without memory: the index of their values goes with them.

ghost use Rattle.std.specs.Prelude.{◌≡◌, ◌+◌, ◌<◌, ◌≤◌, false, length, IfOk, IfErr, OnOk, OnErr, IsTrue, Some};
ghost use Rattle.std.specs.Option.{option_map};
ghost use Rattle.x5_model.specs.Attributes.{is_ordered};
ghost use Rattle.x5_dse.specs.Linked.{entry_in, is_first, is_live, node_with};
ghost use Rattle.x5_dse.specs.Changes.{NotRemoved, NotRenamed, Removed, Renamed, Replaced};
ghost use Rattle.x5_index.specs.Index.{terms_of};
ghost use Rattle.x5_holdings.specs.Logs.{IsLogged};
ghost use Rattle.x5_holdings.specs.declared.changing.EntryChange.TheVariants.{Add, Remove, Rename};
ghost use Rattle.x5_holdings.specs.Making.{CanAdd, CanRemove, CanRename, HasRoom, HasRoomFor, IsChanged, IsLeft, IsMade, IsReady, IsRoomLeft, IsSame};
ghost use Rattle.x5_holdings.specs.State.{OnlyEntries, OnlyLog};

use crate::held::Held;
use crate::log::Logged;
use x5_dse::{DseFault, NodeId};
use x5_index::Room;
use x5_match::Entry;
use x5_memory::NoMemory;
use x5_names::{Name, Rdn};

/// A change of a context's entries, made ready: the entry that comes has its values in the room (X.511, section 11).
#[derive(Drop)]
pub enum EntryChange {
    Add {
        name: Name,
        entry: Entry,
        room: Room,
    },
    Remove {
        node: NodeId,
    },
    Replace {
        node: NodeId,
        entry: Entry,
        room: Room,
    },
    Rename {
        node: NodeId,
        rdn: Rdn,
        entry: Entry,
        room: Room,
    },
}

impl Held {
    /// Removes the node's entry, which is a leaf other than the prefix's, and answers it (X.511, section 11.2). No memory.
    pub fn remove(&mut self, node: NodeId) -> Result<Entry, DseFault>
        requires live { IsTrue (is_live self.old.nodes.nodes node) }
        requires other { is_first self.old.nodes.nodes node ≡ false }
        ensures ok { IfOk result (λ entry. Removed self.old.nodes node entry self.new.nodes) }
        ensures fault { IfErr result (λ fault. NotRemoved self.old.nodes.nodes node fault) }
        ensures err { OnErr result (self.new ≡ self.old) }
        ensures others { OnlyEntries self.old self.new }
        ensures values { self.old.postings.spare ≤ self.new.postings.spare }
    {
        let entry = self.tree.remove(node)?;
        self.postings.drop_node(node.0, &entry);
        self.listing = None;
        Ok(entry)
    }

    /// Replaces the node's entry by one whose values the room has, and answers the one that was there (X.511, section 11.3). No
    /// memory: it needs room for the values.
    pub fn replace(&mut self, node: NodeId, entry: Entry, room: Room) -> Entry
        requires live { IsTrue (is_live self.old.nodes.nodes node) }
        requires values { room ≡ terms_of entry }
        requires ordered { IsTrue (is_ordered entry) }
        requires posted { length room ≤ self.old.postings.spare }
        ensures replaced { Replaced self.old.nodes node entry result self.new.nodes }
        ensures others { OnlyEntries self.old self.new }
        ensures left { self.old.postings.spare ≤ self.new.postings.spare + length room }
    {
        let before = self.tree.replace(node, entry);
        self.postings.change(node.0, &before, room);
        self.listing = None;
        before
    }

    /// Gives the node's entry another RDN and other attributes, whose values the room has; what stands below it goes with it, and
    /// the node is another than the prefix's. Answers the entry that was there (X.511, section 11.4). No memory: it needs room
    /// for the values.
    pub fn rename(
        &mut self,
        node: NodeId,
        rdn: Rdn,
        entry: Entry,
        room: Room,
    ) -> Result<Entry, DseFault>
        requires live { IsTrue (is_live self.old.nodes.nodes node) }
        requires other { is_first self.old.nodes.nodes node ≡ false }
        requires values { room ≡ terms_of entry }
        requires ordered { IsTrue (is_ordered entry) }
        requires posted { length room ≤ self.old.postings.spare }
        ensures ok { OnOk result (Renamed self.old.nodes node rdn entry self.new.nodes) }
        ensures before { IfOk result (λ before. option_map entry_in (node_with self.old.nodes.nodes node) ≡ Some before) }
        ensures fault { IfErr result (λ fault. NotRenamed self.old.nodes.nodes node rdn fault) }
        ensures err { OnErr result (self.new ≡ self.old) }
        ensures others { OnlyEntries self.old self.new }
        ensures left { self.old.postings.spare ≤ self.new.postings.spare + length room }
    {
        let before = self.tree.rename(node, rdn, entry)?;
        self.postings.change(node.0, &before, room);
        self.listing = None;
        Ok(before)
    }

    /// Adds an entry that can be added. No memory.
    fn add_ready(&mut self, name: Name, entry: Entry, room: Room)
        requires { CanAdd self.old name entry room }
        ensures made { IsMade self.old (Add name entry room) self.new }
        ensures others { OnlyEntries self.old self.new }
        ensures left { IsRoomLeft self.old (Add name entry room) self.new }
    {
        match self.insert(name, entry, room) {
            Ok(_) => {}
            Err(_) => unreachable!(),
        }
    }

    /// Removes an entry that can be removed. No memory.
    fn remove_ready(&mut self, node: NodeId)
        requires { CanRemove self.old node }
        ensures made { IsMade self.old (Remove node) self.new }
        ensures others { OnlyEntries self.old self.new }
        ensures left { IsRoomLeft self.old (Remove node) self.new }
    {
        match self.remove(node) {
            Ok(_) => {}
            Err(_) => unreachable!(),
        }
    }

    /// Renames an entry that can be renamed. No memory.
    fn rename_ready(&mut self, node: NodeId, rdn: Rdn, entry: Entry, room: Room)
        requires { CanRename self.old node rdn entry room }
        ensures made { IsMade self.old (Rename node rdn entry room) self.new }
        ensures others { OnlyEntries self.old self.new }
        ensures left { IsRoomLeft self.old (Rename node rdn entry room) self.new }
    {
        match self.rename(node, rdn, entry, room) {
            Ok(_) => {}
            Err(_) => unreachable!(),
        }
    }

    /// Makes a change that is ready. No memory.
    fn make(&mut self, change: EntryChange)
        requires { IsReady self.old change }
        ensures made { IsMade self.old change self.new }
        ensures others { OnlyEntries self.old self.new }
        ensures left { IsRoomLeft self.old change self.new }
    {
        match change {
            EntryChange::Add { name, entry, room } => self.add_ready(name, entry, room),
            EntryChange::Remove { node } => self.remove_ready(node),
            EntryChange::Replace { node, entry, room } => {
                self.replace(node, entry, room);
            }
            EntryChange::Rename {
                node,
                rdn,
                entry,
                room,
            } => self.rename_ready(node, rdn, entry, room),
        }
    }

    /// Notes a change in the log. No memory.
    fn note(&mut self, logged: Logged)
        requires { 0 < self.old.log.spare }
        ensures noted { IsLogged self.old.log logged self.new.log }
        ensures others { OnlyLog self.old self.new }
        ensures left { self.old.log.spare ≤ self.new.log.spare + 1 }
    {
        self.log.note(logged);
    }

    /// Makes a change that is ready, and notes it in the log (X.511, section 11; X.525, section 9). No memory.
    pub fn change(&mut self, change: EntryChange, logged: Logged)
        requires ready { IsReady self.old change }
        requires room { 0 < self.old.log.spare }
        ensures changed { IsChanged self.old change logged self.new }
        ensures left { IsLeft self.old change self.new }
    {
        self.make(change);
        self.note(logged);
    }

    /// Makes room for so many entries with so many values, and for a change in the log. After want of memory the context is as it
    /// was.
    pub fn make_room(&mut self, entries: usize, values: usize) -> Result<(), NoMemory>
        ensures same { IsSame self.old self.new }
        ensures ok { OnOk result (HasRoom self.new entries values) }
    {
        self.reserve(entries, values)?;
        self.log.reserve(1)?;
        Ok(())
    }

    /// Makes room for so many entries with so many values, and for so many changes in the log. After want of memory the context is
    /// as it was.
    pub(crate) fn make_room_for(
        &mut self,
        entries: usize,
        values: usize,
        changes: usize,
    ) -> Result<(), NoMemory>
        ensures same { IsSame self.old self.new }
        ensures ok { OnOk result (HasRoomFor self.new entries values changes) }
    {
        self.reserve(entries, values)?;
        self.log.reserve(changes)?;
        Ok(())
    }
}
