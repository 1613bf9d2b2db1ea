//! The tree of an agent's entries of one naming context.

ghost use Rattle.std.specs.Prelude.{◌≡◌, ◌+◌, ◌<◌, ◌≤◌, ◌∷◌, [], true, false, length, IfOk, IfErr, OnOk, OnErr, IsTrue, Some, Err};
ghost use Rattle.std.specs.Option.{option_map};
ghost use Rattle.x5_model.specs.Keys.{is_prefix};
ghost use Rattle.x5_model.specs.Words.{first_of, in_option};
ghost use Rattle.x5_model.specs.Values.{key_of};
ghost use Rattle.x5_dse.specs.Linked.{IsLinked, IsLowest, AreNumbered, entries_of, id_of, entry_in, name_in, length_in, node_at, node_with, is_first, is_live, prefix_of, children_of, subtree_of, walk_from, IsAt, IsWithin};
ghost use Rattle.x5_dse.specs.Changes.{Inserted, NotInserted, Removed, NotRemoved, Renamed, NotRenamed, Replaced};

use crate::children::Children;
use crate::node::{Dse, DseFault, NodeId, Own};
use crate::place::{
    Reached, after, find_node, has_children, held_at, lowest_node, move_of, name_of, place_of_node,
    run_of, site_of, take_out,
};
use crate::walk::Walk;
use std::alloc::Global;
use std::marker::Model;
use x5_match::Entry;
use x5_memory::NoMemory;
use x5_names::{Name, Rdn};

/// The entries of one naming context, whose prefix is the first of them.
#[derive(Drop)]
pub struct DseTree {
    prefix: Name,
    slots: Vec<Option<Dse>>,
    order: Vec<NodeId>,
    free: Vec<NodeId>,
}

impl Model for DseTree {
    ghost use Rattle.x5_dse.specs.Linked.{Nodes};

    ghost Value = { Nodes };

    ghost use Rattle.x5_dse.specs.Inside as inside;

    ghost view = { inside.view };

    ghost invariant = { inside.Invariant };
}

impl DseTree {
    /// The tree of the prefix's entry alone.
    pub fn new(alloc: Global, prefix: Name, entry: Entry) -> Result<DseTree, NoMemory>
        ensures { IfOk result (λ tree. entries_of tree.nodes ≡ record { name = prefix; entry = entry } ∷ []) }
    {
        let mut slots = Vec::with_capacity(alloc, 1)?;
        let order = Vec::with_capacity(alloc, 1)?;
        let free = Vec::with_capacity(alloc, 1)?;
        slots.push(Some(Dse {
            parent: NodeId(0),
            depth: 0,
            own: Own::Last(Name::root(alloc)),
            entry,
        }))?;
        Ok(DseTree {
            prefix,
            slots,
            order,
            free,
        })
    }

    /// How many entries there are. No memory.
    pub fn len(&self) -> usize
        ensures same { result ≡ length self.now.nodes }
        ensures linked { IsLinked self.now.nodes }
    {
        self.order.len() + 1
    }

    /// How many entries can be added without memory. No memory.
    pub fn spare(&self) -> usize
        ensures { result ≡ self.now.spare }
    {
        self.free.len()
    }

    /// The node of the prefix. No memory.
    pub fn top(&self) -> NodeId
        ensures { option_map id_of (first_of self.now.nodes) ≡ Some result }
    {
        let _ = &self.order;
        NodeId(0)
    }

    /// The node of the name, whatever its spelling. No memory.
    pub fn find(&self, name: &Name) -> Option<NodeId>
        ensures { result ≡ option_map id_of (node_at self.now.nodes (key_of name.now)) }
    {
        find_node(&self.prefix, &self.slots, &self.order, name)
    }

    /// The lowest node on the way to the name. No memory.
    pub fn lowest(&self, name: &Name) -> NodeId
        requires { is_prefix (prefix_of self.now.nodes) (key_of name.now) ≡ true }
        ensures { IsLowest self.now.nodes (key_of name.now) result }
    {
        self.way(name).0
    }

    /// The same, and how many RDNs its name has. No memory.
    pub fn way(&self, name: &Name) -> (NodeId, usize)
        requires { is_prefix (prefix_of self.now.nodes) (key_of name.now) ≡ true }
        ensures lowest { IsLowest self.now.nodes (key_of name.now) result.0 }
        ensures long { option_map length_in (node_with self.now.nodes result.0) ≡ Some result.1 }
        ensures linked { IsLinked self.now.nodes }
    {
        lowest_node(&self.prefix, &self.slots, &self.order, name)
    }

    /// The entry of the node. No memory.
    pub fn entry(&self, node: NodeId) -> &Entry
        requires { IsTrue (is_live self.now.nodes node) }
        ensures entry { option_map entry_in (node_with self.now.nodes node) ≡ Some result.now }
        ensures linked { IsLinked self.now.nodes }
        ensures numbered { AreNumbered self.now.nodes }
    {
        &held_at(&self.slots, node).entry
    }

    /// The name of the node's entry: each RDN as it is spelled there (X.501, section 9).
    pub fn name(&self, alloc: Global, node: NodeId) -> Result<Name, NoMemory>
        requires { IsTrue (is_live self.now.nodes node) }
        ensures { IfOk result (λ name. option_map name_in (node_with self.now.nodes node) ≡ Some name) }
    {
        name_of(alloc, &self.prefix, &self.slots, &self.order, node)
    }

    /// The nodes just below the node, in the order of their keys. No memory.
    pub fn children(&self, node: NodeId) -> Children<'_>
        requires { IsTrue (is_live self.now.nodes node) }
        ensures { result ≡ children_of self.now.nodes node }
    {
        let at = run_of(&self.slots, &self.order, node);
        Children::new(&self.slots, &self.order, node, at)
    }

    /// The node and all nodes below it, in the order of their keys. No memory.
    pub fn walk(&self, node: NodeId) -> Walk<'_>
        requires { IsTrue (is_live self.now.nodes node) }
        ensures { result ≡ subtree_of self.now.nodes node }
    {
        let _ = &self.order;
        Walk {
            tree: self,
            from: node,
            at: Some(node),
            reached: Reached { place: 0, run: 0 },
        }
    }

    /// The next node of a walk from a node.
    pub(crate) fn after(&self, from: NodeId, node: NodeId, reached: &mut Reached) -> Option<NodeId>
        requires { IsWithin self.now.nodes from node }
        ensures rest { walk_from self.now.nodes from node ≡ node ∷ in_option [] (walk_from self.now.nodes from) result }
        ensures next { IsAt self.now.nodes from result }
    {
        after(&self.slots, &self.order, from, node, reached)
    }

    /// Makes room for one entry more. After want of memory the entries are as they were.
    fn grow(&mut self) -> Result<(), NoMemory>
        ensures nodes { self.new.nodes ≡ self.old.nodes }
        ensures ok { OnOk result (self.new.spare ≡ self.old.spare + 1) }
        ensures err { OnErr result (self.new.spare ≡ self.old.spare) }
    {
        let next = NodeId(self.slots.len());
        self.order.reserve(self.free.len() + 2)?;
        self.free.reserve(self.order.len() + 2)?;
        self.slots.push(None)?;
        if self.free.push(next).is_err() {
            unreachable!();
        }
        Ok(())
    }

    /// Widens the lists for so many nodes more at once, and not step by step. After want of memory the entries are as they were.
    fn widen(&mut self, more: usize) -> Result<(), NoMemory>
        ensures nodes { self.new.nodes ≡ self.old.nodes }
        ensures spare { self.new.spare ≡ self.old.spare }
    {
        let wanted = more.saturating_add(1);
        self.slots.reserve(more)?;
        self.order.reserve(self.free.len().saturating_add(wanted))?;
        self.free.reserve(self.order.len().saturating_add(wanted))?;
        Ok(())
    }

    /// Makes room for so many entries. After want of memory the entries are as they were.
    pub fn reserve(&mut self, count: usize) -> Result<(), NoMemory>
        ensures nodes { self.new.nodes ≡ self.old.nodes }
        ensures spare { self.old.spare ≤ self.new.spare }
        ensures ok { OnOk result (count ≤ self.new.spare) }
    {
        if count <= self.spare() {
            return Ok(());
        }
        self.widen(count - self.spare())?;
        while self.spare() < count {
            self.grow()?;
        }
        Ok(())
    }

    /// Adds the entry of the name, below the one just above it (X.511, section 11.1). No memory: it needs `spare`.
    pub fn insert(&mut self, name: Name, entry: Entry) -> Result<NodeId, DseFault>
        requires { 0 < self.old.spare }
        ensures ok { IfOk result (λ id. Inserted self.old name entry id self.new) }
        ensures prefix { prefix_of self.new.nodes ≡ prefix_of self.old.nodes }
        ensures fault { IfErr result (λ fault. NotInserted self.old.nodes (key_of name) fault) }
        ensures err { OnErr result (self.new ≡ self.old) }
    {
        let (parent, place) = site_of(&self.prefix, &self.slots, &self.order, &name)?;
        let depth = name.len() - self.prefix.len();
        let Some(node) = self.free.pop() else {
            unreachable!()
        };
        self.slots[node.0] = Some(Dse {
            parent,
            depth,
            own: Own::Last(name),
            entry,
        });
        if self.order.insert(place, node).is_err() {
            unreachable!();
        }
        Ok(node)
    }

    /// Replaces the node's entry, and answers the one that was there (X.511, section 11.3). No memory.
    pub fn replace(&mut self, node: NodeId, entry: Entry) -> Entry
        requires { IsTrue (is_live self.old.nodes node) }
        ensures replaced { Replaced self.old node entry result self.new }
        ensures prefix { prefix_of self.new.nodes ≡ prefix_of self.old.nodes }
    {
        let held = take_out(&mut self.slots, node);
        self.slots[node.0] = Some(Dse {
            parent: held.parent,
            depth: held.depth,
            own: held.own,
            entry,
        });
        held.entry
    }

    /// Removes the node's entry, which is a leaf other than the prefix's, and answers it (X.511, section 11.2). Its node is spare
    /// then. No memory.
    pub fn remove(&mut self, node: NodeId) -> Result<Entry, DseFault>
        requires live { IsTrue (is_live self.old.nodes node) }
        requires other { is_first self.old.nodes node ≡ false }
        ensures ok { IfOk result (λ entry. Removed self.old node entry self.new) }
        ensures prefix { prefix_of self.new.nodes ≡ prefix_of self.old.nodes }
        ensures fault { IfErr result (λ fault. NotRemoved self.old.nodes node fault) }
        ensures err { OnErr result (self.new ≡ self.old) }
    {
        if has_children(&self.slots, &self.order, node) {
            return Err(DseFault::NotLeaf);
        }
        let place = place_of_node(&self.slots, &self.order, node);
        self.order.remove(place);
        let held = take_out(&mut self.slots, node);
        if self.free.push(node).is_err() {
            unreachable!();
        }
        drop(held.own);
        Ok(held.entry)
    }

    /// Gives the node's entry another RDN and other attributes; what stands below it goes with it (X.511, section 11.4). The node is
    /// another than the prefix's. Answers the entry that was there. No memory.
    pub fn rename(&mut self, node: NodeId, rdn: Rdn, entry: Entry) -> Result<Entry, DseFault>
        requires live { IsTrue (is_live self.old.nodes node) }
        requires other { is_first self.old.nodes node ≡ false }
        ensures ok { OnOk result (Renamed self.old node rdn entry self.new) }
        ensures before { IfOk result (λ before. option_map entry_in (node_with self.old.nodes node) ≡ Some before) }
        ensures linked { IsLinked self.old.nodes }
        ensures numbered { AreNumbered self.old.nodes }
        ensures prefix { prefix_of self.new.nodes ≡ prefix_of self.old.nodes }
        ensures fault { IfErr result (λ fault. NotRenamed self.old.nodes node rdn fault) }
        ensures err { OnErr result (self.new ≡ self.old) }
    {
        let Some((from, to)) = move_of(&self.slots, &self.order, node, rdn.pairs()) else {
            drop(rdn);
            drop(entry);
            return Err(DseFault::Exists);
        };
        self.order.remove(from);
        if self.order.insert(to, node).is_err() {
            unreachable!();
        }
        let held = take_out(&mut self.slots, node);
        self.slots[node.0] = Some(Dse {
            parent: held.parent,
            depth: held.depth,
            own: Own::Renamed(rdn),
            entry,
        });
        drop(held.own);
        Ok(held.entry)
    }
}
