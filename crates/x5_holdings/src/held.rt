//! Contexts that an agent holds, with their entries and the knowledge that goes with them.

ghost use Rattle.std.specs.Prelude.{◌≡◌, ◌+◌, ◌<◌, ◌≤◌, ◌∷◌, [], IfOk, IfErr, IfSome, OnOk, OnErr, IsTrue, length, map, option_map};
ghost use Rattle.x5_model.specs.Attributes.{is_ordered};
ghost use Rattle.x5_model.specs.Values.{key_of};
ghost use Rattle.x5_model_run.specs.Holdings.{may_copy};
ghost use Rattle.x5_model_run.specs.Needs.{nssr_at};
ghost use Rattle.x5_ops.specs.KnowledgeViews.{nssr_view};
ghost use Rattle.x5_ops.specs.RequestViews.{request_view};
ghost use Rattle.x5_dse.specs.Linked.{entries_of};
ghost use Rattle.x5_dse.specs.Changes.{Inserted, NotInserted};
ghost use Rattle.x5_index.specs.Index.{terms_of};
ghost use Rattle.x5_holdings.specs.Rows.{AreRowsOf};
ghost use Rattle.x5_holdings.specs.State.{ArePosted, IsBrought, IsKept, OnlyEntries, brought_for, brought_references, stamp_of};

use crate::log::ChangeLog;
use crate::pins::{Pins, entries_of_nssrs, pins_of_references};
use std::alloc::Global;
use std::marker::Model;
use x5_dse::{DseFault, DseTree, NodeId};
use x5_index::{Postings, Room};
use x5_match::Entry;
use x5_memory::NoMemory;
use x5_names::{Name, Rdn};
use x5_ops::{AgentId, Moment, Named, NamedList, Nssr, NssrList, Request, Specific, SpecificList};

/// A naming context: its entries, among them its prefix's, an index of their values, the log of its changes, and the subordinate
/// references and NSSRs that belong to it (X.501, section 22). Its entries may stand in a list besides, in which refreshes send them and
/// bring them, until they change.
#[derive(Drop)]
pub struct Held {
    pub(crate) prefix: Name,
    pub(crate) tree: DseTree,
    pub(crate) postings: Postings,
    pub(crate) log: ChangeLog,
    pub(crate) subordinate: SpecificList,
    pub(crate) nssrs: NssrList,
    pub(crate) below: Pins,
    pub(crate) wide: Pins,
    pub(crate) listing: Option<NamedList>,
}

impl Model for Held {
    ghost use Rattle.x5_holdings.specs.State.{Kept};

    ghost Value = { Kept };

    ghost use Rattle.x5_holdings.specs.Inside as inside;

    ghost view = { inside.kept_view };

    ghost invariant = { inside.IsHeld };
}

/// The tree of the prefix's entry alone, and its index.
fn rooted(alloc: Global, prefix: &Name, entry: Entry) -> Result<(DseTree, Postings), NoMemory>
    ensures entries { IfOk result (λ made. entries_of made.0.nodes ≡ record { name = prefix.now; entry = entry } ∷ []) }
    ensures posted { IfOk result (λ made. ArePosted made.1.postings made.0.nodes) }
{
    let tree = DseTree::new(alloc, prefix.clone()?, entry)?;
    let top = tree.top();
    let mut postings = Postings::new(alloc);
    postings.add(top.0, tree.entry(top))?;
    Ok((tree, postings))
}

/// The same, the pins of subordinate references, and the entries at which NSSRs stand.
fn begun(
    alloc: Global,
    prefix: &Name,
    entry: Entry,
    subordinate: &[Specific],
    nssrs: &[Nssr],
) -> Result<(DseTree, Postings, Pins, Pins), NoMemory>
    ensures entries { IfOk result (λ made. entries_of made.0.nodes ≡ record { name = prefix.now; entry = entry } ∷ []) }
    ensures posted { IfOk result (λ made. ArePosted made.1.postings made.0.nodes) }
    ensures below { IfOk result (λ made. AreRowsOf made.2 (map (λ k. key_of k.pin) subordinate.now)) }
    ensures wide { IfOk result (λ made. AreRowsOf made.3 (map (λ n. key_of n.at) nssrs.now)) }
{
    let below = pins_of_references(alloc, subordinate)?;
    let wide = entries_of_nssrs(alloc, nssrs)?;
    let (tree, postings) = rooted(alloc, prefix, entry)?;
    Ok((tree, postings, below, wide))
}

impl Held {
    /// The context of the prefix's entry alone.
    pub fn new(
        alloc: Global,
        prefix: Name,
        entry: Entry,
        log: ChangeLog,
        subordinate: SpecificList,
        nssrs: NssrList,
    ) -> Result<Held, NoMemory>
        requires { 0 < length prefix }
        ensures prefix { IfOk result (λ held. held.prefix ≡ prefix) }
        ensures entries { IfOk result (λ held. entries_of held.nodes.nodes ≡ record { name = prefix; entry = entry } ∷ []) }
        ensures log { IfOk result (λ held. held.log ≡ log) }
        ensures subordinate { IfOk result (λ held. held.subordinate ≡ subordinate) }
        ensures nssrs { IfOk result (λ held. held.nssrs ≡ nssrs) }
    {
        let (tree, postings, below, wide) = begun(
            alloc,
            &prefix,
            entry,
            subordinate.as_slice(),
            nssrs.as_slice(),
        )?;
        Ok(Held {
            prefix,
            tree,
            postings,
            log,
            subordinate,
            nssrs,
            below,
            wide,
            listing: None,
        })
    }

    /// The context's prefix. No memory.
    pub fn prefix(&self) -> &Name
        ensures prefix { result.now ≡ self.now.prefix }
        ensures kept { IsKept self.now }
    {
        &self.prefix
    }

    /// The entries. No memory.
    pub fn tree(&self) -> &DseTree
        ensures nodes { result.now ≡ self.now.nodes }
        ensures kept { IsKept self.now }
    {
        &self.tree
    }

    /// The index of the entries' values, by the numbers of their nodes. No memory.
    pub fn postings(&self) -> &Postings
        ensures postings { result.now ≡ self.now.postings }
        ensures kept { IsKept self.now }
    {
        &self.postings
    }

    /// The changes of the entries. No memory.
    pub fn log(&self) -> &ChangeLog
        ensures { result.now ≡ self.now.log }
    {
        &self.log
    }

    /// The subordinate references that belong to the context, in their order. No memory.
    pub fn subordinate(&self) -> &[Specific]
        ensures { result.now ≡ self.now.subordinate }
    {
        self.subordinate.as_slice()
    }

    /// The context's NSSRs, in their order. No memory.
    pub fn nssrs(&self) -> &[Nssr]
        ensures { result.now ≡ self.now.nssrs }
    {
        self.nssrs.as_slice()
    }

    /// The pins of the subordinate references. No memory.
    pub(crate) fn below(&self) -> &Pins
        ensures { AreRowsOf result.now (map (λ k. key_of k.pin) self.now.subordinate) }
    {
        &self.below
    }

    /// The entries at which NSSRs stand. No memory.
    pub(crate) fn wide(&self) -> &Pins
        ensures { AreRowsOf result.now (map (λ n. key_of n.at) self.now.nssrs) }
    {
        &self.wide
    }

    /// The NSSR at the entry whose name has these RDNs, if there is one; the first of several. No memory.
    pub fn nssr_at(&self, rdns: &[Rdn]) -> Option<&Nssr>
        ensures { option_map (λ n. nssr_view n.now) result ≡ nssr_at (map nssr_view self.now.nssrs) (key_of rdns.now) }
    {
        let place = self.wide.first(rdns)?;
        self.nssrs.as_slice().get(place)
    }

    /// Keeps its entries with their index, and has this log and these references from now on, as after a refresh that brings the same
    /// entries (X.525, section 11.3). After want of memory the context is as it was.
    pub(crate) fn renew(
        &mut self,
        alloc: Global,
        log: ChangeLog,
        subordinate: SpecificList,
        nssrs: NssrList,
    ) -> Result<(), NoMemory>
        ensures ok { OnOk result (self.new ≡ record self.old { log = log; subordinate = subordinate; nssrs = nssrs }) }
        ensures err { OnErr result (self.new ≡ self.old) }
    {
        let below = pins_of_references(alloc, subordinate.as_slice())?;
        let wide = entries_of_nssrs(alloc, nssrs.as_slice())?;
        self.log = log;
        self.subordinate = subordinate;
        self.nssrs = nssrs;
        self.below = below;
        self.wide = wide;
        Ok(())
    }

    /// Makes room for so many entries with so many values. After want of memory the context is as it was.
    pub fn reserve(&mut self, entries: usize, values: usize) -> Result<(), NoMemory>
        ensures nodes { self.new.nodes.nodes ≡ self.old.nodes.nodes }
        ensures postings { self.new.postings.postings ≡ self.old.postings.postings }
        ensures others { OnlyEntries self.old self.new }
        ensures more_entries { self.old.nodes.spare ≤ self.new.nodes.spare }
        ensures more_values { self.old.postings.spare ≤ self.new.postings.spare }
        ensures entries { OnOk result (entries ≤ self.new.nodes.spare) }
        ensures values { OnOk result (values ≤ self.new.postings.spare) }
    {
        self.tree.reserve(entries)?;
        self.postings.reserve(values)?;
        Ok(())
    }

    /// Adds the entry of the name, whose values the room has, below the one just above it (X.511, section 11.1). No memory: it
    /// needs room for both.
    pub fn insert(&mut self, name: Name, entry: Entry, room: Room) -> Result<NodeId, DseFault>
        requires spare { 0 < self.old.nodes.spare }
        requires values { room ≡ terms_of entry }
        requires ordered { IsTrue (is_ordered entry) }
        requires posted { length room ≤ self.old.postings.spare }
        ensures ok { IfOk result (λ id. Inserted self.old.nodes name entry id self.new.nodes) }
        ensures fault { IfErr result (λ fault. NotInserted self.old.nodes.nodes (key_of name) fault) }
        ensures err { OnErr result (self.new ≡ self.old) }
        ensures others { OnlyEntries self.old self.new }
        ensures left { OnOk result (self.new.postings.spare + length room ≡ self.old.postings.spare) }
    {
        let node = self.tree.insert(name, entry)?;
        self.postings.put(node.0, room);
        self.listing = None;
        Ok(node)
    }

    /// The entries in the order of their names' keys, if they are listed. No memory.
    pub fn listing(&self) -> Option<&[Named]>
        ensures { IfSome result (λ l. l.now ≡ entries_of self.now.nodes.nodes) }
    {
        match &self.listing {
            Some(entries) => Some(entries.as_slice()),
            None => None,
        }
    }

    /// These are its entries in the order of their names' keys: they are listed from now on, until they change. No memory.
    pub fn list(&mut self, entries: NamedList)
        requires { entries ≡ entries_of self.old.nodes.nodes }
        ensures { self.new ≡ self.old }
    {
        self.listing = Some(entries);
    }
}

/// Whether a request may be answered from copies: it doesn't ask for none, and it's no update (X.511, section 7.5). No memory.
pub fn may_use_copies(request: &Request) -> bool
    ensures { result ≡ may_copy (request_view request.now) }
{
    !request.controls.nocopy && !request.body.is_update()
}

/// A copy of a context: the agent that supplies it, and what refreshes brought with their stamp; nothing before the first one
/// (X.525, section 9).
#[derive(Drop)]
pub struct Copied {
    prefix: Name,
    supplier: AgentId,
    pub(crate) refreshed: Option<(Held, Moment)>,
}

impl Model for Copied {
    ghost use Rattle.x5_holdings.specs.State.{CopyKept};

    ghost Value = { CopyKept };

    ghost use Rattle.x5_holdings.specs.Inside as inside;

    ghost view = { inside.copy_kept };

    ghost invariant = { inside.IsCopied };
}

impl Copied {
    /// A copy that wasn't refreshed yet. No memory.
    pub fn new(prefix: Name, supplier: AgentId) -> Copied
        ensures { result ≡ record { prefix = prefix; supplier = supplier; refreshed = None } }
    {
        Copied {
            prefix,
            supplier,
            refreshed: None,
        }
    }

    /// A copy that has what a refresh brought, with its stamp. No memory.
    pub fn refreshed(prefix: Name, supplier: AgentId, held: Held, stamp: Moment) -> Copied
        requires { key_of held.prefix ≡ key_of prefix }
        ensures { result ≡ record { prefix = prefix; supplier = supplier; refreshed = Some (held, stamp) } }
    {
        Copied {
            prefix,
            supplier,
            refreshed: Some((held, stamp)),
        }
    }

    /// The context's prefix. No memory.
    pub fn prefix(&self) -> &Name
        ensures prefix { result.now ≡ self.now.prefix }
        ensures brought { IsBrought self.now.prefix self.now.refreshed }
    {
        &self.prefix
    }

    /// The agent that supplies it. No memory.
    pub fn supplier(&self) -> AgentId
        ensures { result ≡ self.now.supplier }
    {
        self.supplier
    }

    /// What refreshes brought. No memory.
    pub fn held(&self) -> Option<&Held>
        ensures { option_map (λ held. held.now) result ≡ option_map (λ s. s.0) self.now.refreshed }
    {
        match &self.refreshed {
            Some((held, _)) => Some(held),
            None => None,
        }
    }

    /// What refreshes brought, where the request may be answered from copies. No memory.
    pub fn usable(&self, request: &Request) -> Option<&Held>
        ensures { option_map (λ held. held.now) result ≡ brought_for (request_view request.now) self.now }
    {
        if may_use_copies(request) {
            self.held()
        } else {
            None
        }
    }

    /// The stamp of the last refresh. No memory.
    pub fn stamp(&self) -> Option<Moment>
        ensures { result ≡ stamp_of self.now.refreshed }
    {
        match &self.refreshed {
            Some((_, stamp)) => Some(*stamp),
            None => None,
        }
    }

    /// The subordinate references that refreshes brought, in their order. No memory.
    pub fn subordinate(&self) -> &[Specific]
        ensures { result.now ≡ brought_references self.now.refreshed }
    {
        match &self.refreshed {
            Some((held, _)) => held.subordinate(),
            None => &[],
        }
    }
}
