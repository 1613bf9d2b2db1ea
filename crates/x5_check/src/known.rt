//! What is looked up of a world: who masters, refers to and consumes what, by keys.

ghost use Rattle.std.specs.Prelude.{◌≡◌, ◌==◌, ◌++◌, map, slice_get, IfOk};
ghost use Rattle.x5_model.specs.Words.{some_and};
ghost use Rattle.x5_model_tree.specs.Masters.{numbered, mastered, masters, consumes};
ghost use Rattle.x5_model_tree.specs.Consistent.{masters_below};
ghost use Rattle.x5_model_tree.specs.Tree.{keys_of};
ghost use Rattle.x5_ops.specs.KnowledgeViews.{specific_view};
ghost use Rattle.x5_know.specs.WorldView.{world_view};
ghost use Rattle.x5_check.specs.Rows.{numbers_of, IsNext};
ghost use Rattle.x5_check.specs.Indexed.{indexed};
ghost use Rattle.x5_check.specs.Numbers.{keyed, pins_of, prefix_places, entry_places, masters_in, owners_in, masters_below_in, referrers_in, consumers_in};

use crate::agents::Numbered;
use crate::contexts::Held;
use crate::index::Index;
use crate::table::{Row, Table};
use std::alloc::Global;
use std::marker::Model;
use x5_know::{Agreement, Described};
use x5_memory::NoMemory;
use x5_names::Key;
use x5_ops::{AgentId, Named, Specific};

/// The prefixes of the contexts, with the contexts' places.
fn prefixes_by_place<'h>(alloc: Global, held: &'h [Held<'_>]) -> Result<Index<'h>, NoMemory>
    ensures { IfOk result (λ i. indexed i.firsts i.more ≡ prefix_places held.now) }
{
    let mut rows = Vec::new(alloc);
    for (place, context) in held.iter().enumerate() {
        rows.push(Row::new(context.pin(), place))?;
    }
    Index::of(alloc, rows.as_slice())
}

/// The prefixes of the contexts, with their masters.
fn prefixes_by_master<'h>(alloc: Global, held: &'h [Held<'_>]) -> Result<Table<'h>, NoMemory>
    ensures { IfOk result (λ t. numbers_of t ≡ masters_in held.now) }
{
    let mut rows = Vec::new(alloc);
    for context in held {
        rows.push(Row::new(context.pin(), context.master().0 as usize))?;
    }
    Table::sorted(rows)
}

/// What stands just above the contexts' prefixes, with the contexts' masters; the root has nothing above it.
fn parents_by_master<'h>(alloc: Global, held: &'h [Held<'_>]) -> Result<Table<'h>, NoMemory>
    ensures { IfOk result (λ t. numbers_of t ≡ masters_below_in held.now) }
{
    let mut rows = Vec::new(alloc);
    for context in held {
        if context.pin().len() != 0 {
            rows.push(Row::new(context.above(), context.master().0 as usize))?;
        }
    }
    Table::sorted(rows)
}

/// All these rows, and the entries' names with the number.
fn with_entries<'a>(
    rows: Vec<Row<'a>>,
    entries: &'a [Named],
    number: usize,
) -> Result<Vec<Row<'a>>, NoMemory>
    ensures { IfOk result (λ v. v.items ≡ rows.entry.items ++ keyed number (keys_of entries.now)) }
{
    let mut rows = rows;
    for entry in entries {
        rows.push(Row::new(entry.name.key(), number))?;
    }
    Ok(rows)
}

/// The entries of the contexts, with the contexts' places.
fn entries_by_place<'h>(alloc: Global, held: &'h [Held<'_>]) -> Result<Index<'h>, NoMemory>
    ensures { IfOk result (λ i. indexed i.firsts i.more ≡ entry_places held.now) }
{
    let mut rows = Vec::new(alloc);
    for (place, context) in held.iter().enumerate() {
        rows = with_entries(rows, context.entries(), place)?;
    }
    Index::of(alloc, rows.as_slice())
}

/// All these rows, and the names that the references give with the number.
fn with_references<'a>(
    rows: Vec<Row<'a>>,
    references: &'a [Specific],
    number: usize,
) -> Result<Vec<Row<'a>>, NoMemory>
    ensures { IfOk result (λ v. v.items ≡ rows.entry.items ++ keyed number (pins_of (map specific_view references.now))) }
{
    let mut rows = rows;
    for reference in references {
        rows.push(Row::new(reference.pin.key(), number))?;
    }
    Ok(rows)
}

/// The pins of the agents' subordinate references, with the agents.
fn references_by_agent<'g>(alloc: Global, agents: &'g [Numbered<'_>]) -> Result<Table<'g>, NoMemory>
    ensures { IfOk result (λ t. numbers_of t ≡ referrers_in agents.now) }
{
    let mut rows = Vec::new(alloc);
    for agent in agents {
        rows = with_references(rows, agent.subordinate(), agent.id().0 as usize)?;
    }
    Table::sorted(rows)
}

/// The contexts of the agreements, with their consumers.
fn contexts_by_consumer<'a>(
    alloc: Global,
    agreements: &'a [Agreement],
) -> Result<Table<'a>, NoMemory>
    ensures { IfOk result (λ t. numbers_of t ≡ consumers_in agreements.now) }
{
    let mut rows = Vec::new(alloc);
    for agreement in agreements {
        rows.push(Row::new(agreement.context.key(), agreement.consumer.0 as usize))?;
    }
    Table::sorted(rows)
}

/// The agents and contexts of a world, with tables in which things are found by their keys.
#[derive(Drop)]
pub(crate) struct Known<'w, 'g, 'h> {
    world: &'w Described,
    agents: &'g [Numbered<'w>],
    held: &'h [Held<'w>],
    prefixes: Index<'h>,
    entries: Index<'h>,
    masters: Table<'h>,
    above: Table<'h>,
    referrers: Table<'g>,
    consumers: Table<'w>,
}

impl<'w, 'g, 'h> Model for Known<'w, 'g, 'h> {
    ghost use Rattle.std.specs.Prelude.{◌≡◌};
    ghost use Rattle.x5_model_tree.specs.World as model;
    ghost use Rattle.x5_model_tree.specs.Masters.{numbered, mastered};
    ghost use Rattle.x5_know.specs.WorldView.{world_view};
    ghost use Rattle.x5_check.specs.Rows.{numbers_of};
    ghost use Rattle.x5_check.specs.Indexed.{indexed};
    ghost use Rattle.x5_check.specs.Numbers.{prefix_places, entry_places, masters_in, masters_below_in, referrers_in, consumers_in};

    ghost Value = { model.World };

    ghost view = { λ k. world_view k.world.now };

    ghost invariant = { λ k. (k.agents.now ≡ numbered (world_view k.world.now)) × (k.held.now ≡ mastered (world_view k.world.now)) × (indexed k.prefixes.firsts k.prefixes.more ≡ prefix_places (mastered (world_view k.world.now))) × (indexed k.entries.firsts k.entries.more ≡ entry_places (mastered (world_view k.world.now))) × (numbers_of k.masters ≡ masters_in (mastered (world_view k.world.now))) × (numbers_of k.above ≡ masters_below_in (mastered (world_view k.world.now))) × (numbers_of k.referrers ≡ referrers_in (numbered (world_view k.world.now))) × (numbers_of k.consumers ≡ consumers_in (world_view k.world.now).agreements) };
}

impl<'w, 'g, 'h> Known<'w, 'g, 'h> {
    /// The world with its tables.
    pub(crate) fn new(
        alloc: Global,
        world: &'w Described,
        agents: &'g [Numbered<'w>],
        held: &'h [Held<'w>],
    ) -> Result<Known<'w, 'g, 'h>, NoMemory>
        requires agents { agents.now ≡ numbered (world_view world.now) }
        requires held { held.now ≡ mastered (world_view world.now) }
        ensures { IfOk result (λ known. known ≡ world_view world.now) }
    {
        Ok(Known {
            world,
            agents,
            held,
            masters: prefixes_by_master(alloc, held)?,
            above: parents_by_master(alloc, held)?,
            referrers: references_by_agent(alloc, agents)?,
            consumers: contexts_by_consumer(alloc, world.agreements.as_slice())?,
            prefixes: prefixes_by_place(alloc, held)?,
            entries: entries_by_place(alloc, held)?,
        })
    }

    /// The agents with their places. No memory.
    pub(crate) fn agents(&self) -> &[Numbered<'w>]
        ensures { result.now ≡ numbered self.now }
    {
        self.agents
    }

    /// The contexts in file order. No memory.
    pub(crate) fn held(&self) -> &[Held<'w>]
        ensures { result.now ≡ mastered self.now }
    {
        self.held
    }

    /// The agreements. No memory.
    pub(crate) fn agreements(&self) -> &[Agreement]
        ensures { result.now ≡ self.now.agreements }
    {
        self.world.agreements.as_slice()
    }

    /// The place of the first context with this prefix, from this place on. No memory.
    pub(crate) fn next_with_prefix(&self, prefix: &Key, from: usize) -> Option<usize>
        ensures { IsNext (prefix_places (mastered self.now)) prefix.now from result }
    {
        self.prefixes.next(prefix, from)
    }

    /// The place of the first context with this entry, from this place on. No memory.
    pub(crate) fn next_with_entry(&self, entry: &Key, from: usize) -> Option<usize>
        ensures { IsNext (entry_places (mastered self.now)) entry.now from result }
    {
        self.entries.next(entry, from)
    }

    /// Whether the agent masters a context with this prefix. No memory.
    pub(crate) fn masters(&self, agent: AgentId, prefix: &Key) -> bool
        ensures { result ≡ masters self.now agent prefix.now }
    {
        self.masters.has(prefix, agent.0 as usize)
    }

    /// Whether the agent masters an entry of this key. No memory.
    pub(crate) fn owns(&self, agent: AgentId, entry: &Key) -> bool
        ensures { result ≡ owners_in (mastered self.now) entry.now agent }
    {
        let count = self.held().len();
        let mut from = 0;
        while let Some(place) = self.next_with_entry(entry, from) {
            prove!(place < count);
            if self.is_master(place, agent) {
                return true;
            }
            from = place + 1;
        }
        false
    }

    /// Whether the agent masters the context at the place. No memory.
    fn is_master(&self, place: usize, agent: AgentId) -> bool
        ensures { result ≡ some_and (λ m. m.master == agent) (slice_get (mastered self.now) place) }
    {
        match self.held.get(place) {
            Some(context) => context.master() == agent,
            None => false,
        }
    }

    /// Whether the agent masters a context just below. No memory.
    pub(crate) fn masters_below(&self, agent: AgentId, above: &Key) -> bool
        ensures { result ≡ masters_below self.now agent above.now }
    {
        self.above.has(above, agent.0 as usize)
    }

    /// Whether the agent has a subordinate reference to the pin. No memory.
    pub(crate) fn refers(&self, agent: AgentId, pin: &Key) -> bool
        ensures { result ≡ referrers_in (numbered self.now) pin.now agent }
    {
        self.referrers.has(pin, agent.0 as usize)
    }

    /// Whether the agent consumes the context. No memory.
    pub(crate) fn consumes(&self, agent: AgentId, context: &Key) -> bool
        ensures { result ≡ consumes self.now agent context.now }
    {
        self.consumers.has(context, agent.0 as usize)
    }
}
