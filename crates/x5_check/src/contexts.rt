//! The contexts of all agents, in file order.

ghost use Rattle.std.specs.Prelude.{◌≡◌, ◌++◌, ◌≤◌, length, map, IfOk};
ghost use Rattle.x5_model.specs.Keys.{parent};
ghost use Rattle.x5_model.specs.Values.{key_of};
ghost use Rattle.x5_model_tree.specs.Masters.{mastered, pin_of};
ghost use Rattle.x5_model_tree.specs.Consistent.{in_nssr};
ghost use Rattle.x5_ops.specs.KnowledgeViews.{context_view, nssr_view};
ghost use Rattle.x5_know.specs.WorldView.{world_view};
ghost use Rattle.x5_check.specs.Rows.{numbers_of};
ghost use Rattle.x5_check.specs.Numbers.{member_rows, members_of, of_agent};

use crate::table::{Row, Table};
use std::alloc::Global;
use std::marker::Model;
use x5_know::Described;
use x5_memory::NoMemory;
use x5_names::{Key, Name};
use x5_ops::{AgentId, ContextSpec, Named, Nssr};

/// A context with the agent that masters it, the key above its prefix, and the agents of its NSSRs by the keys of their entries.
#[derive(Drop)]
pub(crate) struct Held<'a> {
    master: AgentId,
    context: &'a ContextSpec,
    above: Key,
    members: Table<'a>,
}

impl<'a> Model for Held<'a> {
    ghost use Rattle.std.specs.Prelude.{◌≡◌};
    ghost use Rattle.x5_model.specs.Keys.{parent};
    ghost use Rattle.x5_model.specs.Values.{key_of};
    ghost use Rattle.x5_model_tree.specs.Masters as masters;
    ghost use Rattle.x5_ops.specs.KnowledgeViews.{context_view};
    ghost use Rattle.x5_check.specs.Rows.{numbers_of};
    ghost use Rattle.x5_check.specs.Numbers.{members_of};

    ghost Value = { masters.Mastered };

    ghost view = { λ h. record { master = h.master; context = context_view h.context.now } };

    ghost invariant = { λ h. (h.above ≡ parent (key_of h.context.now.prefix)) × (numbers_of h.members ≡ members_of (context_view h.context.now)) };
}

/// All these rows, and one for each agent of the NSSR.
fn with_members<'a>(rows: Vec<Row<'a>>, nssr: &'a Nssr) -> Result<Vec<Row<'a>>, NoMemory>
    ensures { IfOk result (λ v. v.items ≡ rows.entry.items ++ member_rows (nssr_view nssr.now)) }
{
    let mut rows = rows;
    for agent in nssr.agents.as_slice() {
        rows.push(Row::new(nssr.at.key(), agent.0 as usize))?;
    }
    Ok(rows)
}

/// The agents of a context's NSSRs by the keys of their entries.
fn members_in<'a>(alloc: Global, context: &'a ContextSpec) -> Result<Table<'a>, NoMemory>
    ensures { IfOk result (λ table. numbers_of table ≡ members_of (context_view context.now)) }
{
    let mut rows = Vec::new(alloc);
    for nssr in context.nssr.as_slice() {
        rows = with_members(rows, nssr)?;
    }
    Table::sorted(rows)
}

impl<'a> Held<'a> {
    /// The context of the agent.
    fn new(alloc: Global, master: AgentId, context: &'a ContextSpec) -> Result<Held<'a>, NoMemory>
        ensures { IfOk result (λ h. h ≡ record { master = master; context = context_view context.now }) }
    {
        let key = context.prefix.key();
        let above = key.first(alloc, key.len().saturating_sub(1))?;
        let members = members_in(alloc, context)?;
        Ok(Held {
            master,
            context,
            above,
            members,
        })
    }

    /// The agent that masters it. No memory.
    pub(crate) fn master(&self) -> AgentId
        ensures { result ≡ self.now.master }
    {
        self.master
    }

    /// Its prefix. No memory.
    pub(crate) fn prefix(&self) -> &Name
        ensures { result.now ≡ self.now.context.prefix }
    {
        &self.context.prefix
    }

    /// The key of its prefix. No memory.
    pub(crate) fn pin(&self) -> &Key
        ensures { result.now ≡ pin_of self.now }
    {
        self.context.prefix.key()
    }

    /// The key of what stands just above its prefix; the root's is the root. No memory.
    pub(crate) fn above(&self) -> &Key
        ensures { result.now ≡ parent (pin_of self.now) }
    {
        &self.above
    }

    /// Its entries. No memory.
    pub(crate) fn entries(&self) -> &[Named]
        ensures { result.now ≡ self.now.context.entries }
    {
        self.context.entries.as_slice()
    }

    /// Its NSSRs. No memory.
    pub(crate) fn nssrs(&self) -> &[Nssr]
        ensures { map nssr_view result.now ≡ self.now.context.nssrs }
    {
        self.context.nssr.as_slice()
    }

    /// Whether the agent stands in its NSSR at the entry of this key. No memory.
    pub(crate) fn is_member(&self, at: &Key, agent: AgentId) -> bool
        ensures { result ≡ in_nssr self.now.context at.now agent }
    {
        self.members.has(at, agent.0 as usize)
    }
}

/// All these, and the contexts of the agent.
fn with_contexts<'a>(
    alloc: Global,
    held: Vec<Held<'a>>,
    master: AgentId,
    contexts: &'a [ContextSpec],
) -> Result<Vec<Held<'a>>, NoMemory>
    ensures { IfOk result (λ v. v.items ≡ held.entry.items ++ of_agent master (map context_view contexts.now)) }
{
    let mut held = held;
    for context in contexts {
        held.push(Held::new(alloc, master, context)?)?;
    }
    Ok(held)
}

/// The contexts of all agents, in file order.
pub(crate) fn contexts_of<'a>(
    alloc: Global,
    world: &'a Described,
) -> Result<Vec<Held<'a>>, NoMemory>
    requires { length world.now.agents ≤ 256 }
    ensures { IfOk result (λ v. v.items ≡ mastered (world_view world.now)) }
{
    let mut held = Vec::new(alloc);
    for (place, agent) in world.agents.as_slice().iter().enumerate() {
        held = with_contexts(
            alloc,
            held,
            AgentId(place as u8),
            agent.spec.contexts.as_slice(),
        )?;
    }
    Ok(held)
}
