//! The entries of all contexts of a world, in the order of their keys.

ghost use Rattle.std.specs.Prelude.{◌≡◌, ◌++◌, map, IfOk};
ghost use Rattle.x5_ops.specs.KnowledgeViews.{context_view};
ghost use Rattle.x5_know.specs.WorldView.{world_view, described_agent_view};
ghost use Rattle.x5_model_tree.specs.Masters.{all_entries};
ghost use Rattle.x5_model_tree.specs.Tree.{sorted_entries};
ghost use Rattle.x5_one.specs.One.{entries_by, entries_of};

use std::alloc::Global;
use x5_know::{ContextSpec, Described, DescribedAgent};
use x5_memory::NoMemory;
use x5_ops::Named;

/// All these, and copies of the others.
fn with_copies(entries: Vec<Named>, others: &[Named]) -> Result<Vec<Named>, NoMemory>
    ensures { IfOk result (λ v. v.items ≡ entries.items ++ others.now) }
{
    let mut entries = entries;
    for named in others {
        entries.push(named.clone()?)?;
    }
    Ok(entries)
}

/// All these, and the entries of the contexts.
fn with_entries(entries: Vec<Named>, contexts: &[ContextSpec]) -> Result<Vec<Named>, NoMemory>
    ensures { IfOk result (λ v. v.items ≡ entries.items ++ entries_by (map context_view contexts.now)) }
{
    let mut entries = entries;
    for context in contexts {
        entries = with_copies(entries, context.entries.as_slice())?;
    }
    Ok(entries)
}

/// The entries of the agents, in the order of the file.
fn gathered(alloc: Global, agents: &[DescribedAgent]) -> Result<Vec<Named>, NoMemory>
    ensures { IfOk result (λ v. v.items ≡ entries_of (map described_agent_view agents.now)) }
{
    let mut entries = Vec::new(alloc);
    for agent in agents {
        entries = with_entries(entries, agent.spec.contexts.as_slice())?;
    }
    Ok(entries)
}

/// The entries of all agents, in the order of their keys.
pub(crate) fn entries_in(alloc: Global, world: &Described) -> Result<Vec<Named>, NoMemory>
    ensures { IfOk result (λ v. v.items ≡ sorted_entries (all_entries (world_view world.now))) }
{
    let mut entries = gathered(alloc, world.agents.as_slice())?;
    entries.sort_by(|a, b| a.name.cmp_key(&b.name))?;
    Ok(entries)
}
