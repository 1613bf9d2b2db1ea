//! What each agent holds.

ghost use Rattle.std.specs.Prelude.{◌≡◌, ◌<◌, ◌==◌, ℕ, [], true, if◌then◌else◌, length, map, slice_get, IfOk, Some};
ghost use Rattle.std.specs.List.{filter, list_all};
ghost use Rattle.std.specs.Option.{is_none, option_map};
ghost use Rattle.x5_model_tree.specs.Described.{IsDescribed};
ghost use Rattle.x5_model_held.specs.Beginning.{described_holdings, holdings_described};
ghost use Rattle.x5_holdings.specs.State.{holdings_view};
ghost use Rattle.x5_know.specs.WorldView.{described_agent_view, world_view};
ghost use Rattle.x5_ops.specs.KnowledgeViews.{context_view, specific_view};
ghost use Rattle.x5_agents.specs.Growing.{is_whole};
ghost use Rattle.x5_agents.specs.Unnoted.{AllUnnoted, AreUnnoted};

use crate::contexts::own_of;
use crate::copies::copies_of;
use crate::references::{crosses_of, first_level};
use std::alloc::Global;
use x5_holdings::Holdings;
use x5_know::{Described, DescribedAgent};
use x5_memory::NoMemory;
use x5_ops::{AgentId, AgentSpec, Listed, SpecificList};

/// The references to contexts of the first level, where the agent is a first-level one; else none.
fn root_of(alloc: Global, agent: &AgentSpec) -> Result<SpecificList, NoMemory>
    ensures { IfOk result (λ ks. map specific_view ks ≡ (if is_none agent.now.superior then filter (λ k. length k.pin == 1) (map specific_view agent.now.specific) else [])) }
{
    match agent.superior {
        Some(_) => Ok(Listed::new(alloc)),
        None => first_level(alloc, agent.specific.as_slice()),
    }
}

/// What the agent of this place holds.
fn holdings_of(
    alloc: Global,
    world: &Described,
    me: AgentId,
    agent: &DescribedAgent,
) -> Result<Holdings, NoMemory>
    requires { list_all is_whole (map context_view agent.now.spec.contexts) ≡ true }
    ensures held { IfOk result (λ h. holdings_view h ≡ described_holdings (world_view world.now) me (described_agent_view agent.now)) }
    ensures unnoted { IfOk result (λ h. AreUnnoted h.own) }
{
    let spec = &agent.spec;
    let own = own_of(alloc, spec.contexts.as_slice(), spec.specific.as_slice())?;
    let copies = copies_of(alloc, me, world.agreements.as_slice())?;
    let root = root_of(alloc, spec)?;
    let cross = crosses_of(alloc, spec.cross.as_slice())?;
    Holdings::new(alloc, me, spec.superior, own, copies, root, cross)
}

/// What each agent of the world holds before the first line, in the order of the world's file, at moment 0.
pub fn agents_of(alloc: Global, world: &Described) -> Result<Vec<Holdings>, NoMemory>
    requires { IsDescribed (world_view world.now) }
    ensures count { IfOk result (λ v. length v.items ≡ length world.now.agents) }
    ensures each { IfOk result (λ v. (me : ℕ) → me < length world.now.agents → option_map holdings_view (slice_get v.items me) ≡ Some (holdings_described (world_view world.now) me)) }
    ensures unnoted { IfOk result (λ v. AllUnnoted v.items) }
{
    let mut all = Vec::new(alloc);
    for (place, agent) in world.agents.as_slice().iter().enumerate() {
        let me = AgentId(place as u8);
        all.push(holdings_of(alloc, world, me, agent)?)?;
    }
    Ok(all)
}
