//! Agents as references name them (X.518, section 10.9): access points.
#![tactic(auto)]

ghost use Rattle.std.specs.Prelude.{◌≡◌, ◌<◌, ◌++◌, ◌∷◌, [], true, length, map, IfOk, OnOk};
ghost use Rattle.x5_model.specs.Words.{same_octets, distinct};
ghost use Rattle.x5_model_heard.specs.Told.{are_agents};
ghost use Rattle.x5_model_run.specs.Holdings.{usable_agents};
ghost use Rattle.x5_model_run.specs.Needs as needs;
ghost use Rattle.x5_ops.specs.ReferenceViews.{access_view};
ghost use Rattle.x5_ops.specs.RequestViews.{request_view};

use std::alloc::Global;
use x5_holdings::may_use_copies;
use x5_know::AgentNames;
use x5_memory::NoMemory;
use x5_ops::{Access, AccessList, AccessPoint, AgentId, AgentList, Listed, Request};

/// The agent as one that a reference names; `copy` says that it has a copy of the context, and isn't its master.
fn point(names: &AgentNames, agent: AgentId, copy: bool) -> Result<AccessPoint, NoMemory>
    requires there { agent < length names.now }
    requires apart { distinct same_octets names.now ≡ true }
    ensures { IfOk result (λ point. access_view names.now point ≡ agent) }
{
    Ok(AccessPoint {
        agent: names.name(agent).clone()?,
        copy,
    })
}

/// This agent alone, as the master of a context.
pub fn one(alloc: Global, names: &AgentNames, agent: AgentId) -> Result<AccessList, NoMemory>
    requires there { agent < length names.now }
    requires apart { distinct same_octets names.now ≡ true }
    ensures { IfOk result (λ points. map (access_view names.now) points ≡ agent ∷ []) }
{
    let mut points = Listed::new(alloc);
    points.push(point(names, agent, false)?)?;
    Ok(points)
}

/// Adds the agents in their order; `copy` says that they have copies of the context.
fn add_points(
    names: &AgentNames,
    agents: &[AgentId],
    copy: bool,
    points: &mut AccessList,
) -> Result<(), NoMemory>
    requires there { are_agents (length names.now) agents.now ≡ true }
    requires apart { distinct same_octets names.now ≡ true }
    ensures { OnOk result (map (access_view names.now) points.new ≡ map (access_view names.now) points.old ++ agents.now) }
{
    for agent in agents {
        points.push(point(names, *agent, copy)?)?;
    }
    Ok(())
}

/// The agents but `me`, in their order.
fn without(alloc: Global, me: AgentId, agents: &[AgentId]) -> Result<AgentList, NoMemory>
    ensures { IfOk result (λ kept. kept ≡ needs.others me agents.now) }
{
    let mut kept = Listed::new(alloc);
    for agent in agents {
        if agent.0 != me.0 {
            kept.push(*agent)?;
        }
    }
    Ok(kept)
}

/// The agents of an NSSR that agent `me` may ask: the others (X.518, section 20).
pub fn others(
    alloc: Global,
    names: &AgentNames,
    me: AgentId,
    agents: &[AgentId],
) -> Result<AccessList, NoMemory>
    requires there { are_agents (length names.now) (needs.others me agents.now) ≡ true }
    requires apart { distinct same_octets names.now ≡ true }
    ensures { IfOk result (λ points. map (access_view names.now) points ≡ needs.others me agents.now) }
{
    let kept = without(alloc, me, agents)?;
    let mut points = Listed::new(alloc);
    add_points(names, kept.as_slice(), false, &mut points)?;
    Ok(points)
}

/// The agents of an access that the request may ask, the master first; those with copies only where it may be answered from copies.
pub fn usable(
    alloc: Global,
    names: &AgentNames,
    request: &Request,
    access: &Access,
) -> Result<AccessList, NoMemory>
    requires there { are_agents (length names.now) (usable_agents (request_view request.now) access.now) ≡ true }
    requires apart { distinct same_octets names.now ≡ true }
    ensures { IfOk result (λ points. map (access_view names.now) points ≡ usable_agents (request_view request.now) access.now) }
{
    if !may_use_copies(request) {
        return one(alloc, names, access.master);
    }
    let mut points = one(alloc, names, access.master)?;
    add_points(names, access.shadows.as_slice(), true, &mut points)?;
    Ok(points)
}
