//! Condition 8: each first-level agent masters each pin of one RDN or has a subordinate reference to it.

ghost use Rattle.std.specs.Prelude.{◌≡◌, Some, ◌||◌, ◌&&◌, ◌==◌, length};
ghost use Rattle.std.specs.List.{flat_map};
ghost use Rattle.x5_model_tree.specs.Masters.{mastered, masters, agent_at, is_first_level};
ghost use Rattle.x5_model_tree.specs.Consistent.{breaches_8, unknown_top, refers_to};
ghost use Rattle.x5_check.specs.Views.{Tells};

use crate::agents::Numbered;
use crate::contexts::Held;
use crate::inconsistency::{Inconsistency, Shown};
use crate::known::Known;
use x5_memory::NoMemory;
use x5_names::Key;

/// Whether the agent masters the pin or has a subordinate reference to it. No memory.
pub(crate) fn masters_or_refers(known: &Known<'_, '_, '_>, agent: &Numbered<'_>, pin: &Key) -> bool
    requires { agent_at known.now agent.now.0 ≡ Some agent.now.1 }
    ensures { result ≡ (masters known.now agent.now.0 pin.now || refers_to agent.now.1 pin.now) }
{
    known.masters(agent.id(), pin) || known.refers(agent.id(), pin)
}

/// Whether the agent is first-level, and the pin of one RDN. No memory.
pub(crate) fn is_at_top(agent: &Numbered<'_>, pin: &Key) -> bool
    ensures { result ≡ (is_first_level agent.now.1 && (length pin.now == 1)) }
{
    agent.superior().is_none() && pin.len() == 1
}

/// What is told of the agent and the context.
fn unknown_top_of(
    known: &Known<'_, '_, '_>,
    agent: &Numbered<'_>,
    context: &Held<'_>,
) -> Result<Option<Inconsistency>, NoMemory>
    requires { agent_at known.now agent.now.0 ≡ Some agent.now.1 }
    ensures { Tells result (unknown_top known.now agent.now.0 agent.now.1 context.now) }
{
    if !is_at_top(agent, context.pin()) || masters_or_refers(known, agent, context.pin()) {
        return Ok(None);
    }
    Ok(Some(Inconsistency {
        condition: 8,
        first: Shown::Agent(agent.id()),
        second: Shown::Name(context.prefix().clone()?),
    }))
}

/// What is told of the agent.
fn unknown_tops_of(
    known: &Known<'_, '_, '_>,
    agent: &Numbered<'_>,
) -> Result<Option<Inconsistency>, NoMemory>
    requires { agent_at known.now agent.now.0 ≡ Some agent.now.1 }
    ensures { Tells result (flat_map (unknown_top known.now agent.now.0 agent.now.1) (mastered known.now)) }
{
    let held = known.held();
    for context in held {
        let told = unknown_top_of(known, agent, context)?;
        if told.is_some() {
            return Ok(told);
        }
    }
    Ok(None)
}

/// The first first-level agent that doesn't know a pin of one RDN, and the first such pin: the agent, and the pin.
pub(crate) fn unknown_top(known: &Known<'_, '_, '_>) -> Result<Option<Inconsistency>, NoMemory>
    ensures { Tells result (breaches_8 known.now) }
{
    let agents = known.agents();
    for agent in agents {
        let told = unknown_tops_of(known, agent)?;
        if told.is_some() {
            return Ok(told);
        }
    }
    Ok(None)
}
