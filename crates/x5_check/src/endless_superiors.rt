//! Condition 9: from each agent the chain of superiors ends at a first-level agent within 16 hops.

ghost use Rattle.std.specs.Prelude.{◌≡◌, []};
ghost use Rattle.x5_model.specs.Words.{in_option};
ghost use Rattle.x5_model_tree.specs.Masters.{superior_of};
ghost use Rattle.x5_model_tree.specs.Consistent.{breaches_9, ends_within, endless};
ghost use Rattle.x5_check.specs.Views.{Tells};
ghost use Rattle.x5_check.specs.Parts.{endless_part};

use crate::agents::Numbered;
use crate::inconsistency::{Inconsistency, Shown};
use crate::known::Known;
use x5_memory::NoMemory;
use x5_ops::AgentId;

/// Hops of a chain of superiors at most.
const MOST_HOPS: u8 = 16;

/// The superior of the agent, if it has one. No memory.
fn superior_of_agent(known: &Known<'_, '_, '_>, agent: AgentId) -> Option<AgentId>
    ensures { result ≡ superior_of known.now agent }
{
    match known.agents().get(agent.0 as usize) {
        Some(agent) => agent.superior(),
        None => None,
    }
}

/// Whether the chain of superiors from the agent on ends within so many hops. No memory.
fn ends(known: &Known<'_, '_, '_>, hops: u8, agent: Option<AgentId>) -> bool
    ensures { result ≡ ends_within known.now hops agent }
{
    match agent {
        None => true,
        Some(agent) => hops != 0 && ends(known, hops - 1, superior_of_agent(known, agent)),
    }
}

/// What is told of the agent.
fn endless_of(
    known: &Known<'_, '_, '_>,
    agent: &Numbered<'_>,
) -> Result<Option<Inconsistency>, NoMemory>
    ensures { Tells result (endless_part known.now agent.now) }
{
    match agent.superior() {
        None => Ok(None),
        Some(superior) => {
            if ends(known, MOST_HOPS, Some(superior)) {
                return Ok(None);
            }
            Ok(Some(Inconsistency {
                condition: 9,
                first: Shown::Agent(agent.id()),
                second: Shown::Agent(superior),
            }))
        }
    }
}

/// The first agent whose superiors don't end: the agent, and its superior.
pub(crate) fn endless_superiors(
    known: &Known<'_, '_, '_>,
) -> Result<Option<Inconsistency>, NoMemory>
    ensures { Tells result (breaches_9 known.now) }
{
    let agents = known.agents();
    for agent in agents {
        let told = endless_of(known, agent)?;
        if told.is_some() {
            return Ok(told);
        }
    }
    Ok(None)
}
