//! Condition 5: the shadow agents of a reference are distinct consumers of that context.

ghost use Rattle.std.specs.Prelude.{◌≡◌, ◌≤◌, ◌==◌, length};
ghost use Rattle.std.specs.List.{flat_map, list_any};
ghost use Rattle.x5_model_tree.specs.Consistent.{breaches_5, references, specific_of, false_shadows};
ghost use Rattle.x5_check.specs.Views.{Tells};
ghost use Rattle.x5_check.specs.Parts.{shadow_part};

use crate::agents::{FileReference, Numbered};
use crate::inconsistency::{Inconsistency, Shown};
use crate::known::Known;
use x5_memory::NoMemory;
use x5_ops::AgentId;

/// Whether the agent is one of these. No memory.
pub(crate) fn is_among(agents: &[AgentId], agent: AgentId) -> bool
    ensures { result ≡ list_any (λ a. a == agent) agents.now }
{
    agents.contains(&agent)
}

/// What is told of the shadow agent at the place.
fn false_shadow_at(
    known: &Known<'_, '_, '_>,
    reference: &FileReference<'_>,
    shadows: &[AgentId],
    place: usize,
    shadow: AgentId,
) -> Result<Option<Inconsistency>, NoMemory>
    requires { place ≤ length shadows.now }
    ensures { Tells result (shadow_part known.now (specific_of reference.now) shadows.now place shadow) }
{
    if !is_among(&shadows[..place], shadow) && known.consumes(shadow, reference.pin().key()) {
        return Ok(None);
    }
    Ok(Some(Inconsistency {
        condition: 5,
        first: Shown::Name(reference.pin().clone()?),
        second: Shown::Agent(shadow),
    }))
}

/// What is told of the reference.
fn false_shadows_of(
    known: &Known<'_, '_, '_>,
    reference: &FileReference<'_>,
) -> Result<Option<Inconsistency>, NoMemory>
    ensures { Tells result (false_shadows known.now (specific_of reference.now)) }
{
    let shadows = reference.access().shadows.as_slice();
    for (place, shadow) in shadows.iter().enumerate() {
        let told = false_shadow_at(known, reference, shadows, place, *shadow)?;
        if told.is_some() {
            return Ok(told);
        }
    }
    Ok(None)
}

/// What is told of the agent.
fn false_shadows_at(
    known: &Known<'_, '_, '_>,
    agent: &Numbered<'_>,
) -> Result<Option<Inconsistency>, NoMemory>
    ensures { Tells result (flat_map (λ r. false_shadows known.now (specific_of r)) (references agent.now.1)) }
{
    let references = agent.references();
    for reference in references {
        let told = false_shadows_of(known, reference)?;
        if told.is_some() {
            return Ok(told);
        }
    }
    Ok(None)
}

/// The first agent with a reference that has a false shadow agent, its first such reference, and the first of that one's shadow
/// agents that stood there before or isn't a consumer: the reference's name, and that shadow agent.
pub(crate) fn false_shadow(known: &Known<'_, '_, '_>) -> Result<Option<Inconsistency>, NoMemory>
    ensures { Tells result (breaches_5 known.now) }
{
    let agents = known.agents();
    for agent in agents {
        let told = false_shadows_at(known, agent)?;
        if told.is_some() {
            return Ok(told);
        }
    }
    Ok(None)
}
