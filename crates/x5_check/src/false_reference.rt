//! Condition 4: each subordinate or cross reference names a pin and its master; a subordinate one names a child of an entry that the
//! agent masters, or of the root at a first-level agent.

ghost use Rattle.std.specs.Prelude.{◌≡◌, Some, IfOk};
ghost use Rattle.std.specs.List.{flat_map};
ghost use Rattle.x5_model_tree.specs.Masters.{agent_at, numbered};
ghost use Rattle.x5_model_tree.specs.Consistent.{breaches_4, references, child_of_own, is_right, false_reference};
ghost use Rattle.x5_check.specs.Views.{Tells};

use crate::agents::{FileReference, Numbered};
use crate::inconsistency::{Inconsistency, Shown};
use crate::known::Known;
use crate::unknown_top::is_at_top;
use std::alloc::Global;
use x5_memory::NoMemory;
use x5_names::Key;

/// Whether the pin is a child of an entry that the agent masters, or of the root at a first-level agent.
fn is_child_of_own(
    alloc: Global,
    known: &Known<'_, '_, '_>,
    agent: &Numbered<'_>,
    pin: &Key,
) -> Result<bool, NoMemory>
    requires { agent_at known.now agent.now.0 ≡ Some agent.now.1 }
    ensures { IfOk result (λ b. b ≡ child_of_own agent.now.1 pin.now) }
{
    let count = pin.len();
    if count == 0 {
        return Ok(false);
    }
    if is_at_top(agent, pin) {
        return Ok(true);
    }
    let above = pin.first(alloc, count - 1)?;
    Ok(known.owns(agent.id(), &above))
}

/// Whether the reference is right.
fn is_right_reference(
    alloc: Global,
    known: &Known<'_, '_, '_>,
    agent: &Numbered<'_>,
    reference: &FileReference<'_>,
) -> Result<bool, NoMemory>
    requires { agent_at known.now agent.now.0 ≡ Some agent.now.1 }
    ensures { IfOk result (λ b. b ≡ is_right known.now agent.now.1 reference.now) }
{
    let pin = reference.pin().key();
    if !known.masters(reference.access().master, pin) {
        return Ok(false);
    }
    if reference.is_cross() {
        return Ok(true);
    }
    is_child_of_own(alloc, known, agent, pin)
}

/// What is told of the reference.
fn false_reference_of(
    alloc: Global,
    known: &Known<'_, '_, '_>,
    agent: &Numbered<'_>,
    reference: &FileReference<'_>,
) -> Result<Option<Inconsistency>, NoMemory>
    requires { agent_at known.now agent.now.0 ≡ Some agent.now.1 }
    ensures { Tells result (false_reference known.now agent.now.0 agent.now.1 reference.now) }
{
    if is_right_reference(alloc, known, agent, reference)? {
        return Ok(None);
    }
    Ok(Some(Inconsistency {
        condition: 4,
        first: Shown::Agent(agent.id()),
        second: Shown::Name(reference.pin().clone()?),
    }))
}

/// What is told of the agent.
fn false_references_of(
    alloc: Global,
    known: &Known<'_, '_, '_>,
    agent: &Numbered<'_>,
) -> Result<Option<Inconsistency>, NoMemory>
    requires { agent_at known.now agent.now.0 ≡ Some agent.now.1 }
    ensures { Tells result (flat_map (false_reference known.now agent.now.0 agent.now.1) (references agent.now.1)) }
{
    let references = agent.references();
    for reference in references {
        let told = false_reference_of(alloc, known, agent, reference)?;
        if told.is_some() {
            return Ok(told);
        }
    }
    Ok(None)
}

/// The first agent with a false reference, and its first one, of either kind: the agent, and the name that the reference gives.
pub(crate) fn false_reference(
    alloc: Global,
    known: &Known<'_, '_, '_>,
) -> Result<Option<Inconsistency>, NoMemory>
    ensures { Tells result (breaches_4 known.now) }
{
    let agents = known.agents();
    for agent in agents {
        let told = false_references_of(alloc, known, agent)?;
        if told.is_some() {
            return Ok(told);
        }
    }
    Ok(None)
}
