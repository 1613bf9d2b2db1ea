//! The check of a world's knowledge: the ten conditions, one after the other.

ghost use Rattle.std.specs.Prelude.{◌≤◌, ◌↔◌, ◌++◌, [], length, IfOk, IsNone, IfSome};
ghost use Rattle.x5_model_tree.specs.Consistent.{IsConsistent, breaches, breaches_6, breaches_7, breaches_8, breaches_9, breaches_10};
ghost use Rattle.x5_model_tree.specs.Breaking.{IsFirstBreach};
ghost use Rattle.x5_know.specs.WorldView.{world_view};
ghost use Rattle.x5_check.specs.Views.{Tells, breach_view};

use crate::agents::numbered_agents;
use crate::contexts::contexts_of;
use crate::endless_superiors::endless_superiors;
use crate::false_agreement::false_agreement;
use crate::false_member::false_member;
use crate::false_reference::false_reference;
use crate::false_shadow::false_shadow;
use crate::inconsistency::Inconsistency;
use crate::known::Known;
use crate::longer_pin::longer_pin;
use crate::missing_parent::missing_parent;
use crate::repeated_prefix::repeated_prefix;
use crate::unknown_below::unknown_below;
use crate::unknown_top::unknown_top;
use std::alloc::Global;
use x5_know::Described;
use x5_memory::NoMemory;

/// The first breach of the first of the conditions 6 to 10 that fails.
fn later_told(known: &Known<'_, '_, '_>) -> Result<Option<Inconsistency>, NoMemory>
    ensures { Tells result (breaches_6 known.now ++ (breaches_7 known.now ++ (breaches_8 known.now ++ (breaches_9 known.now ++ (breaches_10 known.now ++ []))))) }
{
    let below = unknown_below(known)?;
    if below.is_some() {
        return Ok(below);
    }
    drop(below);
    let member = false_member(known)?;
    if member.is_some() {
        return Ok(member);
    }
    drop(member);
    let top = unknown_top(known)?;
    if top.is_some() {
        return Ok(top);
    }
    drop(top);
    let endless = endless_superiors(known)?;
    if endless.is_some() {
        return Ok(endless);
    }
    drop(endless);
    false_agreement(known)
}

/// The first breach of the first condition that fails.
fn first_told(alloc: Global, known: &Known<'_, '_, '_>) -> Result<Option<Inconsistency>, NoMemory>
    ensures { Tells result (breaches known.now) }
{
    let repeated = repeated_prefix(known)?;
    if repeated.is_some() {
        return Ok(repeated);
    }
    drop(repeated);
    let orphan = missing_parent(alloc, known)?;
    if orphan.is_some() {
        return Ok(orphan);
    }
    drop(orphan);
    let longer = longer_pin(alloc, known)?;
    if longer.is_some() {
        return Ok(longer);
    }
    drop(longer);
    let reference = false_reference(alloc, known)?;
    if reference.is_some() {
        return Ok(reference);
    }
    drop(reference);
    let shadow = false_shadow(known)?;
    if shadow.is_some() {
        return Ok(shadow);
    }
    drop(shadow);
    later_told(known)
}

/// The first breach in the world's knowledge: of the first condition that fails, in their order, and of it the first in the order of
/// the file, with the two values that are told of it; or nothing, exactly where knowledge is consistent. A world has 256 agents at
/// most, so that each has its `AgentId`; of a world that a file describes that's so.
pub fn check(alloc: Global, world: &Described) -> Result<Option<Inconsistency>, NoMemory>
    requires { length world.now.agents ≤ 256 }
    ensures told { Tells result (breaches (world_view world.now)) }
    ensures consistent { IfOk result (λ told. IsNone told ↔ IsConsistent (world_view world.now)) }
    ensures first { IfOk result (λ told. IfSome told (λ b. IsFirstBreach (world_view world.now) (breach_view b))) }
{
    let agents = numbered_agents(alloc, world)?;
    let held = contexts_of(alloc, world)?;
    let known = Known::new(alloc, world, &agents, &held)?;
    let told = first_told(alloc, &known);
    drop(known);
    told
}
