//! What both ends of each agreement have seen of its last total refresh: entries that come again are neither written nor read again.

ghost use Rattle.std.specs.Prelude.{◌≡◌, IfOk, length};
ghost use Rattle.x5_model_shadowed.specs.Agents.{AreAgents};
ghost use Rattle.x5_model_shadowed.specs.Within.{RefreshWithin};
ghost use Rattle.x5_shadow_wire.specs.Carried.{IsSame, bringing};
ghost use Rattle.x5_types.specs.FormView.{world};

use std::alloc::Global;
use x5_know::{AgentNames, Agreement, Start};
use x5_memory::NoMemory;
use x5_shadow_wire::{LastTotal, Update, carried_update};

/// Before the first refresh: nothing by any agreement.
pub(crate) fn nothing_seen(
    alloc: Global,
    agreements: &[Agreement],
) -> Result<Vec<LastTotal>, NoMemory>
    ensures { IfOk result (λ seen. length seen.items ≡ length agreements.now) }
{
    let mut seen = Vec::new(alloc);
    for _ in agreements {
        seen.push(LastTotal::none(alloc))?;
    }
    Ok(seen)
}

/// What a supplier sends by the agreement of a place, as the consumer has it, where both ends of the agreements have seen this (X.525,
/// section 11.3).
pub(crate) fn carried_by(
    alloc: Global,
    start: &Start,
    names: &AgentNames,
    seen: &mut Vec<LastTotal>,
    place: usize,
    update: Update,
) -> Result<Update, NoMemory>
    requires within { RefreshWithin (world start.now names.now) (bringing names.now update.brought) }
    requires agents { AreAgents (world start.now names.now) names.now }
    ensures { IfOk result (λ taken. (taken.agreement ≡ update.agreement) × (taken.stamp ≡ update.stamp) × IsSame taken.brought update.brought) }
{
    match seen.get_mut(place) {
        Some(entries) => carried_update(alloc, start, names, entries, update),
        None => carried_update(alloc, start, names, &mut LastTotal::none(alloc), update),
    }
}
