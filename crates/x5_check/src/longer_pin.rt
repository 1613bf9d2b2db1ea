//! Condition 3: no entry has among its prefixes a pin longer than its own context's prefix.

ghost use Rattle.std.specs.Prelude.{◌≡◌, IfOk};
ghost use Rattle.std.specs.List.{flat_map};
ghost use Rattle.x5_model_tree.specs.Masters.{mastered};
ghost use Rattle.x5_model_tree.specs.Consistent as model;
ghost use Rattle.x5_check.specs.Views.{Tells};
ghost use Rattle.x5_check.specs.Parts.{IsPlace, is_longer};

use crate::contexts::Held;
use crate::inconsistency::{Inconsistency, Shown};
use crate::index::earlier_of;
use crate::known::Known;
use std::alloc::Global;
use x5_memory::NoMemory;
use x5_ops::Named;

/// The place of the first context whose prefix is a prefix of the entry's name, and longer than that of the entry's own context.
fn first_longer(
    alloc: Global,
    known: &Known<'_, '_, '_>,
    context: &Held<'_>,
    entry: &Named,
) -> Result<Option<usize>, NoMemory>
    ensures { IfOk result (λ found. IsPlace (is_longer context.now entry.now) (mastered known.now) found) }
{
    let key = entry.name.key();
    let mut found = None;
    for count in context.pin().len()..key.len() {
        let prefix = key.first(alloc, count + 1)?;
        found = earlier_of(found, known.next_with_prefix(&prefix, 0));
    }
    Ok(found)
}

/// What is told of the entry.
fn longer_pin_of(
    alloc: Global,
    known: &Known<'_, '_, '_>,
    context: &Held<'_>,
    entry: &Named,
) -> Result<Option<Inconsistency>, NoMemory>
    ensures { Tells result (flat_map (model.longer_pin context.now entry.now) (mastered known.now)) }
{
    let Some(place) = first_longer(alloc, known, context, entry)? else {
        return Ok(None);
    };
    let Some(longer) = known.held().get(place) else {
        return Ok(None);
    };
    Ok(Some(Inconsistency {
        condition: 3,
        first: Shown::Name(entry.name.clone()?),
        second: Shown::Name(longer.prefix().clone()?),
    }))
}

/// What is told of the context.
fn longer_pins_of(
    alloc: Global,
    known: &Known<'_, '_, '_>,
    context: &Held<'_>,
) -> Result<Option<Inconsistency>, NoMemory>
    ensures { Tells result (flat_map (λ e. flat_map (model.longer_pin context.now e) (mastered known.now)) context.now.context.entries) }
{
    let entries = context.entries();
    for entry in entries {
        let told = longer_pin_of(alloc, known, context, entry)?;
        if told.is_some() {
            return Ok(told);
        }
    }
    Ok(None)
}

/// The first context that has an entry with a longer pin, its first such entry, and the first such pin: the entry's name and the pin.
pub(crate) fn longer_pin(
    alloc: Global,
    known: &Known<'_, '_, '_>,
) -> Result<Option<Inconsistency>, NoMemory>
    ensures { Tells result (model.breaches_3 known.now) }
{
    let held = known.held();
    for context in held {
        let told = longer_pins_of(alloc, known, context)?;
        if told.is_some() {
            return Ok(told);
        }
    }
    Ok(None)
}
