//! Condition 2: each pin's parent is the root or an entry.

ghost use Rattle.std.specs.Prelude.{◌≡◌, not};
ghost use Rattle.x5_model.specs.Keys.{parent};
ghost use Rattle.x5_model.specs.Values.{name_above};
ghost use Rattle.x5_model_tree.specs.Tree.{is_there, is_there_or_root};
ghost use Rattle.x5_model_tree.specs.Masters.{all_entries, pin_of};
ghost use Rattle.x5_model_tree.specs.Consistent.{breaches_2, breach, NamePrinted};
ghost use Rattle.x5_check.specs.Views.{Tells};
ghost use Rattle.x5_check.specs.Parts.{missing_parent_part};

use crate::contexts::Held;
use crate::inconsistency::{Inconsistency, Shown};
use crate::known::Known;
use std::alloc::Global;
use x5_memory::NoMemory;
use x5_names::Key;

/// Whether the key is an entry's. No memory.
fn is_entry(known: &Known<'_, '_, '_>, key: &Key) -> bool
    ensures { result ≡ is_there (all_entries known.now) key.now }
{
    known.next_with_entry(key, 0).is_some()
}

/// Whether the key is an entry's or the root's. No memory.
fn is_entry_or_root(known: &Known<'_, '_, '_>, key: &Key) -> bool
    ensures { result ≡ is_there_or_root (all_entries known.now) key.now }
{
    key.len() == 0 || is_entry(known, key)
}

/// What is told of the context.
fn missing_parent_of(
    alloc: Global,
    known: &Known<'_, '_, '_>,
    context: &Held<'_>,
) -> Result<Option<Inconsistency>, NoMemory>
    ensures { Tells result (missing_parent_part known.now context.now) }
{
    if is_entry_or_root(known, context.above()) {
        return Ok(None);
    }
    Ok(Some(Inconsistency {
        condition: 2,
        first: Shown::Name(context.prefix().clone()?),
        second: Shown::Name(context.prefix().parent(alloc)?),
    }))
}

/// The first context whose prefix has no parent: the prefix, and the name above it.
pub(crate) fn missing_parent(
    alloc: Global,
    known: &Known<'_, '_, '_>,
) -> Result<Option<Inconsistency>, NoMemory>
    ensures { Tells result (breaches_2 known.now) }
{
    let held = known.held();
    for context in held {
        let told = missing_parent_of(alloc, known, context)?;
        if told.is_some() {
            return Ok(told);
        }
    }
    Ok(None)
}
