//! The references of an agent, as they belong to its contexts and to itself.

ghost use Rattle.std.specs.Prelude.{◌≡◌, ◌==◌, ℕ, List, length, map, IfOk};
ghost use Rattle.std.specs.List.{filter, list_any};
ghost use Rattle.x5_model.specs.Keys.{Key, parent, same_key};
ghost use Rattle.x5_model.specs.Values.{key_of};
ghost use Rattle.x5_model_tree.specs.Tree.{is_there};
ghost use Rattle.x5_model_run.specs.History.{references_below};
ghost use Rattle.x5_ops.specs.KnowledgeViews.{specific_view};

use indexmap::IndexSet;
use std::alloc::Global;
use x5_memory::NoMemory;
use x5_names::{Key, Name};
use x5_ops::{ContextSpec, Cross, CrossList, Listed, Named, Specific, SpecificList};

/// The keys of the entries.
fn keys_of(alloc: Global, entries: &[Named]) -> Result<IndexSet<Key>, NoMemory>
    ensures { IfOk result (λ keys. (key : Key) → list_any (same_key key) keys.keys ≡ is_there entries.now key) }
{
    let mut keys = IndexSet::new(alloc);
    for named in entries {
        let _added = keys.insert(named.name.key().clone()?)?;
    }
    Ok(keys)
}

/// Whether what stands just above the pin is one of these.
fn is_below(alloc: Global, keys: &IndexSet<Key>, pin: &Name) -> Result<bool, NoMemory>
    ensures { IfOk result (λ is. is ≡ list_any (same_key (parent (key_of pin.now))) keys.now.keys) }
{
    let key = pin.key();
    let above = key.first(alloc, key.len().saturating_sub(1))?;
    Ok(keys.contains(&above))
}

/// The reference, as one of the context.
fn in_context(context: &Name, known: &Specific) -> Result<Specific, NoMemory>
    ensures { IfOk result (λ k. specific_view k ≡ specific_view known.now) }
{
    Ok(Specific {
        context: context.clone()?,
        pin: known.pin.clone()?,
        access: known.access.clone()?,
    })
}

/// The subordinate references that belong to the context: what stands just above their pins is one of its entries.
pub(crate) fn references_of(
    alloc: Global,
    context: &ContextSpec,
    specific: &[Specific],
) -> Result<SpecificList, NoMemory>
    ensures { IfOk result (λ ks. map specific_view ks ≡ references_below context.now.entries (map specific_view specific.now)) }
{
    let keys = keys_of(alloc, context.entries.as_slice())?;
    let mut below = Listed::new(alloc);
    for known in specific {
        if is_below(alloc, &keys, &known.pin)? {
            below.push(in_context(&context.prefix, known)?)?;
        }
    }
    drop(keys);
    Ok(below)
}

/// The subordinate references to contexts of the first level.
pub(crate) fn first_level(alloc: Global, specific: &[Specific]) -> Result<SpecificList, NoMemory>
    ensures { IfOk result (λ ks. map specific_view ks ≡ filter (λ k. length k.pin == 1) (map specific_view specific.now)) }
{
    let mut root = Listed::new(alloc);
    for known in specific {
        if known.pin.len() == 1 {
            root.push(known.clone()?)?;
        }
    }
    Ok(root)
}

/// The cross references.
pub(crate) fn crosses_of(alloc: Global, crosses: &[Cross]) -> Result<CrossList, NoMemory>
    ensures { IfOk result (λ ks. ks ≡ crosses.now) }
{
    let mut all = Listed::new(alloc);
    for known in crosses {
        all.push(Cross {
            pin: known.pin.clone()?,
            access: known.access.clone()?,
        })?;
    }
    Ok(all)
}
