//! The contexts that an agent masters.

ghost use Rattle.std.specs.Prelude.{◌≡◌, [], true, map, IfOk};
ghost use Rattle.std.specs.List.{list_all};
ghost use Rattle.x5_model_tree.specs.Described.{is_kept, is_rooted};
ghost use Rattle.x5_model_tree.specs.Masters.{held_contexts};
ghost use Rattle.x5_model_held.specs.Beginning.{described_context};
ghost use Rattle.x5_holdings.specs.State.{are_apart, held_view};
ghost use Rattle.x5_ops.specs.KnowledgeViews.{context_view, specific_view};
ghost use Rattle.x5_agents.specs.Growing.{is_whole};
ghost use Rattle.x5_agents.specs.Unnoted.{AreUnnoted, IsUnnoted};

use crate::entries::with_entries;
use crate::references::references_of;
use indexmap::IndexSet;
use std::alloc::Global;
use x5_holdings::{ChangeLog, Held};
use x5_memory::NoMemory;
use x5_names::Key;
use x5_ops::{ContextSpec, Moment, Specific};

/// The context as its agent holds it, with those of the references that belong to it. Its first entry is the prefix's.
fn held_of(alloc: Global, context: &ContextSpec, specific: &[Specific]) -> Result<Held, NoMemory>
    requires { is_whole (context_view context.now) ≡ true }
    ensures held { IfOk result (λ held. held_view held ≡ described_context (map specific_view specific.now) (context_view context.now)) }
    ensures unnoted { IfOk result (λ held. IsUnnoted held) }
{
    let Some((first, rest)) = context.entries.as_slice().split_first() else {
        unreachable!()
    };
    let subordinate = references_of(alloc, context, specific)?;
    let log = ChangeLog::new(alloc, Moment(0));
    let prefix = context.prefix.clone()?;
    let entry = first.entry.clone()?;
    let held = Held::new(
        alloc,
        prefix,
        entry,
        log,
        subordinate,
        context.nssr.clone()?,
    )?;
    with_entries(alloc, held, rest)
}

/// The contexts that an agent with these references masters: of two with one prefix the first alone.
pub(crate) fn own_of(
    alloc: Global,
    contexts: &[ContextSpec],
    specific: &[Specific],
) -> Result<Vec<Held>, NoMemory>
    requires { list_all is_whole (map context_view contexts.now) ≡ true }
    ensures held { IfOk result (λ v. map held_view v.items ≡ map (described_context (map specific_view specific.now)) (held_contexts [] (map context_view contexts.now))) }
    ensures apart { IfOk result (λ v. are_apart v.items ≡ true) }
    ensures unnoted { IfOk result (λ v. AreUnnoted v.items) }
{
    let mut own = Vec::new(alloc);
    let mut prefixes: IndexSet<Key> = IndexSet::new(alloc);
    for context in contexts {
        let key = context.prefix.key();
        if !prefixes.contains(key) {
            let _added = prefixes.insert(key.clone()?)?;
            own.push(held_of(alloc, context, specific)?)?;
        }
    }
    drop(prefixes);
    Ok(own)
}
