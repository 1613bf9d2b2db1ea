//! Condition 1: no prefix is mastered twice.

ghost use Rattle.std.specs.Prelude.{◌≡◌, true, [], take, IfOk};
ghost use Rattle.std.specs.List.{list_any};
ghost use Rattle.x5_model.specs.Keys.{same_key};
ghost use Rattle.x5_model_tree.specs.Masters.{mastered, pin_of};
ghost use Rattle.x5_model_tree.specs.Consistent.{breaches_1, breach, NamePrinted, AgentPrinted};
ghost use Rattle.x5_check.specs.Views.{Tells};
ghost use Rattle.x5_check.specs.Parts.{unfit_at};

use crate::contexts::Held;
use crate::inconsistency::{Inconsistency, Shown};
use crate::known::Known;
use x5_memory::NoMemory;
use x5_names::Key;

/// Whether a context before the place has this prefix. No memory.
fn stands_before(known: &Known<'_, '_, '_>, prefix: &Key, place: usize) -> bool
    ensures { result ≡ list_any (λ m. same_key (pin_of m) prefix.now) (take place (mastered known.now)) }
{
    match known.next_with_prefix(prefix, 0) {
        Some(first) => first < place,
        None => false,
    }
}

/// What is told of the context at the place.
fn repeated_at(
    known: &Known<'_, '_, '_>,
    place: usize,
    context: &Held<'_>,
) -> Result<Option<Inconsistency>, NoMemory>
    ensures { Tells result (unfit_at same_key pin_of (λ m. true) (λ m. breach 1 (NamePrinted m.context.prefix) (AgentPrinted m.master)) (mastered known.now) place context.now) }
{
    if !stands_before(known, context.pin(), place) {
        return Ok(None);
    }
    Ok(Some(Inconsistency {
        condition: 1,
        first: Shown::Name(context.prefix().clone()?),
        second: Shown::Agent(context.master()),
    }))
}

/// The first context whose prefix an earlier one has: the prefix, and the agent.
pub(crate) fn repeated_prefix(known: &Known<'_, '_, '_>) -> Result<Option<Inconsistency>, NoMemory>
    ensures { Tells result (breaches_1 known.now) }
{
    let held = known.held();
    for (place, context) in held.iter().enumerate() {
        let told = repeated_at(known, place, context)?;
        if told.is_some() {
            return Ok(told);
        }
    }
    Ok(None)
}
