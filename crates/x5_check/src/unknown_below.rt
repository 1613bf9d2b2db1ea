//! Condition 6: each pin whose parent is in a context is, at that context's master, mastered too, known by a subordinate reference,
//! or its master stands in the parent's NSSR.

ghost use Rattle.std.specs.Prelude.{◌≡◌, true};
ghost use Rattle.std.specs.List.{flat_map};
ghost use Rattle.x5_model.specs.Keys.{parent};
ghost use Rattle.x5_model_tree.specs.Tree.{is_there};
ghost use Rattle.x5_model_tree.specs.Masters as masters;
ghost use Rattle.x5_model_tree.specs.Consistent as model;
ghost use Rattle.x5_check.specs.Views.{Tells};
ghost use Rattle.x5_check.specs.Parts.{knows_at, unknown_part};

use crate::contexts::Held;
use crate::inconsistency::{Inconsistency, Shown};
use crate::known::Known;
use x5_memory::NoMemory;
use x5_names::Key;
use x5_ops::AgentId;

/// The master of the pin; of two, the first in file order. No memory.
fn master_of_pin(known: &Known<'_, '_, '_>, pin: &Key) -> Option<AgentId>
    ensures { result ≡ masters.master_of known.now pin.now }
{
    match known.next_with_prefix(pin, 0) {
        Some(place) => match known.held().get(place) {
            Some(context) => Some(context.master()),
            None => None,
        },
        None => None,
    }
}

/// Whether the master of the context knows the other context's prefix, which is just below one of its entries. No memory.
fn knows_below(known: &Known<'_, '_, '_>, below: &Held<'_>, context: &Held<'_>) -> bool
    ensures { result ≡ knows_at known.now below.now context.now }
{
    let agent = context.master();
    let pin = below.pin();
    known.masters(agent, pin)
        || known.refers(agent, pin)
        || match master_of_pin(known, pin) {
            Some(master) => context.is_member(below.above(), master),
            None => false,
        }
}

/// What is told of a pin and a context that has the entry above it.
fn unknown_below_in(
    known: &Known<'_, '_, '_>,
    below: &Held<'_>,
    context: &Held<'_>,
) -> Result<Option<Inconsistency>, NoMemory>
    requires { is_there context.now.context.entries (parent (masters.pin_of below.now)) ≡ true }
    ensures { Tells result (unknown_part known.now below.now context.now) }
{
    if knows_below(known, below, context) {
        return Ok(None);
    }
    Ok(Some(Inconsistency {
        condition: 6,
        first: Shown::Agent(context.master()),
        second: Shown::Name(below.prefix().clone()?),
    }))
}

/// What is told of the pin.
fn unknown_below_of(
    known: &Known<'_, '_, '_>,
    below: &Held<'_>,
) -> Result<Option<Inconsistency>, NoMemory>
    ensures { Tells result (flat_map (λ a. flat_map (λ c. model.unknown_below known.now a.0 a.1 c below.now) a.1.contexts) (masters.numbered known.now)) }
{
    let held = known.held();
    let count = held.len();
    let mut from = 0;
    while let Some(place) = known.next_with_entry(below.above(), from) {
        prove!(place < count);
        let told = unknown_below_in(known, below, &held[place])?;
        if told.is_some() {
            return Ok(told);
        }
        from = place + 1;
    }
    Ok(None)
}

/// The first pin that some master of its parent's context lacks, and the first such master: that master, and the pin.
pub(crate) fn unknown_below(known: &Known<'_, '_, '_>) -> Result<Option<Inconsistency>, NoMemory>
    ensures { Tells result (model.breaches_6 known.now) }
{
    let held = known.held();
    for below in held {
        let told = unknown_below_of(known, below)?;
        if told.is_some() {
            return Ok(told);
        }
    }
    Ok(None)
}
