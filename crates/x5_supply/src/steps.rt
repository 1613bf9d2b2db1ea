//! Incremental refreshes.

ghost use Rattle.std.specs.Prelude.{◌≡◌, IfOk, nat_lt};
ghost use Rattle.x5_model.specs.Values.{key_of};
ghost use Rattle.x5_supply.specs.Answers.{Answers};
ghost use Rattle.x5_supply.specs.Supplied.{since_of, steps_after, steps_later};

use crate::fault::{FULL_UPDATE_REQUIRED, INACTIVE_AGREEMENT, SupplyFault};
use crate::sources::source;
use std::alloc::Global;
use x5_holdings::{ChangeLog, Holdings};
use x5_memory::NoMemory;
use x5_names::Name;
use x5_ops::{Listed, Moment, StepList};

/// Whether the one moment is before the other. No memory.
fn is_before(first: Moment, second: Moment) -> bool
    ensures { result ≡ nat_lt first second }
{
    first.0 < second.0
}

/// The steps of the changes later than the moment, in their order.
fn later(alloc: Global, log: &ChangeLog, moment: Moment) -> Result<StepList, NoMemory>
    ensures { IfOk result (λ steps. steps ≡ steps_later log.now moment) }
{
    let mut steps = Vec::new(alloc);
    for change in log.changes() {
        if is_before(moment, change.moment) {
            steps.push(change.step.clone()?)?;
        }
    }
    Ok(Listed::from_vec(steps))
}

/// The steps since the moment, where the log has all of them.
fn steps_since(
    alloc: Global,
    log: &ChangeLog,
    last: Option<Moment>,
) -> Result<StepList, SupplyFault>
    ensures { Answers (steps_after log.now last) result }
{
    match last {
        Some(moment) if !is_before(moment, log.base()) => Ok(later(alloc, log, moment)?),
        _ => Err(SupplyFault::Shadow(FULL_UPDATE_REQUIRED)),
    }
}

/// What an incremental refresh of the context brings to a consumer that has it as of the moment (X.525, section 11.2): the steps
/// of the later changes, in their order; it's stamped with `stamp`. A context that the agent masters comes before a copy of it.
/// `INACTIVE_AGREEMENT` exactly where there is nothing to send: its copy was never refreshed, or it holds no such context; else
/// `FULL_UPDATE_REQUIRED` exactly where the consumer has no moment, or one before the base of the log.
pub fn since(
    alloc: Global,
    state: &Holdings,
    context: &Name,
    last: Option<Moment>,
) -> Result<StepList, SupplyFault>
    ensures { Answers (since_of state.now (key_of context.now) last) result }
{
    match source(state, context) {
        Some(held) => steps_since(alloc, held.log(), last),
        None => Err(SupplyFault::Shadow(INACTIVE_AGREEMENT)),
    }
}
