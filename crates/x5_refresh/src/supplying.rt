//! What the supplier sends.

ghost use Rattle.x5_model.specs.Values.{key_of};
ghost use Rattle.x5_supply.specs.Answers.{Answers};
ghost use Rattle.x5_refresh.specs.Joined.{IsTold};
ghost use Rattle.x5_refresh.specs.Sent.{brought_of, supply_of};

use crate::brought::Brought;
use std::alloc::Global;
use x5_holdings::Holdings;
use x5_names::Name;
use x5_ops::Moment;
use x5_supply::{INACTIVE_AGREEMENT, SupplyFault, since, stamp, total as whole};

/// A total refresh, or an incremental one from the moment on.
fn sent(
    alloc: Global,
    supplier: &Holdings,
    context: &Name,
    total: bool,
    last: Option<Moment>,
) -> Result<Brought, SupplyFault>
    ensures sent { Answers (brought_of supplier.now (key_of context.now) total last) result }
    ensures told { IsTold result }
{
    if total {
        return Ok(Brought::Total(whole(alloc, supplier, context)?));
    }
    Ok(Brought::Steps(since(alloc, supplier, context, last)?))
}

/// What a refresh of the context brings to a consumer that has it as of `last`, total or incremental, with the moment as of which
/// the supplier has it (X.525, section 11.2). `INACTIVE_AGREEMENT` exactly where there is nothing to send; then, of an incremental
/// refresh alone, `FULL_UPDATE_REQUIRED` exactly where the consumer has no moment, or one before the base of the log.
pub fn supply(
    alloc: Global,
    supplier: &Holdings,
    context: &Name,
    total: bool,
    last: Option<Moment>,
) -> Result<(Moment, Brought), SupplyFault>
    ensures sent { Answers (supply_of supplier.now (key_of context.now) total last) result }
    ensures told { IsTold result }
{
    match stamp(supplier, context) {
        None => Err(SupplyFault::Shadow(INACTIVE_AGREEMENT)),
        Some(stamp) => Ok((stamp, sent(alloc, supplier, context, total, last)?)),
    }
}
