//! Incremental refreshes.

ghost use Rattle.std.specs.Prelude.{◌≡◌, OnErr, OnOk};
ghost use Rattle.x5_model.specs.Values.{key_of};
ghost use Rattle.x5_holdings.specs.State.{holdings_view};
ghost use Rattle.x5_consume.specs.Taken.{CanTake, IsAdvanced, IsTaken};

use crate::places::place_of;
use crate::preparing::{all_prepared, values_for_all};
use crate::stepping::do_all;
use std::alloc::Global;
use x5_holdings::Holdings;
use x5_memory::NoMemory;
use x5_names::Name;
use x5_ops::{Moment, StepList};

/// Takes an incremental refresh (X.525, section 11.3): the steps are done one after another on the agent's copy of the context,
/// each is noted in its log at the refresh's stamp, and the copy has that stamp. The agent has a refreshed copy of the context, and
/// the steps can be done on its entries. Room is made first; after want of memory the agent holds what it held.
pub fn accept_steps(
    alloc: Global,
    state: &mut Holdings,
    context: &Name,
    steps: StepList,
    stamp: Moment,
) -> Result<(), NoMemory>
    requires { CanTake (holdings_view state.old) (key_of context.now) steps }
    ensures ok { OnOk result (IsTaken state.old (key_of context.now) (IsAdvanced steps stamp) state.new) }
    ensures err { OnErr result (holdings_view state.new ≡ holdings_view state.old) }
{
    let place = place_of(state, context);
    let count = steps.len();
    let all = all_prepared(alloc, steps)?;
    let values = values_for_all(&all)?;
    state.make_room_at_copy(place, count, values, count)?;
    do_all(state, place, all, stamp);
    state.set_stamp(place, stamp);
    Ok(())
}
