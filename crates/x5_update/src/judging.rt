//! The judgement of an update by its master (X.511, section 11; X.518, section 19.1).

ghost use Rattle.std.specs.Prelude.{◌≡◌, ◌≤◌, true, length};
ghost use Rattle.x5_model.specs.Words.{distinct, same_octets};
ghost use Rattle.x5_model_heard.specs.Told.{name_agents};
ghost use Rattle.x5_model_run.specs.Needs.{due_probes};
ghost use Rattle.x5_ops.specs.ReferenceViews.{chained_view};
ghost use Rattle.x5_ops.specs.RequestViews.{body_view, name_of};
ghost use Rattle.x5_holdings.specs.State.{holdings_view};
ghost use Rattle.x5_update.specs.Judging.{IsDue, IsVerdict};

use crate::place::{held_at, place_of};
use crate::plans::planned;
use crate::probes::probe;
use std::alloc::Global;
use x5_holdings::Holdings;
use x5_know::AgentNames;
use x5_ops::{Chained, ChangeFault, Reference};

/// Judges an update at the agent that has its target, and does nothing (X.511, section 11; X.518, section 19.1). By what the
/// agent holds and knows itself it's refused, with the first error; or it's passed, with the reference to the agents that are to
/// be probed first, if a probe is due. The name that the update is given has 16 RDNs at most, and the agents of NSSRs are among
/// the names, of which no two are the same.
pub fn prepare(
    alloc: Global,
    names: &AgentNames,
    state: &Holdings,
    message: &Chained,
) -> Result<Option<Reference>, ChangeFault>
    requires due { IsDue (holdings_view state.now) (chained_view names.now message.now) }
    requires known { name_agents (length names.now) (due_probes (holdings_view state.now) (chained_view names.now message.now)) ≡ true }
    requires apart { distinct same_octets names.now ≡ true }
    requires short { length (name_of (body_view message.now.request.body)) ≤ 16 }
    ensures { IsVerdict names.now (holdings_view state.now) (chained_view names.now message.now) result }
{
    let place = place_of(state, message);
    let _plan = planned(alloc, state, &message.request, place)?;
    drop(_plan);
    let held = held_at(state, place);
    let probe = probe(alloc, names, state, held, &message.request.body)?;
    Ok(probe)
}
