//! The change that an accepted update makes (X.511, section 11).

ghost use Rattle.std.specs.Prelude.{◌≡◌, ℕ, true, None, Ok, List, IfOk};
ghost use Rattle.x5_model.specs.Entries.{Named};
ghost use Rattle.x5_model.specs.Requests.{Request as request};
ghost use Rattle.x5_model.specs.Statics.{fault_of};
ghost use Rattle.x5_model.specs.Values.{key_of};
ghost use Rattle.x5_model_tree.specs.Ask.{is_update};
ghost use Rattle.x5_model_run.specs.Needs.{target_of};
ghost use Rattle.x5_ops.specs.ReferenceViews.{chained_view};
ghost use Rattle.x5_ops.specs.RequestViews.{body_view, request_view};
ghost use Rattle.x5_holdings.specs.State.{holdings_view};
ghost use Rattle.x5_update.specs.Committing.{IsCommitted, IsPrepared, IsUncommitted};
ghost use Rattle.x5_update.specs.Judging.{IsReady, judged};
ghost use Rattle.x5_update.specs.Plans.{IsPlanOf, values_in};
ghost use Rattle.x5_update.specs.Seats.{IsSeat};

use crate::place::{Place, place_of};
use crate::plans::{Plan, planned};
use std::alloc::Global;
use x5_holdings::{EntryChange, Holdings, Logged};
use x5_memory::NoMemory;
use x5_ops::{Chained, ChangeFault, Request};

/// How many values the entry has that comes. No memory.
fn values_of(change: &EntryChange) -> usize
    ensures { result ≡ values_in change.now }
{
    match change {
        EntryChange::Add { room, .. } => room.len(),
        EntryChange::Remove { .. } => 0,
        EntryChange::Replace { room, .. } => room.len(),
        EntryChange::Rename { room, .. } => room.len(),
    }
}

/// The plan of an update that the master's ground passes.
fn passed(
    alloc: Global,
    state: &Holdings,
    request: &Request,
    place: Place,
) -> Result<Plan, NoMemory>
    requires seat { IsSeat state.now (request_view request.now) (key_of (target_of (body_view request.now.body))) place.own place.node }
    requires update { is_update (body_view request.now.body) ≡ true }
    requires unrefused { fault_of (body_view request.now.body) ≡ None }
    requires passed { (made : List Named) × (judged (holdings_view state.now) (request_view request.now) ≡ Ok made) }
    ensures { IfOk result (λ plan. IsPlanOf state.now place.own (body_view request.now.body) plan (judged (holdings_view state.now) (request_view request.now))) }
{
    match planned(alloc, state, request, place) {
        Ok(plan) => Ok(plan),
        Err(ChangeFault::NoMemory) => Err(NoMemory),
        Err(ChangeFault::Refused(_)) => unreachable!(),
    }
}

/// An update that its master passes, made ready: the place of its target's context, and the change there with the step that tells
/// it.
#[derive(Drop)]
pub struct Prepared {
    own: usize,
    plan: Plan,
}

/// Makes an update ready that its master passes (X.511, section 11): the target's context gets room for the change, and its log for
/// the note. Nothing that the agent holds or has noted changes, whether or not memory suffices.
pub fn make_ready(
    alloc: Global,
    state: &mut Holdings,
    message: &Chained,
) -> Result<Prepared, NoMemory>
    requires { (names : List (List ℕ)) × IsReady (holdings_view state.old) (chained_view names message.now) }
    ensures same { IsUncommitted state.old state.new }
    ensures ok { IfOk result (λ update. IsPrepared state.new (request_view message.now.request) update) }
{
    let place = place_of(state, message);
    let plan = passed(alloc, state, &message.request, place)?;
    match state.make_room(place.own, 1, values_of(&plan.change)) {
        Ok(()) => Ok(Prepared {
            own: place.own,
            plan,
        }),
        Err(fault) => {
            drop(plan);
            Err(fault)
        }
    }
}

/// Does an update that is ready: the target's context changes, and its log tells it with the agent's moment (X.511, section 11;
/// X.525, section 9). No memory: it always succeeds.
pub fn commit(state: &mut Holdings, update: Prepared)
    requires { (r : request) × IsPrepared state.old r update }
    ensures { (r : request) → IsPrepared state.old r update → IsCommitted state.old r state.new }
{
    let moment = state.moment();
    let Prepared { own, plan } = update;
    let Plan { change, step } = plan;
    state.change(own, change, Logged { moment, step });
}
