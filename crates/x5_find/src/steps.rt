//! The resolution of a name at an agent.

ghost use Rattle.std.specs.Prelude.{◌≡◌, [], ◌&&◌, ◌==◌, false, true, not, List, ℕ, None, Some};
ghost use Rattle.std.specs.List.{list_any};
ghost use Rattle.x5_model.specs.Values.{key_of};
ghost use Rattle.x5_model_run.specs.Journal.{is_done, is_wide};
ghost use Rattle.x5_model_run.specs.Holdings.{copy_at, held_at, known_pin};
ghost use Rattle.x5_model_run.specs.Placed.{fits};
ghost use Rattle.x5_model_serve.specs.Finding as finding;
ghost use Rattle.x5_ops.specs.ReferenceViews.{chained_view, progress_view, kind_view};
ghost use Rattle.x5_ops.specs.RequestViews.{request_view};
ghost use Rattle.x5_holdings.specs.Known.{IsPlaceOf};
ghost use Rattle.x5_holdings.specs.State.{copy_view, holdings_view};
ghost use Rattle.x5_find.specs.Finds.{Finds};
ghost use Rattle.x5_find.specs.Ways.{IsResolved, IsOwnPin, IsCopyPin, IsNear};

use crate::found::{Found, Via};
use x5_holdings::{Holdings, Pin};
use x5_ops::{AgentId, Chained, Progress, RefType};

/// Whether one of these is another agent. No memory.
fn has_other(agents: &[AgentId], me: AgentId) -> bool
    ensures { result ≡ list_any (λ a. not (a == me)) agents.now }
{
    agents.iter().any(|agent| agent.0 != me.0)
}

/// What can't be gone on from.
fn stuck<'a>(state: &'a Holdings, message: &'a Chained) -> Found<'a>
    requires { (names : List (List ℕ)) → finding.find (holdings_view state.now) (chained_view names message.now) ≡ finding.Stuck }
    ensures { (names : List (List ℕ)) → Finds state.now (chained_view names message.now) result }
{
    let _ = state;
    if message.kind.is_wide() {
        Found::UnableToProceed
    } else {
        Found::InvalidReference
    }
}

/// Where nothing is known on the way: at the superior, or at a first-level agent the root or nowhere.
fn unknown<'a>(state: &'a Holdings, message: &'a Chained) -> Found<'a>
    requires resolved { (names : List (List ℕ)) → IsResolved state.now (chained_view names message.now) }
    requires nothing { known_pin (request_view message.now.request) (holdings_view state.now) (key_of message.now.target) ≡ None }
    ensures { (names : List (List ℕ)) → Finds state.now (chained_view names message.now) result }
{
    match state.superior() {
        Some(superior) => Found::Go {
            kind: RefType::Superior,
            progress: Progress::NotStarted,
            known: None,
            to: Via::One(superior),
        },
        None => {
            if message.target.is_root() {
                Found::Root
            } else {
                Found::NoSuchObject { at: None }
            }
        }
    }
}

/// In a context that is mastered: at the name itself, or below the lowest entry on the way, or nowhere.
fn in_own<'a>(state: &'a Holdings, message: &'a Chained, own: usize) -> Found<'a>
    requires resolved { (names : List (List ℕ)) → IsResolved state.now (chained_view names message.now) }
    requires pin { IsOwnPin state.now (chained_view [] message.now) own }
    ensures { (names : List (List ℕ)) → Finds state.now (chained_view names message.now) result }
{
    let held = &state.own()[own];
    let (node, length) = held.tree().way(&message.target);
    if length == message.target.len() {
        return Found::Here { own, node };
    }
    match held.nssr_at(&message.target.rdns()[..length]) {
        Some(nssr) if has_other(nssr.agents.as_slice(), state.me()) => Found::Multicast {
            own,
            node,
            agents: &nssr.agents,
        },
        _ => Found::NoSuchObject {
            at: Some((own, node)),
        },
    }
}

/// In a copy: at the name itself where the copy may be used, else at its supplier.
fn in_copy<'a>(state: &'a Holdings, message: &'a Chained, copy: usize) -> Found<'a>
    requires resolved { (names : List (List ℕ)) → IsResolved state.now (chained_view names message.now) }
    requires pin { IsCopyPin state.now (chained_view [] message.now) copy }
    requires near { IsNear state.now (chained_view [] message.now) }
    ensures { (names : List (List ℕ)) → Finds state.now (chained_view names message.now) result }
{
    let copied = &state.copies()[copy];
    if let Some(held) = copied.usable(&message.request) {
        if let Some(node) = held.tree().find(&message.target) {
            return Found::CopyHere { copy, node };
        }
    }
    Found::Go {
        kind: RefType::Supplier,
        progress: Progress::Proceeding(copied.prefix().len() as u8),
        known: Some(copied.prefix()),
        to: Via::One(copied.supplier()),
    }
}

/// Where the resolution of a name ends that is still to be resolved.
fn resolve<'a>(state: &'a Holdings, message: &'a Chained) -> Found<'a>
    requires resolved { (names : List (List ℕ)) → IsResolved state.now (chained_view names message.now) }
    requires near { IsNear state.now (chained_view [] message.now) }
    ensures { (names : List (List ℕ)) → Finds state.now (chained_view names message.now) result }
{
    match state.known(&message.request, message.target.rdns()) {
        None => unknown(state, message),
        Some(Pin::Own(own)) => in_own(state, message, own),
        Some(Pin::Copy(copy)) => in_copy(state, message, copy),
        Some(Pin::Subordinate(reference)) => Found::Go {
            kind: RefType::Subordinate,
            progress: Progress::Proceeding(reference.pin.len() as u8),
            known: Some(&reference.pin),
            to: Via::Access(&reference.access),
        },
        Some(Pin::Cross(reference)) => Found::Go {
            kind: RefType::Cross,
            progress: Progress::Proceeding(reference.pin.len() as u8),
            known: Some(&reference.pin),
            to: Via::Access(&reference.access),
        },
    }
}

/// Of a completed name whose context isn't mastered: the copy, or its supplier where it may not be used.
fn completed_copy<'a>(state: &'a Holdings, message: &'a Chained, copy: usize) -> Found<'a>
    requires done { is_done (progress_view message.now.progress) ≡ true }
    requires specific { is_wide (kind_view message.now.kind) ≡ false }
    requires fits { fits (chained_view [] message.now) ≡ true }
    requires no_own { held_at (holdings_view state.now).own (key_of message.now.target) ≡ None }
    requires place { IsPlaceOf copy_view state.now.copies (copy_at (holdings_view state.now) (key_of message.now.target)) (Some copy) }
    ensures { (names : List (List ℕ)) → Finds state.now (chained_view names message.now) result }
{
    let copied = &state.copies()[copy];
    let prefix = copied.prefix();
    match copied.usable(&message.request) {
        Some(held) => Found::CopyHere {
            copy,
            node: held.tree().top(),
        },
        None => Found::Go {
            kind: RefType::Supplier,
            progress: Progress::Completed,
            known: Some(prefix),
            to: Via::One(copied.supplier()),
        },
    }
}

/// Of a completed name, which came by a reference to a pin: the context, a copy that may be used, or the supplier of one that
/// may not.
fn completed<'a>(state: &'a Holdings, message: &'a Chained) -> Found<'a>
    requires done { is_done (progress_view message.now.progress) ≡ true }
    requires specific { is_wide (kind_view message.now.kind) ≡ false }
    requires fits { fits (chained_view [] message.now) ≡ true }
    ensures { (names : List (List ℕ)) → Finds state.now (chained_view names message.now) result }
{
    let prefix = message.target.rdns();
    if let Some(own) = state.own_at(prefix) {
        let node = state.own()[own].tree().top();
        return Found::Here { own, node };
    }
    match state.copy_at(prefix) {
        Some(copy) => completed_copy(state, message, copy),
        None => Found::InvalidReference,
    }
}

/// Where the resolution of the message's name ends at the agent that holds this (X.518, section 18: Find DSE). It's for a
/// message that fits, at an agent whose pins have no more RDNs than an octet counts, and not for a completed name that came by a
/// nonSpecific reference: that is evaluated below its entry. No memory.
pub fn find<'a>(state: &'a Holdings, message: &'a Chained) -> Found<'a>
    requires fits { fits (chained_view [] message.now) ≡ true }
    requires near { IsNear state.now (chained_view [] message.now) }
    requires specific { (is_done (progress_view message.now.progress) && is_wide (kind_view message.now.kind)) ≡ false }
    ensures { (names : List (List ℕ)) → Finds state.now (chained_view names message.now) result }
{
    match message.progress {
        Progress::NotStarted => resolve(state, message),
        Progress::Proceeding(k) => {
            if state.holds_within(message.target.rdns(), k as usize) {
                resolve(state, message)
            } else {
                stuck(state, message)
            }
        }
        Progress::Completed => completed(state, message),
    }
}
