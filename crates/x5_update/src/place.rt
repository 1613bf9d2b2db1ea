//! The target of an update among what its master holds, and what it knows of the names at it and below it.

ghost use Rattle.std.specs.Prelude.{◌≡◌, ◌<◌, false, length, slice_get, Some};
ghost use Rattle.std.specs.List.{list_any};
ghost use Rattle.x5_model.specs.Requests.{Request as request};
ghost use Rattle.x5_model.specs.Values.{key_of};
ghost use Rattle.x5_model_tree.specs.Apply.{above_pin, is_taken};
ghost use Rattle.x5_model_tree.specs.Tree.{is_there};
ghost use Rattle.x5_model_run.specs.Holdings.{may_copy};
ghost use Rattle.x5_dse.specs.Linked.{entries_of};
ghost use Rattle.x5_ops.specs.RequestViews.{request_view};
ghost use Rattle.x5_holdings.specs.Known.{IsKnown};
ghost use Rattle.x5_holdings.specs.declared.holdings.Pin.TheVariants.{Own};
ghost use Rattle.x5_holdings.specs.State.{Kept, holdings_view};
ghost use Rattle.x5_update.specs.Judging.{ground_in};
ghost use Rattle.x5_update.specs.Seats.{IsSeat, IsTarget};

use x5_dse::{DseTree, NodeId};
use x5_holdings::{Held, Holdings, Pin};
use x5_names::Name;
use x5_ops::{Chained, Request};

/// The place of a context among those that an agent masters, and a node of its tree.
#[derive(Clone, Copy)]
pub(crate) struct Place {
    pub(crate) own: usize,
    pub(crate) node: NodeId,
}

/// The place of the context of an update's target. No memory.
fn context_of(state: &Holdings, message: &Chained) -> usize
    requires { IsTarget (holdings_view state.now) (request_view message.now.request) message.now.target }
    ensures { IsKnown (request_view message.now.request) (holdings_view state.now) (key_of message.now.target) (Some (Own result)) }
{
    match state.known(&message.request, message.target.rdns()) {
        Some(Pin::Own(own)) => own,
        Some(Pin::Copy(_)) => unreachable!(),
        Some(Pin::Subordinate(_)) => unreachable!(),
        Some(Pin::Cross(_)) => unreachable!(),
        None => unreachable!(),
    }
}

/// The target of an update. No memory.
pub(crate) fn place_of(state: &Holdings, message: &Chained) -> Place
    requires { IsTarget (holdings_view state.now) (request_view message.now.request) message.now.target }
    ensures { IsSeat state.now (request_view message.now.request) (key_of message.now.target) result.own result.node }
{
    let own = context_of(state, message);
    let tree = state.own()[own].tree();
    match tree.find(&message.target) {
        Some(node) => {
            let _ = tree.entry(node);
            Place { own, node }
        }
        None => unreachable!(),
    }
}

/// The context at the place. No memory.
pub(crate) fn held_at(state: &Holdings, place: Place) -> &Held
    requires { place.own < length state.now.own }
    ensures { slice_get state.now.own place.own ≡ Some result.now }
{
    &state.own()[place.own]
}

/// The tree of the context at the place. No memory.
pub(crate) fn tree_at(state: &Holdings, place: Place) -> &DseTree
    requires { place.own < length state.now.own }
    ensures { (k : Kept) → slice_get state.now.own place.own ≡ Some k → result.now ≡ k.nodes }
{
    state.own()[place.own].tree()
}

/// Whether the target of an update, which has this name, is a pin or stands above one that the agent knows or that an NSSR tells
/// of. No memory.
pub(crate) fn is_above_pin(state: &Holdings, place: Place, name: &Name) -> bool
    requires { place.own < length state.now.own }
    ensures { (r : request) → may_copy r ≡ false → IsSeat state.now r (key_of name.now) place.own place.node → result ≡ above_pin (ground_in state.now r) (key_of name.now) }
{
    let held = &state.own()[place.own];
    state.knows_under(name.rdns()) || !held.nssrs_under(name.rdns()).is_empty()
}

/// Whether the context has the entry. No memory.
fn has_entry(held: &Held, name: &Name) -> bool
    ensures { result ≡ is_there (entries_of held.now.nodes.nodes) (key_of name.now) }
{
    held.tree().find(name).is_some()
}

/// Whether one of these contexts has the entry. No memory.
fn is_entry(contexts: &[Held], name: &Name) -> bool
    ensures { result ≡ list_any (λ c. is_there (entries_of c.nodes.nodes) (key_of name.now)) contexts.now }
{
    contexts.iter().any(|held| has_entry(held, name))
}

/// Whether a new name is an entry's, or that of a pin that the agent knows. No memory.
pub(crate) fn is_taken(state: &Holdings, request: &Request, name: &Name) -> bool
    ensures { result ≡ is_taken (ground_in state.now (request_view request.now)) (key_of name.now) }
{
    is_entry(state.own(), name) || state.knows(request, name.rdns())
}
