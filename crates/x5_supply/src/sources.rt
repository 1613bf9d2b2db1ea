//! What a naming context is supplied from: the context that the agent masters, or else its copy.

ghost use Rattle.std.specs.Prelude.{◌≡◌};
ghost use Rattle.std.specs.Option.{option_map};
ghost use Rattle.x5_model.specs.Values.{key_of};
ghost use Rattle.x5_supply.specs.Supplied.{brought_of, copy_of, mastered_of, stamp_of, supplied};

use x5_holdings::{Copied, Held, Holdings};
use x5_names::Name;
use x5_ops::Moment;

/// The context of the prefix that the agent masters. No memory.
pub(crate) fn mastered<'a>(state: &'a Holdings, context: &Name) -> Option<&'a Held>
    ensures { option_map (λ held. held.now) result ≡ mastered_of state.now (key_of context.now) }
{
    let place = state.own_at(context.rdns())?;
    state.own().get(place)
}

/// Its copy of the context. No memory.
fn copied<'a>(state: &'a Holdings, context: &Name) -> Option<&'a Copied>
    ensures { option_map (λ copy. copy.now) result ≡ copy_of state.now (key_of context.now) }
{
    let place = state.copy_at(context.rdns())?;
    state.copies().get(place)
}

/// What refreshes brought of the context. No memory.
pub(crate) fn brought<'a>(state: &'a Holdings, context: &Name) -> Option<&'a Held>
    ensures { option_map (λ held. held.now) result ≡ brought_of state.now (key_of context.now) }
{
    copied(state, context)?.held()
}

/// What it has of the context: as its master, or else as a consumer. No memory.
pub(crate) fn source<'a>(state: &'a Holdings, context: &Name) -> Option<&'a Held>
    ensures { option_map (λ held. held.now) result ≡ supplied state.now (key_of context.now) }
{
    let own = mastered(state, context);
    if own.is_some() {
        return own;
    }
    brought(state, context)
}

/// The moment as of which the agent has the context, with which a refresh is stamped: the current one at the master, and else that
/// of its copy. None where there is nothing to send: its copy was never refreshed, or it holds no such context (X.525, section
/// 9). No memory.
pub fn stamp(state: &Holdings, context: &Name) -> Option<Moment>
    ensures { result ≡ stamp_of state.now (key_of context.now) }
{
    if mastered(state, context).is_some() {
        return Some(state.moment());
    }
    copied(state, context)?.stamp()
}
