//! The copies of contexts.

ghost use Rattle.std.specs.Prelude.{◌≡◌, true, Some};
ghost use Rattle.std.specs.Option.{is_some};
ghost use Rattle.x5_model.specs.Values.{key_of};
ghost use Rattle.x5_model_run.specs.Holdings.{copy_at};
ghost use Rattle.x5_holdings.specs.Known.{IsPlaceOf};
ghost use Rattle.x5_holdings.specs.State.{copy_view, holdings_view};
ghost use Rattle.x5_consume.specs.Taken.{stamp_at};

use x5_holdings::Holdings;
use x5_names::Name;
use x5_ops::Moment;

/// The place of its copy of the context. No memory.
pub(crate) fn place_of(state: &Holdings, context: &Name) -> usize
    requires { is_some (copy_at (holdings_view state.now) (key_of context.now)) ≡ true }
    ensures { IsPlaceOf copy_view state.now.copies (copy_at (holdings_view state.now) (key_of context.now)) (Some result) }
{
    match state.copy_at(context.rdns()) {
        Some(place) => place,
        None => unreachable!(),
    }
}

/// The moment as of which the agent has its copy of the context: the stamp of the last refresh (X.525, section 9). None where the
/// copy was never refreshed, or there is no copy. No memory.
pub fn expected(state: &Holdings, context: &Name) -> Option<Moment>
    ensures { result ≡ stamp_at (holdings_view state.now) (key_of context.now) }
{
    let place = state.copy_at(context.rdns())?;
    let copy = state.copies().get(place)?;
    copy.stamp()
}
