//! Total refreshes.

ghost use Rattle.std.specs.Prelude.{◌≡◌, ◌<◌, true, length, slice_get, IsTrue, OnErr, OnOk, Some};
ghost use Rattle.std.specs.Option.{is_some};
ghost use Rattle.x5_model.specs.Values.{key_of};
ghost use Rattle.x5_model_run.specs.Holdings.{copy_at};
ghost use Rattle.x5_dse.specs.Linked.{entries_of};
ghost use Rattle.x5_holdings.specs.Placed.{IsCopyChanged};
ghost use Rattle.x5_holdings.specs.State.{CopyKept, holdings_view};
ghost use Rattle.x5_model_refreshed.specs.Doable.{AreWhole};
ghost use Rattle.x5_consume.specs.Ready.{CopyStands};
ghost use Rattle.x5_consume.specs.Taken.{IsReplaced, IsTaken};

use crate::building::held_of;
use crate::places::place_of;
use std::alloc::Global;
use x5_alike::are_alike;
use x5_holdings::{ChangeLog, Holdings};
use x5_memory::NoMemory;
use x5_names::Name;
use x5_ops::{Content, Moment, Named};

/// Whether these are the entries that refreshes brought of the copy of this place, as they are listed. No memory.
fn has_entries(state: &Holdings, place: usize, entries: &[Named]) -> bool
    requires { place < length state.now.copies }
    ensures { IsTrue result → CopyStands state.now place (λ copy kept. entries_of kept.nodes.nodes ≡ entries.now) }
{
    let copy = &state.copies()[place];
    let Some(held) = copy.held() else {
        return false;
    };
    match held.listing() {
        Some(listing) => are_alike(listing, entries),
        None => false,
    }
}

/// The copy of this place, which has these entries already, keeps them with their index; it takes the references and the stamp.
fn renew(
    alloc: Global,
    state: &mut Holdings,
    place: usize,
    content: Content,
    stamp: Moment,
) -> Result<(), NoMemory>
    requires { CopyStands state.old place (λ copy kept. entries_of kept.nodes.nodes ≡ content.entries) }
    ensures ok { OnOk result (IsCopyChanged state.old place (IsReplaced content stamp) state.new) }
    ensures err { OnErr result (state.new ≡ state.old) }
{
    let Content { specific, nssr, .. } = content;
    let log = ChangeLog::new(alloc, stamp);
    state.renew_copy(alloc, place, log, specific, nssr, stamp)?;
    Ok(())
}

/// The copy of this place becomes what was sent, with its stamp.
fn replace(
    alloc: Global,
    state: &mut Holdings,
    place: usize,
    content: Content,
    stamp: Moment,
) -> Result<(), NoMemory>
    requires { (c : CopyKept) × (slice_get state.old.copies place ≡ Some c) × AreWhole (key_of c.prefix) content.entries }
    ensures ok { OnOk result (IsCopyChanged state.old place (IsReplaced content stamp) state.new) }
    ensures err { OnErr result (state.new ≡ state.old) }
{
    let held = held_of(alloc, content, stamp)?;
    state.refresh_copy(place, held, stamp)?;
    Ok(())
}

/// Takes a total refresh (X.525, section 11.3): the agent's copy of the context is what was sent, with its stamp, and no changes
/// are known since. The agent has a copy of the context, refreshed or not; the entries are in the order of their keys, the
/// context's first, and each other behind the one above it, whose name it goes on. After want of memory all is as it was.
pub fn accept_total(
    alloc: Global,
    state: &mut Holdings,
    context: &Name,
    content: Content,
    stamp: Moment,
) -> Result<(), NoMemory>
    requires copied { is_some (copy_at (holdings_view state.old) (key_of context.now)) ≡ true }
    requires whole { AreWhole (key_of context.now) content.entries }
    ensures ok { OnOk result (IsTaken state.old (key_of context.now) (IsReplaced content stamp) state.new) }
    ensures err { OnErr result (state.new ≡ state.old) }
{
    let place = place_of(state, context);
    if has_entries(state, place, content.entries.as_slice()) {
        renew(alloc, state, place, content, stamp)
    } else {
        replace(alloc, state, place, content, stamp)
    }
}
