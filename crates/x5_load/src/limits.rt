//! Limits of lists.

ghost use Rattle.std.specs.Prelude.{◌≤◌, length, OnOk};
ghost use Rattle.serde_json.specs.Events.{items_len};
ghost use Rattle.serde_json.specs.View.{items_view};
ghost use Rattle.x5_model_world.specs.Reading.{if_few};
ghost use Rattle.x5_world_members.specs.Paths.{path_of};
ghost use Rattle.x5_world_members.specs.Views.{ReadsPart};

use serde_json::Value;
use std::alloc::Global;
use x5_world_members::{LoadFault, Place};

/// The list at the place has no more members than this.
#[tactic(auto, using(x5_world_members::proofs::Items::counted))]
pub(crate) fn few(
    alloc: Global,
    place: &Place<'_>,
    most: u32,
    items: &[Value],
) -> Result<(), LoadFault>
    ensures read { ReadsPart (λ u. u) result (if_few (path_of place.now) most (items_len (items_view items.now)) tt) }
    ensures count { OnOk result (length items.now ≤ most) }
{
    if items.len() > most as usize {
        return Err(place.over_limit(alloc, most));
    }
    Ok(())
}
