//! Small parts of messages, read by the table of types.
ghost use Rattle.std.specs.Prelude.{◌<◌, ◌≤◌, IfOk, length};
ghost use Rattle.x5_direct.specs.Spelled.{Spelled};
ghost use Rattle.x5_model_typed.specs.Typed.{Spells};
ghost use Rattle.x5_types.specs.FormView.{named_view, table};
ghost use Rattle.x5_types.specs.NodeView.{node_view};

use crate::unread::Unread;
use std::alloc::Global;
use x5_typed::{ReadFault, read};
use x5_types::{Named, Node};

/// How many octets a part may take. Elements of so few octets lie at most 48 deep, as each takes two at least.
pub const MOST_PART: usize = 96;

/// How many octets the element that the octets begin with takes, if its tag is below 31 and its length in one octet, and they are
/// few (X.690, 8.1).
fn extent(octets: &[u8]) -> Result<usize, Unread>
    ensures few { IfOk result (λ taken. taken ≤ 96) }
    ensures within { IfOk result (λ taken. (0 < taken) × (taken ≤ length octets.now)) }
{
    let [first, count, ..] = octets else {
        return Err(Unread::Unusual);
    };
    if *first % 32 == 31 {
        return Err(Unread::Unusual);
    }
    let taken = *count as usize + 2;
    if taken > MOST_PART || taken > octets.len() {
        return Err(Unread::Unusual);
    }
    Ok(taken)
}

/// All of the octets as a value of the type.
fn whole<'a>(alloc: Global, form: Named, octets: &'a [u8]) -> Result<Node<'a>, Unread>
    ensures { IfOk result (λ n. Spells table (named_view form) octets.now (node_view n)) }
{
    match read(alloc, form, octets) {
        Ok(node) => Ok(node),
        Err(ReadFault::NoMemory) => Err(Unread::NoMemory),
        Err(ReadFault::Breach(_)) => Err(Unread::Unusual),
    }
}

/// The value of the type that the octets begin with, by the table of types, and the octets behind it. It takes few octets.
pub fn part_at<'a>(
    alloc: Global,
    form: Named,
    octets: &'a [u8],
) -> Result<(Node<'a>, &'a [u8]), Unread>
    ensures is { IfOk result (λ r. Spelled 48 (named_view form) (node_view r.0) octets.now r.1.now) }
    ensures less { IfOk result (λ r. length r.1.now < length octets.now) }
{
    let taken = extent(octets)?;
    let node = whole(alloc, form, &octets[..taken])?;
    Ok((node, &octets[taken..]))
}
