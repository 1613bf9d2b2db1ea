//! A total refresh (X.525, section 10) read straight from octets, where it's spelled as usual: definite lengths, strings in one piece,
//! and entries, attributes and values in their order. Entries that come again as they were seen aren't read again.
ghost use Rattle.std.specs.Prelude.{◌≡◌, ◌<◌, ◌≤◌, ◌∷◌, IfOk, IfSome, [], drop, length, map};
ghost use Rattle.x5_direct.specs.Here.{ReadsHere};
ghost use Rattle.x5_dispber.specs.Direct.{LeafAt};
ghost use Rattle.x5_dispber.specs.ShadowViews.{told_known, told_other, told_shadow};
ghost use Rattle.x5_model_messages.specs.Shadows as shadows;
ghost use Rattle.x5_model_typed.specs.Layouts as layouts;
ghost use Rattle.x5_model_typed.specs.Leaves as leaves;
ghost use Rattle.x5_model_typed.specs.Named as named;
ghost use Rattle.x5_model_typed.specs.Nodes as nodes;
ghost use Rattle.x5_types.specs.FormView.{world};
ghost use Rattle.x5_types.specs.NodeView.{node_view};

use crate::direct_references::{all_known_at, all_others_at, leaf_at};
use crate::read_again::ReadEntries;
use crate::shadow::{Refresh, Shadow};
use std::alloc::Global;
use x5_direct::Unread;
use x5_direct::element::opened;
use x5_know::{AgentNames, Start};
use x5_ops::{Content, Moment};
use x5_types::{Leaf, Node, Numbers, Surroundings};

/// The number that the node says, if it says one of four octets at most that isn't negative.
fn number_of(node: &Node<'_>) -> Option<u32>
    ensures { IfSome result (λ m. node_view node.now ≡ nodes.whole m) }
{
    match node {
        Node::Number(number) => u32::try_from(*number).ok(),
        _ => None,
    }
}

/// The number that the octets begin with, and how many octets it takes.
fn number_at(alloc: Global, octets: &[u8]) -> Result<(u32, usize), Unread>
    ensures says { IfOk result (λ r. LeafAt (leaves.number (leaves.from_to 0 4294967295)) 2 (nodes.whole r.0) octets.now (drop r.1 octets.now)) }
    ensures some { IfOk result (λ r. (0 < r.1) × (r.1 ≤ length octets.now)) }
{
    let numbers = Leaf::Number(Numbers::FromTo(0, 4_294_967_295));
    let (node, taken) = leaf_at(alloc, Surroundings::Nowhere, 0x02, numbers, octets)?;
    match number_of(&node) {
        Some(number) => Ok((number, taken)),
        None => Err(Unread::Unusual),
    }
}

/// The moment whose date and time the octets begin with, and how many octets that takes.
fn moment_at(
    alloc: Global,
    start: &Start,
    names: &AgentNames,
    octets: &[u8],
) -> Result<(Moment, usize), Unread>
    ensures says { IfOk result (λ r. LeafAt (layouts.time_leaf (world start.now names.now)) 24 (nodes.whole r.0) octets.now (drop r.1 octets.now)) }
    ensures some { IfOk result (λ r. (0 < r.1) × (r.1 ≤ length octets.now)) }
{
    let surroundings = Surroundings::World(start, names);
    let (node, taken) = leaf_at(alloc, surroundings, 0x18, Leaf::Time, octets)?;
    match number_of(&node) {
        Some(number) => Ok((Moment(number), taken)),
        None => Err(Unread::Unusual),
    }
}

/// The whole content of a context that all of the octets say.
fn content_in(
    alloc: Global,
    start: &Start,
    names: &AgentNames,
    seen: &mut ReadEntries,
    octets: &[u8],
) -> Result<Content, Unread>
    ensures { IfOk result (λ c. ReadsHere (world start.now names.now) 9 named.Total shadows.total_in
        (shadows.Total c.entries (map (told_known names.now) c.specific) (map (told_other names.now) c.nssr)) octets.now []) }
{
    let (content, rest) = opened(0x30, octets)?;
    let (first, behind) = opened(0x30, content)?;
    let (second, last) = opened(0x30, behind)?;
    let (third, end) = opened(0x30, last)?;
    if rest.len() + end.len() > 0 {
        return Err(Unread::Unusual);
    }
    let entries = seen.read(alloc, first)?;
    let specific = all_known_at(alloc, start, names, second)?;
    let nssr = all_others_at(alloc, start, names, third)?;
    Ok(Content {
        entries,
        specific,
        nssr,
    })
}

/// What a supplier sends, a total refresh, which all of the octets say.
fn sent_in(
    alloc: Global,
    start: &Start,
    names: &AgentNames,
    seen: &mut ReadEntries,
    octets: &[u8],
) -> Result<Shadow, Unread>
    ensures { IfOk result (λ m. ReadsHere (world start.now names.now) 11 named.UpdateArgument (shadows.argument_in 2) (told_shadow names.now m) octets.now []) }
{
    let (content, rest) = opened(0x30, octets)?;
    let (agreement, size) = number_at(alloc, content)?;
    let behind = &content[size..];
    let (stamp, taken) = moment_at(alloc, start, names, behind)?;
    let (chosen, end) = opened(0xa0, &behind[taken..])?;
    if rest.len() + end.len() > 0 {
        return Err(Unread::Unusual);
    }
    let total = content_in(alloc, start, names, seen, chosen)?;
    let refresh = Refresh::Total(total);
    Ok(Shadow::Update {
        agreement,
        stamp,
        refresh,
    })
}

/// What's sent, behind the code of the operation that sends it.
fn sent_behind(octets: &[u8]) -> Option<&[u8]>
    ensures { IfSome result (λ r. octets.now ≡ 2 ∷ 1 ∷ 2 ∷ r.now) }
{
    let [identifier, length, code, sent @ ..] = octets else {
        return None;
    };
    if *identifier != 2 || *length != 1 || *code != 2 {
        return None;
    }
    Some(sent)
}

/// The id of a message of shadowing that is a total refresh, and what it says.
pub(crate) fn update_in(
    alloc: Global,
    start: &Start,
    names: &AgentNames,
    seen: &mut ReadEntries,
    octets: &[u8],
) -> Result<(u32, Shadow), Unread>
    ensures { IfOk result (λ r. ReadsHere (world start.now names.now) 12 named.DispMessage shadows.shadow_in (r.0, told_shadow names.now r.1) octets.now []) }
{
    let (content, rest) = opened(0xa1, octets)?;
    let (id, size) = number_at(alloc, content)?;
    let Some(sent) = sent_behind(&content[size..]) else {
        return Err(Unread::Unusual);
    };
    if !rest.is_empty() {
        return Err(Unread::Unusual);
    }
    let message = sent_in(alloc, start, names, seen, sent)?;
    Ok((id, message))
}
