//! Filters (X.511, section 7.8) as values of types of messages.
ghost use Rattle.std.specs.Prelude.{◌≡◌, IfOk, map};
ghost use Rattle.x5_match.specs.FilterView.{item_view, filter_view};
ghost use Rattle.x5_match.specs.PlaceView.{place_view};
ghost use Rattle.x5_model_messages.specs.FilterTerms as terms;
ghost use Rattle.x5_model_messages.specs.Terms.{node_of, assertion_node as assertion_node_of};
ghost use Rattle.x5_model_typed.specs.Nodes as nodes;
ghost use Rattle.x5_types.specs.NodeView.{node_view};

use crate::names::type_node;
use crate::parts::{chosen, many, two};
use crate::values::{assertion_node, value_node};
use std::alloc::Global;
use x5_match::{Assertion, Filter, Item, Piece, PiecePlace, SubstringItem};
use x5_memory::NoMemory;
use x5_types::Node;

/// The context tag of a part of a substrings item, by where it stands.
fn place_tag(place: PiecePlace) -> u32
    ensures { result ≡ terms.place_tag (place_view place) }
{
    match place {
        PiecePlace::Initial => 0,
        PiecePlace::Any => 1,
        PiecePlace::Last => 2,
    }
}

fn piece_node<'a>(alloc: Global, piece: &'a Piece) -> Result<Node<'a>, NoMemory>
    ensures { IfOk result (λ n. node_view n ≡ terms.piece_node piece.now) }
{
    let value = value_node(alloc, &piece.value)?;
    chosen(alloc, place_tag(piece.place), value)
}

fn pieces_node<'a>(alloc: Global, pieces: &'a [Piece]) -> Result<Node<'a>, NoMemory>
    ensures { IfOk result (λ n. node_view n ≡ node_of (map terms.piece_node pieces.now)) }
{
    let mut nodes = Vec::with_capacity(alloc, pieces.len())?;
    for piece in pieces {
        nodes.push(piece_node(alloc, piece)?)?;
    }
    Ok(many(nodes))
}

fn substrings_node<'a>(alloc: Global, item: &'a SubstringItem) -> Result<Node<'a>, NoMemory>
    ensures { IfOk result (λ n. node_view n ≡ terms.substrings_node item.now) }
{
    let kind = type_node(alloc, &item.kind)?;
    let pieces = pieces_node(alloc, item.pieces.as_slice())?;
    two(alloc, kind, pieces)
}

fn asserted<'a>(alloc: Global, tag: u32, assertion: &'a Assertion) -> Result<Node<'a>, NoMemory>
    ensures { IfOk result (λ n. node_view n ≡ nodes.Chosen tag (assertion_node_of assertion.now)) }
{
    let node = assertion_node(alloc, &assertion.kind, &assertion.value)?;
    chosen(alloc, tag, node)
}

/// What is asserted of one type, by its kind.
fn item_node<'a>(alloc: Global, item: &'a Item) -> Result<Node<'a>, NoMemory>
    ensures { IfOk result (λ n. node_view n ≡ terms.item_node (item_view item.now)) }
{
    match item {
        Item::Equality(assertion) => asserted(alloc, 0, assertion),
        Item::Substrings(item) => chosen(alloc, 1, substrings_node(alloc, item)?),
        Item::GreaterOrEqual(assertion) => asserted(alloc, 2, assertion),
        Item::LessOrEqual(assertion) => asserted(alloc, 3, assertion),
        Item::Present(kind) => chosen(alloc, 4, type_node(alloc, kind)?),
        Item::Approximate(assertion) => asserted(alloc, 5, assertion),
    }
}

/// A filter, by its kind.
pub(crate) fn filter_node<'a>(alloc: Global, filter: &'a Filter) -> Result<Node<'a>, NoMemory>
    ensures { IfOk result (λ n. node_view n ≡ terms.filter_node (filter_view filter.now)) }
{
    match filter {
        Filter::Item(item) => chosen(alloc, 0, item_node(alloc, item)?),
        Filter::And(members) => {
            let mut nodes = Vec::with_capacity(alloc, members.len())?;
            for member in members {
                nodes.push(filter_node(alloc, member)?)?;
            }
            chosen(alloc, 1, many(nodes))
        }
        Filter::Or(members) => {
            let mut nodes = Vec::with_capacity(alloc, members.len())?;
            for member in members {
                nodes.push(filter_node(alloc, member)?)?;
            }
            chosen(alloc, 2, many(nodes))
        }
        Filter::Not(member) => chosen(alloc, 3, filter_node(alloc, member)?),
    }
}
