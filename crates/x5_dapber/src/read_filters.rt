//! Filters (X.511, section 7.8) that values of types of messages say.
ghost use Rattle.std.specs.Prelude.{◌≡◌, IfOk, All, map};
ghost use Rattle.x5_dapber.specs.Sayable.{IsPiece, IsSubstrings, IsAssertion, IsItem, IsFilter, HasFilters};
ghost use Rattle.x5_match.specs.FilterView.{item_view, filter_view};
ghost use Rattle.x5_match.specs.PlaceView.{place_view};
ghost use Rattle.x5_model_messages.specs.FilterTerms as terms;
ghost use Rattle.x5_model_messages.specs.Terms.{assertion_in as assertion_of_node};
ghost use Rattle.x5_model_typed.specs.Nodes as nodes;
ghost use Rattle.x5_types.specs.NodeView.{node_view};

use crate::read_values::{asserted_in, type_in, value_in};
use std::alloc::Global;
use x5_match::{Assertion, Filter, Item, Piece, PieceList, PiecePlace, SubstringItem};
use x5_memory::NoMemory;
use x5_types::Node;

/// Where a part with the context tag stands.
fn place_of_tag(tag: u32) -> PiecePlace
    ensures { place_view result ≡ terms.place_of_tag tag }
{
    match tag {
        0 => PiecePlace::Initial,
        1 => PiecePlace::Any,
        _ => PiecePlace::Last,
    }
}

fn piece_in(alloc: Global, node: &Node<'_>) -> Result<Piece, NoMemory>
    requires { IsPiece (node_view node.now) }
    ensures { IfOk result (λ p. p ≡ terms.piece_in (node_view node.now)) }
{
    let Node::Chosen(tag, value) = node else {
        unreachable!()
    };
    Ok(Piece {
        place: place_of_tag(*tag),
        value: value_in(alloc, value)?,
    })
}

fn pieces_in(alloc: Global, nodes: &[Node<'_>]) -> Result<PieceList, NoMemory>
    requires { All (λ n. IsPiece (node_view n)) nodes.now }
    ensures { IfOk result (λ ps. ps ≡ map terms.piece_in (map node_view nodes.now)) }
{
    let mut pieces = PieceList::new(alloc);
    for node in nodes {
        pieces.push(piece_in(alloc, node)?)?;
    }
    Ok(pieces)
}

fn substrings_in(alloc: Global, node: &Node<'_>) -> Result<SubstringItem, NoMemory>
    requires { IsSubstrings (node_view node.now) }
    ensures { IfOk result (λ s. s ≡ terms.substrings_in (node_view node.now)) }
{
    let [kind, pieces] = node.parts() else {
        unreachable!()
    };
    let kind = type_in(alloc, kind)?;
    let pieces = pieces_in(alloc, pieces.parts())?;
    SubstringItem::new(alloc, kind, pieces)
}

fn assertion_in(alloc: Global, node: &Node<'_>) -> Result<Assertion, NoMemory>
    requires { IsAssertion (node_view node.now) }
    ensures { IfOk result (λ a. a ≡ assertion_of_node (node_view node.now)) }
{
    let (kind, value) = asserted_in(alloc, node)?;
    Assertion::new(alloc, kind, value)
}

/// What is asserted of one type.
fn item_in(alloc: Global, node: &Node<'_>) -> Result<Item, NoMemory>
    requires { IsItem (node_view node.now) }
    ensures { IfOk result (λ i. item_view i ≡ terms.item_in (node_view node.now)) }
{
    let Node::Chosen(tag, inner) = node else {
        unreachable!()
    };
    match *tag {
        0 => Ok(Item::Equality(assertion_in(alloc, inner)?)),
        1 => Ok(Item::Substrings(substrings_in(alloc, inner)?)),
        2 => Ok(Item::GreaterOrEqual(assertion_in(alloc, inner)?)),
        3 => Ok(Item::LessOrEqual(assertion_in(alloc, inner)?)),
        4 => Ok(Item::Present(type_in(alloc, inner)?)),
        _ => Ok(Item::Approximate(assertion_in(alloc, inner)?)),
    }
}

/// The members of a filter that the node says.
#[cycle(filters)]
fn filters_in(alloc: Global, node: &Node<'_>) -> Result<Vec<Filter>, NoMemory>
    requires said { HasFilters (node_view node.now) }
    ensures members { IfOk result (λ v. map filter_view v.items ≡ map terms.filter_in (nodes.parts (node_view node.now))) }
{
    let Node::Many(nodes) = node else {
        unreachable!()
    };
    let mut members = Vec::new(alloc);
    for node in nodes {
        members.push(filter_in(alloc, node)?)?;
    }
    Ok(members)
}

/// The filter that the node says.
#[cycle(filters)]
pub(crate) fn filter_in(alloc: Global, node: &Node<'_>) -> Result<Filter, NoMemory>
    requires said { IsFilter (node_view node.now) }
    ensures filter { IfOk result (λ f. filter_view f ≡ terms.filter_in (node_view node.now)) }
{
    let Node::Chosen(tag, inner) = node else {
        unreachable!()
    };
    match *tag {
        0 => Ok(Filter::Item(item_in(alloc, inner)?)),
        1 => Ok(Filter::And(filters_in(alloc, inner)?)),
        2 => Ok(Filter::Or(filters_in(alloc, inner)?)),
        _ => Ok(Filter::Not(Box::new(alloc, filter_in(alloc, inner)?)?)),
    }
}
