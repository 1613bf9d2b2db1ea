//! What a filter is looked up by, and the nodes that are found so (X.511, section 7.8).

ghost use Rattle.std.specs.Prelude.{◌≡◌, ◌≤◌, length, IfOk, IsTrue};
ghost use Rattle.std.specs.Option.{option_copied};
ghost use Rattle.x5_model.specs.Words.{ascending};
ghost use Rattle.x5_match.specs.FilterView.{item_view, filter_view, filters_of};
ghost use Rattle.x5_index.specs.Index.{posting_below};
ghost use Rattle.x5_index.specs.Lookup as model;
ghost use Rattle.x5_index.specs.Places.{AreNodesOf, AreAsserted, nodes_with, place_of};

use crate::posting::{Posting, compare_terms, find};
use std::alloc::Global;
use std::marker::Model;
use x5_match::{Assertion, Filter, Item};
use x5_syntax::{NoMemory, Normal, TypeId, TypeRef};

/// Numbers of nodes.
#[derive(Drop)]
pub struct NodeList {
    nodes: Vec<usize>,
}

impl Model for NodeList {
    ghost use Rattle.std.specs.Prelude.{ℕ, List};

    ghost Value = { List ℕ };

    ghost view = { λ l. l.nodes.items };
}

impl NodeList {
    /// Its members. No memory.
    pub fn as_slice(&self) -> &[usize]
        ensures { result.now ≡ self.now }
    {
        self.nodes.as_slice()
    }
}

/// The assertion of an equality item on a type of the table.
fn known_equality(item: &Item) -> Option<&Assertion>
    ensures { option_copied result ≡ model.asserted_in (item_view item.now) }
{
    match item {
        Item::Equality(assertion) => match assertion.kind {
            TypeRef::Known(_) => Some(assertion),
            TypeRef::Unknown(_) => None,
        },
        _ => None,
    }
}

/// The same of a filter that is such an item.
fn equality_of(filter: &Filter) -> Option<&Assertion>
    ensures { option_copied result ≡ model.equality_in (filter_view filter.now) }
{
    match filter {
        Filter::Item(item) => known_equality(item),
        _ => None,
    }
}

/// The first of these members that is such an item.
fn first_equality(members: &[Filter]) -> Option<&Assertion>
    ensures { option_copied result ≡ model.first_equality (filters_of members.now) }
{
    for member in members {
        let found = equality_of(member);
        if found.is_some() {
            return found;
        }
    }
    None
}

/// What the filter is looked up by.
pub(crate) fn assertion_of(filter: &Filter) -> Option<&Assertion>
    ensures { option_copied result ≡ model.looked_up (filter_view filter.now) }
{
    match filter {
        Filter::And(members) => first_equality(members),
        _ => equality_of(filter),
    }
}

/// The nodes of the first postings, as far as they are of this type and normal form.
fn nodes_from(
    alloc: Global,
    postings: &[Posting],
    kind: TypeId,
    normal: &Normal,
) -> Result<NodeList, NoMemory>
    ensures { IfOk result (λ nodes. nodes ≡ nodes_with (kind, normal.now) postings.now) }
{
    let mut nodes = Vec::new(alloc);
    for posting in postings {
        if compare_terms(&posting.term, kind, normal).is_ne() {
            break;
        }
        nodes.push(posting.node)?;
    }
    Ok(NodeList { nodes })
}

/// The place from which on no posting is below all of this type and normal form.
fn first_place(postings: &[Posting], kind: TypeId, normal: &Normal) -> usize
    requires { IsTrue (ascending posting_below postings.now) }
    ensures place { result ≡ place_of postings.now (record { term = (kind, normal.now); node = 0 }) }
    ensures within { result ≤ length postings.now }
{
    match find(postings, kind, normal, 0) {
        Ok(place) => place,
        Err(place) => place,
    }
}

/// The nodes that have a value of this type and normal form.
fn nodes_of(
    alloc: Global,
    postings: &[Posting],
    kind: TypeId,
    normal: &Normal,
) -> Result<NodeList, NoMemory>
    requires { IsTrue (ascending posting_below postings.now) }
    ensures { IfOk result (λ nodes. AreNodesOf postings.now (kind, normal.now) nodes) }
{
    let first = first_place(postings, kind, normal);
    nodes_from(alloc, &postings[first..], kind, normal)
}

/// The nodes that have the asserted value; none where the value isn't of its type's kind.
pub(crate) fn asserted(
    alloc: Global,
    postings: &[Posting],
    assertion: &Assertion,
) -> Result<NodeList, NoMemory>
    requires { IsTrue (ascending posting_below postings.now) }
    ensures { IfOk result (λ nodes. AreAsserted postings.now assertion.now.kind assertion.now.normal nodes) }
{
    match (&assertion.kind, &assertion.normal) {
        (TypeRef::Known(kind), Some(normal)) => nodes_of(alloc, postings, *kind, normal),
        _ => Ok(NodeList {
            nodes: Vec::new(alloc),
        }),
    }
}
