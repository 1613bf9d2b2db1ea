//! Requests and their arguments (X.511, sections 7 and 9 to 11) as values of types of messages.
ghost use Rattle.std.specs.Prelude.{◌≡◌, [], ◌∷◌, IfOk, map};
ghost use Rattle.x5_match.specs.FilterView.{filter_view};
ghost use Rattle.x5_model_messages.specs.Requests as requests;
ghost use Rattle.x5_model_messages.specs.FilterTerms.{filter_node as filter_node_of};
ghost use Rattle.x5_model_messages.specs.Terms.{node_of, name_node as name_node_of, rdn_node as rdn_node_of};
ghost use Rattle.x5_model_messages.specs.Terms.{type_node as type_node_of};
ghost use Rattle.x5_model_typed.specs.Leaves as leaves;
ghost use Rattle.x5_model_typed.specs.Nodes as nodes;
ghost use Rattle.x5_ops.specs.RequestViews.{controls_view, subset_view, selection_view, request_view};
ghost use Rattle.x5_syntax.specs.TypeView.{type_view};
ghost use Rattle.x5_types.specs.NodeView.{node_view};

use crate::attributes::{attributes_node, changes_node};
use crate::filters::filter_node;
use crate::names::{name_node, rdn_node, type_node};
use crate::parts::{four, many, number, one, three, two};
use crate::values::assertion_node;
use std::alloc::Global;
use x5_match::Filter;
use x5_memory::NoMemory;
use x5_names::{Name, Rdn};
use x5_ops::{Body, Controls, Request, Selection, Subset};
use x5_syntax::TypeRef;
use x5_types::Node;

/// The options dontUseCopy and chainingProhibited.
fn options_node<'a>(alloc: Global, nocopy: bool, nochain: bool) -> Result<Node<'a>, NoMemory>
    ensures { IfOk result (λ n. node_view n ≡ leaves.options_node nocopy nochain) }
{
    two(alloc, Node::Flag(nocopy), Node::Flag(nochain))
}

fn size_node<'a>(size: Option<u32>) -> Node<'a>
    ensures { node_view result ≡ requests.size_node size }
{
    match size {
        None => Node::Vacant,
        Some(entries) => number(entries),
    }
}

/// Service controls (X.511, section 7.5).
pub(crate) fn controls_node<'a>(alloc: Global, controls: Controls) -> Result<Node<'a>, NoMemory>
    ensures { IfOk result (λ n. node_view n ≡ requests.controls_node (controls_view controls)) }
{
    let options = options_node(alloc, controls.nocopy, controls.nochain)?;
    four(
        alloc,
        options,
        Node::Vacant,
        Node::Vacant,
        size_node(controls.size),
    )
}

/// The number of a subset (X.511, section 10.2.1).
fn subset_number(subset: Subset) -> u32
    ensures { result ≡ requests.subset_number (subset_view subset) }
{
    match subset {
        Subset::Base => 0,
        Subset::One => 1,
        Subset::Tree => 2,
    }
}

fn types_node<'a>(alloc: Global, kinds: &[TypeRef]) -> Result<Node<'a>, NoMemory>
    ensures { IfOk result (λ n. node_view n ≡ node_of (map type_node_of (map type_view kinds.now))) }
{
    let mut nodes = Vec::with_capacity(alloc, kinds.len())?;
    for kind in kinds {
        nodes.push(type_node(alloc, kind)?)?;
    }
    Ok(many(nodes))
}

/// A selection of attributes (X.511, section 7.6).
fn selection_node<'a>(alloc: Global, selection: &Selection) -> Result<Node<'a>, NoMemory>
    ensures { IfOk result (λ n. node_view n ≡ requests.selection_node (selection_view selection.now)) }
{
    match selection {
        Selection::All => one(alloc, Node::Vacant),
        Selection::Only(kinds) => one(alloc, types_node(alloc, kinds.as_slice())?),
    }
}

/// The argument of a search (X.511, section 10.2).
fn search_node<'a>(
    alloc: Global,
    base: &'a Name,
    subset: Subset,
    filter: &'a Filter,
    selection: &Selection,
    controls: Controls,
) -> Result<Node<'a>, NoMemory>
    ensures { IfOk result (λ n. node_view n ≡ node_of (name_node_of base.now ∷ nodes.whole (requests.subset_number (subset_view subset))
        ∷ filter_node_of (filter_view filter.now) ∷ requests.selection_node (selection_view selection.now)
        ∷ requests.controls_node (controls_view controls) ∷ [])) }
{
    let mut parts = Vec::with_capacity(alloc, 5)?;
    parts.push(name_node(alloc, base)?)?;
    parts.push(number(subset_number(subset)))?;
    parts.push(filter_node(alloc, filter)?)?;
    parts.push(selection_node(alloc, selection)?)?;
    parts.push(controls_node(alloc, controls)?)?;
    Ok(many(parts))
}

/// The argument of a modifyDN (X.511, section 11.4).
fn rename_node<'a>(
    alloc: Global,
    object: &'a Name,
    rdn: &'a Rdn,
    drop_old: bool,
    controls: Controls,
) -> Result<Node<'a>, NoMemory>
    ensures { IfOk result (λ n. node_view n ≡ node_of (name_node_of object.now ∷ rdn_node_of rdn.now ∷ nodes.Flag drop_old
        ∷ requests.controls_node (controls_view controls) ∷ [])) }
{
    let mut parts = Vec::with_capacity(alloc, 4)?;
    parts.push(name_node(alloc, object)?)?;
    parts.push(rdn_node(alloc, rdn)?)?;
    parts.push(Node::Flag(drop_old))?;
    parts.push(controls_node(alloc, controls)?)?;
    Ok(many(parts))
}

/// The argument of an operation that asks one thing of one entry.
fn entry_node<'a>(
    alloc: Global,
    object: &'a Name,
    asked: Node<'a>,
    controls: Controls,
) -> Result<Node<'a>, NoMemory>
    ensures { IfOk result (λ n. node_view n ≡ node_of (name_node_of object.now ∷ node_view asked.entry
        ∷ requests.controls_node (controls_view controls) ∷ [])) }
{
    let object = name_node(alloc, object)?;
    let controls = controls_node(alloc, controls)?;
    three(alloc, object, asked, controls)
}

/// The argument of an operation, with its controls.
pub fn argument_node<'a>(alloc: Global, request: &'a Request) -> Result<Node<'a>, NoMemory>
    ensures { IfOk result (λ n. node_view n ≡ requests.argument_node (request_view request.now)) }
{
    let controls = request.controls;
    match &request.body {
        Body::Read { object, selection } => {
            entry_node(alloc, object, selection_node(alloc, selection)?, controls)
        }
        Body::Compare {
            object,
            kind,
            value,
        } => entry_node(alloc, object, assertion_node(alloc, kind, value)?, controls),
        Body::List { object } | Body::Remove { object } => {
            let object = name_node(alloc, object)?;
            two(alloc, object, controls_node(alloc, controls)?)
        }
        Body::Search {
            base,
            subset,
            filter,
            selection,
        } => search_node(alloc, base, *subset, filter, selection, controls),
        Body::Add { object, attributes } => {
            let attributes = attributes_node(alloc, attributes.as_slice())?;
            entry_node(alloc, object, attributes, controls)
        }
        Body::Modify { object, changes } => {
            let changes = changes_node(alloc, changes.as_slice())?;
            entry_node(alloc, object, changes, controls)
        }
        Body::ModifyDn {
            object,
            rdn,
            drop_old,
        } => rename_node(alloc, object, rdn, *drop_old, controls),
    }
}
