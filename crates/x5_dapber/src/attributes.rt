//! Attributes and changes of them (X.511, sections 7.6 and 11.3) as values of types of messages.
ghost use Rattle.std.specs.Prelude.{◌≡◌, IfOk, map};
ghost use Rattle.x5_model_messages.specs.Terms as terms;
ghost use Rattle.x5_ops.specs.RequestViews.{attribute_view, change_view};
ghost use Rattle.x5_types.specs.NodeView.{node_view};

use crate::names::type_node;
use crate::parts::{chosen, many, two};
use crate::values::values_node;
use std::alloc::Global;
use x5_memory::NoMemory;
use x5_ops::{Attribute, Change};
use x5_types::Node;

/// A type and values of it.
pub(crate) fn attribute_node<'a>(
    alloc: Global,
    attribute: &'a Attribute,
) -> Result<Node<'a>, NoMemory>
    ensures { IfOk result (λ n. node_view n ≡ terms.attribute_node (attribute_view attribute.now)) }
{
    let kind = type_node(alloc, &attribute.kind)?;
    let values = values_node(alloc, attribute.values.as_slice())?;
    two(alloc, kind, values)
}

/// Attributes: a SET OF them.
pub(crate) fn attributes_node<'a>(
    alloc: Global,
    attributes: &'a [Attribute],
) -> Result<Node<'a>, NoMemory>
    ensures { IfOk result (λ n. node_view n ≡ terms.node_of (map terms.attribute_node (map attribute_view attributes.now))) }
{
    let mut nodes = Vec::with_capacity(alloc, attributes.len())?;
    for attribute in attributes {
        nodes.push(attribute_node(alloc, attribute)?)?;
    }
    Ok(many(nodes))
}

/// A change of an entry (X.511, section 11.3.2), by its kind.
fn change_node<'a>(alloc: Global, change: &'a Change) -> Result<Node<'a>, NoMemory>
    ensures { IfOk result (λ n. node_view n ≡ terms.change_node (change_view change.now)) }
{
    match change {
        Change::AddAttribute(attribute) => chosen(alloc, 0, attribute_node(alloc, attribute)?),
        Change::RemoveAttribute(kind) => chosen(alloc, 1, type_node(alloc, kind)?),
        Change::AddValues(attribute) => chosen(alloc, 2, attribute_node(alloc, attribute)?),
        Change::RemoveValues(attribute) => chosen(alloc, 3, attribute_node(alloc, attribute)?),
    }
}

/// Changes: a SEQUENCE OF them.
pub(crate) fn changes_node<'a>(alloc: Global, changes: &'a [Change]) -> Result<Node<'a>, NoMemory>
    ensures { IfOk result (λ n. node_view n ≡ terms.node_of (map terms.change_node (map change_view changes.now))) }
{
    let mut nodes = Vec::with_capacity(alloc, changes.len())?;
    for change in changes {
        nodes.push(change_node(alloc, change)?)?;
    }
    Ok(many(nodes))
}
