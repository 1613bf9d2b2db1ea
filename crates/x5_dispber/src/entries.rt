//! Entries of refreshes (X.525, section 10) as values of types of messages.
ghost use Rattle.std.specs.Prelude.{◌≡◌, IfOk, map};
ghost use Rattle.x5_model_messages.specs.Shadows as shadows;
ghost use Rattle.x5_model_messages.specs.Terms.{node_of, value_node as value_node_of};
ghost use Rattle.x5_types.specs.NodeView.{node_view};

use std::alloc::Global;
use x5_dapber::names::{name_node, type_node};
use x5_dapber::parts::many;
use x5_dapber::values::value_node;
use x5_match::{Stored, StoredValue};
use x5_memory::NoMemory;
use x5_ops::Named;
use x5_syntax::TypeRef;
use x5_types::Node;

fn values_node<'a>(alloc: Global, values: &'a [StoredValue]) -> Result<Node<'a>, NoMemory>
    ensures { IfOk result (λ n. node_view n ≡ node_of (map (λ v. value_node_of v.value) values.now)) }
{
    let mut nodes = Vec::with_capacity(alloc, values.len())?;
    for stored in values {
        nodes.push(value_node(alloc, &stored.value)?)?;
    }
    Ok(many(nodes))
}

fn stored_node<'a>(alloc: Global, attribute: &'a Stored) -> Result<Node<'a>, NoMemory>
    ensures { IfOk result (λ n. node_view n ≡ shadows.stored_node attribute.now) }
{
    let mut parts = Vec::with_capacity(alloc, 2)?;
    parts.push(type_node(alloc, &TypeRef::Known(attribute.kind))?)?;
    parts.push(values_node(alloc, attribute.values.as_slice())?)?;
    Ok(many(parts))
}

fn attributes_node<'a>(alloc: Global, attributes: &'a [Stored]) -> Result<Node<'a>, NoMemory>
    ensures { IfOk result (λ n. node_view n ≡ node_of (map shadows.stored_node attributes.now)) }
{
    let mut nodes = Vec::with_capacity(alloc, attributes.len())?;
    for attribute in attributes {
        nodes.push(stored_node(alloc, attribute)?)?;
    }
    Ok(many(nodes))
}

/// An entry with its name, all of it from the entry itself.
pub(crate) fn entry_node<'a>(alloc: Global, named: &'a Named) -> Result<Node<'a>, NoMemory>
    ensures { IfOk result (λ n. node_view n ≡ shadows.entry_node named.now) }
{
    let mut parts = Vec::with_capacity(alloc, 3)?;
    parts.push(name_node(alloc, &named.name)?)?;
    parts.push(Node::Flag(true))?;
    parts.push(attributes_node(alloc, named.entry.attributes())?)?;
    Ok(many(parts))
}

/// Entries: a SEQUENCE OF them.
pub(crate) fn entries_node<'a>(alloc: Global, entries: &'a [Named]) -> Result<Node<'a>, NoMemory>
    ensures { IfOk result (λ n. node_view n ≡ node_of (map shadows.entry_node entries.now)) }
{
    let mut nodes = Vec::with_capacity(alloc, entries.len())?;
    for entry in entries {
        nodes.push(entry_node(alloc, entry)?)?;
    }
    Ok(many(nodes))
}
