//! Values and assertions of them (X.501, section 8) as values of types of messages.
ghost use Rattle.std.specs.Prelude.{◌≡◌, IfOk, map};
ghost use Rattle.x5_model.specs.Assertions.{assertion_of};
ghost use Rattle.x5_model_messages.specs.Terms as terms;
ghost use Rattle.x5_syntax.specs.TypeView.{type_view};
ghost use Rattle.x5_syntax.specs.ValueView.{value_view};
ghost use Rattle.x5_types.specs.NodeView.{node_view};

use crate::names::{name_value_node, type_node};
use crate::parts::{many, text, two};
use std::alloc::Global;
use x5_memory::NoMemory;
use x5_syntax::{TypeRef, Value};
use x5_types::{Bytes, Node};

/// A value, by its form.
pub fn value_node<'a>(alloc: Global, value: &'a Value) -> Result<Node<'a>, NoMemory>
    ensures { IfOk result (λ n. node_view n ≡ terms.value_node (value_view value.now)) }
{
    match value {
        Value::Text(characters) => Ok(text(characters)),
        Value::Octets(octets) => Ok(Node::Octets(Bytes::Lent(octets.as_slice()))),
        Value::Oid(oid) => Ok(Node::Oid(Vec::from_clones(alloc, oid.arcs())?)),
        Value::Name(name) => name_value_node(alloc, name),
    }
}

/// Values: a SET OF them.
pub fn values_node<'a>(alloc: Global, values: &'a [Value]) -> Result<Node<'a>, NoMemory>
    ensures { IfOk result (λ n. node_view n ≡ terms.node_of (map (λ v. terms.value_node (value_view v)) values.now)) }
{
    let mut nodes = Vec::with_capacity(alloc, values.len())?;
    for value in values {
        nodes.push(value_node(alloc, value)?)?;
    }
    Ok(many(nodes))
}

/// What is asserted of a type: that it has the value (X.501, section 8).
pub(crate) fn assertion_node<'a>(
    alloc: Global,
    kind: &TypeRef,
    value: &'a Value,
) -> Result<Node<'a>, NoMemory>
    ensures { IfOk result (λ n. node_view n
        ≡ terms.assertion_node (assertion_of (type_view kind.now) (value_view value.now))) }
{
    let kind = type_node(alloc, kind)?;
    let value = value_node(alloc, value)?;
    two(alloc, kind, value)
}
