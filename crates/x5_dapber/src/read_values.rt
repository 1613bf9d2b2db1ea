//! Types, values and assertions (X.501, section 8) that values of types of messages say.
ghost use Rattle.std.specs.Prelude.{◌≡◌, IfOk, All, map, true};
ghost use Rattle.x5_dapber.specs.Sayable.{IsType, IsValue, IsAssertion};
ghost use Rattle.x5_model.specs.Assertions.{assertion_of};
ghost use Rattle.x5_model.specs.Normal as normal;
ghost use Rattle.x5_model_messages.specs.Terms as terms;
ghost use Rattle.x5_model_typed.specs.Rules as rules;
ghost use Rattle.x5_syntax.specs.TypeView.{type_view};
ghost use Rattle.x5_syntax.specs.ValueView.{value_view};
ghost use Rattle.x5_types.specs.NodeView.{node_view};

use std::alloc::Global;
use x5_memory::NoMemory;
use x5_rules::name_in;
use x5_syntax::{Octets, Oid, Text, TypeRef, Value};
use x5_types::Node;

/// The object identifier of these arcs.
fn oid_of(alloc: Global, arcs: &[u32]) -> Result<Oid, NoMemory>
    requires { normal.is_oid arcs.now ≡ true }
    ensures { IfOk result (λ oid. oid ≡ arcs.now) }
{
    let arcs = Vec::from_clones(alloc, arcs)?;
    let Some(oid) = Oid::new(arcs) else {
        unreachable!()
    };
    Ok(oid)
}

/// The attribute type that the node says.
pub fn type_in(alloc: Global, node: &Node<'_>) -> Result<TypeRef, NoMemory>
    requires { IsType (node_view node.now) }
    ensures { IfOk result (λ t. type_view t ≡ terms.type_in (node_view node.now)) }
{
    let Node::Oid(arcs) = node else {
        unreachable!()
    };
    Ok(TypeRef::from_oid(oid_of(alloc, arcs)?))
}

/// The value that the node says.
pub fn value_in(alloc: Global, node: &Node<'_>) -> Result<Value, NoMemory>
    requires { IsValue (node_view node.now) }
    ensures { IfOk result (λ v. value_view v ≡ rules.value_in (node_view node.now)) }
{
    match node {
        Node::Text(text) => Ok(Value::Text(Text::new(alloc, text.as_str())?)),
        Node::Octets(octets) => {
            let octets = Vec::from_clones(alloc, octets.as_slice())?;
            Ok(Value::Octets(Octets::new(octets)))
        }
        Node::Oid(arcs) => Ok(Value::Oid(oid_of(alloc, arcs)?)),
        _ => Ok(Value::Name(name_in(alloc, node)?)),
    }
}

/// The values that the nodes say.
pub fn values_in(alloc: Global, nodes: &[Node<'_>]) -> Result<Vec<Value>, NoMemory>
    requires { All (λ n. IsValue (node_view n)) nodes.now }
    ensures { IfOk result (λ vs. map value_view vs.items ≡ map rules.value_in (map node_view nodes.now)) }
{
    let mut values = Vec::with_capacity(alloc, nodes.len())?;
    for node in nodes {
        values.push(value_in(alloc, node)?)?;
    }
    Ok(values)
}

/// The type and the value of the assertion that the node says.
pub(crate) fn asserted_in(alloc: Global, node: &Node<'_>) -> Result<(TypeRef, Value), NoMemory>
    requires { IsAssertion (node_view node.now) }
    ensures { IfOk result (λ p. assertion_of (type_view p.0) (value_view p.1) ≡ terms.assertion_in (node_view node.now)) }
{
    let [kind, value] = node.parts() else {
        unreachable!()
    };
    Ok((type_in(alloc, kind)?, value_in(alloc, value)?))
}
