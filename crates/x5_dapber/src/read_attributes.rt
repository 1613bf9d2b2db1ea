//! Attributes and changes of them (X.511, sections 7.6 and 11.3) that values of types of messages say.
ghost use Rattle.std.specs.Prelude.{◌≡◌, IfOk, All, map};
ghost use Rattle.x5_dapber.specs.Sayable.{IsAttribute, IsChange};
ghost use Rattle.x5_model_messages.specs.Terms as terms;
ghost use Rattle.x5_ops.specs.RequestViews.{attribute_view, change_view};
ghost use Rattle.x5_types.specs.NodeView.{node_view};

use crate::read_values::{type_in, values_in};
use std::alloc::Global;
use x5_memory::NoMemory;
use x5_ops::{Attribute, AttributeList, Change, ChangeList, Listed};
use x5_types::Node;

/// The attribute that the node says.
pub(crate) fn attribute_in(alloc: Global, node: &Node<'_>) -> Result<Attribute, NoMemory>
    requires { IsAttribute (node_view node.now) }
    ensures { IfOk result (λ a. attribute_view a ≡ terms.attribute_in (node_view node.now)) }
{
    let [kind, values] = node.parts() else {
        unreachable!()
    };
    let kind = type_in(alloc, kind)?;
    let values = values_in(alloc, values.parts())?;
    Ok(Attribute {
        kind,
        values: Listed::from_vec(values),
    })
}

/// The attributes that the nodes say.
pub(crate) fn attributes_in(alloc: Global, nodes: &[Node<'_>]) -> Result<AttributeList, NoMemory>
    requires { All (λ n. IsAttribute (node_view n)) nodes.now }
    ensures { IfOk result (λ l. map attribute_view l ≡ map terms.attribute_in (map node_view nodes.now)) }
{
    let mut attributes = Vec::with_capacity(alloc, nodes.len())?;
    for node in nodes {
        attributes.push(attribute_in(alloc, node)?)?;
    }
    Ok(AttributeList::from_vec(attributes))
}

fn change_in(alloc: Global, node: &Node<'_>) -> Result<Change, NoMemory>
    requires { IsChange (node_view node.now) }
    ensures { IfOk result (λ c. change_view c ≡ terms.change_in (node_view node.now)) }
{
    let Node::Chosen(tag, inner) = node else {
        unreachable!()
    };
    match *tag {
        0 => Ok(Change::AddAttribute(attribute_in(alloc, inner)?)),
        1 => Ok(Change::RemoveAttribute(type_in(alloc, inner)?)),
        2 => Ok(Change::AddValues(attribute_in(alloc, inner)?)),
        _ => Ok(Change::RemoveValues(attribute_in(alloc, inner)?)),
    }
}

/// The changes that the nodes say.
pub(crate) fn changes_in(alloc: Global, nodes: &[Node<'_>]) -> Result<ChangeList, NoMemory>
    requires { All (λ n. IsChange (node_view n)) nodes.now }
    ensures { IfOk result (λ l. map change_view l ≡ map terms.change_in (map node_view nodes.now)) }
{
    let mut changes = ChangeList::new(alloc);
    for node in nodes {
        changes.push(change_in(alloc, node)?)?;
    }
    Ok(changes)
}
