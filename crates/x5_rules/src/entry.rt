//! Entries of refreshes (X.525, section 10): from the entry itself, each type that agents know once, with values of its kind, each
//! once; they are kept in the order of an entry.
ghost use Rattle.std.specs.Prelude.{◌≡◌, ◌≤◌, ◌&&◌, IfOk, OnOk, map, not, true, length};
ghost use Rattle.std.specs.List.{list_all, position_or_len};
ghost use Rattle.std.specs.Option.{option_map};
ghost use Rattle.x5_model.specs.Words.{distinct, has, insert_sorted, octets_below, same_octets, sorted};
ghost use Rattle.x5_model_typed.specs.Leaves.{where_so};
ghost use Rattle.x5_model_typed.specs.Nodes as nodes;
ghost use Rattle.x5_model_typed.specs.Rules as rules;
ghost use Rattle.x5_rules.specs.Stored.{from_entry_in, stored_type_in};
ghost use Rattle.x5_types.specs.NodeView.{node_view, option_view};

use crate::pair::{known_type, type_number};
use crate::value::normal_in;
use std::alloc::Global;
use x5_memory::NoMemory;
use x5_syntax::{Normal, TypeId};
use x5_types::Node;

/// Whether one of the normal forms is that one.
fn is_among(normals: &[Normal], normal: &Normal) -> bool
    ensures { result ≡ has same_octets normals.now normal.now }
{
    for other in normals {
        if other.as_slice() == normal.as_slice() {
            return true;
        }
    }
    false
}

/// Whether the octets are below those of the other normal form.
fn is_below(a: &Normal, b: &Normal) -> bool
    ensures { result ≡ octets_below a.now b.now }
{
    a.as_slice().cmp(b.as_slice()).is_lt()
}

/// The place of the first normal form that isn't below that one.
fn place_of(normals: &[Normal], normal: &Normal) -> usize
    ensures place { result ≡ position_or_len (λ y. not (octets_below y normal.now)) normals.now }
    ensures inside { result ≤ length normals.now }
{
    for (i, other) in normals.iter().enumerate() {
        if !is_below(other, normal) {
            return i;
        }
    }
    normals.len()
}

/// Puts a value where the order of normal forms has it. False if it isn't of the type's kind, or is there already.
fn put_value<'a>(
    alloc: Global,
    kind: TypeId,
    normals: &mut Vec<Normal>,
    nodes: &mut Vec<Node<'a>>,
    node: Node<'a>,
) -> Result<bool, NoMemory>
    requires { normals.old.items ≡ map (rules.normal_in kind) (map node_view nodes.old.items) }
    ensures new { IfOk result (λ b. b ≡ (rules.is_of_type kind (node_view node.entry)
        && not (has (rules.same_value kind) (map node_view nodes.old.items) (node_view node.entry)))) }
    ensures put { IfOk result (λ b. b ≡ true
        → map node_view nodes.new.items ≡ insert_sorted (rules.value_below kind) (node_view node.entry) (map node_view nodes.old.items)) }
    ensures normals { IfOk result (λ b. b ≡ true → normals.new.items ≡ map (rules.normal_in kind) (map node_view nodes.new.items)) }
{
    let Some(normal) = normal_in(alloc, kind, &node)? else {
        drop(node);
        return Ok(false);
    };
    if is_among(normals, &normal) {
        drop(node);
        return Ok(false);
    }
    let place = place_of(normals, &normal);
    normals.insert(place, normal)?;
    nodes.insert(place, node)?;
    Ok(true)
}

/// Values of the type in the order of their normal forms, where all are of its kind, each once.
fn in_order<'a>(
    alloc: Global,
    kind: TypeId,
    mut values: Vec<Node<'a>>,
) -> Result<Option<Vec<Node<'a>>>, NoMemory>
    ensures { IfOk result (λ vs. option_map (λ v. map node_view v.items) vs
        ≡ where_so (list_all (rules.is_of_type kind) (map node_view values.entry.items) && distinct (rules.same_value kind) (map node_view values.entry.items)) (sorted (rules.value_below kind) (map node_view values.entry.items))) }
{
    let mut normals = Vec::with_capacity(alloc, values.len())?;
    let mut done = Vec::with_capacity(alloc, values.len())?;
    while let Some(value) = values.pop() {
        let put = put_value(alloc, kind, &mut normals, &mut done, value)?;
        if !put {
            return Ok(None);
        }
    }
    Ok(Some(done))
}

/// The parts of a node.
fn members_of<'a>(alloc: Global, node: Node<'a>) -> Vec<Node<'a>>
    ensures { map node_view result.items ≡ nodes.parts (node_view node.entry) }
{
    match node {
        Node::Many(members) => members,
        _ => {
            drop(node);
            Vec::new(alloc)
        }
    }
}

/// The type of an attribute with these parts, where they are a type that agents know, and values.
fn stored_type(parts: &[Node<'_>]) -> Option<TypeId>
    ensures { result ≡ stored_type_in (map node_view parts.now) }
{
    if parts.len() != 2 {
        return None;
    }
    known_type(&parts[0])
}

/// The attribute with its values in order, where it is of a type that agents know and its values are of the type's kind, each once.
fn stored<'a>(alloc: Global, node: Node<'a>) -> Result<Option<Node<'a>>, NoMemory>
    ensures { IfOk result (λ n. option_view n ≡ where_so (rules.is_stored (node_view node.entry)) (rules.in_order (node_view node.entry))) }
{
    let Node::Many(mut parts) = node else {
        drop(node);
        return Ok(None);
    };
    let Some(kind) = stored_type(&parts) else {
        return Ok(None);
    };
    let Some(values) = parts.pop() else {
        return Ok(None);
    };
    let Some(values) = in_order(alloc, kind, members_of(alloc, values))? else {
        return Ok(None);
    };
    parts.push(Node::Many(values))?;
    Ok(Some(Node::Many(parts)))
}

/// The number of an attribute's type.
#[tactic(auto, using(crate::proofs::TwoParts::no_type))]
fn attribute_type(node: &Node<'_>) -> u8
    ensures { result ≡ rules.attribute_type (node_view node.now) }
{
    match node.two_parts() {
        Some((kind, _)) => type_number(kind),
        None => 0,
    }
}

/// Whether one of the attributes is of the type.
fn has_type(nodes: &[Node<'_>], node: &Node<'_>) -> bool
    ensures { result ≡ has rules.same_attribute (map node_view nodes.now) (node_view node.now) }
{
    for other in nodes {
        if attribute_type(other) == attribute_type(node) {
            return true;
        }
    }
    false
}

/// The place of the first attribute whose type's number isn't smaller.
fn place_of_type(nodes: &[Node<'_>], node: &Node<'_>) -> usize
    ensures place { result ≡ position_or_len (λ y. not (rules.attribute_below y (node_view node.now))) (map node_view nodes.now) }
    ensures inside { result ≤ length nodes.now }
{
    for (i, other) in nodes.iter().enumerate() {
        if attribute_type(other) >= attribute_type(node) {
            return i;
        }
    }
    nodes.len()
}

/// Puts an attribute where the order of types has it.
fn put_in_order<'a>(nodes: &mut Vec<Node<'a>>, node: Node<'a>) -> Result<(), NoMemory>
    ensures { OnOk result (map node_view nodes.new.items ≡ insert_sorted rules.attribute_below (node_view node.entry) (map node_view nodes.old.items)) }
{
    let place = place_of_type(nodes, &node);
    nodes.insert(place, node)?;
    Ok(())
}

/// Puts an attribute that is stored so where the order of types has it. False if it can't be, or its type is there already.
fn put_attribute<'a>(
    alloc: Global,
    nodes: &mut Vec<Node<'a>>,
    node: Node<'a>,
) -> Result<bool, NoMemory>
    ensures new { IfOk result (λ b. b ≡ (rules.is_stored (node_view node.entry)
        && not (has rules.same_attribute (map node_view nodes.old.items) (node_view node.entry)))) }
    ensures put { IfOk result (λ b. b ≡ true
        → map node_view nodes.new.items ≡ insert_sorted rules.attribute_below (rules.in_order (node_view node.entry)) (map node_view nodes.old.items)) }
{
    if has_type(nodes, &node) {
        drop(node);
        return Ok(false);
    }
    let Some(node) = stored(alloc, node)? else {
        return Ok(false);
    };
    put_in_order(nodes, node)?;
    Ok(true)
}

/// Attributes in the order of their types, where each is stored so, and each type stands once.
fn all_stored<'a>(
    alloc: Global,
    mut attributes: Vec<Node<'a>>,
) -> Result<Option<Vec<Node<'a>>>, NoMemory>
    ensures { IfOk result (λ vs. option_map (λ v. map node_view v.items) vs
        ≡ where_so (list_all rules.is_stored (map node_view attributes.entry.items) && distinct rules.same_attribute (map node_view attributes.entry.items)) (sorted rules.attribute_below (map rules.in_order (map node_view attributes.entry.items)))) }
{
    let mut done = Vec::with_capacity(alloc, attributes.len())?;
    while let Some(attribute) = attributes.pop() {
        let put = put_attribute(alloc, &mut done, attribute)?;
        if !put {
            return Ok(None);
        }
    }
    Ok(Some(done))
}

fn is_true(node: &Node<'_>) -> bool
    ensures { result ≡ rules.is_true (node_view node.now) }
{
    matches!(node, Node::Flag(true))
}

/// Whether the parts are a name, that it's from the entry itself, and attributes.
fn is_from_entry(parts: &[Node<'_>]) -> bool
    ensures { result ≡ from_entry_in (map node_view parts.now) }
{
    match parts {
        [_, from_entry, _] => is_true(from_entry),
        _ => false,
    }
}

/// An entry of a refresh.
pub(crate) fn entry<'a>(alloc: Global, node: Node<'a>) -> Result<Option<Node<'a>>, NoMemory>
    ensures { IfOk result (λ n. option_view n ≡ rules.entry_rule (node_view node.entry)) }
{
    let Node::Many(mut parts) = node else {
        drop(node);
        return Ok(None);
    };
    if !is_from_entry(&parts) {
        return Ok(None);
    }
    let Some(attributes) = parts.pop() else {
        return Ok(None);
    };
    let Some(attributes) = all_stored(alloc, members_of(alloc, attributes))? else {
        return Ok(None);
    };
    parts.push(Node::Many(attributes))?;
    Ok(Some(Node::Many(parts)))
}
