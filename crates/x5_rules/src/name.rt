//! Names (X.501, section 9) that values of types say, with their keys.
ghost use Rattle.std.specs.Prelude.{◌≡◌, IfOk, map};
ghost use Rattle.x5_model.specs.Normal.{stored, stored_pair, stored_rdn};
ghost use Rattle.x5_model_typed.specs.Rules as rules;
ghost use Rattle.x5_types.specs.NodeView.{node_view};

use crate::pair::known_type;
use std::alloc::Global;
use x5_memory::NoMemory;
use x5_names::{Name, Pair, Rdn};
use x5_syntax::{NameValue, RdnValue, Text, TypeId};
use x5_types::Node;

/// The type that the node says, or the first one of the table. No memory.
pub fn type_in(node: &Node<'_>) -> TypeId
    ensures { result ≡ rules.type_number (node_view node.now) }
{
    match known_type(node) {
        Some(kind) => kind,
        None => TypeId::new(0).unwrap(),
    }
}

/// The text that the node says, or none.
pub fn text_in(alloc: Global, node: &Node<'_>) -> Result<Text, NoMemory>
    ensures { IfOk result (λ text. text ≡ rules.text_in (node_view node.now)) }
{
    match node {
        Node::Text(text) => Text::new(alloc, text.as_str()),
        _ => Text::new(alloc, ""),
    }
}

#[tactic(auto, using(crate::proofs::TwoParts::pair_missing))]
fn pair_in(alloc: Global, node: &Node<'_>) -> Result<(TypeId, Text), NoMemory>
    ensures { IfOk result (λ pair. pair ≡ rules.pair_in (node_view node.now)) }
{
    match node.two_parts() {
        Some((kind, value)) => Ok((type_in(kind), text_in(alloc, value)?)),
        None => Ok((TypeId::new(0).unwrap(), Text::new(alloc, "")?)),
    }
}

/// What is written of the RDN that the node says.
pub fn rdn_in(alloc: Global, node: &Node<'_>) -> Result<RdnValue, NoMemory>
    ensures { IfOk result (λ rdn. rdn ≡ rules.rdn_in (node_view node.now)) }
{
    let parts = node.parts();
    let mut pairs = Vec::with_capacity(alloc, parts.len())?;
    for part in parts {
        pairs.push(pair_in(alloc, part)?)?;
    }
    Ok(RdnValue::new(pairs))
}

/// What is written of the name that the node says.
pub fn name_in(alloc: Global, node: &Node<'_>) -> Result<NameValue, NoMemory>
    ensures { IfOk result (λ name. name ≡ rules.name_in (node_view node.now)) }
{
    let parts = node.parts();
    let mut rdns = Vec::with_capacity(alloc, parts.len())?;
    for part in parts {
        rdns.push(rdn_in(alloc, part)?)?;
    }
    Ok(NameValue::new(rdns))
}

/// The text that the node says, or none. No memory.
fn said<'n>(node: &'n Node<'_>) -> &'n str
    ensures { result.now ≡ rules.text_in (node_view node.now) }
{
    match node {
        Node::Text(text) => text.as_str(),
        _ => "",
    }
}

/// The pair that the node says, as it's stored.
#[tactic(auto, using(crate::proofs::TwoParts::pair_missing))]
fn stored_pair_in(alloc: Global, node: &Node<'_>) -> Result<Pair, NoMemory>
    ensures { IfOk result (λ pair. pair ≡ stored_pair (rules.pair_in (node_view node.now))) }
{
    match node.two_parts() {
        Some((kind, value)) => Pair::new(alloc, type_in(kind), said(value)),
        None => Pair::new(alloc, TypeId::new(0).unwrap(), ""),
    }
}

/// The RDN that the node says, as it's stored: of each pair its type's number and its text.
pub fn rdn_of(alloc: Global, node: &Node<'_>) -> Result<Rdn, NoMemory>
    ensures { IfOk result (λ rdn. rdn ≡ stored_rdn (rules.rdn_in (node_view node.now))) }
{
    let parts = node.parts();
    let mut pairs = Vec::with_capacity(alloc, parts.len())?;
    for part in parts {
        pairs.push(stored_pair_in(alloc, part)?)?;
    }
    Rdn::new(alloc, pairs)
}

/// The name that the node says: of each RDN its pairs, of each pair its type's number and its text.
pub fn name_of(alloc: Global, node: &Node<'_>) -> Result<Name, NoMemory>
    ensures { IfOk result (λ name. name ≡ stored (rules.name_in (node_view node.now))) }
{
    let parts = node.parts();
    let mut rdns = Vec::with_capacity(alloc, parts.len())?;
    for part in parts {
        rdns.push(rdn_of(alloc, part)?)?;
    }
    Name::new(alloc, rdns)
}
