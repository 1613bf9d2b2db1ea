//! Types, names and RDNs (X.501, section 9) as values of types of messages.
ghost use Rattle.std.specs.Prelude.{◌≡◌, IfOk, map};
ghost use Rattle.x5_model.specs.Values as values;
ghost use Rattle.x5_model_messages.specs.Terms as terms;
ghost use Rattle.x5_syntax.specs.TypeView.{type_view};
ghost use Rattle.x5_types.specs.NodeView.{node_view};

use crate::parts::{many, text, two};
use std::alloc::Global;
use x5_memory::NoMemory;
use x5_names::{Name, Pair, Rdn};
use x5_syntax::{NameValue, RdnValue, Text, TypeId, TypeRef};
use x5_types::Node;

/// A type of the table: the object identifier 2.5.4 and its number (X.520, section 5).
fn known_node<'a>(alloc: Global, kind: TypeId) -> Result<Node<'a>, NoMemory>
    ensures { IfOk result (λ n. node_view n ≡ terms.type_node (values.Known kind)) }
{
    Ok(Node::Oid(vec![in alloc; 2, 5, 4, u32::from(kind.number())]?))
}

/// An attribute type, by its object identifier.
pub fn type_node<'a>(alloc: Global, kind: &TypeRef) -> Result<Node<'a>, NoMemory>
    ensures { IfOk result (λ n. node_view n ≡ terms.type_node (type_view kind.now)) }
{
    match kind {
        TypeRef::Known(known) => known_node(alloc, *known),
        TypeRef::Unknown(oid) => Ok(Node::Oid(Vec::from_clones(alloc, oid.arcs())?)),
    }
}

fn written_pair_node<'a>(alloc: Global, pair: &'a (TypeId, Text)) -> Result<Node<'a>, NoMemory>
    ensures { IfOk result (λ n. node_view n ≡ terms.pair_node pair.now) }
{
    let kind = known_node(alloc, pair.0)?;
    two(alloc, kind, text(&pair.1))
}

fn written_rdn_node<'a>(alloc: Global, rdn: &'a RdnValue) -> Result<Node<'a>, NoMemory>
    ensures { IfOk result (λ n. node_view n ≡ terms.pairs_node rdn.now) }
{
    let mut pairs = Vec::with_capacity(alloc, rdn.pairs().len())?;
    for pair in rdn.pairs() {
        pairs.push(written_pair_node(alloc, pair)?)?;
    }
    Ok(many(pairs))
}

/// A value that is a name.
pub(crate) fn name_value_node<'a>(alloc: Global, name: &'a NameValue) -> Result<Node<'a>, NoMemory>
    ensures { IfOk result (λ n. node_view n ≡ terms.name_value_node name.now) }
{
    let mut rdns = Vec::with_capacity(alloc, name.rdns().len())?;
    for rdn in name.rdns() {
        rdns.push(written_rdn_node(alloc, rdn)?)?;
    }
    Ok(many(rdns))
}

fn pair_node<'a>(alloc: Global, pair: &'a Pair) -> Result<Node<'a>, NoMemory>
    ensures { IfOk result (λ n. node_view n ≡ terms.pair_node (values.written_pair pair.now)) }
{
    let kind = known_node(alloc, pair.kind())?;
    two(alloc, kind, text(pair.text()))
}

/// An RDN: a SET OF its pairs.
pub fn rdn_node<'a>(alloc: Global, rdn: &'a Rdn) -> Result<Node<'a>, NoMemory>
    ensures { IfOk result (λ n. node_view n ≡ terms.rdn_node rdn.now) }
{
    let mut pairs = Vec::with_capacity(alloc, rdn.pairs().len())?;
    for pair in rdn.pairs() {
        pairs.push(pair_node(alloc, pair)?)?;
    }
    Ok(many(pairs))
}

/// A name: a SEQUENCE OF its RDNs from the root.
pub fn name_node<'a>(alloc: Global, name: &'a Name) -> Result<Node<'a>, NoMemory>
    ensures { IfOk result (λ n. node_view n ≡ terms.name_node name.now) }
{
    let mut rdns = Vec::with_capacity(alloc, name.rdns().len())?;
    for rdn in name.rdns() {
        rdns.push(rdn_node(alloc, rdn)?)?;
    }
    Ok(many(rdns))
}
