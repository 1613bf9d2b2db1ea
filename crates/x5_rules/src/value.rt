//! Values of the attributes of an entry (X.501, section 8), and their normal forms, as nodes say them.
ghost use Rattle.std.specs.Prelude.{◌≡◌, ◌++◌, IfOk, OnOk, map};
ghost use Rattle.x5_model.specs.Normal as normal;
ghost use Rattle.x5_model.specs.Types.{kind_of};
ghost use Rattle.x5_model.specs.Values as values;
ghost use Rattle.x5_model_typed.specs.Leaves.{where_so};
ghost use Rattle.x5_model_typed.specs.Rules as rules;
ghost use Rattle.x5_types.specs.NodeView.{node_view};

use crate::name::name_in;
use crate::pair::is_text_of_kind;
use std::alloc::Global;
use x5_memory::NoMemory;
use x5_syntax::{Kind, NameValue, Normal, Oid, RdnValue, Text, TypeId, text_normal};
use x5_types::Node;

/// The normal form of a text, where it's a value of the type's kind.
fn normal_of_text(alloc: Global, kind: TypeId, text: &str) -> Result<Option<Normal>, NoMemory>
    ensures { IfOk result (λ n. n ≡ where_so (normal.is_of_kind (kind_of kind) (values.TextValue text.now)) (normal.normal_form (kind_of kind) (values.TextValue text.now))) }
{
    if !is_text_of_kind(kind.kind(), text.as_bytes()) {
        return Ok(None);
    }
    Ok(Some(text_normal(alloc, kind, text)?))
}

/// The normal form of octets, where they are a value of the type's kind.
fn normal_of_octets(alloc: Global, kind: TypeId, octets: &[u8]) -> Result<Option<Normal>, NoMemory>
    ensures { IfOk result (λ n. n ≡ where_so (normal.is_of_kind (kind_of kind) (values.OctetsValue octets.now)) (normal.normal_form (kind_of kind) (values.OctetsValue octets.now))) }
{
    if kind.kind() != Kind::Octets {
        return Ok(None);
    }
    Ok(Some(Normal::from_slice(alloc, octets)?))
}

/// Four octets an arc.
fn octets_of_arcs(alloc: Global, arcs: &[u32]) -> Result<Vec<u8>, NoMemory>
    ensures { IfOk result (λ octets. octets.items ≡ normal.oid_normal arcs.now) }
{
    let mut octets = Vec::with_capacity(alloc, arcs.len().saturating_mul(4))?;
    for arc in arcs {
        octets.extend_from_slice(&arc.to_be_bytes())?;
    }
    Ok(octets)
}

/// The normal form of an object identifier, where it's a value of the type's kind.
fn normal_of_arcs(alloc: Global, kind: TypeId, arcs: &[u32]) -> Result<Option<Normal>, NoMemory>
    ensures { IfOk result (λ n. n ≡ where_so (normal.is_of_kind (kind_of kind) (values.OidValue arcs.now)) (normal.normal_form (kind_of kind) (values.OidValue arcs.now))) }
{
    if kind.kind() != Kind::Oid {
        return Ok(None);
    }
    match Oid::new(Vec::from_clones(alloc, arcs)?) {
        Some(_) => Ok(Some(Normal::new(octets_of_arcs(alloc, arcs)?))),
        None => Ok(None),
    }
}

/// Adds a pair of a key: the type's number, the normal value and a zero.
fn add_pair(alloc: Global, out: &mut Vec<u8>, pair: &(TypeId, Text)) -> Result<(), NoMemory>
    ensures { OnOk result (out.new.items ≡ out.old.items ++ normal.pair_octets (normal.normal_pair pair.now)) }
{
    let normal = text_normal(alloc, pair.0, pair.1.as_str())?;
    out.push(pair.0.number())?;
    out.extend_from_slice(normal.as_slice())?;
    out.push(0)?;
    Ok(())
}

/// Adds the pairs of an RDN's key, and a zero.
fn add_rdn(alloc: Global, out: &mut Vec<u8>, rdn: &RdnValue) -> Result<(), NoMemory>
    ensures { OnOk result (out.new.items ≡ out.old.items ++ normal.rdn_octets (map normal.normal_pair rdn.now)) }
{
    for pair in rdn.pairs() {
        add_pair(alloc, out, pair)?;
    }
    out.push(0)?;
    Ok(())
}

/// The key of a name as octets.
fn octets_of_name(alloc: Global, name: &NameValue) -> Result<Vec<u8>, NoMemory>
    ensures { IfOk result (λ octets. octets.items ≡ normal.key_octets (normal.written_key name.now)) }
{
    let mut out = Vec::new(alloc);
    for rdn in name.rdns() {
        add_rdn(alloc, &mut out, rdn)?;
    }
    Ok(out)
}

/// The normal form of a name, where it's a value of the type's kind.
fn normal_of_name(alloc: Global, kind: TypeId, name: &NameValue) -> Result<Option<Normal>, NoMemory>
    ensures { IfOk result (λ n. n ≡ where_so (normal.is_of_kind (kind_of kind) (values.NameOf name.now)) (normal.normal_form (kind_of kind) (values.NameOf name.now))) }
{
    if kind.kind() != Kind::Name || !name.is_valid() {
        return Ok(None);
    }
    Ok(Some(Normal::new(octets_of_name(alloc, name)?)))
}

/// The normal form of the value that the node says, where it's one of the type's kind.
pub fn normal_in(alloc: Global, kind: TypeId, node: &Node<'_>) -> Result<Option<Normal>, NoMemory>
    ensures { IfOk result (λ n. n ≡ where_so (rules.is_of_type kind (node_view node.now)) (rules.normal_in kind (node_view node.now))) }
{
    match node {
        Node::Text(text) => normal_of_text(alloc, kind, text.as_str()),
        Node::Octets(octets) => normal_of_octets(alloc, kind, octets.as_slice()),
        Node::Oid(arcs) => normal_of_arcs(alloc, kind, arcs),
        _ => normal_of_name(alloc, kind, &name_in(alloc, node)?),
    }
}
