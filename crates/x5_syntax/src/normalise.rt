//! Normal forms, by which values of one type are compared (X.520: matching rules).

ghost use Rattle.std.specs.Prelude.{◌≡◌, ◌≤◌, ◌++◌, ◌∷◌, [], length, map, flat_map, IfOk, OnOk};
ghost use Rattle.x5_model.specs.Normal as model;
ghost use Rattle.x5_model.specs.Types.{kind_of};
ghost use Rattle.x5_syntax.specs.Views.{kind_view};
ghost use Rattle.x5_syntax.specs.ValueView.{value_view, Gives};

use crate::containers::{MOST_IN_PLACE, Normal, Text};
use crate::kinds::{Kind, TypeId};
use crate::names::{MOST_VALUE_OCTETS, RdnValue};
use crate::texts::{is_part_of_kind, is_text_of_kind, part_normal};
use crate::values::{SyntaxFault, Value};
use std::alloc::Global;
use x5_memory::NoMemory;

/// Four octets an arc.
fn arc_octets(alloc: Global, arcs: &[u32]) -> Result<Vec<u8>, NoMemory>
    ensures { IfOk result (λ octets. octets.items ≡ model.oid_normal arcs.now) }
{
    let mut octets = Vec::with_capacity(alloc, arcs.len().saturating_mul(4))?;
    for arc in arcs {
        octets.extend_from_slice(&arc.to_be_bytes())?;
    }
    Ok(octets)
}

/// How many arcs have their octets in place at most: nearly all object identifiers have no more.
const MOST_ARCS_IN_PLACE: usize = MOST_IN_PLACE / 4;

/// Four octets an arc, of few arcs. No memory.
fn few_arcs_normal(arcs: &[u32]) -> Normal
    requires { length arcs.now ≤ 7 }
    ensures { result ≡ model.oid_normal arcs.now }
{
    let mut octets = [0u8; MOST_IN_PLACE];
    for (i, arc) in arcs.iter().enumerate() {
        octets[4 * i..4 * i + 4].copy_from_slice(&arc.to_be_bytes());
    }
    Normal::from_first(4 * arcs.len(), octets)
}

/// The normal form of an object identifier: four octets an arc.
fn oid_normal(alloc: Global, arcs: &[u32]) -> Result<Normal, NoMemory>
    ensures { IfOk result (λ normal. normal ≡ model.oid_normal arcs.now) }
{
    if arcs.len() <= MOST_ARCS_IN_PLACE {
        return Ok(few_arcs_normal(arcs));
    }
    Ok(Normal::new(arc_octets(alloc, arcs)?))
}

/// The normal form of a text of the type, whatever its length.
pub fn text_normal(alloc: Global, kind: TypeId, text: &str) -> Result<Normal, NoMemory>
    ensures { IfOk result (λ normal. normal ≡ model.text_normal (kind_of kind) text.now) }
{
    part_normal(alloc, kind.kind(), true, true, text)
}

/// Adds a pair of a key: the type's number, the normal value and a zero.
fn add_pair(alloc: Global, out: &mut Vec<u8>, pair: &(TypeId, Text)) -> Result<(), NoMemory>
    ensures { OnOk result (out.new.items ≡ out.old.items ++ model.pair_octets (model.normal_pair pair.now)) }
{
    let normal = text_normal(alloc, pair.0, pair.1.as_str())?;
    out.push(pair.0.number())?;
    out.extend_from_slice(normal.as_slice())?;
    out.push(0)?;
    Ok(())
}

/// Adds the pairs of an RDN's key, and a zero.
fn add_rdn(alloc: Global, out: &mut Vec<u8>, pairs: &[(TypeId, Text)]) -> Result<(), NoMemory>
    ensures { OnOk result (out.new.items ≡ out.old.items ++ model.rdn_octets (map model.normal_pair pairs.now)) }
{
    for pair in pairs {
        add_pair(alloc, out, pair)?;
    }
    out.push(0)?;
    Ok(())
}

/// The key of a name as octets.
fn name_normal(alloc: Global, rdns: &[RdnValue]) -> Result<Vec<u8>, NoMemory>
    ensures { IfOk result (λ octets. octets.items ≡ model.key_octets (model.written_key rdns.now)) }
{
    let mut out = Vec::new(alloc);
    for rdn in rdns {
        add_rdn(alloc, &mut out, rdn.pairs())?;
    }
    Ok(out)
}

/// Whether the value is of the kind.
fn is_of_kind(kind: Kind, value: &Value) -> bool
    ensures { result ≡ model.is_of_kind (kind_view kind) (value_view value.now) }
{
    match value {
        Value::Text(text) => is_text_of_kind(kind, text.as_str().as_bytes()),
        Value::Octets(_) => kind == Kind::Octets,
        Value::Oid(oid) => {
            let _valid = oid.arcs();
            kind == Kind::Oid
        }
        Value::Name(name) => kind == Kind::Name && name.is_valid(),
    }
}

/// The normal form of a value of the kind.
fn normal_form(alloc: Global, kind: Kind, value: &Value) -> Result<Normal, NoMemory>
    ensures { IfOk result (λ normal. normal ≡ model.normal_form (kind_view kind) (value_view value.now)) }
{
    match value {
        Value::Text(text) => part_normal(alloc, kind, true, true, text.as_str()),
        Value::Octets(octets) => Normal::from_slice(alloc, octets.as_slice()),
        Value::Oid(oid) => oid_normal(alloc, oid.arcs()),
        Value::Name(name) => Ok(Normal::new(name_normal(alloc, name.rdns())?)),
    }
}

/// The normal form of a value for a type. `WrongSyntax` says that it isn't of the type's kind, `TooLong` that it is and passes
/// a limit.
pub fn normal(alloc: Global, kind: TypeId, value: &Value) -> Result<Normal, SyntaxFault>
    ensures { Gives (λ normal. normal) result (model.normal_of (kind_of kind) (value_view value.now)) }
{
    let kind = kind.kind();
    if !is_of_kind(kind, value) {
        return Err(SyntaxFault::WrongSyntax);
    }
    if let Some(most) = value.limit_passed() {
        return Err(SyntaxFault::TooLong(most));
    }
    Ok(normal_form(alloc, kind, value)?)
}

/// The normal form of a part of a substrings item for a type that has substrings: `first` says that it's the initial part, `last`
/// that it's the final one. `WrongSyntax` says that a character can't stand in a value of the type's kind.
pub fn normal_part(
    alloc: Global,
    kind: TypeId,
    value: &Value,
    first: bool,
    last: bool,
) -> Result<Normal, SyntaxFault>
    ensures { Gives (λ normal. normal) result (model.part_normal_of (kind_of kind) first last (value_view value.now)) }
{
    let Value::Text(text) = value else {
        return Err(SyntaxFault::WrongSyntax);
    };
    let kind = kind.kind();
    if !is_part_of_kind(kind, text.as_str().as_bytes()) {
        return Err(SyntaxFault::WrongSyntax);
    }
    if text.len() > MOST_VALUE_OCTETS {
        return Err(SyntaxFault::TooLong(MOST_VALUE_OCTETS as u32));
    }
    Ok(part_normal(alloc, kind, first, last, text.as_str())?)
}
