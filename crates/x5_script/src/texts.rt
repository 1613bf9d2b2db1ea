//! What single words spell: names, types, values, changes, numbers and octets.
ghost use Rattle.std.specs.Prelude.{◌≡◌, ◌==◌, IfOk, OnOk, if◌then◌else◌, length, map, option_map, ok_or};
ghost use Rattle.std.specs.List.{list_all, position, slice_split};
ghost use Rattle.std.specs.Char.{is_ascii_digit};
ghost use Rattle.x5_model.specs.Statics.{same_type};
ghost use Rattle.x5_model_script.specs.Words as model;
ghost use Rattle.x5_model_script.specs.Texts as texts;
ghost use Rattle.x5_match.specs.FilterView.{filter_view};
ghost use Rattle.x5_ops.specs.RequestViews.{attribute_view, change_view, subset_view};
ghost use Rattle.x5_script.specs.Views.{Says, pair_view};
ghost use Rattle.x5_syntax.specs.TypeView.{type_view};
ghost use Rattle.x5_syntax.specs.ValueView.{value_view};

use crate::command::ScriptFault;
use hex::FromHexError;
use std::alloc::{AllocError, Global};
use x5_match::{Filter, FilterFault};
use x5_memory::NoMemory;
use x5_names::{Name, NameFault, Rdn};
use x5_ops::{Attribute, Change, Subset, ValueList};
use x5_syntax::{Octets, SyntaxFault, TypeRef, Value};

/// What is found, or else the fault.
pub(crate) fn or_fault<T: Drop>(found: Option<T>, fault: ScriptFault) -> Result<T, ScriptFault>
    ensures { result ≡ ok_or found fault }
{
    found.ok_or(fault)
}

/// The name that the word at the column spells.
pub(crate) fn name_at(alloc: Global, column: usize, word: &str) -> Result<Name, ScriptFault>
    ensures { Says (λ name. name) result (model.or_fault (model.BadName column) (texts.name_in word.now)) }
{
    match Name::parse(alloc, word) {
        Ok(name) => Ok(name),
        Err(NameFault::NoMemory) => Err(ScriptFault::NoMemory),
        Err(_) => Err(ScriptFault::BadName(column)),
    }
}

/// The RDN that the word at the column spells.
pub(crate) fn rdn_at(alloc: Global, column: usize, word: &str) -> Result<Rdn, ScriptFault>
    ensures { Says (λ rdn. rdn) result (model.or_fault (model.BadName column) (texts.rdn_in word.now)) }
{
    match Rdn::parse(alloc, word) {
        Ok(rdn) => Ok(rdn),
        Err(NameFault::NoMemory) => Err(ScriptFault::NoMemory),
        Err(_) => Err(ScriptFault::BadName(column)),
    }
}

/// The filter that the word at the column spells.
pub(crate) fn filter_at(alloc: Global, column: usize, word: &str) -> Result<Filter, ScriptFault>
    ensures { Says filter_view result (model.or_fault (model.BadFilter column) (texts.filter_in word.now)) }
{
    match Filter::parse(alloc, word) {
        Ok(filter) => Ok(filter),
        Err(FilterFault::NoMemory) => Err(ScriptFault::NoMemory),
        Err(_) => Err(ScriptFault::BadFilter(column)),
    }
}

/// The octets whose hexadecimal digits the word at the column is.
pub(crate) fn octets_at(alloc: Global, column: usize, word: &str) -> Result<Octets, ScriptFault>
    ensures { Says (λ octets. octets) result (model.or_fault (model.BadHex column) (texts.octets_in word.now)) }
{
    match hex::decode(alloc, word) {
        Ok(octets) => Ok(Octets::new(octets)),
        Err(FromHexError::OutOfMemory) => Err(ScriptFault::NoMemory),
        Err(_) => Err(ScriptFault::BadHex(column)),
    }
}

/// Whether all octets are decimal digits.
fn are_digits(octets: &[u8]) -> bool
    ensures { result ≡ list_all is_ascii_digit octets.now }
{
    octets.iter().all(|octet| octet.is_ascii_digit())
}

/// Whether the octets are decimal digits, one at least and so many at most.
fn is_numeral(most: usize, octets: &[u8]) -> bool
    ensures { result ≡ texts.is_numeral most octets.now }
{
    are_digits(octets) && !octets.is_empty() && octets.len() <= most
}

/// The number below 2^32 that the text spells with so many digits at most.
fn number_of(most: usize, text: &str) -> Option<u32>
    ensures { result ≡ texts.number_in most text.now }
{
    if !is_numeral(most, text.as_bytes()) {
        return None;
    }
    text.parse().ok()
}

/// The number of an agreement.
pub(crate) fn agreement_of(text: &str) -> Option<u32>
    ensures { result ≡ texts.agreement_in text.now }
{
    number_of(7, text)
}

/// Which of the messages sent from now on is lost, from 1 to 1,000,000.
pub(crate) fn loss_of(text: &str) -> Option<u32>
    ensures { result ≡ texts.loss_in text.now }
{
    match number_of(7, text) {
        Some(k) if 1 <= k && k <= 1_000_000 => Some(k),
        _ => None,
    }
}

/// The size limit behind `size=`.
pub(crate) fn size_of(text: &str) -> Option<u32>
    ensures { result ≡ texts.size_in text.now }
{
    match text.strip_prefix("size=") {
        Some(digits) => number_of(10, digits),
        None => None,
    }
}

/// Whether the text is the first of two words, if it's one of them.
fn choice_of(so: &str, other: &str, text: &str) -> Option<bool>
    ensures { result ≡ texts.choice_in so.now other.now text.now }
{
    if text == so {
        Some(true)
    } else if text == other {
        Some(false)
    } else {
        None
    }
}

/// Whether a refresh is total.
pub(crate) fn strategy_of(text: &str) -> Option<bool>
    ensures { result ≡ texts.strategy_in text.now }
{
    choice_of("total", "incremental", text)
}

/// Whether a reply is lost, and not the message.
pub(crate) fn loss_kind_of(text: &str) -> Option<bool>
    ensures { result ≡ texts.loss_kind_in text.now }
{
    choice_of("reply", "message", text)
}

/// Whether the protocol is that between agents.
pub(crate) fn protocol_of(text: &str) -> Option<bool>
    ensures { result ≡ texts.protocol_in text.now }
{
    choice_of("dsp", "dap", text)
}

/// Where a search looks.
pub(crate) fn subset_of(text: &str) -> Option<Subset>
    ensures { option_map subset_view result ≡ texts.subset_in text.now }
{
    if text == "base" {
        Some(Subset::Base)
    } else if text == "one" {
        Some(Subset::One)
    } else if text == "tree" {
        Some(Subset::Tree)
    } else {
        None
    }
}

/// The parts of a text between its commas, one more than there are commas.
fn pieces(alloc: Global, text: &str) -> Result<Vec<&str>, AllocError>
    ensures { IfOk result (λ parts. map (λ x. x.now) parts.items ≡ slice_split texts.is_comma text.now) }
{
    text.split(',').collect(alloc)
}

/// The types that the texts spell, if each spells one.
fn types_of(alloc: Global, words: &[&str]) -> Result<Option<Vec<TypeRef>>, NoMemory>
    ensures { IfOk result (λ kinds. option_map (λ v. map type_view v.items) kinds ≡ texts.all_of texts.type_of (map (λ x. x.now) words.now)) }
{
    let mut kinds = Vec::new(alloc);
    for word in words {
        match TypeRef::parse(alloc, word)? {
            Some(kind) => kinds.push(kind)?,
            None => return Ok(None),
        }
    }
    Ok(Some(kinds))
}

/// The types of a list with commas, if each part is one; an empty text lists none.
fn types_in(alloc: Global, text: &str) -> Result<Option<Vec<TypeRef>>, NoMemory>
    ensures { IfOk result (λ kinds. option_map (λ v. map type_view v.items) kinds ≡ texts.types_in text.now) }
{
    if text.is_empty() {
        return Ok(Some(Vec::new(alloc)));
    }
    let words = pieces(alloc, text)?;
    types_of(alloc, &words)
}

/// The types listed behind `attrs=`.
pub(crate) fn attrs_of(alloc: Global, text: &str) -> Result<Option<Vec<TypeRef>>, NoMemory>
    ensures { IfOk result (λ kinds. option_map (λ v. map type_view v.items) kinds ≡ texts.attrs_in text.now) }
{
    match text.strip_prefix("attrs=") {
        Some(types) => types_in(alloc, types),
        None => Ok(None),
    }
}

/// The value of the type that the text spells, if it spells one within the limits.
fn value_of(alloc: Global, kind: &TypeRef, text: &str) -> Result<Option<Value>, NoMemory>
    ensures { IfOk result (λ value. option_map value_view value ≡ texts.value_in (type_view kind.now) text.now) }
{
    match Value::from_text(alloc, kind, text) {
        Ok(value) => Ok(Some(value)),
        Err(SyntaxFault::NoMemory) => Err(NoMemory),
        Err(_) => Ok(None),
    }
}

/// The type and the value of `T=value`.
pub(crate) fn pair_of(alloc: Global, text: &str) -> Result<Option<(TypeRef, Value)>, NoMemory>
    ensures { IfOk result (λ pair. option_map pair_view pair ≡ texts.pair_in text.now) }
{
    let Some((kind, value)) = text.split_once('=') else {
        return Ok(None);
    };
    let Some(kind) = TypeRef::parse(alloc, kind)? else {
        return Ok(None);
    };
    match value_of(alloc, &kind, value)? {
        Some(value) => Ok(Some((kind, value))),
        None => Ok(None),
    }
}

/// The values of the type that the texts spell, if each spells one.
fn values_of(alloc: Global, kind: &TypeRef, words: &[&str]) -> Result<Option<Vec<Value>>, NoMemory>
    ensures { IfOk result (λ values. option_map (λ v. map value_view v.items) values ≡ texts.all_of (texts.value_in (type_view kind.now)) (map (λ x. x.now) words.now)) }
{
    let mut values = Vec::new(alloc);
    for word in words {
        match value_of(alloc, kind, word)? {
            Some(value) => values.push(value)?,
            None => return Ok(None),
        }
    }
    Ok(Some(values))
}

/// The values of the type with commas between them.
fn values_in(alloc: Global, kind: &TypeRef, text: &str) -> Result<Option<Vec<Value>>, NoMemory>
    ensures { IfOk result (λ values. option_map (λ v. map value_view v.items) values ≡ texts.values_in (type_view kind.now) text.now) }
{
    let words = pieces(alloc, text)?;
    values_of(alloc, kind, &words)
}

/// The attribute of the type with the values of a list with commas.
fn attribute_for(alloc: Global, kind: TypeRef, text: &str) -> Result<Option<Attribute>, NoMemory>
    ensures { IfOk result (λ attribute. option_map attribute_view attribute ≡ texts.attribute_for text.now (type_view kind)) }
{
    match values_in(alloc, &kind, text)? {
        Some(values) => Ok(Some(Attribute {
            kind,
            values: ValueList::from_vec(values),
        })),
        None => Ok(None),
    }
}

/// The attribute of `T=v,v`.
fn attribute_of(alloc: Global, text: &str) -> Result<Option<Attribute>, NoMemory>
    ensures { IfOk result (λ attribute. option_map attribute_view attribute ≡ texts.attribute_in text.now) }
{
    let Some((kind, values)) = text.split_once('=') else {
        return Ok(None);
    };
    match TypeRef::parse(alloc, kind)? {
        Some(kind) => attribute_for(alloc, kind, values),
        None => Ok(None),
    }
}

/// The change of `new:T=v,v`, `drop:T`, `put:T=v,v` or `cut:T=v,v`.
pub(crate) fn change_of(alloc: Global, text: &str) -> Result<Option<Change>, NoMemory>
    ensures { IfOk result (λ change. option_map change_view change ≡ texts.change_in text.now) }
{
    if let Some(text) = text.strip_prefix("new:") {
        return Ok(attribute_of(alloc, text)?.map(Change::AddAttribute));
    }
    if let Some(text) = text.strip_prefix("drop:") {
        return Ok(TypeRef::parse(alloc, text)?.map(Change::RemoveAttribute));
    }
    if let Some(text) = text.strip_prefix("put:") {
        return Ok(attribute_of(alloc, text)?.map(Change::AddValues));
    }
    match text.strip_prefix("cut:") {
        Some(text) => Ok(attribute_of(alloc, text)?.map(Change::RemoveValues)),
        None => Ok(None),
    }
}

/// Whether the two are one type. No memory.
fn is_same_type(a: &TypeRef, b: &TypeRef) -> bool
    ensures { result ≡ same_type (type_view a.now) (type_view b.now) }
{
    match (a, b) {
        (TypeRef::Known(a), TypeRef::Known(b)) => a.number() == b.number(),
        (TypeRef::Unknown(a), TypeRef::Unknown(b)) => a.arcs() == b.arcs(),
        _ => false,
    }
}

/// The place of the attribute of the type. No memory.
pub(crate) fn place_of(attributes: &[Attribute], kind: &TypeRef) -> Option<usize>
    ensures { result ≡ position (λ a. same_type (type_view a.kind) (type_view kind.now)) attributes.now }
{
    attributes
        .iter()
        .position(|attribute| is_same_type(&attribute.kind, kind))
}
