//! Assertions and filters (X.511, section 7.8) on types of the table, read straight from octets: a filter of one item, which is an
//! equality or a presence, or several of these that have to hold together.
ghost use Rattle.std.specs.Prelude.{◌≡◌, ◌<◌, ◌==◌, ℕ, [], IfOk, false, length, map};
ghost use Rattle.x5_direct.specs.Spelled.{ReadEach, Reads};
ghost use Rattle.x5_match.specs.FilterView.{filter_view, item_view};
ghost use Rattle.x5_model.specs.Assertions.{assertion_of};
ghost use Rattle.x5_model_messages.specs.FilterTerms as filters;
ghost use Rattle.x5_model_messages.specs.Terms as terms;
ghost use Rattle.x5_model_typed.specs.Named as named;
ghost use Rattle.x5_syntax.specs.TypeView.{type_view};
ghost use Rattle.x5_syntax.specs.ValueView.{value_view};

use crate::usual_selections::known_type_in;
use std::alloc::Global;
use x5_direct::Unread;
use x5_direct::element::{opened, whole};
use x5_direct::names::{SHORT_OID, type_at};
use x5_direct::values::value_at;
use x5_match::{Assertion, Filter, Item};
use x5_syntax::{TypeRef, Value};

/// The type of the table and the value of the assertion that is all of the octets.
fn usual_assertion(alloc: Global, octets: &[u8]) -> Result<(TypeRef, Value), Unread>
    ensures { IfOk result (λ r. Reads 4 named.Assertion terms.assertion_in (assertion_of (type_view r.0) (value_view r.1)) octets.now []) }
{
    let content = whole(0x30, octets)?;
    let kind = type_at(content)?;
    let behind = &content[SHORT_OID..];
    let (value, taken) = value_at(alloc, behind)?;
    if taken != behind.len() {
        drop(value);
        return Err(Unread::Unusual);
    }
    Ok((TypeRef::Known(kind), value))
}

/// That the type has a value which equals one, as all of the octets say.
fn equality_in(alloc: Global, octets: &[u8]) -> Result<Item, Unread>
    ensures { IfOk result (λ i. Reads 5 named.Item filters.item_in (item_view i) octets.now []) }
{
    let content = whole(0xA0, octets)?;
    let (kind, value) = usual_assertion(alloc, content)?;
    Ok(Item::Equality(Assertion::new(alloc, kind, value)?))
}

/// That the type has a value, as all of the octets say.
fn presence_in(octets: &[u8]) -> Result<Item, Unread>
    ensures { IfOk result (λ i. Reads 5 named.Item filters.item_in (item_view i) octets.now []) }
{
    let content = whole(0xA4, octets)?;
    Ok(Item::Present(known_type_in(content)?))
}

/// The item that is all of the octets.
fn usual_item(alloc: Global, octets: &[u8]) -> Result<Item, Unread>
    ensures { IfOk result (λ i. Reads 5 named.Item filters.item_in (item_view i) octets.now []) }
{
    match octets {
        [0xA0, ..] => equality_in(alloc, octets),
        [0xA4, ..] => presence_in(octets),
        _ => Err(Unread::Unusual),
    }
}

/// The filter of one item that the octets begin with, and the octets behind it.
fn item_filter_at(alloc: Global, octets: &[u8]) -> Result<(Filter, &[u8]), Unread>
    ensures reads { IfOk result (λ r. (levels : ℕ) → (levels == 0) ≡ false → Reads 6 (named.Filter levels) filters.filter_in (filter_view r.0) octets.now r.1.now) }
    ensures less { IfOk result (λ r. length r.1.now < length octets.now) }
{
    let (content, rest) = opened(0xA0, octets)?;
    Ok((Filter::Item(usual_item(alloc, content)?), rest))
}

/// The filter of one item that is all of the octets.
fn one_item_in(alloc: Global, octets: &[u8]) -> Result<Filter, Unread>
    ensures { IfOk result (λ f. Reads 48 (named.Filter 16) filters.filter_in (filter_view f) octets.now []) }
{
    let (filter, rest) = item_filter_at(alloc, octets)?;
    if !rest.is_empty() {
        drop(filter);
        return Err(Unread::Unusual);
    }
    Ok(filter)
}

/// The filters of one item each that are all of the octets.
fn item_filters_in(alloc: Global, octets: &[u8]) -> Result<Vec<Filter>, Unread>
    ensures { IfOk result (λ v. ReadEach 6 (named.Filter 15) filters.filter_in (map filter_view v.items) octets.now) }
{
    let mut members = Vec::new(alloc);
    let mut left = octets;
    while !left.is_empty() {
        let (filter, rest) = item_filter_at(alloc, left)?;
        members.push(filter)?;
        left = rest;
    }
    Ok(members)
}

/// The filter of several items that have to hold together, which is all of the octets.
fn all_items_in(alloc: Global, octets: &[u8]) -> Result<Filter, Unread>
    ensures { IfOk result (λ f. Reads 48 (named.Filter 16) filters.filter_in (filter_view f) octets.now []) }
{
    let list = whole(0xA1, octets)?;
    let members = whole(0x31, list)?;
    Ok(Filter::And(item_filters_in(alloc, members)?))
}

/// The filter of one item, or of several that have to hold together, which is all of the octets.
pub(crate) fn usual_filter(alloc: Global, octets: &[u8]) -> Result<Filter, Unread>
    ensures { IfOk result (λ f. Reads 48 (named.Filter 16) filters.filter_in (filter_view f) octets.now []) }
{
    match octets {
        [0xA0, ..] => one_item_in(alloc, octets),
        [0xA1, ..] => all_items_in(alloc, octets),
        _ => Err(Unread::Unusual),
    }
}
