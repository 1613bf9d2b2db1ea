//! Values (X.501, section 8).
ghost use Rattle.std.specs.Prelude.{◌<◌, ◌≤◌, IfOk, drop, length, map};
ghost use Rattle.x5_direct.specs.Spelled.{ReadEach, Reads};
ghost use Rattle.x5_model_typed.specs.Named as named;
ghost use Rattle.x5_model_typed.specs.Rules as rules;
ghost use Rattle.x5_syntax.specs.ValueView.{value_view};

use crate::element::opened;
use crate::names::{SHORT_OID, arcs_at, text_at};
use crate::unread::Unread;
use std::alloc::Global;
use x5_syntax::{MOST_VALUE_OCTETS, Octets, Oid, Text, Value};

/// A PrintableString.
fn text_value_at(alloc: Global, octets: &[u8]) -> Result<(Value, usize), Unread>
    ensures reads { IfOk result (λ r. Reads 3 named.Value rules.value_in (value_view r.0) octets.now (drop r.1 octets.now)) }
    ensures some { IfOk result (λ r. (0 < r.1) × (r.1 ≤ length octets.now)) }
{
    let (text, rest) = text_at(octets)?;
    let taken = octets.len() - rest.len();
    Ok((Value::Text(Text::new(alloc, text)?), taken))
}

/// An object identifier below 2.5 of two arcs more, each of one octet, as those of object classes are.
fn oid_value_at(alloc: Global, octets: &[u8]) -> Result<(Value, usize), Unread>
    ensures reads { IfOk result (λ r. Reads 3 named.Value rules.value_in (value_view r.0) octets.now (drop r.1 octets.now)) }
    ensures some { IfOk result (λ r. (0 < r.1) × (r.1 ≤ length octets.now)) }
{
    let Some((second, third)) = arcs_at(octets) else {
        return Err(Unread::Unusual);
    };
    let arcs = vec![in alloc; 2, 5, u32::from(second), u32::from(third)]?;
    match Oid::new(arcs) {
        Some(oid) => Ok((Value::Oid(oid), SHORT_OID)),
        None => Err(Unread::Unusual),
    }
}

/// An OCTET STRING.
fn octets_value_at(alloc: Global, octets: &[u8]) -> Result<(Value, usize), Unread>
    ensures reads { IfOk result (λ r. Reads 3 named.Value rules.value_in (value_view r.0) octets.now (drop r.1 octets.now)) }
    ensures some { IfOk result (λ r. (0 < r.1) × (r.1 ≤ length octets.now)) }
{
    let (content, rest) = opened(0x04, octets)?;
    if content.len() > MOST_VALUE_OCTETS {
        return Err(Unread::Unusual);
    }
    let taken = octets.len() - rest.len();
    let content = Vec::from_slice(alloc, content)?;
    Ok((Value::Octets(Octets::new(content)), taken))
}

/// The value that the octets begin with, and how many octets it takes: a printable text, an object identifier below 2.5, or octets.
pub fn value_at(alloc: Global, octets: &[u8]) -> Result<(Value, usize), Unread>
    ensures reads { IfOk result (λ r. Reads 3 named.Value rules.value_in (value_view r.0) octets.now (drop r.1 octets.now)) }
    ensures some { IfOk result (λ r. (0 < r.1) × (r.1 ≤ length octets.now)) }
{
    match octets {
        [0x13, ..] => text_value_at(alloc, octets),
        [0x06, ..] => oid_value_at(alloc, octets),
        [0x04, ..] => octets_value_at(alloc, octets),
        _ => Err(Unread::Unusual),
    }
}

/// The values that are all of the octets.
pub(crate) fn values_in(alloc: Global, octets: &[u8]) -> Result<Vec<Value>, Unread>
    ensures { IfOk result (λ vs. ReadEach 3 named.Value rules.value_in (map value_view vs.items) octets.now) }
{
    let mut values = Vec::with_capacity(alloc, 1)?;
    let mut left = octets;
    while !left.is_empty() {
        let (value, taken) = value_at(alloc, left)?;
        values.push(value)?;
        left = &left[taken..];
    }
    Ok(values)
}
