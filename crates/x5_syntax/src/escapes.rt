//! Escapes in the text of a value (docs/FORMATS.md, names and values as text).

ghost use Rattle.std.specs.Prelude.{◌≡◌, ◌+◌, ◌^◌, ◌<◌, ◌++◌, length, flat_map, map, IfOk, IfSome, OnOk};
ghost use Rattle.std.specs.List.{position};
ghost use Rattle.x5_model.specs.Normal as model;
ghost use Rattle.x5_model_text.specs.ValueText as text_of;
ghost use Rattle.std.specs.Char.{digit_char};
ghost use Rattle.hex.specs.Hex.{hex_digit_value};
ghost use Rattle.x5_syntax.specs.Escapes.{Adds, Resolves, span};
ghost use Rattle.x5_syntax.specs.declared.escapes.EscapeFault.TheVariants.{NoMemory as NoMemoryFault};

use crate::containers::{Octets, Text};
use crate::oid::{is_cut, pieces};
use std::alloc::{AllocError, AllocFailed, Global};
use thiserror::Error;
use x5_memory::NoMemory;

/// Why a text has no resolved form.
#[derive(Clone, Copy, Debug, PartialEq, Eq, Error)]
pub enum EscapeFault {
    /// The octet at this place can't stand there: a control character, or a `\` without two hexadecimal digits behind it.
    #[error("octet {0} can't stand in a value")]
    Bad(usize),
    #[error("out of memory")]
    NoMemory,
}

impl From<AllocError> for EscapeFault {
    ghost from_gives = { λ _ fault. fault ≡ NoMemoryFault };

    fn from(_: AllocError) -> Self {
        EscapeFault::NoMemory
    }
}

impl<T: Drop> From<AllocFailed<T>> for EscapeFault {
    ghost from_gives = { λ _ fault. fault ≡ NoMemoryFault };

    fn from(_: AllocFailed<T>) -> Self {
        EscapeFault::NoMemory
    }
}

/// Whether the octet is a control character.
pub(crate) fn is_control(octet: u8) -> bool
    ensures { result ≡ model.is_control octet }
{
    octet < b' ' || octet == 0x7f
}

/// Whether the octet is printed as an escape.
fn is_escaped(octet: u8) -> bool
    ensures { result ≡ text_of.is_escaped octet }
{
    is_control(octet) || b" /+=\\()*,;".contains(&octet)
}

/// Adds the octet to a text, as it's printed.
fn add_octet(text: &mut Vec<u8>, octet: u8) -> Result<(), NoMemory>
    ensures { OnOk result (text.new.items ≡ text.old.items ++ text_of.escaped_octet octet) }
{
    if !is_escaped(octet) {
        text.push(octet)?;
        return Ok(());
    }
    text.push(b'\\')?;
    text.push(digit(octet / 16))?;
    text.push(digit(octet % 16))?;
    Ok(())
}

/// A hexadecimal digit in lower case.
fn digit(value: u8) -> u8
    requires { value < 16 }
    ensures { result ≡ digit_char value }
{
    b"0123456789abcdef"[value as usize]
}

/// The text with its escapes: what is printed of a value.
pub(crate) fn escaped(alloc: Global, octets: &[u8]) -> Result<Vec<u8>, NoMemory>
    ensures { IfOk result (λ text. text.items ≡ text_of.escaped octets.now) }
{
    let mut text = Vec::with_capacity(alloc, octets.len())?;
    for octet in octets {
        add_octet(&mut text, *octet)?;
    }
    Ok(text)
}

/// The place of the first control character.
fn control_place(octets: &[u8]) -> Option<usize>
    ensures place { result ≡ position model.is_control octets.now }
    ensures inside { IfSome result (λ place. place < length octets.now) }
{
    octets.iter().position(|octet| is_control(*octet))
}

/// Adds octets that stand for themselves; the first of them stands at the place.
fn add_plain(out: &mut Vec<u8>, at: usize, octets: &[u8]) -> Result<(), EscapeFault>
    requires { at + length octets.now < 2 ^ 64 }
    ensures { Adds out.old.items out.new.items result (text_of.plain_at at octets.now) }
{
    match control_place(octets) {
        Some(place) => Err(EscapeFault::Bad(at + place)),
        None => Ok(out.extend_from_slice(octets)?),
    }
}

/// The value of a hexadecimal digit of either case.
fn hex_value(digit: u8) -> Option<u8>
    ensures { result ≡ hex_digit_value digit }
{
    match digit {
        b'A'..=b'F' => Some(digit - b'A' + 10),
        b'a'..=b'f' => Some(digit - b'a' + 10),
        b'0'..=b'9' => Some(digit - b'0'),
        _ => None,
    }
}

/// Adds the octet of an escape, and what stands behind its two digits; its backslash stands at the place.
fn add_escape(out: &mut Vec<u8>, at: usize, octets: &[u8]) -> Result<(), EscapeFault>
    requires { at + 1 + length octets.now < 2 ^ 64 }
    ensures { Adds out.old.items out.new.items result (text_of.escape_at at octets.now) }
{
    let [high, low, plain @ ..] = octets else {
        return Err(EscapeFault::Bad(at));
    };
    let (Some(high), Some(low)) = (hex_value(*high), hex_value(*low)) else {
        return Err(EscapeFault::Bad(at));
    };
    out.push(16 * high + low)?;
    add_plain(out, at + 3, plain)
}

/// Adds the escapes whose backslashes stood before the parts, the first at the place.
fn add_escapes(out: &mut Vec<u8>, at: usize, parts: &[&str]) -> Result<(), EscapeFault>
    requires { at + span (map (λ x. x.now) parts.now) < 2 ^ 64 }
    ensures { Adds out.old.items out.new.items result (text_of.escapes_at at (map (λ x. x.now) parts.now)) }
{
    let mut place = at;
    for part in parts {
        add_escape(out, place, part.as_bytes())?;
        place += part.len() + 1;
    }
    Ok(())
}

/// Adds the first part, which stands for itself, and the escapes before which the others were cut.
fn add_parts(out: &mut Vec<u8>, at: usize, parts: &[&str]) -> Result<(), EscapeFault>
    requires { at + span (map (λ x. x.now) parts.now) < 2 ^ 64 }
    ensures { Adds out.old.items out.new.items result (text_of.parts_at at (map (λ x. x.now) parts.now)) }
{
    let Some((first, escapes)) = parts.split_first() else {
        return Ok(());
    };
    add_plain(out, at, first.as_bytes())?;
    add_escapes(out, at + first.len(), escapes)
}

/// The octets of a text without escapes, which stands at the place.
fn resolve_plain(alloc: Global, at: usize, text: &str) -> Result<Octets, EscapeFault>
    requires { at + length text.now < 2 ^ 64 }
    ensures { Resolves result (text_of.plain_at at text.now) }
{
    let octets = text.as_bytes();
    if let Some(place) = control_place(octets) {
        return Err(EscapeFault::Bad(at + place));
    }
    Ok(Octets::new(Vec::from_slice(alloc, octets)?))
}

/// The octets that the text of a value stands for; the text stands at the place, from which faults count.
pub fn resolve(alloc: Global, at: usize, text: &str) -> Result<Octets, EscapeFault>
    requires { at + length text.now + 1 < 2 ^ 64 }
    ensures { Resolves result (text_of.resolved at text.now) }
{
    if !is_cut(text, b'\\') {
        return resolve_plain(alloc, at, text);
    }
    let parts = pieces(alloc, text, '\\')?;
    let mut octets = Vec::new(alloc);
    add_parts(&mut octets, at, &parts)?;
    Ok(Octets::new(octets))
}

/// The text of a value: the escapes of a text.
pub fn escape(alloc: Global, text: &str) -> Result<Text, NoMemory>
    ensures { IfOk result (λ escaped. escaped ≡ text_of.escaped text.now) }
{
    let octets = escaped(alloc, text.as_bytes())?;
    Ok(Text::from_string(String::from_utf8(octets).unwrap()))
}
