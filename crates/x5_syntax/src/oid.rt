//! Object identifiers (X.660).

ghost use Rattle.std.specs.Prelude.{◌≡◌, ◌<◌, ◌==◌, ◌++◌, flat_map, IsTrue, IfOk, OnOk, None, Some, if◌then◌else◌, map, string_bytes};
ghost use Rattle.std.specs.Char.{is_ascii_digit};
ghost use Rattle.std.specs.List.{list_all, list_any, slice_split};
ghost use Rattle.std.specs.Option.{option_map};
ghost use Rattle.x5_model.specs.Normal as model;
ghost use Rattle.x5_model_text.specs.TypeText as text_of;
ghost use Rattle.x5_model_text.specs.TypeText.{arc_of, arcs_of, oid_of_text, text_of_oid};
ghost use Rattle.x5_syntax.specs.Dotted.{dot_and_arc};

use crate::containers::Text;
use std::alloc::{AllocError, Global};
use std::marker::Model;
use x5_memory::NoMemory;

/// An object identifier: two arcs or more, the first below 3, and the second below 40 where the first is below 2.
#[derive(Drop)]
pub struct Oid {
    arcs: Vec<u32>,
}

impl Model for Oid {
    ghost use Rattle.std.specs.Prelude.{ℕ, List, IsTrue};
    ghost use Rattle.x5_model.specs.Normal.{is_oid};

    ghost Value = { List ℕ };

    ghost view = { λ o. o.arcs.items };

    ghost invariant = { λ o. IsTrue (is_oid o.arcs.items) };
}

/// The parts of a text between the separators, one more than there are separators.
pub(crate) fn pieces<'a>(
    alloc: Global,
    text: &'a str,
    separator: char,
) -> Result<Vec<&'a str>, AllocError>
    requires { separator < 128 }
    ensures { IfOk result (λ parts. map (λ x. x.now) parts.items ≡ slice_split (λ b. b == separator) text.entry.now) }
{
    text.split(separator).collect(alloc)
}

/// Whether the text has the separator: one that has none is its own one part.
pub(crate) fn is_cut(text: &str, separator: u8) -> bool
    ensures { result ≡ list_any (λ b. b == separator) text.now }
{
    text.as_bytes().iter().any(|octet| *octet == separator)
}

/// Whether the arcs are those of an object identifier.
fn is_oid(arcs: &[u32]) -> bool
    ensures { result ≡ model.is_oid arcs.now }
{
    match arcs {
        [first, second, ..] => *first < 3 && (*first > 1 || *second < 40),
        _ => false,
    }
}

/// Whether all octets are decimal digits.
fn all_digits(text: &[u8]) -> bool
    ensures { result ≡ list_all is_ascii_digit text.now }
{
    text.iter().all(|b| b.is_ascii_digit())
}

/// Whether the text is decimal digits without leading zeros.
fn is_numeral(text: &[u8]) -> bool
    ensures { result ≡ text_of.is_numeral text.now }
{
    all_digits(text) && !text.is_empty() && (text.len() == 1 || text[0] != b'0')
}

/// The arc that a text of decimal digits spells.
fn arc(text: &str) -> Option<u32>
    ensures { result ≡ arc_of text.now }
{
    if !is_numeral(text.as_bytes()) {
        return None;
    }
    text.parse().ok()
}

/// The arcs that the texts spell, if each spells one.
fn arcs_from(alloc: Global, parts: &[&str]) -> Result<Option<Vec<u32>>, NoMemory>
    ensures { IfOk result (λ arcs. option_map (λ v. v.items) arcs ≡ arcs_of (map (λ x. x.now) parts.now)) }
{
    let mut arcs = Vec::new(alloc);
    for part in parts {
        match arc(part) {
            Some(number) => arcs.push(number)?,
            None => return Ok(None),
        }
    }
    Ok(Some(arcs))
}

/// Adds a dot and an arc for each arc.
fn add_arcs(text: &mut String, arcs: &[u32]) -> Result<(), NoMemory>
    ensures { OnOk result (string_bytes text.new ≡ string_bytes text.old ++ flat_map dot_and_arc arcs.now) }
{
    for arc in arcs {
        write!(text, ".{arc}")?;
    }
    Ok(())
}

/// The arcs in decimals, joined by dots.
fn text_of_arcs(alloc: Global, arcs: &[u32]) -> Result<String, NoMemory>
    ensures { IfOk result (λ text. string_bytes text ≡ text_of_oid arcs.now) }
{
    let Some((first, others)) = arcs.split_first() else {
        return Ok(String::new(alloc));
    };
    let mut text = format!(in alloc; "{first}")?;
    add_arcs(&mut text, others)?;
    Ok(text)
}

impl Oid {
    /// The object identifier with the arcs, if there is one. No memory.
    pub fn new(arcs: Vec<u32>) -> Option<Oid>
        ensures { result ≡ (if model.is_oid arcs.items then Some arcs.items else None) }
    {
        if is_oid(&arcs) {
            Some(Oid { arcs })
        } else {
            None
        }
    }

    /// The object identifier that a text of dotted decimals spells, if it spells one.
    pub fn parse(alloc: Global, text: &str) -> Result<Option<Oid>, NoMemory>
        ensures { IfOk result (λ oid. oid ≡ oid_of_text text.now) }
    {
        let parts = pieces(alloc, text, '.')?;
        match arcs_from(alloc, &parts)? {
            Some(arcs) => Ok(Oid::new(arcs)),
            None => Ok(None),
        }
    }

    /// Its arcs. No memory.
    pub fn arcs(&self) -> &[u32]
        ensures same { result.now ≡ self.now }
        ensures valid { IsTrue (model.is_oid result.now) }
    {
        self.arcs.as_slice()
    }

    /// Its text: dotted decimals.
    pub fn text(&self, alloc: Global) -> Result<Text, NoMemory>
        ensures { IfOk result (λ text. text ≡ text_of_oid self.now) }
    {
        let text = text_of_arcs(alloc, &self.arcs)?;
        Ok(Text::from_string(text))
    }
}

impl Clone for Oid {
    ghost is_clone = { λ a b. b ≡ a };

    fn clone(&self) -> Result<Oid, AllocError> {
        Ok(Oid {
            arcs: self.arcs.clone()?,
        })
    }
}
