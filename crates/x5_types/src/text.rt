//! Strings of characters (X.690, 8.23; X.680, section 41).
ghost use Rattle.std.specs.Prelude.{◌≡◌, ◌++◌, ◌<◌, IfOk, OnOk, MatchOption, None, Some, codes, drop, if◌then◌else◌, true, false, length, ◌≤◌, ◌+◌, string_bytes, encode_utf8};
ghost use Rattle.std.specs.List.{list_all};
ghost use Rattle.std.specs.Str.{IsUtf8};
ghost use Rattle.std.specs.Option.{option_map};
ghost use Rattle.x5_model.specs.Normal as normal;
ghost use Rattle.x5_model.specs.Words.{same_octets};
ghost use Rattle.x5_model_typed.specs.Leaves as leaves;
ghost use Rattle.x5_model_typed.specs.Nodes as nodes;
ghost use Rattle.x5_types.specs.Cells.{Cell, Cut, encoded};
ghost use Rattle.x5_types.specs.FormView.{around, letters_view};
ghost use Rattle.x5_types.specs.NodeView.{bytes_view, characters_view, option_view};

use crate::form::Letters;
use crate::node::{Bytes, Characters, Node};
use crate::surroundings::Surroundings;
use std::alloc::Global;
use x5_memory::NoMemory;
use x5_syntax::MOST_VALUE_OCTETS;

/// Whether there are characters, and not too many.
pub fn is_length(text: &[u8]) -> bool
    ensures { result ≡ leaves.is_length text.now }
{
    !text.is_empty() && text.len() <= MOST_VALUE_OCTETS
}

/// Whether the octet is a character of PrintableString (X.680, section 41).
pub fn is_printable(octet: u8) -> bool
    ensures { result ≡ normal.is_printable octet }
{
    octet.is_ascii_alphanumeric() || b" '()+,-./:=?".contains(&octet)
}

/// Whether the octet is a character of NumericString: a digit or a space.
pub fn is_numeric(octet: u8) -> bool
    ensures { result ≡ leaves.is_numeric octet }
{
    octet.is_ascii_digit() || octet == b' '
}

fn may_stand_in_agent(octet: u8) -> bool
    ensures { result ≡ leaves.may_stand_in_agent octet }
{
    octet.is_ascii_alphanumeric() || octet == b'-'
}

fn begins_with_letter(text: &[u8]) -> bool
    ensures { result ≡ leaves.begins_with_letter text.now }
{
    match text {
        [] => false,
        [first, ..] => first.is_ascii_alphabetic(),
    }
}

fn all_in_agent(text: &[u8]) -> bool
    ensures { result ≡ list_all leaves.may_stand_in_agent text.now }
{
    text.iter().all(|octet| may_stand_in_agent(*octet))
}

fn is_user(text: &[u8]) -> bool
    ensures { result ≡ same_octets text.now (codes "user") }
{
    text == b"user".as_slice()
}

fn is_agent_name(text: &[u8]) -> bool
    ensures { result ≡ leaves.is_agent_name text.now }
{
    begins_with_letter(text) && all_in_agent(text) && text.len() <= 32 && !is_user(text)
}

/// Whether the octets are the name of an agent of the world.
#[tactic(auto, using(crate::proofs::Ascii::agents_are_utf8))]
fn is_world_agent(surroundings: Surroundings<'_>, text: &[u8]) -> bool
    ensures { result ≡ (if leaves.is_agent_name text.now then (around surroundings.entry).is_agent text.now else false) }
{
    if !is_agent_name(text) {
        return false;
    }
    match std::str::from_utf8(text) {
        Ok(name) => surroundings.is_agent(name),
        Err(_) => false,
    }
}

fn all_numeric(text: &[u8]) -> bool
    ensures { result ≡ list_all leaves.is_numeric text.now }
{
    text.iter().all(|octet| is_numeric(*octet))
}

fn all_printable(text: &[u8]) -> bool
    ensures { result ≡ list_all normal.is_printable text.now }
{
    text.iter().all(|octet| is_printable(*octet))
}

fn all_seven_bit(text: &[u8]) -> bool
    ensures { result ≡ list_all leaves.is_seven_bit text.now }
{
    text.iter().all(|octet| *octet < 128)
}

/// Whether the octets are characters that may stand there, not too many of them. No memory.
pub fn is_text(surroundings: Surroundings<'_>, letters: Letters, text: &[u8]) -> bool
    ensures { result ≡ letters_view (around surroundings.entry) letters text.now }
{
    match letters {
        Letters::Numeric => all_numeric(text) && is_length(text),
        Letters::Printable => all_printable(text) && is_length(text),
        Letters::SevenBit => all_seven_bit(text) && is_length(text),
        Letters::Agent => is_agent_name(text),
        Letters::WorldAgent => is_world_agent(surroundings, text),
    }
}

/// The octets as text, if they are octets of UTF-8.
fn as_text<'a>(octets: Bytes<'a>) -> Option<Characters<'a>>
    ensures { MatchOption result
        (IsUtf8 (bytes_view octets.entry) → ⊥)
        (λ t. characters_view t ≡ bytes_view octets.entry) }
{
    match octets {
        Bytes::Lent(octets) => match std::str::from_utf8(octets) {
            Ok(text) => Some(Characters::Lent(text)),
            Err(_) => None,
        },
        Bytes::Kept(octets) => match String::from_utf8(octets) {
            Ok(text) => Some(Characters::Kept(text)),
            Err(_) => None,
        },
    }
}

/// The text, where its characters may stand there.
#[tactic(auto, using(crate::proofs::Ascii::are_utf8))]
pub(crate) fn text<'a>(
    surroundings: Surroundings<'_>,
    letters: Letters,
    octets: Bytes<'a>,
) -> Option<Node<'a>>
    ensures { option_view result ≡ (leaves.text_where (letters_view (around surroundings.entry) letters)).reads (bytes_view octets.entry) }
{
    if !is_text(surroundings, letters, octets.as_slice()) {
        return None;
    }
    Some(Node::Text(as_text(octets)?))
}

/// The number of four octets, the highest first.
fn cell_at(octets: &[u8], at: usize) -> Option<u32>
    requires { at ≤ length octets.now }
    ensures { MatchOption result
        (Cut (drop at octets.now))
        (λ n. Cell n (drop at octets.now) (drop (at + 4) octets.now)) }
{
    if octets.len() - at < 4 {
        return None;
    }
    let high = u32::from(octets[at]) * 256 + u32::from(octets[at + 1]);
    let low = u32::from(octets[at + 2]) * 256 + u32::from(octets[at + 3]);
    Some(high * 65536 + low)
}

/// Adds the character of the number, if it is one's.
fn add_character(text: &mut String, number: u32) -> Result<bool, NoMemory>
    ensures { IfOk result (λ added. (added ≡ leaves.is_character number)
        × (added ≡ true → string_bytes text.new ≡ string_bytes text.old ++ encode_utf8 number)) }
{
    match char::from_u32(number) {
        Some(character) => {
            text.push(character)?;
            Ok(true)
        }
        None => Ok(false),
    }
}

/// The octets of UTF-8 of the characters that the octets are, four each, the highest first.
fn characters(alloc: Global, octets: &[u8]) -> Result<Option<String>, NoMemory>
    ensures { IfOk result (λ text. option_map string_bytes text ≡ encoded (leaves.cells octets.now)) }
{
    let mut text = String::new(alloc);
    let mut at = 0;
    while at < octets.len() {
        let Some(number) = cell_at(octets, at) else {
            return Ok(None);
        };
        if !add_character(&mut text, number)? {
            return Ok(None);
        }
        at += 4;
    }
    Ok(Some(text))
}

/// The text of characters of four octets each.
pub(crate) fn universal<'a>(alloc: Global, octets: &[u8]) -> Result<Option<Node<'a>>, NoMemory>
    ensures { IfOk result (λ n. option_view n ≡ leaves.universal_string.reads octets.now) }
{
    let Some(text) = characters(alloc, octets)? else {
        return Ok(None);
    };
    Ok(kept(text))
}

/// The text, where it isn't too long.
fn kept<'a>(text: String) -> Option<Node<'a>>
    ensures { option_view result ≡ leaves.where_so (leaves.is_length (string_bytes text)) (nodes.Text (string_bytes text)) }
{
    if is_length(text.as_bytes()) {
        Some(Node::Text(Characters::Kept(text)))
    } else {
        None
    }
}
