//! Which texts are of a kind, and their normal forms (X.520: matching rules).

ghost use Rattle.std.specs.Prelude.{◌≡◌, IfOk, IfSome, IsAscii, filter, not, string_bytes};
ghost use Rattle.std.specs.List.{list_all, list_any};
ghost use Rattle.std.specs.Char.{is_ascii_digit};
ghost use Rattle.x5_model.specs.Normal as model;
ghost use Rattle.x5_syntax.specs.Plain as plain;
ghost use Rattle.x5_syntax.specs.Views.{kind_view};

use crate::containers::{MOST_IN_PLACE, Normal};
use crate::escapes::is_control;
use crate::kinds::Kind;
use std::alloc::Global;
use x5_memory::NoMemory;

/// Whether PrintableString has the character.
fn is_printable(octet: u8) -> bool
    ensures { result ≡ model.is_printable octet }
{
    octet.is_ascii_alphanumeric() || b" '()+,-./:=?".contains(&octet)
}

/// Whether the octet may stand in a text of the kind.
fn may_stand(kind: Kind, octet: u8) -> bool
    ensures { result ≡ model.may_stand (kind_view kind) octet }
{
    match kind {
        Kind::Text => !is_control(octet),
        Kind::Printable | Kind::Telephone => is_printable(octet),
        Kind::Country => octet.is_ascii_alphabetic(),
        Kind::Numeric => octet.is_ascii_digit() || octet == b' ',
        Kind::Oid | Kind::Name | Kind::Octets => false,
    }
}

/// Whether all characters may stand in a text of the kind.
pub(crate) fn is_part_of_kind(kind: Kind, text: &[u8]) -> bool
    ensures { result ≡ model.is_part_of_kind (kind_view kind) text.now }
{
    text.iter().all(|octet| may_stand(kind, *octet))
}

/// Whether an octet is a digit.
fn has_digit(text: &[u8]) -> bool
    ensures { result ≡ list_any is_ascii_digit text.now }
{
    text.iter().any(|octet| octet.is_ascii_digit())
}

/// Whether the characters are as many as the kind asks.
fn is_enough(kind: Kind, text: &[u8]) -> bool
    ensures { result ≡ model.is_enough (kind_view kind) text.now }
{
    match kind {
        Kind::Text | Kind::Printable | Kind::Telephone => !text.is_empty(),
        Kind::Country => text.len() == 2,
        Kind::Numeric => has_digit(text),
        Kind::Oid | Kind::Name | Kind::Octets => false,
    }
}

/// Whether the text is a value of the kind.
pub(crate) fn is_text_of_kind(kind: Kind, text: &[u8]) -> bool
    ensures { result ≡ model.is_text_of_kind (kind_view kind) text.now }
{
    is_part_of_kind(kind, text) && is_enough(kind, text)
}

/// The text in the default case folding.
#[tactic(auto, unfolding(x5_model::specs::Normal::folded))]
fn folded(alloc: Global, text: &str) -> Result<String, NoMemory>
    ensures { IfOk result (λ folded. string_bytes folded ≡ model.folded text.now) }
{
    Ok(caseless::default_case_fold_str(alloc, text)?)
}

/// What stands behind the spaces at the front.
fn without_leading(text: &[u8]) -> &[u8]
    ensures { result.now ≡ model.without_leading text.entry.now }
{
    for (i, octet) in text.iter().enumerate() {
        if *octet != b' ' {
            return &text[i..];
        }
    }
    &text[text.len()..]
}

/// Whether a space goes before this: another space, or the end where `last` says that the value ends there.
fn drops_space_before(last: bool, text: &[u8]) -> bool
    ensures { result ≡ model.drops_space_before last text.now }
{
    match text {
        [] => last,
        [octet, ..] => *octet == b' ',
    }
}

/// Each run of spaces as one space, and none where the value ends.
fn single_spaced(alloc: Global, last: bool, text: &[u8]) -> Result<Vec<u8>, NoMemory>
    ensures { IfOk result (λ kept. kept.items ≡ model.single_spaced last text.now) }
{
    let mut kept = Vec::with_capacity(alloc, text.len())?;
    for (i, octet) in text.iter().enumerate() {
        if *octet != b' ' || !drops_space_before(last, &text[i + 1..]) {
            kept.push(*octet)?;
        }
    }
    Ok(kept)
}

/// The text with its spaces in their normal form; `first` says that it begins the value, `last` that it ends it.
fn spaced(alloc: Global, first: bool, last: bool, text: &[u8]) -> Result<Vec<u8>, NoMemory>
    ensures { IfOk result (λ kept. kept.items ≡ model.spaced first last text.now) }
{
    if first {
        single_spaced(alloc, last, without_leading(text))
    } else {
        single_spaced(alloc, last, text)
    }
}

/// The octets but spaces.
fn without_spaces(alloc: Global, text: &[u8]) -> Result<Vec<u8>, NoMemory>
    ensures { IfOk result (λ kept. kept.items ≡ filter (λ b. not (model.is_space b)) text.now) }
{
    Ok(
        text.iter()
            .copied()
            .filter(|octet| *octet != b' ')
            .collect(alloc)?,
    )
}

/// The octets but spaces and `-`.
fn dialled(alloc: Global, text: &[u8]) -> Result<Vec<u8>, NoMemory>
    ensures { IfOk result (λ kept. kept.items ≡ filter model.is_dialled text.now) }
{
    Ok(
        text.iter()
            .copied()
            .filter(|octet| *octet != b' ' && *octet != b'-')
            .collect(alloc)?,
    )
}

/// A folded text of ASCII with its spaces in their normal form: folding is lowering its letters, which are no spaces.
fn lower_and_spaced(alloc: Global, first: bool, last: bool, text: &str) -> Result<Vec<u8>, NoMemory>
    requires { IsAscii text.now }
    ensures { IfOk result (λ kept. kept.items ≡ model.spaced first last (model.folded text.now)) }
{
    let mut kept = spaced(alloc, first, last, text.as_bytes())?;
    kept.make_ascii_lowercase();
    Ok(kept)
}

/// A folded text with its spaces in their normal form.
fn folded_and_spaced(
    alloc: Global,
    first: bool,
    last: bool,
    text: &str,
) -> Result<Vec<u8>, NoMemory>
    ensures { IfOk result (λ kept. kept.items ≡ model.spaced first last (model.folded text.now)) }
{
    if text.is_ascii() {
        return lower_and_spaced(alloc, first, last, text);
    }
    let folded = folded(alloc, text)?;
    spaced(alloc, first, last, folded.as_bytes())
}

/// Whether the octet is of ASCII, and no space where `behind_space` says that one goes before, or the value begins.
fn stays(behind_space: bool, octet: u8) -> bool
    ensures { result ≡ plain.stays behind_space octet }
{
    octet < 128 && !(octet == b' ' && behind_space)
}

/// The normal form of a short text of ASCII that has its spaces as the normal form has them: the text in small letters.
/// `None` says that the text is another. No memory.
#[tactic(auto, using(crate::proofs::TextLemmas::plain_folded))]
fn plain_normal(first: bool, last: bool, text: &[u8]) -> Option<Normal>
    ensures { IfSome result (λ normal. normal ≡ model.spaced first last (model.folded text.now)) }
{
    if text.len() > MOST_IN_PLACE {
        return None;
    }
    let mut octets = [0u8; MOST_IN_PLACE];
    let mut behind_space = first;
    for (i, octet) in text.iter().enumerate() {
        if !stays(behind_space, *octet) {
            return None;
        }
        octets[i] = octet.to_ascii_lowercase();
        behind_space = *octet == b' ';
    }
    if behind_space && last {
        return None;
    }
    Some(Normal::from_first(text.len(), octets))
}

/// The normal form of a text that is folded and spaced.
fn folded_normal(alloc: Global, first: bool, last: bool, text: &str) -> Result<Normal, NoMemory>
    ensures { IfOk result (λ normal. normal ≡ model.spaced first last (model.folded text.now)) }
{
    if let Some(normal) = plain_normal(first, last, text.as_bytes()) {
        return Ok(normal);
    }
    Ok(Normal::new(folded_and_spaced(alloc, first, last, text)?))
}

/// The normal form of a part of a text; `first` says that it begins the value, `last` that it ends it.
pub(crate) fn part_normal(
    alloc: Global,
    kind: Kind,
    first: bool,
    last: bool,
    text: &str,
) -> Result<Normal, NoMemory>
    ensures { IfOk result (λ normal. normal ≡ model.part_normal (kind_view kind) first last text.now) }
{
    match kind {
        Kind::Text | Kind::Printable | Kind::Country => folded_normal(alloc, first, last, text),
        Kind::Numeric => Ok(Normal::new(without_spaces(alloc, text.as_bytes())?)),
        Kind::Telephone => {
            let spaced = folded_and_spaced(alloc, first, last, text)?;
            Ok(Normal::new(dialled(alloc, &spaced)?))
        }
        Kind::Oid | Kind::Name | Kind::Octets => Normal::from_slice(alloc, text.as_bytes()),
    }
}
