//! Filters read from text (x5_model_text: specs/Filters, specs/FilterGrammar).

ghost use Rattle.std.specs.Prelude.{◌≡◌, ◌==◌, ◌+◌, ◌^◌, ◌<◌, ◌≤◌, ◌++◌, [], length, map, IfOk, IfSome};
ghost use Rattle.std.specs.List.{position, slice_split};
ghost use Rattle.std.specs.Option.{option_copied};
ghost use Rattle.x5_model.specs.Filters.{Equality};
ghost use Rattle.x5_model_text.specs.Filters as text_of;
ghost use Rattle.x5_model_text.specs.FilterGrammar.{Spells};
ghost use Rattle.x5_model_text.specs.NameText.{kind_of_type};
ghost use Rattle.x5_syntax.specs.TypeView.{type_view};
ghost use Rattle.x5_syntax.specs.ValueView.{value_view};
ghost use Rattle.x5_syntax.specs.Escapes.{span};
ghost use Rattle.x5_match.specs.PlaceView.{place_view};
ghost use Rattle.x5_match.specs.FilterView.{item_view, filter_view, filters_of};
ghost use Rattle.x5_match.specs.FilterText.{ReadsFilter, escape_fault};
ghost use Rattle.x5_match.specs.declared.parse.FilterFault.TheVariants.{NoMemory as NoMemoryFault};

use crate::filter::{
    Assertion, Filter, FilterList, Item, Piece, PieceList, PiecePlace, SubstringItem,
};
use std::alloc::{AllocError, AllocFailed, Global};
use thiserror::Error;
use x5_syntax::{EscapeFault, NoMemory, Octets, SyntaxFault, TypeId, TypeRef, Value, resolve};

/// How deep filters may be nested.
pub const DEEPEST: usize = 16;

/// Why a text is no filter.
#[derive(Clone, Copy, Debug, PartialEq, Eq, Error)]
pub enum FilterFault {
    /// The octet at this place, from 0, is the first outside the grammar; it's the text's length where the text ends too early.
    /// A type that is none, and a value that is none or too long, can't stand at its first octet.
    #[error("octet {0} can't stand in a filter")]
    Bad(usize),
    #[error("out of memory")]
    NoMemory,
}

impl From<AllocError> for FilterFault {
    ghost from_gives = { λ _ fault. fault ≡ NoMemoryFault };

    fn from(_: AllocError) -> Self {
        FilterFault::NoMemory
    }
}

impl<T: Drop> From<AllocFailed<T>> for FilterFault {
    ghost from_gives = { λ _ fault. fault ≡ NoMemoryFault };

    fn from(_: AllocFailed<T>) -> Self {
        FilterFault::NoMemory
    }
}

impl From<NoMemory> for FilterFault {
    ghost from_gives = { λ _ fault. fault ≡ NoMemoryFault };

    fn from(_: NoMemory) -> Self {
        FilterFault::NoMemory
    }
}

impl From<EscapeFault> for FilterFault {
    ghost from_gives = { λ escape fault. fault ≡ escape_fault escape };

    fn from(fault: EscapeFault) -> Self {
        match fault {
            EscapeFault::Bad(place) => FilterFault::Bad(place),
            EscapeFault::NoMemory => FilterFault::NoMemory,
        }
    }
}

/// Whether the octet stands for itself in a value, but not in a filter.
fn is_reserved(octet: u8) -> bool
    ensures { result ≡ text_of.is_reserved octet }
{
    b" ()*".contains(&octet)
}

/// The place of the first octet that has to be escaped.
fn reserved_place(octets: &[u8]) -> Option<usize>
    ensures place { result ≡ position text_of.is_reserved octets.now }
    ensures inside { IfSome result (λ place. place < length octets.now) }
{
    octets.iter().position(|octet| is_reserved(*octet))
}

/// Resolves the text of a value, which stands at the place.
fn spelled_at(alloc: Global, at: usize, text: &str) -> Result<Octets, FilterFault>
    requires { at + length text.now + 1 < 2 ^ 64 }
    ensures { ReadsFilter (λ octets. octets) result (text_of.spelled_at at text.now) }
{
    let read = resolve(alloc, at, text);
    match reserved_place(text.as_bytes()) {
        None => Ok(read?),
        Some(place) => match read {
            Ok(_) => Err(FilterFault::Bad(at + place)),
            Err(EscapeFault::Bad(fault)) => Err(FilterFault::Bad(fault.min(at + place))),
            Err(EscapeFault::NoMemory) => Err(FilterFault::NoMemory),
        },
    }
}

/// The value of the type that a text spells, which stands at the place.
fn value_at(alloc: Global, kind: &TypeRef, at: usize, text: &str) -> Result<Value, FilterFault>
    requires { at + length text.now + 1 < 2 ^ 64 }
    ensures { ReadsFilter value_view result (text_of.value_at (kind_of_type (type_view kind.now)) at text.now) }
{
    spelled_at(alloc, at, text)?;
    match Value::from_text(alloc, kind, text) {
        Ok(value) => Ok(value),
        Err(SyntaxFault::NoMemory) => Err(FilterFault::NoMemory),
        Err(_) => Err(FilterFault::Bad(at)),
    }
}

/// The assertion of a value of the type; the value's text stands at the place.
fn assertion_at(
    alloc: Global,
    kind: TypeRef,
    at: usize,
    text: &str,
) -> Result<Assertion, FilterFault>
    requires { at + length text.now + 1 < 2 ^ 64 }
    ensures { ReadsFilter (λ a. a) result (text_of.assertion_at (type_view kind) at text.now) }
{
    let value = value_at(alloc, &kind, at, text)?;
    Ok(Assertion::new(alloc, kind, value)?)
}

/// A part of a value, which stands at the place, unless it's empty. It's kept as a text, as a common name is.
fn piece_at(
    alloc: Global,
    place: PiecePlace,
    at: usize,
    text: &str,
) -> Result<Option<Piece>, FilterFault>
    requires { at + length text.now + 1 < 2 ^ 64 }
    ensures { ReadsFilter (λ piece. piece) result (text_of.piece_at (place_view place) at text.now) }
{
    if text.is_empty() {
        return Ok(None);
    }
    let common_name = TypeRef::Known(TypeId::new(3).unwrap());
    let value = value_at(alloc, &common_name, at, text)?;
    Ok(Some(Piece { place, value }))
}

/// The parts, with one more behind them if there is one.
fn with_piece(before: PieceList, piece: Option<Piece>) -> Result<PieceList, NoMemory>
    ensures { IfOk result (λ pieces. pieces ≡ text_of.with_piece before piece) }
{
    let mut pieces = before;
    if let Some(piece) = piece {
        pieces.push(piece)?;
    }
    Ok(pieces)
}

/// Where a part stands before which there is a star, by the parts behind it.
fn behind_star(others: &[&str]) -> PiecePlace
    ensures { place_view result ≡ text_of.behind_star (map (λ x. x.now) others.now) }
{
    if others.is_empty() {
        PiecePlace::Last
    } else {
        PiecePlace::Any
    }
}

/// The parts before and those that follow them, each behind a star; the first of these stands at the place.
fn pieces_at(
    alloc: Global,
    before: PieceList,
    at: usize,
    parts: &[&str],
) -> Result<PieceList, FilterFault>
    requires { at + span (map (λ x. x.now) parts.now) < 2 ^ 64 }
    ensures { ReadsFilter (λ pieces. pieces) result (text_of.pieces_at before at (map (λ x. x.now) parts.now)) }
{
    let mut pieces = before;
    let mut place = at;
    for (i, part) in parts.iter().enumerate() {
        let piece = piece_at(alloc, behind_star(&parts[i + 1..]), place, part)?;
        pieces = with_piece(pieces, piece)?;
        place += part.len() + 1;
    }
    Ok(pieces)
}

/// The parts of a value; the first stands at the place.
fn all_pieces(alloc: Global, at: usize, parts: &[&str]) -> Result<PieceList, FilterFault>
    requires { at + span (map (λ x. x.now) parts.now) < 2 ^ 64 }
    ensures { ReadsFilter (λ pieces. pieces) result (text_of.all_pieces at (map (λ x. x.now) parts.now)) }
{
    let none = PieceList::new(alloc);
    let Some((first, others)) = parts.split_first() else {
        return Ok(none);
    };
    let piece = piece_at(alloc, PiecePlace::Initial, at, first)?;
    let pieces = with_piece(none, piece)?;
    pieces_at(alloc, pieces, at + first.len() + 1, others)
}

/// The parts of a text between the separators, one more than there are separators.
fn parts_between<'a>(
    alloc: Global,
    text: &'a str,
    separator: char,
) -> Result<Vec<&'a str>, AllocError>
    requires { separator < 128 }
    ensures { IfOk result (λ parts. map (λ x. x.now) parts.items ≡ slice_split (λ b. b == separator) text.entry.now) }
{
    text.split(separator).collect(alloc)
}

/// The item of the parts of a value, whose text stands at the place.
fn substrings_at(alloc: Global, kind: TypeRef, at: usize, text: &str) -> Result<Item, FilterFault>
    requires { at + length text.now + 1 < 2 ^ 64 }
    ensures { ReadsFilter item_view result (text_of.substrings_at (type_view kind) at text.now) }
{
    let parts = parts_between(alloc, text, '*')?;
    let pieces = all_pieces(alloc, at, &parts)?;
    if pieces.as_slice().is_empty() {
        return Err(FilterFault::Bad(at + text.len()));
    }
    Ok(Item::Substrings(SubstringItem::new(alloc, kind, pieces)?))
}

/// The item of a value that an `=` asserts.
fn equality_at(alloc: Global, kind: TypeRef, at: usize, text: &str) -> Result<Item, FilterFault>
    requires { at + length text.now + 1 < 2 ^ 64 }
    ensures { ReadsFilter item_view result (text_of.asserted Equality (text_of.assertion_at (type_view kind) at text.now)) }
{
    Ok(Item::Equality(assertion_at(alloc, kind, at, text)?))
}

/// The item of what an `=` asserts: a value, a `*` alone, or parts between stars.
fn equal_at(alloc: Global, kind: TypeRef, at: usize, text: &str) -> Result<Item, FilterFault>
    requires { at + length text.now + 1 < 2 ^ 64 }
    ensures { ReadsFilter item_view result (text_of.equal_at (type_view kind) at text.now) }
{
    let octets = text.as_bytes();
    if !octets.contains(&b'*') {
        equality_at(alloc, kind, at, text)
    } else if octets == b"*".as_slice() {
        Ok(Item::Present(kind))
    } else {
        substrings_at(alloc, kind, at, text)
    }
}

/// The type that a word spells, which stands at the place.
fn type_at(alloc: Global, at: usize, word: &str) -> Result<TypeRef, FilterFault>
    ensures { ReadsFilter type_view result (text_of.type_at at word.now) }
{
    match TypeRef::parse(alloc, word)? {
        Some(kind) => Ok(kind),
        None => Err(FilterFault::Bad(at)),
    }
}

/// The assertion of a value, of the type that the word spells, each at its place.
fn compared_at(
    alloc: Global,
    at: usize,
    word: &str,
    place: usize,
    text: &str,
) -> Result<Assertion, FilterFault>
    requires { place + length text.now + 1 < 2 ^ 64 }
    ensures { ReadsFilter (λ a. a) result (text_of.compared_at at word.now place text.now) }
{
    let kind = type_at(alloc, at, word)?;
    assertion_at(alloc, kind, place, text)
}

/// What stands before the sign, if the text ends in it.
fn before_last<'a>(text: &'a str, sign: char) -> Option<&'a str>
    requires { sign < 128 }
    ensures { option_copied result ≡ text_of.before_last sign text.entry.now }
{
    text.strip_suffix(sign)
}

/// The item of what stands before its first `=` and behind it, each at its place.
fn item_by_sides(
    alloc: Global,
    at: usize,
    left: &str,
    place: usize,
    right: &str,
) -> Result<Item, FilterFault>
    requires { place + length right.now + 1 < 2 ^ 64 }
    ensures { ReadsFilter item_view result (text_of.item_by_sides at left.now place right.now) }
{
    if let Some(word) = before_last(left, '>') {
        let assertion = compared_at(alloc, at, word, place, right)?;
        return Ok(Item::GreaterOrEqual(assertion));
    }
    if let Some(word) = before_last(left, '<') {
        let assertion = compared_at(alloc, at, word, place, right)?;
        return Ok(Item::LessOrEqual(assertion));
    }
    if let Some(word) = before_last(left, '~') {
        let assertion = compared_at(alloc, at, word, place, right)?;
        return Ok(Item::Approximate(assertion));
    }
    let kind = type_at(alloc, at, left)?;
    equal_at(alloc, kind, place, right)
}

/// An item without its brackets, which stands at the place.
fn item_at(alloc: Global, at: usize, text: &str) -> Result<Item, FilterFault>
    requires { at + length text.now + 1 < 2 ^ 64 }
    ensures { ReadsFilter item_view result (text_of.item_at at text.now) }
{
    let Some((left, right)) = text.split_once('=') else {
        return Err(FilterFault::Bad(at + text.len()));
    };
    item_by_sides(alloc, at, left, at + left.len() + 1, right)
}

/// The filter, if its last bracket stands at the front of the text, and what stands behind that; `all` is the length of the
/// whole text, of which the text is the end.
fn closed<'a>(all: usize, filter: Filter, text: &'a str) -> Result<(Filter, &'a str), FilterFault>
    requires { length text.now ≤ all }
    ensures read { ReadsFilter (λ p. (filter_view p.0, p.1.now)) result (text_of.closed all (filter_view filter) text.entry.now) }
    ensures behind { IfOk result (λ p. length p.1.now < length text.entry.now) }
{
    match text.strip_prefix(')') {
        Some(behind) => Ok((filter, behind)),
        None => {
            drop(filter);
            Err(FilterFault::Bad(all - text.len()))
        }
    }
}

/// An item at the front of a text, and what stands behind its last bracket.
fn item_from<'a>(alloc: Global, all: usize, text: &'a str) -> Result<(Filter, &'a str), FilterFault>
    requires within { length text.now ≤ all }
    requires small { all + 1 < 2 ^ 64 }
    ensures read { ReadsFilter (λ p. (filter_view p.0, p.1.now)) result (text_of.item_read all text.entry.now) }
    ensures behind { IfOk result (λ p. length p.1.now < length text.entry.now) }
{
    let at = all - text.len();
    let Some((word, behind)) = text.split_once(')') else {
        drop(item_at(alloc, at, text)?);
        return Err(FilterFault::Bad(all));
    };
    let item = item_at(alloc, at, word)?;
    Ok((Filter::Item(item), behind))
}

/// Filters at the front of a text, one behind another, and what stands behind them.
#[cycle(filter)]
fn members_from<'a>(
    alloc: Global,
    nesting: usize,
    all: usize,
    text: &'a str,
) -> Result<(FilterList, &'a str), FilterFault>
    requires within { length text.now ≤ all }
    requires small { all + 1 < 2 ^ 64 }
    requires deep { nesting < 2 ^ 32 }
    ensures read { ReadsFilter (λ p. (filters_of p.0.items, p.1.now)) result (text_of.members_read (text_of.filter_read nesting all) (length text.entry.now) text.entry.now) }
    ensures behind { IfOk result (λ p. length p.1.now ≤ length text.entry.now) }
{
    let mut members = Vec::new(alloc);
    let mut rest = text;
    'members: while rest.starts_with('(') {
        match filter_from(alloc, nesting, all, rest) {
            Ok((member, behind)) => {
                members.push(member)?;
                rest = behind;
            }
            Err(fault) => return Err(fault),
        }
    }
    Ok((members, rest))
}

/// What stands behind the first bracket of a filter whose members have this nesting at most, and what stands behind the filter.
#[cycle(filter)]
fn inside_from<'a>(
    alloc: Global,
    nesting: usize,
    all: usize,
    text: &'a str,
) -> Result<(Filter, &'a str), FilterFault>
    requires within { length text.now ≤ all }
    requires small { all + 1 < 2 ^ 64 }
    requires deep { nesting < 2 ^ 32 }
    ensures read { ReadsFilter (λ p. (filter_view p.0, p.1.now)) result (text_of.inside_read (text_of.filter_read nesting all) all text.entry.now) }
    ensures behind { IfOk result (λ p. length p.1.now < length text.entry.now) }
{
    if let Some(inside) = text.strip_prefix('&') {
        match members_from(alloc, nesting, all, inside) {
            Ok((members, behind)) => closed(all, Filter::And(members), behind),
            Err(fault) => Err(fault),
        }
    } else if let Some(inside) = text.strip_prefix('|') {
        match members_from(alloc, nesting, all, inside) {
            Ok((members, behind)) => closed(all, Filter::Or(members), behind),
            Err(fault) => Err(fault),
        }
    } else if let Some(inside) = text.strip_prefix('!') {
        match filter_from(alloc, nesting, all, inside) {
            Ok((member, behind)) => closed(all, Filter::Not(Box::new(alloc, member)?), behind),
            Err(fault) => Err(fault),
        }
    } else {
        item_from(alloc, all, text)
    }
}

/// A filter of this nesting at most at the front of a text, and what stands behind it.
#[cycle(filter)]
fn filter_from<'a>(
    alloc: Global,
    nesting: usize,
    all: usize,
    text: &'a str,
) -> Result<(Filter, &'a str), FilterFault>
    requires within { length text.now ≤ all }
    requires small { all + 1 < 2 ^ 64 }
    requires deep { nesting < 2 ^ 32 }
    ensures read { ReadsFilter (λ p. (filter_view p.0, p.1.now)) result (text_of.filter_read nesting all text.entry.now) }
    ensures behind { IfOk result (λ p. length p.1.now < length text.entry.now) }
{
    match text.strip_prefix('(') {
        Some(inside) if nesting > 0 => inside_from(alloc, nesting - 1, all, inside),
        _ => Err(FilterFault::Bad(all - text.len())),
    }
}

impl Filter {
    /// The filter that a text spells, nested 16 deep at most; `Bad` tells the first octet outside the grammar.
    pub fn parse(alloc: Global, text: &str) -> Result<Filter, FilterFault>
        ensures read { ReadsFilter filter_view result (text_of.filter_of_text text.now) }
        ensures spelled { IfOk result (λ filter. Spells text_of.deepest (filter_view filter) text.now) }
    {
        let all = text.len();
        match filter_from(alloc, DEEPEST, all, text) {
            Ok((filter, behind)) => {
                if behind.is_empty() {
                    Ok(filter)
                } else {
                    drop(filter);
                    Err(FilterFault::Bad(all - behind.len()))
                }
            }
            Err(fault) => Err(fault),
        }
    }
}
