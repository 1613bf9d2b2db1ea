//! Names as they are written: pairs of a type and a text (X.501, section 8; docs/FORMATS.md, names and values as text).

ghost use Rattle.std.specs.Prelude.{◌≡◌, ◌+◌, ◌^◌, ◌<◌, ◌≤◌, nat_lt, ◌++◌, ◌∷◌, [], length, map, flat_map, IfOk, OnOk, string_bytes, Some, None, if◌then◌else◌};
ghost use Rattle.std.specs.List.{list_all, position_or_len};
ghost use Rattle.std.specs.Str.{is_utf8};
ghost use Rattle.x5_model.specs.Normal as model;
ghost use Rattle.x5_model.specs.Types.{kind_of};
ghost use Rattle.x5_model_text.specs.NameText as text_of;
ghost use Rattle.x5_model_text.specs.TypeText.{type_of_text};
ghost use Rattle.x5_syntax.specs.Escapes.{span};
ghost use Rattle.x5_syntax.specs.Dotted.{plus_and_pair};
ghost use Rattle.x5_syntax.specs.TypeView.{type_view};
ghost use Rattle.x5_syntax.specs.Reading.{ReadsName, name_fault};
ghost use Rattle.x5_syntax.specs.declared.names.NameFault.TheVariants.{NoMemory as NoMemoryFault};

use crate::containers::{Octets, Text};
use crate::escapes::{EscapeFault, escape, resolve};
use crate::kinds::{TypeId, TypeRef};
use crate::oid::{is_cut, pieces};
use crate::texts::is_text_of_kind;
use std::alloc::{AllocError, AllocFailed, Global};
use std::marker::Model;
use thiserror::Error;
use x5_memory::NoMemory;

/// Octets of a value at most.
pub const MOST_VALUE_OCTETS: usize = 1024;

/// RDNs of a name at most.
pub const MOST_RDNS: usize = 16;

/// Pairs of an RDN at most.
pub const MOST_PAIRS: usize = 4;

/// Why a text is no name: the first fault in reading order.
#[derive(Clone, Copy, Debug, PartialEq, Eq, Error)]
pub enum NameFault {
    /// The octet at this place can't stand there. A value that isn't of its kind or is too long can't stand at its first octet.
    #[error("octet {0} can't stand in a name")]
    BadSpelling(usize),
    /// A pair has no type of the table, or one that may not stand in an RDN.
    #[error("a type that is unknown or may not name")]
    UnknownType,
    #[error("more than {MOST_RDNS} RDNs")]
    TooManyRdns,
    #[error("an RDN of more than {MOST_PAIRS} pairs")]
    TooManyPairs,
    #[error("an RDN with a type twice")]
    RepeatedType,
    #[error("out of memory")]
    NoMemory,
}

impl From<AllocError> for NameFault {
    ghost from_gives = { λ _ fault. fault ≡ NoMemoryFault };

    fn from(_: AllocError) -> Self {
        NameFault::NoMemory
    }
}

impl<T: Drop> From<AllocFailed<T>> for NameFault {
    ghost from_gives = { λ _ fault. fault ≡ NoMemoryFault };

    fn from(_: AllocFailed<T>) -> Self {
        NameFault::NoMemory
    }
}

impl From<NoMemory> for NameFault {
    ghost from_gives = { λ _ fault. fault ≡ NoMemoryFault };

    fn from(_: NoMemory) -> Self {
        NameFault::NoMemory
    }
}

impl From<EscapeFault> for NameFault {
    ghost from_gives = { λ escape fault. fault ≡ name_fault escape };

    fn from(fault: EscapeFault) -> Self {
        match fault {
            EscapeFault::Bad(place) => NameFault::BadSpelling(place),
            EscapeFault::NoMemory => NameFault::NoMemory,
        }
    }
}

/// The octets as a text, if they are UTF-8. No memory.
pub(crate) fn utf8(octets: Octets) -> Option<Text>
    ensures { result ≡ (if is_utf8 octets then Some octets else None) }
{
    match String::from_utf8(octets.into_vec()) {
        Ok(text) => Some(Text::from_string(text)),
        Err(_) => None,
    }
}

/// The type, if it may stand in an RDN.
fn naming(found: &TypeRef) -> Result<TypeId, NameFault>
    ensures { ReadsName (λ number. number) result (text_of.naming (Some (type_view found.now))) }
{
    match found.known() {
        Some(kind) => {
            if kind.may_name() {
                Ok(kind)
            } else {
                Err(NameFault::UnknownType)
            }
        }
        None => Err(NameFault::UnknownType),
    }
}

/// The type that a word spells, if it may stand in an RDN.
fn naming_type(alloc: Global, word: &str) -> Result<TypeId, NameFault>
    ensures { ReadsName (λ number. number) result (text_of.naming (type_of_text word.now)) }
{
    match TypeRef::parse(alloc, word)? {
        Some(found) => naming(&found),
        None => Err(NameFault::UnknownType),
    }
}

/// Whether a pair has the type.
fn has_type(pairs: &[(TypeId, Text)], kind: TypeId) -> bool
    ensures { result ≡ text_of.has_type kind pairs.now }
{
    let number = kind.number();
    pairs.iter().any(|pair| pair.0.number() == number)
}

/// The type that a word spells, if it may stand in an RDN behind the pairs.
fn new_type(alloc: Global, before: &[(TypeId, Text)], word: &str) -> Result<TypeId, NameFault>
    ensures { ReadsName (λ number. number) result (text_of.new_type before.now word.now) }
{
    let kind = naming_type(alloc, word)?;
    if has_type(before, kind) {
        return Err(NameFault::RepeatedType);
    }
    Ok(kind)
}

/// Whether the text is a value of the type, and within the limit if `limited`.
fn fits_type(limited: bool, kind: TypeId, text: &Text) -> bool
    ensures { result ≡ text_of.fits_text limited kind text.now }
{
    is_text_of_kind(kind.kind(), text.as_str().as_bytes())
        && (!limited || text.len() <= MOST_VALUE_OCTETS)
}

/// The value of a pair, whose text stands at the place.
fn text_at(
    alloc: Global,
    limited: bool,
    kind: TypeId,
    at: usize,
    text: &str,
) -> Result<Text, NameFault>
    requires { at + length text.now + 1 < 2 ^ 64 }
    ensures { ReadsName (λ value. value) result (text_of.text_at limited kind at text.now) }
{
    let octets = resolve(alloc, at, text)?;
    match utf8(octets) {
        Some(value) => {
            if fits_type(limited, kind, &value) {
                Ok(value)
            } else {
                Err(NameFault::BadSpelling(at))
            }
        }
        None => Err(NameFault::BadSpelling(at)),
    }
}

/// A pair behind the pairs of its RDN, whose text stands at the place.
fn pair_at(
    alloc: Global,
    limited: bool,
    at: usize,
    before: &[(TypeId, Text)],
    text: &str,
) -> Result<(TypeId, Text), NameFault>
    requires { at + length text.now + 1 < 2 ^ 64 }
    ensures { ReadsName (λ pair. pair) result (text_of.pair_at limited at before.now text.now) }
{
    let Some((word, value)) = text.split_once('=') else {
        return Err(NameFault::BadSpelling(at + text.len()));
    };
    let kind = new_type(alloc, before, word)?;
    let value = text_at(alloc, limited, kind, at + word.len() + 1, value)?;
    Ok((kind, value))
}

/// The pairs that the parts of an RDN's text spell, as they are written; the first part stands at the place.
fn pairs_at(
    alloc: Global,
    limited: bool,
    at: usize,
    parts: &[&str],
) -> Result<Vec<(TypeId, Text)>, NameFault>
    requires { at + span (map (λ x. x.now) parts.now) < 2 ^ 64 }
    ensures { ReadsName (λ pairs. pairs.items) result (text_of.pairs_at limited at [] (map (λ x. x.now) parts.now)) }
{
    let mut pairs = Vec::with_capacity(alloc, parts.len())?;
    let mut place = at;
    for part in parts {
        if limited && pairs.len() >= MOST_PAIRS {
            return Err(NameFault::TooManyPairs);
        }
        let pair = pair_at(alloc, limited, place, &pairs, part)?;
        pairs.push(pair)?;
        place += part.len() + 1;
    }
    Ok(pairs)
}

/// The pairs of an RDN's text, which stands at the place.
fn rdn_at(
    alloc: Global,
    limited: bool,
    at: usize,
    text: &str,
) -> Result<Vec<(TypeId, Text)>, NameFault>
    requires { at + length text.now + 1 < 2 ^ 64 }
    ensures { ReadsName (λ pairs. pairs.items) result (text_of.rdn_at limited at text.now) }
{
    if !is_cut(text, b'+') {
        return pairs_at(alloc, limited, at, &[text]);
    }
    let parts = pieces(alloc, text, '+')?;
    pairs_at(alloc, limited, at, &parts)
}

/// The pairs of an RDN, as they are written.
#[derive(Drop)]
pub struct RdnValue {
    pairs: Vec<(TypeId, Text)>,
}

impl Model for RdnValue {
    ghost use Rattle.std.specs.Prelude.{ℕ, List};

    ghost Value = { List (ℕ × List ℕ) };

    ghost view = { λ r. r.pairs.items };
}

/// A name as it is written, where it's the value of a type: RDNs from the root. Nothing says that it keeps to the limits.
#[derive(Drop)]
pub struct NameValue {
    rdns: Vec<RdnValue>,
}

impl Model for NameValue {
    ghost use Rattle.std.specs.Prelude.{ℕ, List};

    ghost Value = { List (List (ℕ × List ℕ)) };

    ghost view = { λ n. n.rdns.items };
}

/// The RDNs that the parts of a name's text spell, with their pairs as they are written; the first part stands at the place.
fn rdns_at(
    alloc: Global,
    limited: bool,
    at: usize,
    parts: &[&str],
) -> Result<Vec<RdnValue>, NameFault>
    requires { at + span (map (λ x. x.now) parts.now) < 2 ^ 64 }
    ensures { ReadsName (λ rdns. rdns.items) result (text_of.rdns_at limited at [] (map (λ x. x.now) parts.now)) }
{
    let mut rdns = Vec::with_capacity(alloc, parts.len())?;
    let mut place = at;
    for part in parts {
        if limited && rdns.len() >= MOST_RDNS {
            return Err(NameFault::TooManyRdns);
        }
        let pairs = rdn_at(alloc, limited, place, part)?;
        rdns.push(RdnValue { pairs })?;
        place += part.len() + 1;
    }
    Ok(rdns)
}

/// The RDNs of a name's text behind its first `/`.
fn behind_slash(alloc: Global, limited: bool, text: &str) -> Result<Vec<RdnValue>, NameFault>
    ensures { ReadsName (λ rdns. rdns.items) result (text_of.behind_slash limited text.now) }
{
    if text.is_empty() {
        return Ok(Vec::new(alloc));
    }
    let parts = pieces(alloc, text, '/')?;
    rdns_at(alloc, limited, 1, &parts)
}

/// The RDNs of a name's text, with their pairs as they are written; if `limited`, only within the limits.
pub(crate) fn written_name(
    alloc: Global,
    limited: bool,
    text: &str,
) -> Result<Vec<RdnValue>, NameFault>
    ensures { ReadsName (λ rdns. rdns.items) result (text_of.written_name limited text.now) }
{
    match text.strip_prefix('/') {
        Some(behind) => behind_slash(alloc, limited, behind),
        None => Err(NameFault::BadSpelling(0)),
    }
}

/// The place of the first pair whose type has a larger number.
fn place_of(pairs: &[(TypeId, Text)], number: u8) -> usize
    ensures place { result ≡ position_or_len (λ pair. nat_lt number pair.0) pairs.now }
    ensures inside { result ≤ length pairs.now }
{
    for (i, pair) in pairs.iter().enumerate() {
        if number < pair.0.number() {
            return i;
        }
    }
    pairs.len()
}

/// Puts the pair where the order of type numbers has it.
fn insert(pairs: &mut Vec<(TypeId, Text)>, pair: (TypeId, Text)) -> Result<(), NoMemory>
    ensures { OnOk result (pairs.new.items ≡ text_of.inserted pair pairs.old.items) }
{
    let place = place_of(pairs, pair.0.number());
    pairs.insert(place, pair)?;
    Ok(())
}

/// The pairs in the order of type numbers.
fn sorted(alloc: Global, pairs: &[(TypeId, Text)]) -> Result<RdnValue, NoMemory>
    ensures { IfOk result (λ rdn. rdn ≡ text_of.sorted pairs.now) }
{
    let mut done = Vec::with_capacity(alloc, pairs.len())?;
    for pair in pairs {
        let text = pair.1.clone()?;
        insert(&mut done, (pair.0, text))?;
    }
    Ok(RdnValue { pairs: done })
}

/// Copies of the RDNs with their pairs in the order of type numbers.
fn sorted_copies(alloc: Global, rdns: &[RdnValue]) -> Result<NameValue, NoMemory>
    ensures { IfOk result (λ name. name ≡ map text_of.sorted rdns.now) }
{
    let mut done = Vec::with_capacity(alloc, rdns.len())?;
    for rdn in rdns {
        let pairs = rdn.pairs();
        done.push(sorted(alloc, pairs)?)?;
    }
    Ok(NameValue { rdns: done })
}

/// Whether each RDN has one pair at most.
fn are_single(rdns: &[RdnValue]) -> bool
    ensures { result ≡ list_all (λ r. nat_lt (length r) 2) rdns.now }
{
    rdns.iter().all(|rdn| rdn.pairs().len() < 2)
}

/// The RDNs with their pairs in the order of type numbers: those of one pair stand as they are.
pub(crate) fn sorted_rdns(alloc: Global, rdns: Vec<RdnValue>) -> Result<NameValue, NoMemory>
    ensures { IfOk result (λ name. name ≡ map text_of.sorted rdns.items) }
{
    if are_single(&rdns) {
        return Ok(NameValue { rdns });
    }
    sorted_copies(alloc, &rdns)
}

/// The first limit that the pairs of an RDN pass.
fn rdn_over(pairs: &[(TypeId, Text)]) -> Option<u32>
    ensures { result ≡ model.rdn_over 0 pairs.now }
{
    for (i, pair) in pairs.iter().enumerate() {
        if i >= MOST_PAIRS {
            return Some(MOST_PAIRS as u32);
        }
        if pair.1.len() > MOST_VALUE_OCTETS {
            return Some(MOST_VALUE_OCTETS as u32);
        }
    }
    None
}

/// The first limit that the RDNs of a name pass.
pub(crate) fn name_over(rdns: &[RdnValue]) -> Option<u32>
    ensures { result ≡ model.name_over 0 rdns.now }
{
    for (i, rdn) in rdns.iter().enumerate() {
        if i >= MOST_RDNS {
            return Some(MOST_RDNS as u32);
        }
        let over = rdn_over(rdn.pairs());
        if over.is_some() {
            return over;
        }
    }
    None
}

/// Whether the pair may stand in an RDN.
fn is_pair(pair: &(TypeId, Text)) -> bool
    ensures { result ≡ model.is_pair pair.now }
{
    pair.0.may_name() && is_text_of_kind(pair.0.kind(), pair.1.as_str().as_bytes())
}

/// Whether the types stand in the order of their numbers, each once.
fn ascends(pairs: &[(TypeId, Text)]) -> bool
    ensures { result ≡ model.ascends pairs.now }
{
    let mut least = 0u16;
    for pair in pairs {
        let number = u16::from(pair.0.number());
        if number < least {
            return false;
        }
        least = number + 1;
    }
    true
}

/// Whether each pair may stand in an RDN.
fn are_pairs(pairs: &[(TypeId, Text)]) -> bool
    ensures { result ≡ list_all model.is_pair pairs.now }
{
    pairs.iter().all(|pair| is_pair(pair))
}

/// Whether the pairs are those of an RDN.
fn is_rdn(pairs: &[(TypeId, Text)]) -> bool
    ensures { result ≡ model.is_rdn pairs.now }
{
    !pairs.is_empty() && are_pairs(pairs) && ascends(pairs)
}

/// Adds the text of a pair.
fn add_pair(alloc: Global, out: &mut String, pair: &(TypeId, Text)) -> Result<(), NoMemory>
    ensures { OnOk result (string_bytes out.new ≡ string_bytes out.old ++ text_of.text_of_pair pair.now) }
{
    let escaped = escape(alloc, pair.1.as_str())?;
    let keyword = pair.0.keyword();
    let value = escaped.as_str();
    write!(out, "{keyword}={value}")?;
    Ok(())
}

/// Adds a `+` and the text of a pair for each pair.
fn add_others(alloc: Global, out: &mut String, pairs: &[(TypeId, Text)]) -> Result<(), NoMemory>
    ensures { OnOk result (string_bytes out.new ≡ string_bytes out.old ++ flat_map plus_and_pair pairs.now) }
{
    for pair in pairs {
        out.push('+')?;
        add_pair(alloc, out, pair)?;
    }
    Ok(())
}

/// Adds the text of an RDN.
fn add_pairs(alloc: Global, out: &mut String, pairs: &[(TypeId, Text)]) -> Result<(), NoMemory>
    ensures { OnOk result (string_bytes out.new ≡ string_bytes out.old ++ text_of.text_of_pairs pairs.now) }
{
    let Some((first, others)) = pairs.split_first() else {
        return Ok(());
    };
    add_pair(alloc, out, first)?;
    add_others(alloc, out, others)
}

/// Adds a `/` and the text of an RDN for each RDN.
fn add_rdns(alloc: Global, out: &mut String, rdns: &[RdnValue]) -> Result<(), NoMemory>
    ensures { OnOk result (string_bytes out.new ≡ string_bytes out.old ++ flat_map text_of.slash_and_pairs rdns.now) }
{
    for rdn in rdns {
        out.push('/')?;
        add_pairs(alloc, out, rdn.pairs())?;
    }
    Ok(())
}

impl RdnValue {
    /// An RDN of these pairs. No memory.
    pub fn new(pairs: Vec<(TypeId, Text)>) -> RdnValue
        ensures { result ≡ pairs.items }
    {
        RdnValue { pairs }
    }

    /// Its pairs. No memory.
    pub fn pairs(&self) -> &[(TypeId, Text)]
        ensures { result.now ≡ self.now }
    {
        self.pairs.as_slice()
    }

    /// Whether the pairs are those of an RDN: of types that may name, each once and in their order, with values of their kinds. No memory.
    pub fn is_valid(&self) -> bool
        ensures { result ≡ model.is_rdn self.now }
    {
        is_rdn(self.pairs.as_slice())
    }
}

impl RdnValue {
    /// The RDN that a text spells, within the limits.
    pub fn parse(alloc: Global, text: &str) -> Result<RdnValue, NameFault>
        ensures { ReadsName (λ rdn. rdn) result (text_of.rdn_of_text text.now) }
    {
        let parts = pieces(alloc, text, '/')?;
        let Some((first, others)) = parts.split_first() else {
            return Err(NameFault::BadSpelling(0));
        };
        let pairs = rdn_at(alloc, true, 0, first)?;
        if !others.is_empty() {
            return Err(NameFault::BadSpelling(first.len()));
        }
        Ok(sorted(alloc, &pairs)?)
    }

    /// Its text.
    pub fn text(&self, alloc: Global) -> Result<Text, NoMemory>
        ensures { IfOk result (λ text. text ≡ text_of.text_of_pairs self.now) }
    {
        let mut out = String::new(alloc);
        add_pairs(alloc, &mut out, self.pairs.as_slice())?;
        Ok(Text::from_string(out))
    }
}

impl NameValue {
    /// A name of these RDNs. No memory.
    pub fn new(rdns: Vec<RdnValue>) -> NameValue
        ensures { result ≡ rdns.items }
    {
        NameValue { rdns }
    }

    /// Its RDNs. No memory.
    pub fn rdns(&self) -> &[RdnValue]
        ensures { result.now ≡ self.now }
    {
        self.rdns.as_slice()
    }

    /// Whether the RDNs are those of a name. No memory.
    pub fn is_valid(&self) -> bool
        ensures { result ≡ model.is_name self.now }
    {
        self.rdns.iter().all(|rdn| rdn.is_valid())
    }

    /// The first limit that it passes: of RDNs, of pairs or of a value's octets. No memory.
    pub fn limit_passed(&self) -> Option<u32>
        ensures { result ≡ model.name_over 0 self.now }
    {
        name_over(self.rdns.as_slice())
    }

    /// The name that a text spells, within the limits.
    pub fn parse(alloc: Global, text: &str) -> Result<NameValue, NameFault>
        ensures { ReadsName (λ name. name) result (text_of.name_of_text text.now) }
    {
        let rdns = written_name(alloc, true, text)?;
        Ok(sorted_rdns(alloc, rdns)?)
    }

    /// Its text.
    pub fn text(&self, alloc: Global) -> Result<Text, NoMemory>
        ensures { IfOk result (λ text. text ≡ text_of.text_of_written self.now) }
    {
        if self.rdns.is_empty() {
            return Text::new(alloc, "/");
        }
        let mut out = String::new(alloc);
        add_rdns(alloc, &mut out, self.rdns.as_slice())?;
        Ok(Text::from_string(out))
    }
}

impl Clone for RdnValue {
    ghost is_clone = { λ a b. b ≡ a };

    fn clone(&self) -> Result<RdnValue, AllocError> {
        Ok(RdnValue {
            pairs: self.pairs.clone()?,
        })
    }
}

impl Clone for NameValue {
    ghost is_clone = { λ a b. b ≡ a };

    fn clone(&self) -> Result<NameValue, AllocError> {
        Ok(NameValue {
            rdns: self.rdns.clone()?,
        })
    }
}
