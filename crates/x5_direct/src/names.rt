//! Names of entries (X.501, section 9).
ghost use Rattle.std.specs.Prelude.{◌≡◌, ◌<◌, ◌≤◌, ◌-◌, IfOk, IfSome, [], ◌∷◌, drop, length, take, true};
ghost use Rattle.std.specs.List.{list_all};
ghost use Rattle.x5_direct.specs.Spelled.{Ahead, BeginEach, Spelled, Reads, ReadEach, pair_of};
ghost use Rattle.x5_model.specs.Normal as normal;
ghost use Rattle.x5_model.specs.Types as types;
ghost use Rattle.x5_model.specs.Values as values;
ghost use Rattle.x5_model_messages.specs.Terms as terms;
ghost use Rattle.x5_model_typed.specs.Leaves as leaves;
ghost use Rattle.x5_model_typed.specs.Named as named;
ghost use Rattle.x5_model_typed.specs.Nodes as nodes;
ghost use Rattle.x5_syntax.specs.Views.{kind_view};

use crate::element::opened;
use crate::unread::Unread;
use std::alloc::Global;
use x5_names::{Name, Pair, Rdn};
use x5_syntax::{Kind, MOST_RDNS, MOST_VALUE_OCTETS, TypeId};

/// How many octets an object identifier takes that is 2.5 and two arcs, each of one octet: an identifier, a length, and three.
pub const SHORT_OID: usize = 5;

/// The two arcs behind 2.5 of the object identifier that the octets begin with.
#[inline]
pub(crate) fn arcs_at(octets: &[u8]) -> Option<(u8, u8)>
    ensures { IfSome result (λ r. (octets.now ≡ 6 ∷ 3 ∷ 85 ∷ r.0 ∷ r.1 ∷ drop 5 octets.now) × (r.0 < 128) × (r.1 < 128)) }
{
    let [identifier, length, first, second, third, ..] = octets else {
        return None;
    };
    if *identifier != 6 || *length != 3 || *first != 0x55 || *second >= 128 || *third >= 128 {
        return None;
    }
    Some((*second, *third))
}

/// The type of the table that the octets begin with: the object identifier 2.5.4 and its number.
#[inline]
pub fn type_at(octets: &[u8]) -> Result<TypeId, Unread>
    ensures is { IfOk result (λ r. Spelled 0 named.AnyOid (terms.type_node (values.Known r)) octets.now (drop 5 octets.now)) }
    ensures known { IfOk result (λ r. types.is_known r ≡ true) }
    ensures some { IfOk result (λ r. 5 ≤ length octets.now) }
{
    let Some((second, number)) = arcs_at(octets) else {
        return Err(Unread::Unusual);
    };
    if second != 4 {
        return Err(Unread::Unusual);
    }
    let Some(kind) = TypeId::new(number) else {
        return Err(Unread::Unusual);
    };
    Ok(kind)
}

/// Whether the octet is a character of PrintableString (X.680, section 41).
fn is_printable(octet: u8) -> bool
    ensures { result ≡ normal.is_printable octet }
{
    octet.is_ascii_alphanumeric()
        || matches!(
            octet,
            b' ' | b'\'' | b'(' | b')' | b'+' | b',' | b'-' | b'.' | b'/' | b':' | b'=' | b'?'
        )
}

fn all_printable(text: &[u8]) -> bool
    ensures { result ≡ list_all normal.is_printable text.now }
{
    text.iter().all(|octet| is_printable(*octet))
}

fn is_length(text: &[u8]) -> bool
    ensures { result ≡ leaves.is_length text.now }
{
    !text.is_empty() && text.len() <= MOST_VALUE_OCTETS
}

fn is_printable_text(text: &[u8]) -> bool
    ensures { result ≡ leaves.text_of normal.is_printable text.now }
{
    all_printable(text) && is_length(text)
}

/// The octets as a text, if they may be a PrintableString.
fn printable(octets: &[u8]) -> Option<&str>
    ensures { IfSome result (λ t. (t.now ≡ octets.now) × (leaves.text_of normal.is_printable octets.now ≡ true)) }
{
    if !is_printable_text(octets) {
        return None;
    }
    std::str::from_utf8(octets).ok()
}

/// The text that the octets begin with as a PrintableString, and the octets behind it.
pub fn text_at(octets: &[u8]) -> Result<(&str, &[u8]), Unread>
    ensures is { IfOk result (λ r. Spelled 0 named.Value (nodes.Text r.0.now) octets.now r.1.now) }
    ensures printable { IfOk result (λ r. leaves.text_of normal.is_printable r.0.now ≡ true) }
    ensures less { IfOk result (λ r. length r.1.now < length octets.now) }
{
    let (content, rest) = opened(0x13, octets)?;
    let Some(text) = printable(content) else {
        return Err(Unread::Unusual);
    };
    Ok((text, rest))
}

fn all_letters(text: &[u8]) -> bool
    ensures { result ≡ normal.is_part_of_kind types.CountryKind text.now }
{
    text.iter().all(|octet| octet.is_ascii_alphabetic())
}

/// Whether the text is two letters, as a country's is.
fn is_country(text: &[u8]) -> bool
    ensures { result ≡ normal.is_text_of_kind types.CountryKind text.now }
{
    all_letters(text) && text.len() == 2
}

/// Whether the printable text may be a value of the type in an RDN. Those of numeric strings aren't looked at.
#[tactic(auto, using(crate::proofs::Naming::printables))]
fn may_stand(kind: TypeId, text: &str) -> bool
    requires { leaves.text_of normal.is_printable text.now ≡ true }
    ensures { result ≡ true → normal.is_pair (kind, text.now) ≡ true }
{
    if !kind.may_name() {
        return false;
    }
    match kind.kind() {
        Kind::Text | Kind::Printable | Kind::Telephone => true,
        Kind::Country => is_country(text.as_bytes()),
        _ => false,
    }
}

/// The pair that is all of the octets, as it's stored.
fn pair_in(alloc: Global, octets: &[u8]) -> Result<Pair, Unread>
    ensures { IfOk result (λ r. Reads 1 named.Pair pair_of r octets.now []) }
{
    let (content, rest) = opened(0x30, octets)?;
    if !rest.is_empty() {
        return Err(Unread::Unusual);
    }
    let kind = type_at(content)?;
    let (text, behind) = text_at(&content[SHORT_OID..])?;
    if !behind.is_empty() {
        return Err(Unread::Unusual);
    }
    if !may_stand(kind, text) {
        return Err(Unread::Unusual);
    }
    Ok(Pair::new(alloc, kind, text)?)
}

/// The RDN of one pair that the octets begin with, and how many octets it takes.
pub fn rdn_at(alloc: Global, octets: &[u8]) -> Result<(Rdn, usize), Unread>
    ensures reads { IfOk result (λ r. Reads 2 named.Rdn terms.rdn_of r.0 octets.now (drop r.1 octets.now)) }
    ensures some { IfOk result (λ r. (0 < r.1) × (r.1 ≤ length octets.now)) }
{
    let (content, rest) = opened(0x31, octets)?;
    let taken = octets.len() - rest.len();
    let pair = pair_in(alloc, content)?;
    Ok((Rdn::one(alloc, pair)?, taken))
}

/// The RDNs with which the octets begin, where these are those of known RDNs and more are left; and what is left.
fn begun<'a>(
    alloc: Global,
    above_octets: &[u8],
    above: &[Rdn],
    octets: &'a [u8],
) -> Result<(Vec<Rdn>, &'a [u8]), Unread>
    requires { BeginEach 2 named.Rdn terms.rdn_of above.now above_octets.now }
    ensures { IfOk result (λ r. Ahead 2 named.Rdn terms.rdn_of octets.now r.0.items r.1.now) }
{
    let mut rdns: Vec<Rdn> = Vec::with_capacity(alloc, octets.len() / 12 + 1)?;
    if let Some(left) = octets.strip_prefix(above_octets) {
        if !left.is_empty() {
            rdns.extend_from_slice(above)?;
            return Ok((rdns, left));
        }
    }
    Ok((rdns, octets))
}

/// The octets before those that are left, if they are of use.
fn front_of<'a>(octets: &'a [u8], left: &[u8], of_use: bool) -> Option<&'a [u8]>
    ensures { IfSome result (λ front. front.now ≡ take (length octets.now - length left.now) octets.now) }
{
    if of_use {
        Some(&octets[..octets.len().saturating_sub(left.len())])
    } else {
        None
    }
}

/// The RDNs that are all of the octets, of which those that are spelled as known ones aren't read again; and, if they may be
/// known from then on, the octets of all but the last.
fn rdns_behind<'a>(
    alloc: Global,
    above_octets: &[u8],
    above: &[Rdn],
    octets: &'a [u8],
) -> Result<(Vec<Rdn>, Option<&'a [u8]>), Unread>
    requires { BeginEach 2 named.Rdn terms.rdn_of above.now above_octets.now }
    ensures read { IfOk result (λ r. ReadEach 2 named.Rdn terms.rdn_of r.0.items octets.now) }
    ensures front { IfOk result (λ r. IfSome r.1 (λ front. BeginEach 2 named.Rdn terms.rdn_of (take (length r.0.items - 1) r.0.items) front.now)) }
{
    let (mut rdns, mut left) = begun(alloc, above_octets, above, octets)?;
    let known = rdns.len();
    let mut front = None;
    while !left.is_empty() {
        let before = front_of(octets, left, rdns.len() > known);
        let (rdn, taken) = rdn_at(alloc, left)?;
        rdns.push(rdn)?;
        front = before;
        left = &left[taken..];
    }
    Ok((rdns, front))
}

/// The RDNs that are all of the octets.
pub fn rdns_in(alloc: Global, octets: &[u8]) -> Result<Vec<Rdn>, Unread>
    ensures { IfOk result (λ rdns. ReadEach 2 named.Rdn terms.rdn_of rdns.items octets.now) }
{
    let (rdns, _) = rdns_behind(alloc, &[], &[], octets)?;
    Ok(rdns)
}

/// The name that the octets begin with, and how many octets it takes; those of its RDNs that are spelled as known ones aren't read
/// again. With them, if they may be known from then on, the octets of all RDNs but the last.
pub fn name_behind<'a>(
    alloc: Global,
    above_octets: &[u8],
    above: &[Rdn],
    octets: &'a [u8],
) -> Result<(Name, usize, Option<&'a [u8]>), Unread>
    requires { BeginEach 2 named.Rdn terms.rdn_of above.now above_octets.now }
    ensures reads { IfOk result (λ r. Reads 3 named.Name terms.name_of r.0 octets.now (drop r.1 octets.now)) }
    ensures some { IfOk result (λ r. (0 < r.1) × (r.1 ≤ length octets.now)) }
    ensures front { IfOk result (λ r. IfSome r.2 (λ front. BeginEach 2 named.Rdn terms.rdn_of (take (length r.0 - 1) r.0) front.now)) }
{
    let (content, rest) = opened(0x30, octets)?;
    let taken = octets.len() - rest.len();
    let (rdns, front) = rdns_behind(alloc, above_octets, above, content)?;
    if rdns.len() > MOST_RDNS {
        return Err(Unread::Unusual);
    }
    Ok((Name::new(alloc, rdns)?, taken, front))
}

/// The name that the octets begin with, and how many octets it takes.
pub fn name_at(alloc: Global, octets: &[u8]) -> Result<(Name, usize), Unread>
    ensures reads { IfOk result (λ r. Reads 3 named.Name terms.name_of r.0 octets.now (drop r.1 octets.now)) }
    ensures some { IfOk result (λ r. (0 < r.1) × (r.1 ≤ length octets.now)) }
{
    let (name, taken, _) = name_behind(alloc, &[], &[], octets)?;
    Ok((name, taken))
}

/// The name that the octets begin with, and how many octets it takes: a known one, where they begin with the octets that spell that.
pub fn name_like(
    alloc: Global,
    known: &Name,
    spelled: &[u8],
    octets: &[u8],
) -> Result<(Name, usize), Unread>
    requires { Reads 3 named.Name terms.name_of known.now spelled.now [] }
    ensures reads { IfOk result (λ r. Reads 3 named.Name terms.name_of r.0 octets.now (drop r.1 octets.now)) }
    ensures some { IfOk result (λ r. (0 < r.1) × (r.1 ≤ length octets.now)) }
{
    if spelled.is_empty() {
        return name_at(alloc, octets);
    }
    let Some(rest) = octets.strip_prefix(spelled) else {
        return name_at(alloc, octets);
    };
    let taken = octets.len() - rest.len();
    Ok((known.clone()?, taken))
}

/// The RDNs of the name but the last.
fn rdns_above(alloc: Global, name: &Name) -> Result<Vec<Rdn>, Unread>
    ensures { IfOk result (λ rdns. rdns.items ≡ take (length name.now - 1) name.now) }
{
    let rdns = name.rdns();
    Ok(Vec::from_clones(alloc, &rdns[..rdns.len().saturating_sub(1)])?)
}

/// What names may begin with from now on: what stands above this one, if its octets are at hand, and else as before.
pub(crate) fn known_above<'a>(
    alloc: Global,
    name: &Name,
    front: Option<&'a [u8]>,
    above_octets: &'a [u8],
    above: Vec<Rdn>,
) -> Result<(Vec<Rdn>, &'a [u8]), Unread>
    requires front { IfSome front (λ front. BeginEach 2 named.Rdn terms.rdn_of (take (length name.now - 1) name.now) front.now) }
    requires above { BeginEach 2 named.Rdn terms.rdn_of above.items above_octets.now }
    ensures { IfOk result (λ r. BeginEach 2 named.Rdn terms.rdn_of r.0.items r.1.now) }
{
    match front {
        Some(front) => {
            let rdns = rdns_above(alloc, name)?;
            Ok((rdns, front))
        }
        None => Ok((above, above_octets)),
    }
}
