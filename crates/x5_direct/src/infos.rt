//! What answers show of entries (X.511, section 7.7).
ghost use Rattle.std.specs.Prelude.{◌≡◌, ◌<◌, ◌≤◌, ◌-◌, IfOk, IfSome, drop, length, map, take};
ghost use Rattle.x5_direct.specs.Marks.{IsMark};
ghost use Rattle.x5_direct.specs.Spelled.{BeginEach, ReadEach, Reads};
ghost use Rattle.x5_model_messages.specs.Replies as replies;
ghost use Rattle.x5_model_messages.specs.Terms as terms;
ghost use Rattle.x5_model_typed.specs.Named as named;
ghost use Rattle.x5_ops.specs.AnswerViews.{info_view, shown_view};

use crate::element::opened;
use crate::names::{SHORT_OID, known_above, name_behind, type_at};
use crate::unread::Unread;
use crate::values::values_in;
use std::alloc::Global;
use x5_names::Rdn;
use x5_ops::{Attribute, AttributeList, EntryInfo, EntryList, Listed};
use x5_syntax::TypeRef;

/// The attribute that the octets begin with, and how many octets it takes.
pub fn shown_at(alloc: Global, octets: &[u8]) -> Result<(Attribute, usize), Unread>
    ensures reads { IfOk result (λ r. Reads 5 named.Attribute replies.shown_in (shown_view r.0) octets.now (drop r.1 octets.now)) }
    ensures some { IfOk result (λ r. (0 < r.1) × (r.1 ≤ length octets.now)) }
{
    let (content, rest) = opened(0x30, octets)?;
    let taken = octets.len() - rest.len();
    let kind = type_at(content)?;
    let (members, behind) = opened(0x31, &content[SHORT_OID..])?;
    if !behind.is_empty() {
        return Err(Unread::Unusual);
    }
    let values = values_in(alloc, members)?;
    if values.is_empty() {
        return Err(Unread::Unusual);
    }
    let attribute = Attribute {
        kind: TypeRef::Known(kind),
        values: Listed::from_vec(values),
    };
    Ok((attribute, taken))
}

/// The attributes that are all of the octets.
fn all_shown_in(alloc: Global, octets: &[u8]) -> Result<AttributeList, Unread>
    ensures { IfOk result (λ l. ReadEach 5 named.Attribute replies.shown_in (map shown_view l) octets.now) }
{
    let mut attributes = Vec::with_capacity(alloc, 4)?;
    let mut left = octets;
    while !left.is_empty() {
        let (attribute, taken) = shown_at(alloc, left)?;
        attributes.push(attribute)?;
        left = &left[taken..];
    }
    Ok(AttributeList::from_vec(attributes))
}

/// Whether the mark that the entry comes from itself stands first as false, so that it's from a copy, and the octets behind
/// it; where it's missing it's true (X.511, section 7.7).
fn mark_at(octets: &[u8]) -> (bool, &[u8])
    ensures { IsMark result.0 octets.now result.1.now }
{
    let [identifier, length, mark, rest @ ..] = octets else {
        return (false, octets);
    };
    if *identifier != 1 || *length != 1 || *mark != 0 {
        return (false, octets);
    }
    (true, rest)
}

/// What is shown of the entry that the octets begin with, and how many octets it takes; those of its name's RDNs that are spelled as
/// known ones aren't read again. With them, if they may be known from then on, the octets of all its RDNs but the last.
fn info_behind<'a>(
    alloc: Global,
    above_octets: &[u8],
    above: &[Rdn],
    octets: &'a [u8],
) -> Result<(EntryInfo, usize, Option<&'a [u8]>), Unread>
    requires { BeginEach 2 named.Rdn terms.rdn_of above.now above_octets.now }
    ensures reads { IfOk result (λ r. Reads 7 named.EntryInfo replies.info_in (info_view r.0) octets.now (drop r.1 octets.now)) }
    ensures some { IfOk result (λ r. (0 < r.1) × (r.1 ≤ length octets.now)) }
    ensures front { IfOk result (λ r. IfSome r.2 (λ front. BeginEach 2 named.Rdn terms.rdn_of (take (length r.0.name - 1) r.0.name) front.now)) }
{
    let (content, rest) = opened(0x30, octets)?;
    let taken = octets.len() - rest.len();
    let (name, size, front) = name_behind(alloc, above_octets, above, content)?;
    let (copy, behind) = mark_at(&content[size..]);
    let (members, end) = opened(0x31, behind)?;
    if !end.is_empty() {
        drop(name);
        return Err(Unread::Unusual);
    }
    let attributes = all_shown_in(alloc, members)?;
    let info = EntryInfo {
        name,
        copy,
        attributes,
    };
    Ok((info, taken, front))
}

/// What is shown of the entry that the octets begin with, and how many octets it takes.
pub fn info_at(alloc: Global, octets: &[u8]) -> Result<(EntryInfo, usize), Unread>
    ensures reads { IfOk result (λ r. Reads 7 named.EntryInfo replies.info_in (info_view r.0) octets.now (drop r.1 octets.now)) }
    ensures some { IfOk result (λ r. (0 < r.1) × (r.1 ≤ length octets.now)) }
{
    let (info, taken, _) = info_behind(alloc, &[], &[], octets)?;
    Ok((info, taken))
}

/// What is shown of the entries that are all of the octets.
pub fn infos_in(alloc: Global, octets: &[u8]) -> Result<EntryList, Unread>
    ensures { IfOk result (λ l. ReadEach 7 named.EntryInfo replies.info_in (map info_view l) octets.now) }
{
    let mut infos = Vec::with_capacity(alloc, octets.len() / 128 + 1)?;
    let mut above = Vec::new(alloc);
    let mut above_octets: &[u8] = &[];
    let mut left = octets;
    while !left.is_empty() {
        let (info, taken, front) = info_behind(alloc, above_octets, &above, left)?;
        let (known, octets) = known_above(alloc, &info.name, front, above_octets, above)?;
        above = known;
        above_octets = octets;
        infos.push(info)?;
        left = &left[taken..];
    }
    Ok(EntryList::from_vec(infos))
}
