//! Entries of refreshes (X.525, section 10), whose attributes stand in the order of their types, and values in that of their normal
//! forms.
ghost use Rattle.std.specs.Prelude.{◌≡◌, ◌<◌, ◌≤◌, ◌&&◌, ◌-◌, IfOk, IfSome, Some, drop, length, map, not, take, true};
ghost use Rattle.std.specs.List.{list_all};
ghost use Rattle.x5_direct.specs.Kept.{kept_in, stored_as};
ghost use Rattle.x5_direct.specs.Spelled.{BeginEach, ReadEach, Reads};
ghost use Rattle.x5_model.specs.Attributes.{is_ordered, kind_below, value_below};
ghost use Rattle.x5_model.specs.Normal.{is_of_kind};
ghost use Rattle.x5_model.specs.Types.{kind_of};
ghost use Rattle.x5_model.specs.Words.{ascending, in_option, is_empty, last_of, octets_below};
ghost use Rattle.x5_model_messages.specs.Shadows as shadows;
ghost use Rattle.x5_model_messages.specs.Terms as terms;
ghost use Rattle.x5_model_typed.specs.Named as named;

use crate::element::opened;
use crate::names::{SHORT_OID, known_above, name_behind, type_at};
use crate::unread::Unread;
use crate::values::value_at;
use std::alloc::Global;
use x5_match::{Entry, Stored, StoredList, StoredValue, StoredValueList};
use x5_names::Rdn;
use x5_ops::{Named, NamedList};
use x5_syntax::{Normal, TypeId, normal};

/// The value of the type that the octets begin with, and how many octets it takes.
fn stored_value_at(
    alloc: Global,
    kind: TypeId,
    octets: &[u8],
) -> Result<(StoredValue, usize), Unread>
    ensures reads { IfOk result (λ r. Reads 3 named.Value (stored_as kind) r.0 octets.now (drop r.1 octets.now)) }
    ensures fits { IfOk result (λ r. is_of_kind (kind_of kind) r.0.value ≡ true) }
    ensures some { IfOk result (λ r. (0 < r.1) × (r.1 ≤ length octets.now)) }
{
    let (value, taken) = value_at(alloc, octets)?;
    let normal = normal(alloc, kind, &value)?;
    Ok((StoredValue { value, normal }, taken))
}

/// Whether the one normal form is below the other.
fn is_below(a: &Normal, b: &Normal) -> bool
    ensures { result ≡ octets_below a.now b.now }
{
    a.as_slice().cmp(b.as_slice()).is_lt()
}

/// Whether the value stands behind these in the order of normal forms.
fn follows_values(values: &[StoredValue], value: &StoredValue) -> bool
    ensures { result ≡ in_option true (λ last. value_below last value.now) (last_of values.now) }
{
    match values.last() {
        Some(last) => is_below(&last.normal, &value.normal),
        None => true,
    }
}

/// The values of the type that are all of the octets, in the order of their normal forms, each once.
fn stored_values_in(alloc: Global, kind: TypeId, octets: &[u8]) -> Result<Vec<StoredValue>, Unread>
    ensures are { IfOk result (λ vs. ReadEach 3 named.Value (stored_as kind) vs.items octets.now) }
    ensures fit { IfOk result (λ vs. list_all (λ v. is_of_kind (kind_of kind) v.value) vs.items ≡ true) }
    ensures ordered { IfOk result (λ vs. ascending value_below vs.items ≡ true) }
{
    let mut values = Vec::with_capacity(alloc, 1)?;
    let mut rest = octets;
    while !rest.is_empty() {
        let (value, taken) = stored_value_at(alloc, kind, rest)?;
        if !follows_values(values.as_slice(), &value) {
            drop(value);
            return Err(Unread::Unusual);
        }
        values.push(value)?;
        rest = &rest[taken..];
    }
    Ok(values)
}

/// The attribute that the octets begin with, and how many octets it takes.
fn stored_at(alloc: Global, octets: &[u8]) -> Result<(Stored, usize), Unread>
    ensures reads { IfOk result (λ r. Reads 5 named.Attribute kept_in (Some r.0) octets.now (drop r.1 octets.now)) }
    ensures ordered { IfOk result (λ r. (not (is_empty r.0.values) && ascending value_below r.0.values) ≡ true) }
    ensures some { IfOk result (λ r. (0 < r.1) × (r.1 ≤ length octets.now)) }
{
    let (content, rest) = opened(0x30, octets)?;
    let taken = octets.len() - rest.len();
    let kind = type_at(content)?;
    let (members, end) = opened(0x31, &content[SHORT_OID..])?;
    if !end.is_empty() {
        return Err(Unread::Unusual);
    }
    let values = StoredValueList::from_vec(stored_values_in(alloc, kind, members)?);
    if values.as_slice().is_empty() {
        return Err(Unread::Unusual);
    }
    Ok((Stored { kind, values }, taken))
}

/// Whether the attribute stands behind these in the order of types.
fn follows_types(attributes: &[Stored], attribute: &Stored) -> bool
    ensures { result ≡ in_option true (λ last. kind_below last attribute.now) (last_of attributes.now) }
{
    match attributes.last() {
        Some(last) => last.kind.number() < attribute.kind.number(),
        None => true,
    }
}

/// The attributes that are all of the octets, in the order of their types, each once.
fn all_stored_in(alloc: Global, octets: &[u8]) -> Result<StoredList, Unread>
    ensures are { IfOk result (λ l. ReadEach 5 named.Attribute kept_in (map (λ a. Some a) l) octets.now) }
    ensures ordered { IfOk result (λ l. is_ordered (record { attributes = l }) ≡ true) }
{
    let mut attributes = Vec::with_capacity(alloc, 4)?;
    let mut rest = octets;
    while !rest.is_empty() {
        let (attribute, taken) = stored_at(alloc, rest)?;
        if !follows_types(attributes.as_slice(), &attribute) {
            drop(attribute);
            return Err(Unread::Unusual);
        }
        attributes.push(attribute)?;
        rest = &rest[taken..];
    }
    Ok(StoredList::from_vec(attributes))
}

/// The entry with its name that the octets begin with, all of it from the entry itself, and how many octets it takes; those of its
/// name's RDNs that are spelled as known ones aren't read again. With them, if they may be known from then on, the octets of all its
/// RDNs but the last.
pub(crate) fn entry_behind<'a>(
    alloc: Global,
    above_octets: &[u8],
    above: &[Rdn],
    octets: &'a [u8],
) -> Result<(Named, usize, Option<&'a [u8]>), Unread>
    requires { BeginEach 2 named.Rdn terms.rdn_of above.now above_octets.now }
    ensures reads { IfOk result (λ r. Reads 7 named.Entry shadows.entry_in r.0 octets.now (drop r.1 octets.now)) }
    ensures some { IfOk result (λ r. (0 < r.1) × (r.1 ≤ length octets.now)) }
    ensures front { IfOk result (λ r. IfSome r.2 (λ front. BeginEach 2 named.Rdn terms.rdn_of (take (length r.0.name - 1) r.0.name) front.now)) }
{
    let (content, rest) = opened(0x30, octets)?;
    let taken = octets.len() - rest.len();
    let (name, named_by, front) = name_behind(alloc, above_octets, above, content)?;
    let (members, end) = opened(0x31, &content[named_by..])?;
    if !end.is_empty() {
        drop(name);
        return Err(Unread::Unusual);
    }
    let attributes = all_stored_in(alloc, members)?;
    let entry = Entry::from_list(attributes).shared(alloc)?;
    Ok((Named { name, entry }, taken, front))
}
