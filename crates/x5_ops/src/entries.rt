//! What updates do to entries (X.511, section 11). Attributes stay in the order of their types' numbers, and the values of
//! each in the order of their normal forms.

ghost use Rattle.std.specs.Prelude.{◌≡◌, ◌≤◌, ◌==◌, ◌&&◌, not, nat_lt, false, length, IfOk, OnOk, if◌then◌else◌, IsTrue};
ghost use Rattle.std.specs.List.{filter, list_any, list_all, position_or_len};
ghost use Rattle.x5_model.specs.Attributes as model;
ghost use Rattle.x5_syntax.specs.ValueView.{value_view};
ghost use Rattle.x5_model.specs.Types.{is_single};
ghost use Rattle.x5_model.specs.Words.{ascending, insert_sorted, is_empty, same_octets, octets_below};

use std::alloc::Global;
use x5_match::{Entry, Stored, StoredList, StoredValue, StoredValueList};
use x5_names::{Pair, Rdn};
use x5_syntax::{NoMemory, Normal, TypeId, Value};

/// The attributes of other types.
fn others_of(alloc: Global, attributes: Vec<Stored>, kind: TypeId) -> Result<Vec<Stored>, NoMemory>
    ensures { IfOk result (λ v. v.items ≡ filter (λ a. not (a.kind == kind)) attributes.items) }
{
    let others = attributes
        .into_iter()
        .filter(|attribute| attribute.kind.number() != kind.number())
        .collect(alloc)?;
    Ok(others)
}

/// Whether the attribute's type has a smaller number.
fn is_lower(attribute: &Stored, kind: TypeId) -> bool
    ensures { result ≡ nat_lt attribute.now.kind kind }
{
    attribute.kind.number() < kind.number()
}

/// The place of the first attribute whose type's number isn't smaller.
fn place_of_type(attributes: &[Stored], kind: TypeId) -> usize
    ensures place { result ≡ position_or_len (λ a. not (nat_lt a.kind kind)) attributes.now }
    ensures inside { result ≤ length attributes.now }
{
    for (i, attribute) in attributes.iter().enumerate() {
        if !is_lower(attribute, kind) {
            return i;
        }
    }
    attributes.len()
}

/// Puts the attribute where the order of type numbers has it.
fn insert_attribute(
    attributes: &mut Vec<Stored>,
    kind: TypeId,
    values: StoredValueList,
) -> Result<(), NoMemory>
    ensures { OnOk result (attributes.new.items ≡ insert_sorted model.kind_below (record { kind = kind; values = values }) attributes.old.items) }
{
    let place = place_of_type(attributes, kind);
    attributes.insert(place, Stored { kind, values })?;
    Ok(())
}

/// The others, and the attribute of these values, if there are some.
#[tactic(auto, using(crate::proofs::Inserting::empty_by_length))]
fn with_attribute(
    others: Vec<Stored>,
    kind: TypeId,
    values: StoredValueList,
) -> Result<Vec<Stored>, NoMemory>
    ensures { IfOk result (λ v. v.items ≡ (if is_empty values then others.items else insert_sorted model.kind_below (record { kind = kind; values = values }) others.items)) }
{
    let mut attributes = others;
    if values.as_slice().is_empty() {
        return Ok(attributes);
    }
    insert_attribute(&mut attributes, kind, values)?;
    Ok(attributes)
}

/// The entry with these values of the type in place of those that it had; without values the attribute goes.
pub fn with_values(
    alloc: Global,
    entry: Entry,
    kind: TypeId,
    values: StoredValueList,
) -> Result<Entry, NoMemory>
    requires { IsTrue (ascending model.value_below values) }
    ensures { IfOk result (λ e. e ≡ model.entry_with kind values entry) }
{
    let _ordered = entry.attributes();
    let Entry { attributes } = entry;
    let held = attributes.into_vec()?;
    let others = others_of(alloc, held, kind)?;
    let attributes = with_attribute(others, kind, values)?;
    Ok(Entry::from_list(StoredList::from_vec(attributes)))
}

/// Whether the octets are below those of the other normal form.
fn is_below(a: &Normal, b: &Normal) -> bool
    ensures { result ≡ octets_below a.now b.now }
{
    a.as_slice().cmp(b.as_slice()).is_lt()
}

/// The place of the first value whose normal form isn't smaller.
fn place_of_value(values: &[StoredValue], normal: &Normal) -> usize
    ensures place { result ≡ position_or_len (λ v. not (octets_below v.normal normal.now)) values.now }
    ensures inside { result ≤ length values.now }
{
    for (i, value) in values.iter().enumerate() {
        if !is_below(&value.normal, normal) {
            return i;
        }
    }
    values.len()
}

/// Puts the value where the order of normal forms has it.
pub(crate) fn insert_value(
    values: &mut Vec<StoredValue>,
    value: Value,
    normal: Normal,
) -> Result<(), NoMemory>
    ensures { OnOk result (values.new.items ≡ insert_sorted model.value_below (record { value = value_view value; normal = normal }) values.old.items) }
{
    let place = place_of_value(values, &normal);
    values.insert(place, StoredValue { value, normal })?;
    Ok(())
}

/// Copies of the values that aren't equal to one of this normal form.
fn other_values(
    alloc: Global,
    values: &[StoredValue],
    normal: &Normal,
) -> Result<Vec<StoredValue>, NoMemory>
    ensures { IfOk result (λ kept. kept.items ≡ filter (λ v. not (same_octets v.normal normal.now)) values.now) }
{
    let mut kept = Vec::new(alloc);
    for value in values {
        if value.normal.as_slice() != normal.as_slice() {
            kept.push(value.clone()?)?;
        }
    }
    Ok(kept)
}

/// The entry with one value more, which it doesn't have yet.
#[tactic(auto, using(crate::proofs::EntryOrder::put_ordered))]
pub fn put_value(
    alloc: Global,
    entry: Entry,
    kind: TypeId,
    value: Value,
    normal: Normal,
) -> Result<Entry, NoMemory>
    requires { model.has_value entry kind normal ≡ false }
    ensures { IfOk result (λ e. e ≡ model.put_value kind (record { value = value_view value; normal = normal }) entry) }
{
    let _ordered = entry.attributes();
    let mut values = Vec::from_clones(alloc, entry.values(kind))?;
    insert_value(&mut values, value, normal)?;
    with_values(alloc, entry, kind, StoredValueList::from_vec(values))
}

/// The entry without the value of this normal form; without values the attribute goes.
pub fn drop_value(
    alloc: Global,
    entry: Entry,
    kind: TypeId,
    normal: &Normal,
) -> Result<Entry, NoMemory>
    ensures { IfOk result (λ e. e ≡ model.drop_value kind normal.now entry) }
{
    let _ordered = entry.attributes();
    let values = other_values(alloc, entry.values(kind), normal)?;
    with_values(alloc, entry, kind, StoredValueList::from_vec(values))
}

/// Whether the entry has the value of the pair. No memory.
fn has_pair(entry: &Entry, pair: &Pair) -> bool
    ensures { result ≡ model.has_pair entry.now pair.now }
{
    entry.has_value(pair.kind(), pair.normal())
}

/// Whether the entry has the values of the RDN (X.501, section 9.3). No memory.
pub fn has_rdn(entry: &Entry, rdn: &Rdn) -> bool
    ensures { result ≡ model.has_rdn entry.now rdn.now }
{
    rdn.pairs().iter().all(|pair| has_pair(entry, pair))
}

/// The entry with the value of the pair, if it lacks it.
fn with_pair(alloc: Global, entry: Entry, pair: &Pair) -> Result<Entry, NoMemory>
    ensures { IfOk result (λ e. e ≡ (if model.has_pair entry pair.now then entry else model.put_value pair.now.kind (model.value_of_pair pair.now) entry)) }
{
    if has_pair(&entry, pair) {
        return Ok(entry);
    }
    let normal = pair.normal().clone()?;
    let value = Value::Text(pair.text().clone()?);
    put_value(alloc, entry, pair.kind(), value, normal)
}

/// The entry with the values of the RDN that it lacks.
pub fn with_rdn(alloc: Global, entry: Entry, rdn: &Rdn) -> Result<Entry, NoMemory>
    ensures { IfOk result (λ e. e ≡ model.with_rdn rdn.now entry) }
{
    let mut entry = entry;
    for pair in rdn.pairs() {
        entry = with_pair(alloc, entry, pair)?;
    }
    Ok(entry)
}

/// Whether the RDN has the pair. No memory.
fn keeps_pair(rdn: &Rdn, pair: &Pair) -> bool
    ensures { result ≡ list_any (λ q. (q.kind == pair.now.kind) && same_octets q.normal pair.now.normal) rdn.now }
{
    rdn.pairs().iter().any(|kept| {
        kept.kind().number() == pair.kind().number()
            && kept.normal().as_slice() == pair.normal().as_slice()
    })
}

/// The entry without the value of the pair, unless the RDN has it.
fn without_pair(alloc: Global, entry: Entry, pair: &Pair, kept: &Rdn) -> Result<Entry, NoMemory>
    ensures { IfOk result (λ e. e ≡ (if list_any (λ q. (q.kind == pair.now.kind) && same_octets q.normal pair.now.normal) kept.now then entry else model.drop_value pair.now.kind pair.now.normal entry)) }
{
    if keeps_pair(kept, pair) {
        return Ok(entry);
    }
    drop_value(alloc, entry, pair.kind(), pair.normal())
}

/// The entry without the values of an RDN that aren't in another.
pub fn without_rdn(alloc: Global, entry: Entry, old: &Rdn, kept: &Rdn) -> Result<Entry, NoMemory>
    ensures { IfOk result (λ e. e ≡ model.without_rdn old.now kept.now entry) }
{
    let mut entry = entry;
    for pair in old.pairs() {
        entry = without_pair(alloc, entry, pair, kept)?;
    }
    Ok(entry)
}

/// Whether the attribute is of a single-valued type and has more values than one. No memory.
fn is_doubled(attribute: &Stored) -> bool
    ensures { result ≡ (is_single attribute.now.kind && nat_lt 1 (length attribute.now.values)) }
{
    attribute.kind.is_single() && attribute.values.as_slice().len() > 1
}

/// The lowest single-valued type of which the entry has more than one value. No memory.
pub fn doubled(entry: &Entry) -> Option<TypeId>
    ensures { result ≡ model.doubled entry.now }
{
    for attribute in entry.attributes() {
        if is_doubled(attribute) {
            return Some(attribute.kind);
        }
    }
    None
}
