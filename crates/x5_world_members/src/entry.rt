//! The entry that its values make.

ghost use Rattle.std.specs.Prelude.{◌≡◌, Some, IfOk};
ghost use Rattle.x5_model.specs.Attributes.{is_present};
ghost use Rattle.x5_model.specs.Values.{Known};
ghost use Rattle.x5_model_world.specs.EntryTexts as model;
ghost use Rattle.x5_syntax.specs.ValueView.{value_view};

use crate::given::Given;
use std::alloc::Global;
use x5_match::normal_for;
use x5_memory::NoMemory;
use x5_names::Rdn;
use x5_ops::{Entry, doubled, put_value, with_rdn};
use x5_syntax::{Normal, TypeId, TypeRef, Value};

/// The entry with one value more of this normal form, if it doesn't have it yet.
fn with_normal(
    alloc: Global,
    entry: Entry,
    kind: TypeId,
    value: Value,
    normal: Normal,
) -> Result<Option<Entry>, NoMemory>
    ensures { IfOk result (λ o. o ≡ model.with_normal kind (value_view value) entry (Some normal)) }
{
    if entry.has_value(kind, &normal) {
        drop(normal);
        drop(value);
        drop(entry);
        return Ok(None);
    }
    Ok(Some(put_value(alloc, entry, kind, value, normal)?))
}

/// The entry with one value more of a known type, if it's one of the type that the entry doesn't have yet.
fn with_known(
    alloc: Global,
    entry: Entry,
    kind: TypeId,
    value: Value,
) -> Result<Option<Entry>, NoMemory>
    ensures { IfOk result (λ o. o ≡ model.with_value entry (Known kind) (value_view value)) }
{
    let found = normal_for(alloc, &TypeRef::Known(kind), &value);
    match found {
        Ok(Some(normal)) => with_normal(alloc, entry, kind, value, normal),
        Ok(None) => {
            drop(value);
            drop(entry);
            Ok(None)
        }
        Err(fault) => {
            drop(value);
            drop(entry);
            Err(fault)
        }
    }
}

/// The entry with one value more, if it may have it.
fn with_given(alloc: Global, entry: Entry, given: Given) -> Result<Option<Entry>, NoMemory>
    ensures { IfOk result (λ o. o ≡ model.with_value entry given.0 given.1) }
{
    let Given { kind, value } = given;
    match kind.known() {
        Some(known) => with_known(alloc, entry, known, value),
        None => Ok(None),
    }
}

/// The entry with all these values, if it may have them.
fn with_all(alloc: Global, entry: Entry, given: Vec<Given>) -> Result<Option<Entry>, NoMemory>
    ensures { IfOk result (λ o. o ≡ model.with_all entry given.items) }
{
    let mut entry = entry;
    for one in given {
        match with_given(alloc, entry, one)? {
            Some(more) => entry = more,
            None => return Ok(None),
        }
    }
    Ok(Some(entry))
}

/// Whether the entry has an object class.
fn has_class(entry: &Entry) -> bool
    ensures { result ≡ is_present entry.now 0 }
{
    match TypeId::new(0) {
        Some(kind) => entry.is_present(kind),
        None => false,
    }
}

/// The entry of these values and of those of the RDN that it lacks, if there is one.
pub(crate) fn entry_given(
    alloc: Global,
    rdn: &Rdn,
    given: Vec<Given>,
) -> Result<Option<Entry>, NoMemory>
    ensures { IfOk result (λ o. o ≡ model.entry_given rdn.now given.items) }
{
    let Some(entry) = with_all(alloc, Entry::new(alloc), given)? else {
        return Ok(None);
    };
    let entry = with_rdn(alloc, entry, rdn)?;
    if has_class(&entry) && doubled(&entry).is_none() {
        Ok(Some(entry.shared(alloc)?))
    } else {
        Ok(None)
    }
}
