//! What an addEntry stores, and what a modifyEntry does to an entry (X.511, sections 11.1 and 11.3).

ghost use Rattle.std.specs.Prelude.{◌≡◌, [], ◌∷◌, not, map, IfOk, IsTrue};
ghost use Rattle.x5_model.specs.Attributes as attributes;
ghost use Rattle.x5_model.specs.Assertions as assertions;
ghost use Rattle.x5_model.specs.Changes as model;
ghost use Rattle.x5_model.specs.Requests as requests;
ghost use Rattle.x5_model.specs.Statics.{has_equal_values};
ghost use Rattle.x5_model.specs.Values as model_values;
ghost use Rattle.x5_syntax.specs.TypeView.{type_view};
ghost use Rattle.x5_syntax.specs.ValueView.{value_view};
ghost use Rattle.x5_ops.specs.RefusalView.{given_values};
ghost use Rattle.x5_ops.specs.ChangeView.{IsChanged, IsModified, added, are_apart};
ghost use Rattle.x5_ops.specs.RequestViews.{attribute_view, change_view};
ghost use Rattle.x5_ops.specs.declared.changes.Stop.TheVariants.{NoMemory as NoMemoryStop};
ghost use Rattle.x5_ops.specs.declared.changes.ChangeFault.TheVariants.{NoMemory as NoMemoryFault};

use crate::answers::DirError;
use crate::entries::{
    doubled, drop_value, has_rdn, insert_value, put_value, with_rdn, with_values,
};
use crate::requests::{Attribute, AttributeList, Change, ChangeList};
use crate::statics::{Refusal, attribute_repeats};
use crate::{attribute_problem, update_problem};
use std::alloc::{AllocError, AllocFailed, Global};
use thiserror::Error;
use x5_match::{Entry, StoredValueList, normal_for};
use x5_names::Rdn;
use x5_syntax::{NoMemory, Normal, TypeId, TypeRef, Value};

/// Why an entry isn't changed.
#[derive(Debug, Drop, Error)]
pub enum ChangeFault {
    /// It's refused, by this error.
    #[error("the change is refused")]
    Refused(DirError),
    #[error("out of memory")]
    NoMemory,
}

impl From<NoMemory> for ChangeFault {
    ghost from_gives = { λ _ fault. fault ≡ NoMemoryFault };

    fn from(_: NoMemory) -> Self {
        ChangeFault::NoMemory
    }
}

/// Why an entry isn't changed, before it's told.
#[derive(Drop)]
pub(crate) enum Stop {
    Refused(Refusal),
    NoMemory,
}

impl From<NoMemory> for Stop {
    ghost from_gives = { λ _ stop. stop ≡ NoMemoryStop };

    fn from(_: NoMemory) -> Self {
        Stop::NoMemory
    }
}

/// The normal form of the value for the type.
fn normal_of(alloc: Global, kind: TypeId, value: &Value) -> Result<Option<Normal>, NoMemory>
    ensures { IfOk result (λ n. n ≡ assertions.normal_for (model_values.Known kind) (value_view value.now)) }
{
    normal_for(alloc, &TypeRef::Known(kind), value)
}

/// The values of the kind, in the order of their normal forms.
fn stored_values(alloc: Global, kind: TypeId, values: &[Value]) -> Result<StoredValueList, NoMemory>
    ensures { IfOk result (λ s. s ≡ attributes.stored_values (given_values (model_values.Known kind) values.now)) }
{
    let mut stored = Vec::new(alloc);
    let mut left = values.len();
    while left > 0 {
        left -= 1;
        let value = &values[left];
        if let Some(normal) = normal_of(alloc, kind, value)? {
            let value = copied_value(value)?;
            insert_value(&mut stored, value, normal)?;
        }
    }
    Ok(StoredValueList::from_vec(stored))
}

/// The entry with the attribute of these values, no two of which are equal.
fn with_offered(
    alloc: Global,
    entry: Entry,
    kind: TypeId,
    values: &[Value],
) -> Result<Entry, NoMemory>
    requires { IsTrue (not (has_equal_values (record { kind = model_values.Known kind; values = given_values (model_values.Known kind) values.now }))) }
    ensures { IfOk result (λ e. e ≡ attributes.entry_with kind (attributes.stored_values (given_values (model_values.Known kind) values.now)) entry) }
{
    let stored = stored_values(alloc, kind, values)?;
    with_values(alloc, entry, kind, stored)
}

/// The entry of the attributes alone. The later ones are put in first, as the definition has it.
fn entry_of(alloc: Global, offered: &[Attribute]) -> Result<Entry, NoMemory>
    requires { IsTrue (are_apart (map attribute_view offered.now)) }
    ensures { IfOk result (λ e. e ≡ attributes.entry_of (map attribute_view offered.now)) }
{
    let mut entry = Entry::new(alloc);
    let mut left = offered.len();
    while left > 0 {
        left -= 1;
        let attribute = &offered[left];
        if let TypeRef::Known(kind) = &attribute.kind {
            entry = with_offered(alloc, entry, *kind, attribute.values.as_slice())?;
        }
    }
    Ok(entry)
}

/// The attributes, and the RDN's values that they lack. No attribute has two equal values.
pub(crate) fn stored_entry(
    alloc: Global,
    rdn: &Rdn,
    offered: &AttributeList,
) -> Result<Entry, NoMemory>
    requires { IsTrue (are_apart (map attribute_view offered.now)) }
    ensures { IfOk result (λ e. e ≡ attributes.added_entry rdn.now (map attribute_view offered.now)) }
{
    let entry = entry_of(alloc, offered.as_slice())?;
    with_rdn(alloc, entry, rdn)
}

/// What an addEntry stores (X.511, section 11.1): the attributes, and the RDN's values that they lack. The first attribute that
/// has two equal values, or a type that an earlier one has, is refused.
pub fn added_entry(alloc: Global, rdn: &Rdn, offered: &AttributeList) -> Result<Entry, ChangeFault>
    ensures { IsModified result (added rdn.now (map attribute_view offered.now)) }
{
    match attribute_repeats(alloc, offered.as_slice())? {
        Some(refusal) => Err(ChangeFault::Refused(refusal.into_error(alloc))),
        None => Ok(stored_entry(alloc, rdn, offered)?.shared(alloc)?),
    }
}

/// Adds one value; an equal one is refused.
fn add_value(
    alloc: Global,
    entry: Entry,
    kind: TypeId,
    value: Value,
    normal: Normal,
) -> Result<Entry, Stop>
    ensures { IsChanged result (model.put_new kind (record { value = value_view value; normal = normal }) entry) }
{
    if entry.has_value(kind, &normal) {
        let problem = attribute_problem::ATTRIBUTE_OR_VALUE_ALREADY_EXISTS;
        let kind = TypeRef::Known(kind);
        return Err(Stop::Refused(Refusal::Attribute { problem, kind }));
    }
    Ok(put_value(alloc, entry, kind, value, normal)?)
}

/// Removes one value; an absent one is refused.
fn remove_value(alloc: Global, entry: Entry, kind: TypeId, normal: &Normal) -> Result<Entry, Stop>
    ensures { IsChanged result (model.drop_old kind (record { value = model_values.TextValue []; normal = normal.now }) entry) }
{
    if !entry.has_value(kind, normal) {
        let problem = attribute_problem::NO_SUCH_ATTRIBUTE_OR_VALUE;
        let kind = TypeRef::Known(kind);
        return Err(Stop::Refused(Refusal::Attribute { problem, kind }));
    }
    Ok(drop_value(alloc, entry, kind, normal)?)
}

/// Adds the value that is offered, where it has a normal form.
fn add_offered(alloc: Global, entry: Entry, kind: TypeId, value: &Value) -> Result<Entry, Stop>
    ensures { IsChanged result (model.each_value (model.put_new kind) (given_values (model_values.Known kind) (value.now ∷ [])) entry) }
{
    match normal_of(alloc, kind, value)? {
        Some(normal) => {
            let value = copied_value(value)?;
            add_value(alloc, entry, kind, value, normal)
        }
        None => Ok(entry),
    }
}

/// Removes the value that is offered, where it has a normal form.
fn remove_offered(alloc: Global, entry: Entry, kind: TypeId, value: &Value) -> Result<Entry, Stop>
    ensures { IsChanged result (model.each_value (model.drop_old kind) (given_values (model_values.Known kind) (value.now ∷ [])) entry) }
{
    match normal_of(alloc, kind, value)? {
        Some(normal) => remove_value(alloc, entry, kind, &normal),
        None => Ok(entry),
    }
}

/// A copy of the value.
fn copied_value(value: &Value) -> Result<Value, NoMemory>
    ensures { IfOk result (λ v. v ≡ value.now) }
{
    Ok(value.clone()?)
}

/// Adds the values in their order.
fn add_values(alloc: Global, entry: Entry, kind: TypeId, values: &[Value]) -> Result<Entry, Stop>
    ensures { IsChanged result (model.each_value (model.put_new kind) (given_values (model_values.Known kind) values.now) entry) }
{
    let mut entry = entry;
    for value in values {
        match add_offered(alloc, entry, kind, value) {
            Ok(next) => entry = next,
            Err(stop) => return Err(stop),
        }
    }
    Ok(entry)
}

/// Removes the values in their order.
fn remove_values(alloc: Global, entry: Entry, kind: TypeId, values: &[Value]) -> Result<Entry, Stop>
    ensures { IsChanged result (model.each_value (model.drop_old kind) (given_values (model_values.Known kind) values.now) entry) }
{
    let mut entry = entry;
    for value in values {
        match remove_offered(alloc, entry, kind, value) {
            Ok(next) => entry = next,
            Err(stop) => return Err(stop),
        }
    }
    Ok(entry)
}

/// Adds an attribute; one that is present is refused, and so is one that gives two equal values.
fn add_attribute(alloc: Global, entry: Entry, attribute: &Attribute) -> Result<Entry, Stop>
    ensures { IsChanged result (model.changed (requests.AddAttribute (attribute_view attribute.now)) entry) }
{
    let TypeRef::Known(kind) = &attribute.kind else {
        return Ok(entry);
    };
    if entry.is_present(*kind) {
        let problem = attribute_problem::ATTRIBUTE_OR_VALUE_ALREADY_EXISTS;
        let kind = TypeRef::Known(*kind);
        return Err(Stop::Refused(Refusal::Attribute { problem, kind }));
    }
    add_values(alloc, entry, *kind, attribute.values.as_slice())
}

/// Removes an attribute; one that is absent is refused.
fn remove_attribute(alloc: Global, entry: Entry, kind: &TypeRef) -> Result<Entry, Stop>
    ensures { IsChanged result (model.changed (requests.RemoveAttribute (type_view kind.now)) entry) }
{
    let TypeRef::Known(kind) = kind else {
        return Ok(entry);
    };
    if !entry.is_present(*kind) {
        let problem = attribute_problem::NO_SUCH_ATTRIBUTE_OR_VALUE;
        let kind = TypeRef::Known(*kind);
        return Err(Stop::Refused(Refusal::Attribute { problem, kind }));
    }
    Ok(with_values(alloc, entry, *kind, StoredValueList::new(alloc))?)
}

/// Makes one change.
fn changed(alloc: Global, entry: Entry, change: &Change) -> Result<Entry, Stop>
    ensures { IsChanged result (model.changed (change_view change.now) entry) }
{
    match change {
        Change::AddAttribute(attribute) => add_attribute(alloc, entry, attribute),
        Change::RemoveAttribute(kind) => remove_attribute(alloc, entry, kind),
        Change::AddValues(attribute) => match &attribute.kind {
            TypeRef::Known(kind) => add_values(alloc, entry, *kind, attribute.values.as_slice()),
            TypeRef::Unknown(_) => Ok(entry),
        },
        Change::RemoveValues(attribute) => match &attribute.kind {
            TypeRef::Known(kind) => remove_values(alloc, entry, *kind, attribute.values.as_slice()),
            TypeRef::Unknown(_) => Ok(entry),
        },
    }
}

/// Makes the changes in their order; the first that can't be made is refused.
fn changed_by(alloc: Global, entry: Entry, changes: &[Change]) -> Result<Entry, Stop>
    ensures { IsChanged result (model.changed_by (map change_view changes.now) entry) }
{
    let mut entry = entry;
    for change in changes {
        entry = changed(alloc, entry, change)?;
    }
    Ok(entry)
}

/// The entry, if the values of the RDN are there.
fn keeps_rdn(entry: Entry, rdn: &Rdn) -> Result<Entry, Stop>
    ensures { IsChanged result (model.keeps_rdn rdn.now entry) }
{
    if has_rdn(&entry, rdn) {
        Ok(entry)
    } else {
        Err(Stop::Refused(Refusal::Update {
            problem: update_problem::NOT_ALLOWED_ON_RDN,
        }))
    }
}

/// The entry, if no single-valued type has two values.
fn single_valued(entry: Entry) -> Result<Entry, Stop>
    ensures { IsChanged result (model.single_valued entry) }
{
    match doubled(&entry) {
        None => Ok(entry),
        Some(kind) => Err(Stop::Refused(Refusal::Attribute {
            problem: attribute_problem::CONSTRAINT_VIOLATION,
            kind: TypeRef::Known(kind),
        })),
    }
}

/// Makes the changes, and tests what they leave.
fn modified(alloc: Global, entry: Entry, rdn: &Rdn, changes: &[Change]) -> Result<Entry, Stop>
    ensures { IsChanged result (model.modified rdn.now (map change_view changes.now) entry) }
{
    let entry = changed_by(alloc, entry, changes)?;
    let entry = keeps_rdn(entry, rdn)?;
    single_valued(entry)
}

/// What a modifyEntry makes of an entry (X.511, section 11.3), `rdn` being the entry's: the changes in their order, the values
/// of each in theirs; then the values of the RDN must be there, and then no single-valued type may have two values. The first
/// breach is told.
pub fn change(
    alloc: Global,
    rdn: &Rdn,
    entry: &Entry,
    changes: &ChangeList,
) -> Result<Entry, ChangeFault>
    ensures { IsModified result (model.modified rdn.now (map change_view changes.now) entry.now) }
{
    let entry = copied_entry(entry)?;
    match modified(alloc, entry, rdn, changes.as_slice()) {
        Ok(entry) => Ok(entry.shared(alloc)?),
        Err(Stop::Refused(refusal)) => Err(ChangeFault::Refused(refusal.into_error(alloc))),
        Err(Stop::NoMemory) => Err(ChangeFault::NoMemory),
    }
}

/// A copy of the entry.
fn copied_entry(entry: &Entry) -> Result<Entry, NoMemory>
    ensures { IfOk result (λ e. e ≡ entry.now) }
{
    Ok(entry.clone()?)
}
