//! What a read shows of an entry, and what a compare says of it (X.511, sections 7.6, 9.1 and 9.2).

ghost use Rattle.std.specs.Prelude.{◌≡◌, ℕ, List, map, not, IfOk, if◌then◌else◌, Some, None};
ghost use Rattle.std.specs.List.{list_any, filter};
ghost use Rattle.std.specs.Option.{option_map, option_copied};
ghost use Rattle.x5_model.specs.Assertions.{assertion_of};
ghost use Rattle.x5_model.specs.Filters.{Equality};
ghost use Rattle.x5_model.specs.Selections as model;
ghost use Rattle.x5_model.specs.Truth.{is_true, item_truth};
ghost use Rattle.x5_model_tree.specs.Ask as answers;
ghost use Rattle.x5_syntax.specs.TypeView.{type_view};
ghost use Rattle.x5_syntax.specs.ValueView.{value_view};
ghost use Rattle.x5_ops.specs.AnswerViews.{shown_view};
ghost use Rattle.x5_ops.specs.RequestViews.{selection_view};

use crate::lists::Listed;
use crate::requests::{Attribute, AttributeList, Selection, ValueList};
use std::alloc::Global;
use x5_match::{Assertion, Entry, Item, Stored, StoredValue};
use x5_syntax::{NoMemory, TypeId, TypeRef, Value};

/// Whether the type that is listed is this one. No memory.
fn is_kind(listed: &TypeRef, kind: TypeId) -> bool
    ensures { result ≡ model.is_kind kind (type_view listed.now) }
{
    match listed {
        TypeRef::Known(known) => known.number() == kind.number(),
        TypeRef::Unknown(_) => false,
    }
}

/// Whether the type is among those listed. No memory.
fn is_listed(kinds: &[TypeRef], kind: TypeId) -> bool
    ensures { result ≡ list_any (model.is_kind kind) (map type_view kinds.now) }
{
    for listed in kinds {
        if is_kind(listed, kind) {
            return true;
        }
    }
    false
}

/// Whether the type is selected. No memory.
fn is_selected(selection: &Selection, kind: TypeId) -> bool
    ensures { result ≡ model.is_selected (selection_view selection.now) kind }
{
    match selection {
        Selection::All => true,
        Selection::Only(kinds) => is_listed(kinds.as_slice(), kind),
    }
}

/// Copies of the values, without their normal forms.
fn values_of(alloc: Global, values: &[StoredValue]) -> Result<ValueList, NoMemory>
    ensures { IfOk result (λ list. map value_view list ≡ map (λ v. v.value) values.now) }
{
    let mut list = Vec::new(alloc);
    for stored in values {
        list.push(stored.value.clone()?)?;
    }
    Ok(Listed::from_vec(list))
}

/// The attribute as an answer shows it.
fn shown_attribute(alloc: Global, attribute: &Stored) -> Result<Attribute, NoMemory>
    ensures { IfOk result (λ a. shown_view a ≡ model.shown_attribute attribute.now) }
{
    Ok(Attribute {
        kind: TypeRef::Known(attribute.kind),
        values: values_of(alloc, attribute.values.as_slice())?,
    })
}

/// What an answer shows of these attributes.
fn shown_of(
    alloc: Global,
    selection: &Selection,
    attributes: &[Stored],
) -> Result<AttributeList, NoMemory>
    ensures { IfOk result (λ list. map shown_view list ≡ map model.shown_attribute (filter (λ a. model.is_selected (selection_view selection.now) a.kind) attributes.now)) }
{
    let mut list = Vec::new(alloc);
    for attribute in attributes {
        if is_selected(selection, attribute.kind) {
            list.push(shown_attribute(alloc, attribute)?)?;
        }
    }
    Ok(Listed::from_vec(list))
}

/// What an answer shows of an entry: the selected attributes that it has, in its order.
pub fn shown(alloc: Global, selection: &Selection, entry: &Entry) -> Result<AttributeList, NoMemory>
    ensures { IfOk result (λ list. map shown_view list ≡ model.shown (selection_view selection.now) entry.now) }
{
    shown_of(alloc, selection, entry.attributes())
}

/// Whether one of the attributes is selected. No memory.
fn has_selected(selection: &Selection, attributes: &[Stored]) -> bool
    ensures { result ≡ list_any (λ a. model.is_selected (selection_view selection.now) a.kind) attributes.now }
{
    attributes
        .iter()
        .any(|attribute| is_selected(selection, attribute.kind))
}

/// The type with which a read is refused (noSuchAttributeOrValue): the first that it lists, where the entry has none of them.
/// No memory.
pub fn selection_fault<'a>(selection: &'a Selection, entry: &Entry) -> Option<&'a TypeRef>
    ensures { option_map type_view (option_copied result) ≡ model.selection_fault (selection_view selection.now) entry.now }
{
    let Selection::Only(kinds) = selection else {
        return None;
    };
    let first = kinds.as_slice().first()?;
    if has_selected(selection, entry.attributes()) {
        return None;
    }
    Some(first)
}

/// Whether the entry has the type. No memory.
fn has_type(entry: &Entry, kind: &TypeRef) -> bool
    ensures { result ≡ answers.has_type entry.now (type_view kind.now) }
{
    match kind {
        TypeRef::Known(known) => entry.is_present(*known),
        TypeRef::Unknown(_) => false,
    }
}

/// What a compare says: whether the entry has a value of the type that is equal to the one given; None exactly where it
/// lacks the type, and the compare is refused (noSuchAttributeOrValue).
pub fn compares(
    alloc: Global,
    entry: &Entry,
    kind: &TypeRef,
    value: &Value,
) -> Result<Option<bool>, NoMemory>
    ensures { IfOk result (λ said. said ≡ (if answers.has_type entry.now (type_view kind.now) then Some (is_true (item_truth (Equality (assertion_of (type_view kind.now) (value_view value.now))) entry.now)) else None)) }
{
    if !has_type(entry, kind) {
        return Ok(None);
    }
    let assertion = Assertion::new(alloc, kind.clone()?, value.clone()?)?;
    let item = Item::Equality(assertion);
    let truth = item.holds(entry);
    drop(item);
    Ok(Some(truth.is_true()))
}
