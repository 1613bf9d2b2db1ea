//! Static refusals: what is refused by the request alone, before any name is resolved (X.511, sections 9 to 12).

ghost use Rattle.std.specs.Prelude.{◌≡◌, ℕ, List, [], ◌∷◌, ◌||◌, map, not, IfOk, IsTrue};
ghost use Rattle.std.specs.Option.{option_map, is_none};
ghost use Rattle.std.specs.List.{list_any, flat_map};
ghost use Rattle.x5_model.specs.Answers as answers;
ghost use Rattle.x5_model.specs.Assertions as assertions;
ghost use Rattle.x5_model.specs.Requests as requests;
ghost use Rattle.x5_model.specs.Statics as model;
ghost use Rattle.x5_model.specs.Values.{last_rdn};
ghost use Rattle.x5_model.specs.Attributes.{added_entry};
ghost use Rattle.x5_model.specs.Words.{has, distinct, first_of};
ghost use Rattle.x5_syntax.specs.TypeView.{type_view};
ghost use Rattle.x5_syntax.specs.ValueView.{value_view};
ghost use Rattle.x5_ops.specs.AnswerViews.{error_view};
ghost use Rattle.x5_ops.specs.RefusalView.{refusal_view, same_normal, given_values};
ghost use Rattle.x5_ops.specs.ChangeView.{are_apart};
ghost use Rattle.x5_ops.specs.RequestViews.{attribute_view, change_view, body_view};

use crate::answers::DirError;
use crate::changes::stored_entry;
use crate::entries::doubled;
use crate::requests::{Attribute, AttributeList, Body, Change, ChangeList, Request};
use crate::{attribute_problem, update_problem};
use std::alloc::Global;
use x5_match::{Entry, normal_for};
use x5_names::{Name, Rdn};
use x5_syntax::{NoMemory, Normal, TypeId, TypeRef, Value};

/// Why a request is refused by itself or by the entry that it meets: the root is no entry, or a problem by its number.
#[derive(Drop)]
pub enum Refusal {
    NoObject,
    Attribute { problem: u8, kind: TypeRef },
    Update { problem: u8 },
}

impl Refusal {
    /// A problem of the attribute type.
    pub(crate) fn of_attribute(problem: u8, kind: &TypeRef) -> Result<Refusal, NoMemory>
        ensures { IfOk result (λ r. refusal_view r ≡ answers.AttributeProblem problem (type_view kind.now)) }
    {
        Ok(Refusal::Attribute {
            problem,
            kind: kind.clone()?,
        })
    }

    /// The error that says so. No memory.
    pub fn into_error(self, alloc: Global) -> DirError
        ensures { (names : List (List ℕ)) → error_view names result ≡ refusal_view self }
    {
        match self {
            Refusal::NoObject => DirError::Name {
                matched: Name::root(alloc),
            },
            Refusal::Attribute { problem, kind } => DirError::Attribute { problem, kind },
            Refusal::Update { problem } => DirError::Update { problem },
        }
    }
}

/// Whether the type is in the table. No memory.
fn is_defined(kind: &TypeRef) -> bool
    ensures { result ≡ model.is_defined (type_view kind.now) }
{
    match kind {
        TypeRef::Known(known) => TypeId::new(known.number()).is_some(),
        TypeRef::Unknown(_) => false,
    }
}

/// Whether a value isn't of the type's kind.
fn has_unfit(alloc: Global, kind: &TypeRef, values: &[Value]) -> Result<bool, NoMemory>
    ensures { IfOk result (λ b. b ≡ list_any (λ v. is_none v.normal) (given_values (type_view kind.now) values.now)) }
{
    for value in values {
        if normal_for(alloc, kind, value)?.is_none() {
            return Ok(true);
        }
    }
    Ok(false)
}

/// Why the type and values are refused whatever is done with them.
fn values_refusal(
    alloc: Global,
    kind: &TypeRef,
    values: &[Value],
) -> Result<Option<Refusal>, NoMemory>
    ensures { IfOk result (λ r. option_map refusal_view r ≡ first_of (model.value_refusals (record { kind = type_view kind.now; values = given_values (type_view kind.now) values.now }))) }
{
    if !is_defined(kind) {
        let refusal = Refusal::of_attribute(attribute_problem::UNDEFINED_ATTRIBUTE_TYPE, kind)?;
        return Ok(Some(refusal));
    }
    if has_unfit(alloc, kind, values)? {
        let refusal = Refusal::of_attribute(attribute_problem::INVALID_ATTRIBUTE_SYNTAX, kind)?;
        return Ok(Some(refusal));
    }
    Ok(None)
}

/// The normal forms of the values.
fn normals_of(
    alloc: Global,
    kind: &TypeRef,
    values: &[Value],
) -> Result<Vec<Option<Normal>>, NoMemory>
    ensures { IfOk result (λ n. n.items ≡ map (λ v. assertions.normal_for (type_view kind.now) (value_view v)) values.now) }
{
    let mut normals = Vec::new(alloc);
    for value in values {
        normals.push(normal_for(alloc, kind, value)?)?;
    }
    Ok(normals)
}

/// Whether both are normal forms and the same. No memory.
fn is_equal(a: &Option<Normal>, b: &Option<Normal>) -> bool
    ensures { result ≡ same_normal a.now b.now }
{
    match (a, b) {
        (Some(a), Some(b)) => a.as_slice() == b.as_slice(),
        _ => false,
    }
}

/// Whether the normal form is among the others. No memory.
fn is_among(normal: &Option<Normal>, others: &[Option<Normal>]) -> bool
    ensures { result ≡ has same_normal others.now normal.now }
{
    for other in others {
        if is_equal(other, normal) {
            return true;
        }
    }
    false
}

/// Whether no two are the same. No memory.
fn no_two_equal(normals: &[Option<Normal>]) -> bool
    ensures { result ≡ distinct same_normal normals.now }
{
    for (i, normal) in normals.iter().enumerate() {
        if is_among(normal, &normals[i + 1..]) {
            return false;
        }
    }
    true
}

/// Whether two of the values are equal.
fn has_equal_values(alloc: Global, kind: &TypeRef, values: &[Value]) -> Result<bool, NoMemory>
    ensures { IfOk result (λ b. b ≡ model.has_equal_values (record { kind = type_view kind.now; values = given_values (type_view kind.now) values.now })) }
{
    let normals = normals_of(alloc, kind, values)?;
    Ok(!no_two_equal(&normals))
}

/// Whether the two are one type. No memory.
fn is_same_type(a: &TypeRef, b: &TypeRef) -> bool
    ensures { result ≡ model.same_type (type_view a.now) (type_view b.now) }
{
    match (a, b) {
        (TypeRef::Known(a), TypeRef::Known(b)) => a.number() == b.number(),
        (TypeRef::Unknown(a), TypeRef::Unknown(b)) => a.arcs() == b.arcs(),
        _ => false,
    }
}

/// Why the attribute is refused whatever is done with it.
fn attribute_refusal(alloc: Global, attribute: &Attribute) -> Result<Option<Refusal>, NoMemory>
    ensures { IfOk result (λ r. option_map refusal_view r ≡ first_of (model.value_refusals (attribute_view attribute.now))) }
{
    values_refusal(alloc, &attribute.kind, attribute.values.as_slice())
}

/// Why one of the attributes is refused whatever is done with it.
fn attributes_refusal(alloc: Global, attributes: &[Attribute]) -> Result<Option<Refusal>, NoMemory>
    ensures { IfOk result (λ r. option_map refusal_view r ≡ first_of (flat_map model.value_refusals (map attribute_view attributes.now))) }
{
    for attribute in attributes {
        let refusal = attribute_refusal(alloc, attribute)?;
        if refusal.is_some() {
            return Ok(refusal);
        }
    }
    Ok(None)
}

/// Whether one of the attributes has the type. No memory.
fn has_type(attributes: &[Attribute], kind: &TypeRef) -> bool
    ensures { result ≡ list_any (λ a. model.same_type (type_view a.kind) (type_view kind.now)) attributes.now }
{
    attributes
        .iter()
        .any(|attribute| is_same_type(&attribute.kind, kind))
}

/// Whether the attribute has two equal values, or its type comes a second time.
fn is_repeated(
    alloc: Global,
    earlier: &[Attribute],
    attribute: &Attribute,
) -> Result<bool, NoMemory>
    ensures { IfOk result (λ b. b ≡ (model.has_equal_values (attribute_view attribute.now) || list_any (λ a. model.same_type (type_view a.kind) (type_view attribute.now.kind)) earlier.now)) }
{
    if has_equal_values(alloc, &attribute.kind, attribute.values.as_slice())? {
        return Ok(true);
    }
    Ok(has_type(earlier, &attribute.kind))
}

/// Why attributes that an addEntry gives are refused beside one another.
pub(crate) fn attribute_repeats(
    alloc: Global,
    attributes: &[Attribute],
) -> Result<Option<Refusal>, NoMemory>
    ensures { IfOk result (λ r. option_map refusal_view r ≡ first_of (model.attribute_repeats [] (map attribute_view attributes.now))) }
{
    for (i, attribute) in attributes.iter().enumerate() {
        if is_repeated(alloc, &attributes[..i], attribute)? {
            let problem = attribute_problem::ATTRIBUTE_OR_VALUE_ALREADY_EXISTS;
            let refusal = Refusal::of_attribute(problem, &attribute.kind)?;
            return Ok(Some(refusal));
        }
    }
    Ok(None)
}

/// Why a change is refused whatever the entry has.
fn change_values_refusal(alloc: Global, change: &Change) -> Result<Option<Refusal>, NoMemory>
    ensures { IfOk result (λ r. option_map refusal_view r ≡ first_of (model.value_refusals (model.attribute_of (change_view change.now)))) }
{
    match change {
        Change::AddAttribute(attribute) => attribute_refusal(alloc, attribute),
        Change::RemoveAttribute(kind) => values_refusal(alloc, kind, &[]),
        Change::AddValues(attribute) => attribute_refusal(alloc, attribute),
        Change::RemoveValues(attribute) => attribute_refusal(alloc, attribute),
    }
}

/// Why one of the changes is refused whatever the entry has.
fn changes_refusal(alloc: Global, changes: &[Change]) -> Result<Option<Refusal>, NoMemory>
    ensures { IfOk result (λ r. option_map refusal_view r ≡ first_of (flat_map model.value_refusals (map model.attribute_of (map change_view changes.now)))) }
{
    for change in changes {
        let refusal = change_values_refusal(alloc, change)?;
        if refusal.is_some() {
            return Ok(refusal);
        }
    }
    Ok(None)
}

/// Why an attribute that is added is refused by its own values.
fn added_repeats(alloc: Global, attribute: &Attribute) -> Result<Option<Refusal>, NoMemory>
    ensures { IfOk result (λ r. option_map refusal_view r ≡ first_of (model.change_repeats (requests.AddValues (attribute_view attribute.now)))) }
{
    if has_equal_values(alloc, &attribute.kind, attribute.values.as_slice())? {
        let problem = attribute_problem::ATTRIBUTE_OR_VALUE_ALREADY_EXISTS;
        let refusal = Refusal::of_attribute(problem, &attribute.kind)?;
        return Ok(Some(refusal));
    }
    Ok(None)
}

/// Why a change is refused by its own values.
fn change_repeats(alloc: Global, change: &Change) -> Result<Option<Refusal>, NoMemory>
    ensures { IfOk result (λ r. option_map refusal_view r ≡ first_of (model.change_repeats (change_view change.now))) }
{
    match change {
        Change::AddAttribute(attribute) | Change::AddValues(attribute) => {
            added_repeats(alloc, attribute)
        }
        Change::RemoveAttribute(_) | Change::RemoveValues(_) => Ok(None),
    }
}

/// Why one of the changes is refused by its own values.
#[tactic(auto, using(crate::proofs::Refusals::first_none, crate::proofs::Refusals::first_some))]
fn changes_repeats(alloc: Global, changes: &[Change]) -> Result<Option<Refusal>, NoMemory>
    ensures { IfOk result (λ r. option_map refusal_view r ≡ first_of (flat_map model.change_repeats (map change_view changes.now))) }
{
    for change in changes {
        let refusal = change_repeats(alloc, change)?;
        if refusal.is_some() {
            return Ok(refusal);
        }
    }
    Ok(None)
}

/// The type that a change names. No memory.
fn type_of(change: &Change) -> &TypeRef
    ensures { type_view result.now ≡ (model.attribute_of (change_view change.now)).kind }
{
    match change {
        Change::AddAttribute(attribute) => &attribute.kind,
        Change::RemoveAttribute(kind) => kind,
        Change::AddValues(attribute) => &attribute.kind,
        Change::RemoveValues(attribute) => &attribute.kind,
    }
}

/// Whether a change names objectClass. No memory.
fn names_class(change: &Change) -> bool
    ensures { result ≡ model.names_class (change_view change.now) }
{
    match type_of(change) {
        TypeRef::Known(kind) => kind.number() == 0,
        TypeRef::Unknown(_) => false,
    }
}

/// Whether one of the changes does. No memory.
fn name_class(changes: &[Change]) -> bool
    ensures { result ≡ list_any model.names_class (map change_view changes.now) }
{
    for change in changes {
        if names_class(change) {
            return true;
        }
    }
    false
}

/// Why a name that must be an entry's isn't one: the root is no entry. No memory.
#[tactic(auto, using(crate::proofs::Inserting::empty_by_length))]
fn root_refusal(name: &Name) -> Option<Refusal>
    ensures { option_map refusal_view result ≡ first_of (model.root_refusals name.now) }
{
    if name.len() == 0 {
        Some(Refusal::NoObject)
    } else {
        None
    }
}

/// Why a value of one type is refused whatever it's compared with.
fn value_refusal(alloc: Global, kind: &TypeRef, value: &Value) -> Result<Option<Refusal>, NoMemory>
    ensures { IfOk result (λ r. option_map refusal_view r ≡ first_of (model.value_refusals (record { kind = type_view kind.now; values = assertions.offered (type_view kind.now) (value_view value.now) ∷ [] }))) }
{
    if !is_defined(kind) {
        let refusal = Refusal::of_attribute(attribute_problem::UNDEFINED_ATTRIBUTE_TYPE, kind)?;
        return Ok(Some(refusal));
    }
    if normal_for(alloc, kind, value)?.is_none() {
        let refusal = Refusal::of_attribute(attribute_problem::INVALID_ATTRIBUTE_SYNTAX, kind)?;
        return Ok(Some(refusal));
    }
    Ok(None)
}

/// Why a compare is refused.
#[tactic(auto, using(crate::proofs::Refusals::first_none, crate::proofs::Refusals::first_some))]
fn compare_refusal(
    alloc: Global,
    object: &Name,
    kind: &TypeRef,
    value: &Value,
) -> Result<Option<Refusal>, NoMemory>
    ensures { IfOk result (λ r. option_map refusal_view r ≡ model.fault_of (requests.Compare object.now (assertions.assertion_of (type_view kind.now) (value_view value.now)))) }
{
    let refusal = root_refusal(object);
    if refusal.is_some() {
        return Ok(refusal);
    }
    value_refusal(alloc, kind, value)
}

/// Why the entry isn't one that may be stored. No memory.
fn entry_refusal(entry: &Entry) -> Option<Refusal>
    ensures { option_map refusal_view result ≡ first_of (model.entry_refusals entry.now) }
{
    if let Some(kind) = doubled(entry) {
        return Some(Refusal::Attribute {
            problem: attribute_problem::CONSTRAINT_VIOLATION,
            kind: TypeRef::Known(kind),
        });
    }
    if !entry.is_present(TypeId(0)) {
        return Some(Refusal::Update {
            problem: update_problem::OBJECT_CLASS_VIOLATION,
        });
    }
    None
}

/// What an addEntry of the name would store.
fn entry_at(alloc: Global, object: &Name, attributes: &AttributeList) -> Result<Entry, NoMemory>
    requires { IsTrue (are_apart (map attribute_view attributes.now)) }
    ensures { IfOk result (λ e. e ≡ added_entry (last_rdn object.now) (map attribute_view attributes.now)) }
{
    match object.last() {
        Some(rdn) => stored_entry(alloc, rdn, attributes),
        None => stored_entry(alloc, &Rdn::new(alloc, Vec::new(alloc))?, attributes),
    }
}

/// Why an addEntry is refused.
#[tactic(auto, using(crate::proofs::Refusals::first_none, crate::proofs::Refusals::first_some))]
fn add_refusal(
    alloc: Global,
    object: &Name,
    attributes: &AttributeList,
) -> Result<Option<Refusal>, NoMemory>
    ensures { IfOk result (λ r. option_map refusal_view r ≡ model.fault_of (requests.AddEntry object.now (map attribute_view attributes.now))) }
{
    if object.len() < 2 {
        return Ok(Some(Refusal::Update {
            problem: update_problem::NAMING_VIOLATION,
        }));
    }
    let refusal = attributes_refusal(alloc, attributes.as_slice())?;
    if refusal.is_some() {
        return Ok(refusal);
    }
    drop(refusal);
    let refusal = attribute_repeats(alloc, attributes.as_slice())?;
    if refusal.is_some() {
        return Ok(refusal);
    }
    drop(refusal);
    let entry = entry_at(alloc, object, attributes)?;
    Ok(entry_refusal(&entry))
}

/// Why a modifyEntry is refused.
#[tactic(auto, using(crate::proofs::Refusals::first_none, crate::proofs::Refusals::first_some))]
fn modify_refusal(
    alloc: Global,
    object: &Name,
    changes: &ChangeList,
) -> Result<Option<Refusal>, NoMemory>
    ensures { IfOk result (λ r. option_map refusal_view r ≡ model.fault_of (requests.ModifyEntry object.now (map change_view changes.now))) }
{
    let refusal = root_refusal(object);
    if refusal.is_some() {
        return Ok(refusal);
    }
    drop(refusal);
    let refusal = changes_refusal(alloc, changes.as_slice())?;
    if refusal.is_some() {
        return Ok(refusal);
    }
    drop(refusal);
    let refusal = changes_repeats(alloc, changes.as_slice())?;
    if refusal.is_some() {
        return Ok(refusal);
    }
    drop(refusal);
    if name_class(changes.as_slice()) {
        return Ok(Some(Refusal::Update {
            problem: update_problem::OBJECT_CLASS_MODIFICATION_PROHIBITED,
        }));
    }
    Ok(None)
}

/// The first static refusal of an operation.
fn refusal_of(alloc: Global, body: &Body) -> Result<Option<Refusal>, NoMemory>
    ensures { IfOk result (λ r. option_map refusal_view r ≡ model.fault_of (body_view body.now)) }
{
    match body {
        Body::Read { object, .. } => Ok(root_refusal(object)),
        Body::Compare {
            object,
            kind,
            value,
        } => compare_refusal(alloc, object, kind, value),
        Body::List { .. } => Ok(None),
        Body::Search { .. } => Ok(None),
        Body::Add { object, attributes } => add_refusal(alloc, object, attributes),
        Body::Remove { object } => Ok(root_refusal(object)),
        Body::Modify { object, changes } => modify_refusal(alloc, object, changes),
        Body::ModifyDn { object, .. } => Ok(root_refusal(object)),
    }
}

/// The static refusal of a request: what is refused by the request alone, the first in the order of docs/MODEL.md; None
/// exactly where there is none.
pub fn fault_of(alloc: Global, request: &Request) -> Result<Option<DirError>, NoMemory>
    ensures { IfOk result (λ fault. (names : List (List ℕ)) → option_map (error_view names) fault ≡ model.fault_of (body_view request.now.body)) }
{
    match refusal_of(alloc, &request.body)? {
        Some(refusal) => Ok(Some(refusal.into_error(alloc))),
        None => Ok(None),
    }
}
