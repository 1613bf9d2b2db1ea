//! What is looked up in a value of JSON: members of objects by their names, lists, texts and numbers.

ghost use Rattle.std.specs.Prelude.{◌≡◌, map, not, option_map, string_bytes};
ghost use Rattle.std.specs.List.{list_any, find};
ghost use Rattle.std.specs.Option.{option_copied};
ghost use Rattle.serde_json.specs.View.{view, items_view, members_view};
ghost use Rattle.x5_model.specs.Words.{same_octets};
ghost use Rattle.x5_world_members.specs.Paths.{path_of};
ghost use Rattle.x5_model_world.specs.Reading as model;
ghost use Rattle.x5_world_members.specs.Views.{ReadsPart};

use crate::fault::LoadFault;
use crate::place::Place;
use serde_json::{Map, Value};
use std::alloc::Global;

/// The greatest number of an agreement or a message.
const GREATEST: u64 = 1_000_000;

/// The members of an object.
pub fn members_at<'a>(
    alloc: Global,
    place: &Place<'_>,
    value: &'a Value,
) -> Result<&'a Map<String, Value>, LoadFault>
    ensures { ReadsPart (λ m. members_view m.now.entries) result (model.members_at (path_of place.now) (view value.now)) }
{
    match value.as_object() {
        Some(members) => Ok(members),
        None => Err(place.bad_shape(alloc)),
    }
}

/// The text at the name.
pub fn text_at<'a>(
    alloc: Global,
    place: &Place<'_>,
    name: &'static str,
    value: &'a Value,
) -> Result<&'a str, LoadFault>
    ensures { ReadsPart (λ t. t.now) result (model.text_at (path_of place.now) name.now (view value.now)) }
{
    match value.get(name).and_then(Value::as_str) {
        Some(text) => Ok(text),
        None => Err(Place::Member(place, name).bad_shape(alloc)),
    }
}

/// The members of a list.
fn list_in<'a>(alloc: Global, place: &Place<'_>, value: &'a Value) -> Result<&'a [Value], LoadFault>
    ensures { ReadsPart (λ l. items_view l.now) result (model.or_left_out (path_of place.now) (Some (view value.now))) }
{
    match value.as_array() {
        Some(list) => Ok(list.as_slice()),
        None => Err(place.bad_shape(alloc)),
    }
}

/// The list at the name.
pub(crate) fn list_at<'a>(
    alloc: Global,
    place: &Place<'_>,
    name: &'static str,
    value: &'a Value,
) -> Result<&'a [Value], LoadFault>
    ensures { ReadsPart (λ l. items_view l.now) result (model.list_at (path_of place.now) name.now (view value.now)) }
{
    match value.get(name) {
        Some(found) => list_in(alloc, &Place::Member(place, name), found),
        None => Err(Place::Member(place, name).bad_shape(alloc)),
    }
}

/// The list at the name, which is empty where it's left out.
pub fn list_if_any<'a>(
    alloc: Global,
    place: &Place<'_>,
    name: &'static str,
    value: &'a Value,
) -> Result<&'a [Value], LoadFault>
    ensures { ReadsPart (λ l. items_view l.now) result (model.list_if_any (path_of place.now) name.now (view value.now)) }
{
    match value.get(name) {
        Some(found) => list_in(alloc, &Place::Member(place, name), found),
        None => Ok(&[]),
    }
}

/// The list at the name, which isn't empty.
#[tactic(auto, using(crate::proofs::Items::counted))]
pub fn some_at<'a>(
    alloc: Global,
    place: &Place<'_>,
    name: &'static str,
    value: &'a Value,
) -> Result<&'a [Value], LoadFault>
    ensures { ReadsPart (λ l. items_view l.now) result (model.some_at (path_of place.now) name.now (view value.now)) }
{
    let list = list_at(alloc, place, name, value)?;
    if list.is_empty() {
        return Err(Place::Member(place, name).bad_shape(alloc));
    }
    Ok(list)
}

/// The value as a number of an agreement or a message.
pub fn number_of(value: &Value) -> Option<u32>
    ensures { result ≡ model.number_of (view value.now) }
{
    match value.as_u64() {
        Some(number) if number >= 1 && number <= GREATEST => Some(number as u32),
        _ => None,
    }
}

/// The number at the name.
pub fn number_at(
    alloc: Global,
    place: &Place<'_>,
    name: &'static str,
    value: &Value,
) -> Result<u32, LoadFault>
    ensures { ReadsPart (λ n. n) result (model.number_at (path_of place.now) name.now (view value.now)) }
{
    match value.get(name).and_then(number_of) {
        Some(number) => Ok(number),
        None => Err(Place::Member(place, name).bad_shape(alloc)),
    }
}

/// Whether the name is one of these.
fn is_among(names: &[&str], name: &str) -> bool
    ensures { result ≡ list_any (λ n. same_octets n.now name.now) names.now }
{
    names.iter().any(|n| *n == name)
}

/// The key of the first member that has another name than these.
fn other_key<'a>(names: &[&str], members: &'a Map<String, Value>) -> Option<&'a String>
    ensures { option_copied result ≡ find (λ k. not (list_any (λ n. same_octets n.now (string_bytes k)) names.now)) (map (λ m. m.0) members.now.entries) }
{
    members.keys().find(|name| !is_among(names, name.as_str()))
}

/// The first member's name that is none of these.
fn first_other<'a>(names: &[&str], members: &'a Map<String, Value>) -> Option<&'a str>
    ensures { option_copied result ≡ model.first_other (map (λ n. n.now) names.now) (members_view members.now.entries) }
{
    match other_key(names, members) {
        Some(name) => Some(name.as_str()),
        None => None,
    }
}

/// No member has another name than these.
pub fn only(
    alloc: Global,
    place: &Place<'_>,
    names: &[&str],
    members: &Map<String, Value>,
) -> Result<(), LoadFault>
    ensures { ReadsPart (λ u. u) result (model.only (path_of place.now) (map (λ n. n.now) names.now) (members_view members.now.entries) tt) }
{
    match first_other(names, members) {
        Some(name) => Err(place.unlisted(alloc, name)),
        None => Ok(()),
    }
}
