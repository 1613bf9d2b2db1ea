//! Names of entries in a world file.

ghost use Rattle.std.specs.Prelude.{◌≡◌, false, IfOk};
ghost use Rattle.serde_json.specs.View.{view};
ghost use Rattle.x5_model.specs.Values.{last_rdn as last_rdn_of};
ghost use Rattle.x5_model.specs.Words.{is_empty as is_empty_list};
ghost use Rattle.x5_model_world.specs.Reading as model;
ghost use Rattle.x5_world_members.specs.Paths.{path_of};
ghost use Rattle.x5_world_members.specs.Views.{ReadsPart};

use crate::fault::LoadFault;
use crate::json::text_at;
use crate::place::Place;
use serde_json::Value;
use std::alloc::Global;
use x5_memory::NoMemory;
use x5_names::{KnownName, Name, NameFault, Rdn};
use x5_syntax::NameValue;

/// The name that a text spells.
fn name_in(alloc: Global, place: &Place<'_>, text: &str) -> Result<Name, LoadFault>
    ensures { ReadsPart (λ n. n) result (model.name_in (path_of place.now) text.now) }
{
    match NameValue::parse(alloc, text) {
        Ok(value) => Ok(Name::from_value(alloc, &value)?),
        Err(NameFault::NoMemory) => Err(LoadFault::NoMemory),
        Err(_) => Err(place.bad_name(alloc)),
    }
}

/// The name at the member.
pub(crate) fn name_at(
    alloc: Global,
    place: &Place<'_>,
    name: &'static str,
    value: &Value,
) -> Result<Name, LoadFault>
    ensures { ReadsPart (λ n. n) result (model.name_at (path_of place.now) name.now (view value.now)) }
{
    let text = text_at(alloc, place, name, value)?;
    name_in(alloc, &Place::Member(place, name), text)
}

/// The name at the member, which has one RDN at least.
pub fn entry_name_at(
    alloc: Global,
    place: &Place<'_>,
    name: &'static str,
    value: &Value,
) -> Result<Name, LoadFault>
    ensures read { ReadsPart (λ n. n) result (model.entry_name_at (path_of place.now) name.now (view value.now)) }
    ensures some { IfOk result (λ n. is_empty_list n ≡ false) }
{
    let found = name_at(alloc, place, name, value)?;
    if is_empty(&found) {
        return Err(Place::Member(place, name).bad_shape(alloc));
    }
    Ok(found)
}

/// The name that a text spells, whose last RDN alone is read if it stands just below the known one.
fn known_in<'a>(
    alloc: Global,
    place: &Place<'_>,
    known: &mut KnownName<'a>,
    text: &'a str,
) -> Result<Name, LoadFault>
    ensures { ReadsPart (λ n. n) result (model.name_in (path_of place.now) text.now) }
{
    match known.parse(alloc, text) {
        Ok(name) => Ok(name),
        Err(NameFault::NoMemory) => Err(LoadFault::NoMemory),
        Err(_) => Err(place.bad_name(alloc)),
    }
}

/// The name at the member, which has one RDN at least, in a list of which many stand just below the same one.
pub(crate) fn entry_name_behind<'a>(
    alloc: Global,
    place: &Place<'_>,
    name: &'static str,
    known: &mut KnownName<'a>,
    value: &'a Value,
) -> Result<Name, LoadFault>
    ensures read { ReadsPart (λ n. n) result (model.entry_name_at (path_of place.now) name.now (view value.now)) }
    ensures some { IfOk result (λ n. is_empty_list n ≡ false) }
{
    let text = text_at(alloc, place, name, value)?;
    let found = known_in(alloc, &Place::Member(place, name), known, text)?;
    if is_empty(&found) {
        return Err(Place::Member(place, name).bad_shape(alloc));
    }
    Ok(found)
}

/// Whether the name has no RDNs.
fn is_empty(name: &Name) -> bool
    ensures { result ≡ is_empty_list name.now }
{
    let rdns = name.rdns();
    rdns.is_empty()
}

/// The last RDN of the name; the root's has no pairs.
pub(crate) fn last_rdn(alloc: Global, name: &Name) -> Result<Rdn, NoMemory>
    ensures { IfOk result (λ r. r ≡ last_rdn_of name.now) }
{
    match name.last() {
        Some(rdn) => Ok(rdn.clone()?),
        None => Ok(Rdn::new(alloc, Vec::new(alloc))?),
    }
}
