//! The first name in a world file that refers to an agent and is no agent's.

ghost use Rattle.std.specs.Prelude.{◌≡◌, Some, codes};
ghost use Rattle.serde_json.specs.Find.{get};
ghost use Rattle.serde_json.specs.View.{view, items_view};
ghost use Rattle.x5_know.specs.Names.{has_name};
ghost use Rattle.x5_load.specs.Parts.{unknown_there};
ghost use Rattle.x5_load.specs.Views.{Misses};
ghost use Rattle.x5_model_world.specs.Mentioned as model;
ghost use Rattle.x5_world_members.specs.Paths.{path_of};

use serde_json::Value;
use std::alloc::Global;
use x5_know::AgentNames;
use x5_world_members::{LoadFault, Place};

/// The members of the list at the name, if there is one.
fn items_at<'a>(name: &str, value: &'a Value) -> &'a [Value]
    ensures { items_view result.now ≡ model.items_at name.now (view value.now) }
{
    match value.get(name).and_then(Value::as_array) {
        Some(items) => items.as_slice(),
        None => &[],
    }
}

/// Whether the text is an agent's name.
fn is_known(names: &AgentNames, text: &str) -> bool
    ensures { result ≡ has_name names.now text.now }
{
    names.find(text).is_some()
}

/// The text is an agent's name.
#[tactic(auto, using(crate::proofs::Known::missed))]
fn known(alloc: Global, names: &AgentNames, place: &Place<'_>, text: &str) -> Result<(), LoadFault>
    ensures { Misses result (model.unknown_name names.now (path_of place.now) (Some text.now)) }
{
    if is_known(names, text) {
        Ok(())
    } else {
        Err(place.unknown_agent(alloc))
    }
}

/// The value, if it's a text, is an agent's name.
fn text(
    alloc: Global,
    names: &AgentNames,
    place: &Place<'_>,
    value: &Value,
) -> Result<(), LoadFault>
    ensures { Misses result (model.unknown_text names.now (path_of place.now) (view value.now)) }
{
    match value.as_str() {
        Some(text) => known(alloc, names, place, text),
        None => Ok(()),
    }
}

/// The text at the name, if there is one, is an agent's name.
fn text_at(
    alloc: Global,
    names: &AgentNames,
    place: &Place<'_>,
    name: &'static str,
    value: &Value,
) -> Result<(), LoadFault>
    ensures { Misses result (model.unknown_at names.now (path_of place.now) name.now (view value.now)) }
{
    match value.get(name) {
        Some(found) => text(alloc, names, &Place::Member(place, name), found),
        None => Ok(()),
    }
}

/// All texts of the list are agents' names.
fn texts(
    alloc: Global,
    names: &AgentNames,
    place: &Place<'_>,
    items: &[Value],
) -> Result<(), LoadFault>
    ensures { Misses result (model.first_in (model.unknown_text names.now) (path_of place.now) 0 (items_view items.now)) }
{
    for (i, item) in items.iter().enumerate() {
        text(alloc, names, &Place::Item(&*place, i), item)?;
    }
    Ok(())
}

/// So are those of the non-specific reference.
fn nssr(
    alloc: Global,
    names: &AgentNames,
    place: &Place<'_>,
    value: &Value,
) -> Result<(), LoadFault>
    ensures { Misses result (model.unknown_in_nssr names.now (path_of place.now) (view value.now)) }
{
    let agents = items_at("agents", value);
    texts(alloc, names, &Place::Member(place, "agents"), agents)
}

/// So are those of the non-specific references.
fn nssrs(
    alloc: Global,
    names: &AgentNames,
    place: &Place<'_>,
    items: &[Value],
) -> Result<(), LoadFault>
    ensures { Misses result (model.first_in (model.unknown_in_nssr names.now) (path_of place.now) 0 (items_view items.now)) }
{
    for (i, item) in items.iter().enumerate() {
        nssr(alloc, names, &Place::Item(&*place, i), item)?;
    }
    Ok(())
}

/// So are those of the context.
fn context(
    alloc: Global,
    names: &AgentNames,
    place: &Place<'_>,
    value: &Value,
) -> Result<(), LoadFault>
    ensures { Misses result (model.unknown_in_context names.now (path_of place.now) (view value.now)) }
{
    let list = items_at("nssr", value);
    nssrs(alloc, names, &Place::Member(place, "nssr"), list)
}

/// So are those of the contexts.
fn contexts(
    alloc: Global,
    names: &AgentNames,
    place: &Place<'_>,
    items: &[Value],
) -> Result<(), LoadFault>
    ensures { Misses result (model.first_in (model.unknown_in_context names.now) (path_of place.now) 0 (items_view items.now)) }
{
    for (i, item) in items.iter().enumerate() {
        context(alloc, names, &Place::Item(&*place, i), item)?;
    }
    Ok(())
}

/// So are those of the reference.
fn reference(
    alloc: Global,
    names: &AgentNames,
    place: &Place<'_>,
    value: &Value,
) -> Result<(), LoadFault>
    ensures { Misses result (model.unknown_in_reference names.now (path_of place.now) (view value.now)) }
{
    text_at(alloc, names, place, "master", value)?;
    let shadows = items_at("shadows", value);
    texts(alloc, names, &Place::Member(place, "shadows"), shadows)
}

/// So are those of the references.
fn references(
    alloc: Global,
    names: &AgentNames,
    place: &Place<'_>,
    items: &[Value],
) -> Result<(), LoadFault>
    ensures { Misses result (model.first_in (model.unknown_in_reference names.now) (path_of place.now) 0 (items_view items.now)) }
{
    for (i, item) in items.iter().enumerate() {
        reference(alloc, names, &Place::Item(&*place, i), item)?;
    }
    Ok(())
}

/// So are those of the agent.
fn agent(
    alloc: Global,
    names: &AgentNames,
    place: &Place<'_>,
    value: &Value,
) -> Result<(), LoadFault>
    ensures { Misses result (model.unknown_in_agent names.now (path_of place.now) (view value.now)) }
{
    text_at(alloc, names, place, "superior", value)?;
    let held = items_at("contexts", value);
    contexts(alloc, names, &Place::Member(place, "contexts"), held)?;
    let refs = items_at("refs", value);
    references(alloc, names, &Place::Member(place, "refs"), refs)
}

/// So are those of the agents.
fn agents(
    alloc: Global,
    names: &AgentNames,
    place: &Place<'_>,
    items: &[Value],
) -> Result<(), LoadFault>
    ensures { Misses result (model.first_in (model.unknown_in_agent names.now) (path_of place.now) 0 (items_view items.now)) }
{
    for (i, item) in items.iter().enumerate() {
        agent(alloc, names, &Place::Item(&*place, i), item)?;
    }
    Ok(())
}

/// So are those of the agreement.
fn agreement(
    alloc: Global,
    names: &AgentNames,
    place: &Place<'_>,
    value: &Value,
) -> Result<(), LoadFault>
    ensures { Misses result (model.unknown_in_agreement names.now (path_of place.now) (view value.now)) }
{
    text_at(alloc, names, place, "supplier", value)?;
    text_at(alloc, names, place, "consumer", value)
}

/// So are those of the agreements.
fn agreements(
    alloc: Global,
    names: &AgentNames,
    place: &Place<'_>,
    items: &[Value],
) -> Result<(), LoadFault>
    ensures { Misses result (model.first_in (model.unknown_in_agreement names.now) (path_of place.now) 0 (items_view items.now)) }
{
    for (i, item) in items.iter().enumerate() {
        agreement(alloc, names, &Place::Item(&*place, i), item)?;
    }
    Ok(())
}

/// So are those of the pair.
fn pair(
    alloc: Global,
    names: &AgentNames,
    place: &Place<'_>,
    value: &Value,
) -> Result<(), LoadFault>
    ensures { Misses result (model.unknown_in_pair names.now (path_of place.now) (view value.now)) }
{
    match value.as_array() {
        Some(pair) => texts(alloc, names, place, pair.as_slice()),
        None => Ok(()),
    }
}

/// So are those of the pairs.
fn pairs(
    alloc: Global,
    names: &AgentNames,
    place: &Place<'_>,
    items: &[Value],
) -> Result<(), LoadFault>
    ensures { Misses result (model.first_in (model.unknown_in_pair names.now) (path_of place.now) 0 (items_view items.now)) }
{
    for (i, item) in items.iter().enumerate() {
        pair(alloc, names, &Place::Item(&*place, i), item)?;
    }
    Ok(())
}

/// So are those of the network at the place.
fn network_at(
    alloc: Global,
    names: &AgentNames,
    place: &Place<'_>,
    value: &Value,
) -> Result<(), LoadFault>
    ensures { Misses result (unknown_there names.now (path_of place.now) (view value.now)) }
{
    let down = items_at("down", value);
    texts(alloc, names, &Place::Member(place, "down"), down)?;
    let refuse = items_at("refuse", value);
    texts(alloc, names, &Place::Member(place, "refuse"), refuse)?;
    let cut = items_at("cut", value);
    pairs(alloc, names, &Place::Member(place, "cut"), cut)
}

/// So are those of the network.
fn network(alloc: Global, names: &AgentNames, value: &Value) -> Result<(), LoadFault>
    ensures { Misses result (model.unknown_in_network names.now (Some (view value.now))) }
{
    let whole = Place::Whole;
    network_at(alloc, names, &Place::Member(&whole, "network"), value)
}

/// So are those of the network, if there is one.
fn network_if_any(alloc: Global, names: &AgentNames, value: &Value) -> Result<(), LoadFault>
    ensures { Misses result (model.unknown_in_network names.now (get (codes "network") (view value.now))) }
{
    match value.get("network") {
        Some(found) => network(alloc, names, found),
        None => Ok(()),
    }
}

/// All names that refer to agents are agents'; else the first that isn't, in the order of the file.
pub(crate) fn all_known(alloc: Global, names: &AgentNames, value: &Value) -> Result<(), LoadFault>
    ensures { Misses result (model.unknown_in_world names.now (view value.now)) }
{
    let whole = Place::Whole;
    let described = items_at("agents", value);
    agents(alloc, names, &Place::Member(&whole, "agents"), described)?;
    let agreed = items_at("agreements", value);
    agreements(alloc, names, &Place::Member(&whole, "agreements"), agreed)?;
    network_if_any(alloc, names, value)
}
