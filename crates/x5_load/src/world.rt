//! The world that a value of JSON describes.

ghost use Rattle.std.specs.Prelude.{◌≡◌, ◌≤◌, [], map, length, codes, IfOk};
ghost use Rattle.serde_json.specs.View.{view, items_view, members_view};
ghost use Rattle.x5_load.specs.Parts as parts;
ghost use Rattle.x5_know.specs.WorldView.{described_agent_view};
ghost use Rattle.x5_load.specs.Views.{file_view, IsNamed};
ghost use Rattle.x5_model_world.specs.AgentText.{names_behind as names_behind_of};
ghost use Rattle.x5_model_world.specs.Reading.{only as only_of};
ghost use Rattle.x5_model_world.specs.WorldFile as model;
ghost use Rattle.x5_world_members.specs.Views.{ReadsPart};

use crate::agents::{Agents, all_behind, names_behind};
use crate::agreements::{agreements_behind, copies_fit};
use crate::limits::few;
use crate::mentioned::all_known;
use crate::network::{network_if_any, quiet};
use crate::stamp::start_of;
use serde_json::{Map, Value};
use std::alloc::Global;
use x5_know::{
    AgentNames, Agreement, AgreementList, Described, DescribedAgents, NetworkState, Start,
};
use x5_world_members::{LoadFault, Place, list_if_any, members_at, only, some_at, text_at};

/// Agents of a world at most.
const MOST_AGENTS: u32 = 64;

/// Agreements of a world at most.
const MOST_AGREEMENTS: u32 = 64;

/// Entries of a world with those of all copies at most.
const MOST_WITH_COPIES: u32 = 400_000;

/// Whether a file of this format may have a network; None where it's no format.
fn format_of(value: &Value) -> Option<bool>
    ensures { result ≡ model.format_of (view value.now) }
{
    match value.get("format").and_then(Value::as_u64) {
        Some(1) => Some(false),
        Some(2) => Some(true),
        _ => None,
    }
}

/// The network, which only a file of format 2 may have.
fn network_of(
    alloc: Global,
    names: &AgentNames,
    has_network: bool,
    value: &Value,
) -> Result<NetworkState, LoadFault>
    ensures { ReadsPart (λ n. n) result (model.network_of names.now has_network (view value.now)) }
{
    if has_network {
        network_if_any(alloc, names, value)
    } else {
        Ok(quiet(alloc))
    }
}

/// The world has no members but those of its format.
fn only_listed(
    alloc: Global,
    has_network: bool,
    members: &Map<String, Value>,
) -> Result<(), LoadFault>
    ensures { ReadsPart (λ u. u) result (only_of (codes "") (model.world_members has_network) (members_view members.now.entries) tt) }
{
    let whole = Place::Whole;
    if has_network {
        let listed = &["format", "start", "agents", "agreements", "network"];
        only(alloc, &whole, listed, members)
    } else {
        only(
            alloc,
            &whole,
            &["format", "start", "agents", "agreements"],
            members,
        )
    }
}

/// The network of the world of these agents and agreements, which has no members but those of its format.
fn network_beside(
    alloc: Global,
    names: &AgentNames,
    has_network: bool,
    start: &Start,
    value: &Value,
    members: &Map<String, Value>,
    found: &Agents,
    agreements: &[Agreement],
) -> Result<NetworkState, LoadFault>
    ensures { ReadsPart (λ n. parts.file_with start.now found.now agreements.now n) result (parts.connected names.now has_network start.now (view value.now) (members_view members.now.entries) found.now agreements.now) }
{
    let _ = start;
    let _ = found;
    let _ = agreements;
    let network = network_of(alloc, names, has_network, value)?;
    match only_listed(alloc, has_network, members) {
        Ok(()) => Ok(network),
        Err(fault) => {
            drop(network);
            Err(fault)
        }
    }
}

/// The agreements and the network of the world of these agents.
fn agreed_on(
    alloc: Global,
    names: &AgentNames,
    has_network: bool,
    start: &Start,
    value: &Value,
    members: &Map<String, Value>,
    found: &Agents,
) -> Result<(Vec<Agreement>, NetworkState), LoadFault>
    ensures { ReadsPart (λ r. parts.file_with start.now found.now r.0.items r.1) result (parts.agreed names.now has_network start.now (view value.now) (members_view members.now.entries) found.now) }
{
    let whole = Place::Whole;
    let list = list_if_any(alloc, &whole, "agreements", value)?;
    let here = Place::Member(&whole, "agreements");
    few(alloc, &here, MOST_AGREEMENTS, list)?;
    let agreements = agreements_behind(alloc, names, &here, list)?;
    if !copies_fit(&found.agents, found.counts.entries(), &agreements) {
        drop(agreements);
        return Err(here.over_limit(alloc, MOST_WITH_COPIES));
    }
    match network_beside(
        alloc,
        names,
        has_network,
        start,
        value,
        members,
        found,
        &agreements,
    ) {
        Ok(network) => Ok((agreements, network)),
        Err(fault) => {
            drop(agreements);
            Err(fault)
        }
    }
}

/// The world of these agents.
fn agreed(
    alloc: Global,
    names: AgentNames,
    has_network: bool,
    start: Start,
    value: &Value,
    members: &Map<String, Value>,
    found: Agents,
) -> Result<Described, LoadFault>
    ensures read { ReadsPart file_view result (parts.agreed names has_network start (view value.now) (members_view members.now.entries) found) }
    ensures names { IfOk result (λ d. d.names ≡ names) }
    ensures agents { IfOk result (λ d. map described_agent_view d.agents ≡ found.agents) }
{
    match agreed_on(alloc, &names, has_network, &start, value, members, &found) {
        Ok((agreements, network)) => {
            let Agents { agents, counts: _ } = found;
            Ok(Described {
                start,
                names,
                agents: DescribedAgents::from_vec(agents),
                agreements: AgreementList::from_vec(agreements),
                network,
            })
        }
        Err(fault) => {
            drop(found);
            drop(names);
            drop(start);
            Err(fault)
        }
    }
}

/// The world of the agents with these names, of which a list describes each.
#[tactic(auto, using(x5_model_loaded::proofs::Agents::names_are))]
fn world_in(
    alloc: Global,
    names: AgentNames,
    has_network: bool,
    start: Start,
    items: &[Value],
    value: &Value,
) -> Result<Described, LoadFault>
    ensures read { ReadsPart file_view result (model.world_in names has_network start (items_view items.now) (view value.now)) }
    ensures names { IfOk result (λ d. d.names ≡ names) }
    ensures agents { IfOk result (λ d. names_behind_of [] (items_view items.now) ≡ map (λ a. a.name) (map described_agent_view d.agents)) }
{
    let whole = Place::Whole;
    let members = members_at(alloc, &whole, value)?;
    let found = all_behind(alloc, &names, &Place::Member(&whole, "agents"), items)?;
    agreed(alloc, names, has_network, start, value, members, found)
}

/// The world of the agents that a list describes.
fn inhabited(
    alloc: Global,
    has_network: bool,
    start: Start,
    items: &[Value],
    value: &Value,
) -> Result<Described, LoadFault>
    requires { length items.now ≤ 64 }
    ensures read { ReadsPart file_view result (parts.inhabited has_network start (view value.now) (items_view items.now)) }
    ensures named { IfOk result IsNamed }
    ensures most { IfOk result (λ d. length d.agents ≤ 64) }
{
    let names = names_behind(alloc, items)?;
    let described = world_in(alloc, names, has_network, start, items, value)?;
    all_known(alloc, &described.names, value)?;
    Ok(described)
}

/// The world that begins then.
fn begun(
    alloc: Global,
    has_network: bool,
    value: &Value,
    start: Start,
) -> Result<Described, LoadFault>
    ensures read { ReadsPart file_view result (parts.begun has_network (view value.now) start) }
    ensures named { IfOk result IsNamed }
    ensures most { IfOk result (λ d. length d.agents ≤ 64) }
{
    let whole = Place::Whole;
    let items = some_at(alloc, &whole, "agents", value)?;
    few(alloc, &Place::Member(&whole, "agents"), MOST_AGENTS, items)?;
    inhabited(alloc, has_network, start, items, value)
}

/// The world of a file of this format.
fn formed(alloc: Global, value: &Value, has_network: bool) -> Result<Described, LoadFault>
    ensures read { ReadsPart file_view result (parts.formed (view value.now) has_network) }
    ensures named { IfOk result IsNamed }
    ensures most { IfOk result (λ d. length d.agents ≤ 64) }
{
    let whole = Place::Whole;
    let stamp = text_at(alloc, &whole, "start", value)?;
    let Some(start) = start_of(stamp) else {
        return Err(Place::Member(&whole, "start").bad_shape(alloc));
    };
    begun(alloc, has_network, value, start)
}

/// The world that a value of JSON describes.
pub(crate) fn file_of(alloc: Global, value: &Value) -> Result<Described, LoadFault>
    ensures read { ReadsPart file_view result (model.file_of (view value.now)) }
    ensures named { IfOk result IsNamed }
    ensures most { IfOk result (λ d. length d.agents ≤ 64) }
{
    let whole = Place::Whole;
    let _members = members_at(alloc, &whole, value)?;
    let Some(has_network) = format_of(value) else {
        return Err(Place::Member(&whole, "format").bad_shape(alloc));
    };
    formed(alloc, value, has_network)
}
