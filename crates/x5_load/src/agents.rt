//! The agents of a world file, with what they know.

ghost use Rattle.std.specs.Prelude.{◌≡◌, ◌+◌, ◌<◌, ◌≤◌, [], map, length, option_and_then, IfOk, codes};
ghost use Rattle.std.specs.List.{list_any};
ghost use Rattle.serde_json.specs.Find.{get, as_str};
ghost use Rattle.serde_json.specs.View.{view, items_view, members_view};
ghost use Rattle.x5_know.specs.Names.{has_name};
ghost use Rattle.x5_know.specs.WorldView.{described_agent_view};
ghost use Rattle.x5_model.specs.Words.{same_octets};
ghost use Rattle.x5_model_world.specs.AgentText as model;
ghost use Rattle.x5_model_world.specs.Reading.{at};
ghost use Rattle.x5_model_world.specs.WorldFile.{none_yet};
ghost use Rattle.x5_ops.specs.KnowledgeViews.{context_view};
ghost use Rattle.x5_load.specs.Parts as parts;
ghost use Rattle.x5_world_members.specs.Paths.{path_of};
ghost use Rattle.x5_world_members.specs.Views.{ReadsPart};

use crate::limits::few;
use crate::refs::{References, references_behind};
use serde_json::{Map, Value};
use std::alloc::Global;
use std::marker::Model;
use x5_know::{AgentNames, DescribedAgent, KindList};
use x5_memory::NoMemory;
use x5_ops::{AgentId, AgentName, AgentSpec, ContextSpecList, CrossList, SpecificList};
use x5_syntax::Text;
use x5_world_members::{
    Contexts, Counts, LoadFault, Place, agent_in, contexts_behind, list_if_any, members_at, only,
    text_at, with_these,
};

/// References of an agent at most.
const MOST_REFERENCES: u32 = 4096;

/// Agents so far, and what the file uses of the limits so far.
#[derive(Drop)]
pub(crate) struct Agents {
    pub(crate) agents: Vec<DescribedAgent>,
    pub(crate) counts: Counts,
}

impl Model for Agents {
    ghost use Rattle.std.specs.Prelude.{map};
    ghost use Rattle.x5_know.specs.WorldView.{described_agent_view};
    ghost use Rattle.x5_model_world.specs.AgentText as model;

    ghost Value = { model.Agents };

    ghost view = { λ a. record { agents = map described_agent_view a.agents.items; counts = a.counts } };
}

/// Whether one of the agents has the name.
fn is_there(agents: &[DescribedAgent], name: &str) -> bool
    ensures { result ≡ list_any (λ a. same_octets name.now a.spec.name) agents.now }
{
    agents.iter().any(|agent| name.as_bytes() == agent.spec.name.as_str().as_bytes())
}

/// Whether one of the agents has the name.
fn has_agent(agents: &[DescribedAgent], name: &str) -> bool
    ensures { result ≡ has_name (map (λ a. a.name) (map described_agent_view agents.now)) name.now }
{
    is_there(agents, name)
}

/// The text as the name of an agent behind these.
fn new_name(
    alloc: Global,
    place: &Place<'_>,
    before: &[DescribedAgent],
    text: &str,
) -> Result<AgentName, LoadFault>
    ensures { ReadsPart (λ n. n) result (model.new_name (path_of place.now) (map (λ a. a.name) (map described_agent_view before.now)) text.now) }
{
    if !AgentName::is_plain(text) {
        return Err(place.bad_name(alloc));
    }
    if has_agent(before, text) {
        return Err(place.repeated_agent(alloc));
    }
    let name = Text::new(alloc, text)?;
    Ok(AgentName::new(name))
}

/// The superior of an agent, if it has one.
fn agent_if_any(
    alloc: Global,
    names: &AgentNames,
    place: &Place<'_>,
    value: &Value,
) -> Result<Option<AgentId>, LoadFault>
    ensures { ReadsPart (λ s. s) result (model.agent_if_any names.now (at (path_of place.now) (codes "superior")) (get (codes "superior") (view value.now))) }
{
    match value.get("superior") {
        Some(found) => {
            let superior = agent_in(alloc, names, &Place::Member(place, "superior"), found)?;
            Ok(Some(superior))
        }
        None => Ok(None),
    }
}

/// An agent so far: its name and its superior.
#[derive(Drop)]
struct Begun {
    name: AgentName,
    superior: Option<AgentId>,
}

/// The agent of these parts. No memory.
fn agent_with(
    name: AgentName,
    superior: Option<AgentId>,
    contexts: ContextSpecList,
    references: References,
) -> DescribedAgent
    ensures { described_agent_view result ≡ model.agent_with name superior (map context_view contexts) references }
{
    let References {
        specific,
        cross,
        crosses,
    } = references;
    DescribedAgent {
        spec: AgentSpec {
            name,
            superior,
            contexts,
            specific: SpecificList::from_vec(specific),
            cross: CrossList::from_vec(cross),
        },
        crosses: KindList::from_vec(crosses),
    }
}

/// The agents with one more, of these parts.
#[tactic(auto, using(crate::proofs::Listing::agent_more))]
fn more(
    before: Vec<DescribedAgent>,
    agent: Begun,
    found: Contexts,
    references: References,
) -> Result<Agents, LoadFault>
    ensures { ReadsPart (λ a. a) result (parts.one_more (map described_agent_view before.items) agent.name agent.superior found references) }
{
    let mut agents = before;
    let counts = found.counts();
    let Begun { name, superior } = agent;
    agents.push(agent_with(name, superior, found.into_list(), references))?;
    Ok(Agents { agents, counts })
}

/// The agents with one more, which has this name, superior and contexts, and the references that the object lists.
fn with_references(
    alloc: Global,
    names: &AgentNames,
    place: &Place<'_>,
    before: Vec<DescribedAgent>,
    agent: Begun,
    found: Contexts,
    value: &Value,
    members: &Map<String, Value>,
) -> Result<Agents, LoadFault>
    ensures { ReadsPart (λ a. a) result (parts.referring names.now (path_of place.now) (map described_agent_view before.items) agent.name agent.superior found (view value.now) (members_view members.now.entries)) }
{
    let list = list_if_any(alloc, place, "refs", value)?;
    few(alloc, &Place::Member(place, "refs"), MOST_REFERENCES, list)?;
    let references = references_behind(alloc, names, &Place::Member(place, "refs"), list)?;
    only(
        alloc,
        place,
        &["name", "superior", "contexts", "refs"],
        members,
    )?;
    more(before, agent, found, references)
}

/// The agents with one more, which has this name and superior, and what else the object lists.
fn with_contexts(
    alloc: Global,
    names: &AgentNames,
    place: &Place<'_>,
    before: Agents,
    agent: Begun,
    value: &Value,
    members: &Map<String, Value>,
) -> Result<Agents, LoadFault>
    ensures { ReadsPart (λ a. a) result (parts.settling names.now (path_of place.now) before agent.name agent.superior (view value.now) (members_view members.now.entries)) }
{
    let Agents { agents, counts } = before;
    let items = list_if_any(alloc, place, "contexts", value)?;
    let used = with_these(alloc, place, counts.contexts(), items)?;
    let none = Contexts::new(alloc, counts.with_contexts(used));
    let found = contexts_behind(alloc, names, &Place::Member(place, "contexts"), none, items)?;
    with_references(alloc, names, place, agents, agent, found, value, members)
}

/// The agents with one more, which an object describes.
fn agent_behind(
    alloc: Global,
    names: &AgentNames,
    place: &Place<'_>,
    before: Agents,
    value: &Value,
) -> Result<Agents, LoadFault>
    ensures { ReadsPart (λ a. a) result (model.agent_behind names.now (path_of place.now) before (view value.now)) }
{
    let members = members_at(alloc, place, value)?;
    let text = text_at(alloc, place, "name", value)?;
    let name = new_name(
        alloc,
        &Place::Member(place, "name"),
        before.agents.as_slice(),
        text,
    )?;
    let superior = agent_if_any(alloc, names, place, value)?;
    let agent = Begun { name, superior };
    with_contexts(alloc, names, place, before, agent, value, members)
}

/// The agents that a list describes.
pub(crate) fn all_behind(
    alloc: Global,
    names: &AgentNames,
    place: &Place<'_>,
    items: &[Value],
) -> Result<Agents, LoadFault>
    ensures { ReadsPart (λ a. a) result (model.all_behind names.now (path_of place.now) 0 (record { agents = []; counts = none_yet }) (items_view items.now)) }
{
    let mut agents = Agents {
        agents: Vec::new(alloc),
        counts: Counts::none(),
    };
    for (i, item) in items.iter().enumerate() {
        agents = agent_behind(alloc, names, &Place::Item(&*place, i), agents, item)?;
    }
    Ok(agents)
}

/// The names with the one of this object, if it has one.
fn with_text(alloc: Global, names: AgentNames, value: &Value) -> Result<AgentNames, NoMemory>
    requires { length names < 64 }
    ensures read { IfOk result (λ n. n ≡ model.with_text names (option_and_then as_str (get (codes "name") (view value.now)))) }
    ensures count { IfOk result (λ n. length n ≤ length names + 1) }
{
    let mut names = names;
    match value.get("name").and_then(Value::as_str) {
        Some(text) => {
            let name = Text::new(alloc, text)?;
            let _new = names.add(AgentName::new(name))?;
            Ok(names)
        }
        None => Ok(names),
    }
}

/// The names of all agents, each once.
pub(crate) fn names_behind(alloc: Global, items: &[Value]) -> Result<AgentNames, NoMemory>
    requires { length items.now ≤ 64 }
    ensures { IfOk result (λ n. n ≡ model.names_behind [] (items_view items.now)) }
{
    let mut names = AgentNames::new(alloc);
    for item in items {
        names = with_text(alloc, names, item)?;
    }
    Ok(names)
}
