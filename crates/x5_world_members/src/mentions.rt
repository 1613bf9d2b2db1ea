//! Names of agents that are referred to.

ghost use Rattle.std.specs.Prelude.{◌≡◌, [], Ok};
ghost use Rattle.serde_json.specs.View.{view, items_view};
ghost use Rattle.x5_model_world.specs.ContextText as model;
ghost use Rattle.x5_world_members.specs.Paths.{path_of};
ghost use Rattle.x5_world_members.specs.Views.{ReadsPart};

use crate::fault::LoadFault;
use crate::place::Place;
use serde_json::Value;
use std::alloc::Global;
use x5_know::AgentNames;
use x5_ops::{AgentId, AgentList};

/// The agent of this name; the place behind all agents where nobody has it. No memory.
pub fn agent_of(names: &AgentNames, text: &str) -> AgentId
    ensures { result ≡ model.agent_of names.now text.now }
{
    match names.find(text) {
        Some(agent) => agent,
        None => AgentId(names.len() as u8),
    }
}

/// The agent that a text names.
pub fn agent_in(
    alloc: Global,
    names: &AgentNames,
    place: &Place<'_>,
    value: &Value,
) -> Result<AgentId, LoadFault>
    ensures { ReadsPart (λ a. a) result (model.agent_in names.now (path_of place.now) (view value.now)) }
{
    match value.as_str() {
        Some(text) => Ok(agent_of(names, text)),
        None => Err(place.bad_shape(alloc)),
    }
}

/// The agents that the texts of a list name.
pub fn agents_behind(
    alloc: Global,
    names: &AgentNames,
    place: &Place<'_>,
    items: &[Value],
) -> Result<AgentList, LoadFault>
    ensures { ReadsPart (λ l. l) result (model.agents_behind names.now (path_of place.now) 0 [] (items_view items.now)) }
{
    let mut agents = AgentList::new(alloc);
    for (i, item) in items.iter().enumerate() {
        let agent = agent_in(alloc, names, &Place::Item(&*place, i), item)?;
        agents.push(agent)?;
    }
    Ok(agents)
}
