//! Refreshes (X.525, sections 10 and 11) as values of types of messages, with agents by their names.
ghost use Rattle.std.specs.Prelude.{◌≡◌, ◌++◌, ◌∷◌, [], IfOk, OnOk, map};
ghost use Rattle.x5_dispber.specs.ShadowViews.{agent_name, told_known, told_other, told_refresh, told_step};
ghost use Rattle.x5_model_messages.specs.Shadows as shadows;
ghost use Rattle.x5_model_messages.specs.Terms.{name_node as name_node_of, node_of};
ghost use Rattle.x5_types.specs.NodeView.{node_view};

use crate::entries::{entries_node, entry_node};
use crate::shadow::Refresh;
use std::alloc::Global;
use x5_dapber::names::name_node;
use x5_dapber::parts::{chosen, many, two};
use x5_know::AgentNames;
use x5_memory::NoMemory;
use x5_names::Name;
use x5_ops::{AgentId, Content, Named, Nssr, Specific, Step};
use x5_types::{Characters, Node};

/// The name of the agent; nothing where there is no such agent.
fn agent_text<'a>(names: &'a AgentNames, agent: AgentId) -> &'a str
    ensures { result.now ≡ agent_name names.now agent }
{
    if usize::from(agent.0) < names.len() {
        names.name(agent).as_str()
    } else {
        ""
    }
}

fn agent_node<'a>(
    alloc: Global,
    names: &'a AgentNames,
    agent: AgentId,
    copy: bool,
) -> Result<Node<'a>, NoMemory>
    ensures { IfOk result (λ n. node_view n ≡ shadows.agent_node copy (agent_name names.now agent)) }
{
    let name = Node::Text(Characters::Lent(agent_text(names, agent)));
    two(alloc, name, Node::Flag(copy))
}

/// Adds agents, all masters or all with copies.
fn put_agents<'a>(
    alloc: Global,
    nodes: &mut Vec<Node<'a>>,
    names: &'a AgentNames,
    agents: &[AgentId],
    copy: bool,
) -> Result<(), NoMemory>
    ensures { OnOk result (map node_view nodes.new.items
        ≡ map node_view nodes.old.items ++ map (shadows.agent_node copy) (map (agent_name names.now) agents.now)) }
{
    for agent in agents {
        nodes.push(agent_node(alloc, names, *agent, copy)?)?;
    }
    Ok(())
}

/// A subordinate reference: the master, and then the agents that have copies.
fn known_node<'a>(
    alloc: Global,
    names: &'a AgentNames,
    known: &'a Specific,
) -> Result<Node<'a>, NoMemory>
    ensures { IfOk result (λ n. node_view n ≡ shadows.known_node (told_known names.now known.now)) }
{
    let mut agents = Vec::new(alloc);
    agents.push(agent_node(alloc, names, known.access.master, false)?)?;
    put_agents(
        alloc,
        &mut agents,
        names,
        known.access.shadows.as_slice(),
        true,
    )?;
    two(alloc, name_node(alloc, &known.pin)?, many(agents))
}

pub(crate) fn all_known_node<'a>(
    alloc: Global,
    names: &'a AgentNames,
    known: &'a [Specific],
) -> Result<Node<'a>, NoMemory>
    ensures { IfOk result (λ n. node_view n ≡ node_of (map shadows.known_node (map (told_known names.now) known.now))) }
{
    let mut nodes = Vec::with_capacity(alloc, known.len())?;
    for one in known {
        nodes.push(known_node(alloc, names, one)?)?;
    }
    Ok(many(nodes))
}

/// A non-specific subordinate reference, to masters alone.
fn other_node<'a>(
    alloc: Global,
    names: &'a AgentNames,
    nssr: &'a Nssr,
) -> Result<Node<'a>, NoMemory>
    ensures { IfOk result (λ n. node_view n ≡ shadows.non_specific_node (told_other names.now nssr.now)) }
{
    let mut agents = Vec::new(alloc);
    put_agents(alloc, &mut agents, names, nssr.agents.as_slice(), false)?;
    two(alloc, name_node(alloc, &nssr.at)?, many(agents))
}

pub(crate) fn others_node<'a>(
    alloc: Global,
    names: &'a AgentNames,
    nssrs: &'a [Nssr],
) -> Result<Node<'a>, NoMemory>
    ensures { IfOk result (λ n. node_view n ≡ node_of (map shadows.non_specific_node (map (told_other names.now) nssrs.now))) }
{
    let mut nodes = Vec::with_capacity(alloc, nssrs.len())?;
    for nssr in nssrs {
        nodes.push(other_node(alloc, names, nssr)?)?;
    }
    Ok(many(nodes))
}

/// The name that an entry had, and what it is with its other name.
fn renamed_node<'a>(alloc: Global, name: &'a Name, entry: &'a Named) -> Result<Node<'a>, NoMemory>
    ensures { IfOk result (λ n. node_view n ≡ node_of (name_node_of name.now ∷ shadows.entry_node entry.now ∷ [])) }
{
    let mut parts = Vec::with_capacity(alloc, 2)?;
    parts.push(name_node(alloc, name)?)?;
    parts.push(entry_node(alloc, entry)?)?;
    Ok(many(parts))
}

/// A change: an entry that is there now, is gone, is another, or has another name.
fn step_node<'a>(alloc: Global, step: &'a Step) -> Result<Node<'a>, NoMemory>
    ensures { IfOk result (λ n. node_view n ≡ shadows.step_node (told_step step.now)) }
{
    match step {
        Step::Add(entry) => chosen(alloc, 0, entry_node(alloc, entry)?),
        Step::Remove(name) => chosen(alloc, 1, name_node(alloc, name)?),
        Step::Modify(entry) => chosen(alloc, 2, entry_node(alloc, entry)?),
        Step::Rename(name, entry) => chosen(alloc, 3, renamed_node(alloc, name, entry)?),
    }
}

fn steps_node<'a>(alloc: Global, steps: &'a [Step]) -> Result<Node<'a>, NoMemory>
    ensures { IfOk result (λ n. node_view n ≡ node_of (map shadows.step_node (map told_step steps.now))) }
{
    let mut nodes = Vec::with_capacity(alloc, steps.len())?;
    for step in steps {
        nodes.push(step_node(alloc, step)?)?;
    }
    Ok(many(nodes))
}

fn total_node<'a>(
    alloc: Global,
    names: &'a AgentNames,
    content: &'a Content,
) -> Result<Node<'a>, NoMemory>
    ensures { IfOk result (λ n. node_view n
        ≡ node_of (node_of (map shadows.entry_node content.now.entries)
        ∷ node_of (map shadows.known_node (map (told_known names.now) content.now.specific))
        ∷ node_of (map shadows.non_specific_node (map (told_other names.now) content.now.nssr)) ∷ [])) }
{
    let mut parts = Vec::with_capacity(alloc, 3)?;
    parts.push(entries_node(alloc, content.entries.as_slice())?)?;
    parts.push(all_known_node(alloc, names, content.specific.as_slice())?)?;
    parts.push(others_node(alloc, names, content.nssr.as_slice())?)?;
    Ok(many(parts))
}

/// What a refresh brings.
pub(crate) fn refresh_node<'a>(
    alloc: Global,
    names: &'a AgentNames,
    refresh: &'a Refresh,
) -> Result<Node<'a>, NoMemory>
    ensures { IfOk result (λ n. node_view n ≡ shadows.refresh_node (told_refresh names.now refresh.now)) }
{
    match refresh {
        Refresh::Nothing => Ok(Node::Vacant),
        Refresh::Total(content) => chosen(alloc, 0, total_node(alloc, names, content)?),
        Refresh::Steps(steps) => chosen(alloc, 1, steps_node(alloc, steps.as_slice())?),
    }
}
