//! Refreshes (X.525, sections 10 and 11) that values of types of messages say, with agents by their places among the world's.
ghost use Rattle.std.specs.Prelude.{◌≡◌, ◌∷◌, ℕ, true, List, IfOk, All, map};
ghost use Rattle.x5_dispber.specs.Sayable.{HaveMaster, IsAgent, IsKnown, IsNonSpecific, IsRefresh, IsRenamed, IsStep, IsTotal};
ghost use Rattle.x5_dispber.specs.ShadowViews.{agent_name, told_known, told_other, told_refresh, told_step};
ghost use Rattle.x5_know.specs.Names.{has_name};
ghost use Rattle.x5_model_messages.specs.Shadows as shadows;
ghost use Rattle.x5_model_messages.specs.Terms as terms;
ghost use Rattle.x5_model_typed.specs.Nodes as nodes;
ghost use Rattle.x5_model_typed.specs.Rules as rules;
ghost use Rattle.x5_types.specs.NodeView.{node_view};

use crate::read_entries::{entries_in, entry_in};
use crate::shadow::Refresh;
use std::alloc::Global;
use x5_know::AgentNames;
use x5_memory::NoMemory;
use x5_names::Name;
use x5_ops::{
    Access, AgentId, AgentList, Content, Nssr, NssrList, Specific, SpecificList, Step, StepList,
};
use x5_rules::name_of;
use x5_types::Node;

/// The text that the node says, or none.
pub(crate) fn text_of<'n>(node: &'n Node<'_>) -> &'n str
    ensures { result.now ≡ rules.text_in (node_view node.now) }
{
    match node {
        Node::Text(text) => text.as_str(),
        _ => "",
    }
}

/// The agent of the world whose name that is.
pub(crate) fn agent_named(names: &AgentNames, text: &str) -> AgentId
    requires { has_name names.now text.now ≡ true }
    ensures { agent_name names.now result ≡ text.now }
{
    match names.find(text) {
        Some(agent) => agent,
        None => unreachable!(),
    }
}

/// The agent that the node says.
fn agent_in(names: &AgentNames, node: &Node<'_>) -> AgentId
    requires { IsAgent (has_name names.now) (node_view node.now) }
    ensures { agent_name names.now result ≡ shadows.agent_in (node_view node.now) }
{
    match node.parts() {
        [agent, _] => agent_named(names, text_of(agent)),
        _ => unreachable!(),
    }
}

fn agents_in(alloc: Global, names: &AgentNames, nodes: &[Node<'_>]) -> Result<AgentList, NoMemory>
    requires { All (λ n. IsAgent (has_name names.now) (node_view n)) nodes.now }
    ensures { IfOk result (λ l. map (agent_name names.now) l ≡ map shadows.agent_in (map node_view nodes.now)) }
{
    let mut agents = AgentList::new(alloc);
    for node in nodes {
        agents.push(agent_in(names, node))?;
    }
    Ok(agents)
}

/// The agent that the first node says is the master, and those of the others have copies.
fn access_of(
    alloc: Global,
    names: &AgentNames,
    master: &Node<'_>,
    others: &[Node<'_>],
) -> Result<Access, NoMemory>
    requires { HaveMaster (has_name names.now) (node_view master.now ∷ map node_view others.now) }
    ensures { IfOk result (λ a. (name : nodes.Node)
        → record { pin = terms.name_of name; master = agent_name names.now a.master; shadows = map (agent_name names.now) a.shadows }
        ≡ shadows.known_of name (node_view master.now ∷ map node_view others.now)) }
{
    let first = agent_in(names, master);
    let copies = agents_in(alloc, names, others)?;
    Ok(Access {
        master: first,
        shadows: copies,
    })
}

/// The master, and then the agents that have copies.
fn access_in(alloc: Global, names: &AgentNames, agents: &[Node<'_>]) -> Result<Access, NoMemory>
    requires { HaveMaster (has_name names.now) (map node_view agents.now) }
    ensures { IfOk result (λ a. (name : nodes.Node)
        → record { pin = terms.name_of name; master = agent_name names.now a.master; shadows = map (agent_name names.now) a.shadows }
        ≡ shadows.known_of name (map node_view agents.now)) }
{
    match agents {
        [master, others @ ..] => access_of(alloc, names, master, others),
        [] => unreachable!(),
    }
}

/// The subordinate reference that the node says. It belongs to no context yet.
fn known_in(alloc: Global, names: &AgentNames, node: &Node<'_>) -> Result<Specific, NoMemory>
    requires { IsKnown (has_name names.now) (node_view node.now) }
    ensures { IfOk result (λ k. told_known names.now k ≡ shadows.known_in (node_view node.now)) }
{
    let [name, agents] = node.parts() else {
        unreachable!()
    };
    Ok(Specific {
        access: access_in(alloc, names, agents.parts())?,
        pin: name_of(alloc, name)?,
        context: Name::root(alloc),
    })
}

fn all_known_in(
    alloc: Global,
    names: &AgentNames,
    nodes: &[Node<'_>],
) -> Result<SpecificList, NoMemory>
    requires { All (λ n. IsKnown (has_name names.now) (node_view n)) nodes.now }
    ensures { IfOk result (λ l. map (told_known names.now) l ≡ map shadows.known_in (map node_view nodes.now)) }
{
    let mut known = SpecificList::new(alloc);
    for node in nodes {
        known.push(known_in(alloc, names, node)?)?;
    }
    Ok(known)
}

/// The non-specific subordinate reference that the node says. It belongs to no context yet.
fn other_in(alloc: Global, names: &AgentNames, node: &Node<'_>) -> Result<Nssr, NoMemory>
    requires { IsNonSpecific (has_name names.now) (node_view node.now) }
    ensures { IfOk result (λ n. told_other names.now n ≡ shadows.non_specific_in (node_view node.now)) }
{
    let [name, agents] = node.parts() else {
        unreachable!()
    };
    Ok(Nssr {
        agents: agents_in(alloc, names, agents.parts())?,
        at: name_of(alloc, name)?,
        context: Name::root(alloc),
    })
}

fn others_in(alloc: Global, names: &AgentNames, nodes: &[Node<'_>]) -> Result<NssrList, NoMemory>
    requires { All (λ n. IsNonSpecific (has_name names.now) (node_view n)) nodes.now }
    ensures { IfOk result (λ l. map (told_other names.now) l ≡ map shadows.non_specific_in (map node_view nodes.now)) }
{
    let mut others = NssrList::new(alloc);
    for node in nodes {
        others.push(other_in(alloc, names, node)?)?;
    }
    Ok(others)
}

/// The change of a name that the node says.
fn renamed_in(alloc: Global, node: &Node<'_>) -> Result<Step, NoMemory>
    requires { IsRenamed (node_view node.now) }
    ensures { IfOk result (λ s. told_step s ≡ shadows.renamed_in (node_view node.now)) }
{
    match node.parts() {
        [name, entry] => Ok(Step::Rename(name_of(alloc, name)?, entry_in(alloc, entry)?)),
        _ => unreachable!(),
    }
}

/// The change that the node says.
fn step_in(alloc: Global, node: &Node<'_>) -> Result<Step, NoMemory>
    requires { IsStep (node_view node.now) }
    ensures { IfOk result (λ s. told_step s ≡ shadows.step_in (node_view node.now)) }
{
    let Node::Chosen(tag, inner) = node else {
        unreachable!()
    };
    match *tag {
        0 => Ok(Step::Add(entry_in(alloc, inner)?)),
        1 => Ok(Step::Remove(name_of(alloc, inner)?)),
        2 => Ok(Step::Modify(entry_in(alloc, inner)?)),
        _ => renamed_in(alloc, inner),
    }
}

fn steps_in(alloc: Global, nodes: &[Node<'_>]) -> Result<StepList, NoMemory>
    requires { All (λ n. IsStep (node_view n)) nodes.now }
    ensures { IfOk result (λ l. map told_step l ≡ map shadows.step_in (map node_view nodes.now)) }
{
    let mut steps = StepList::new(alloc);
    for node in nodes {
        steps.push(step_in(alloc, node)?)?;
    }
    Ok(steps)
}

/// The whole content of a context that the node says.
fn total_in(alloc: Global, names: &AgentNames, node: &Node<'_>) -> Result<Refresh, NoMemory>
    requires { IsTotal (has_name names.now) (node_view node.now) }
    ensures { IfOk result (λ r. told_refresh names.now r ≡ shadows.total_in (node_view node.now)) }
{
    let [entries, known, others] = node.parts() else {
        unreachable!()
    };
    let entries = entries_in(alloc, entries.parts())?;
    let specific = all_known_in(alloc, names, known.parts())?;
    let nssr = others_in(alloc, names, others.parts())?;
    Ok(Refresh::Total(Content {
        entries,
        specific,
        nssr,
    }))
}

/// The changes that the members of the node say.
fn changes_in(alloc: Global, node: &Node<'_>) -> Result<Refresh, NoMemory>
    requires { All IsStep (nodes.parts (node_view node.now)) }
    ensures { IfOk result (λ r. (names : List (List ℕ)) → told_refresh names r ≡ shadows.Steps (map shadows.step_in (nodes.parts (node_view node.now)))) }
{
    Ok(Refresh::Steps(steps_in(alloc, node.parts())?))
}

/// What the refresh that the node says brings.
pub(crate) fn refresh_in(
    alloc: Global,
    names: &AgentNames,
    node: &Node<'_>,
) -> Result<Refresh, NoMemory>
    requires { IsRefresh (has_name names.now) (node_view node.now) }
    ensures { IfOk result (λ r. told_refresh names.now r ≡ shadows.refresh_in (node_view node.now)) }
{
    match node {
        Node::Chosen(tag, inner) => match *tag {
            0 => total_in(alloc, names, inner),
            _ => changes_in(alloc, inner),
        },
        _ => Ok(Refresh::Nothing),
    }
}
