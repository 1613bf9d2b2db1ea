//! References to agents of the world (X.525, section 10), read straight from octets where they're spelled as usual: each agent of a
//! Known with its mark where it has a copy, and without where it's the master.
ghost use Rattle.std.specs.Prelude.{◌≡◌, ◌<◌, ◌≤◌, ◌%◌, ◌∷◌, IfOk, drop, false, length, map, true};
ghost use Rattle.x5_direct.specs.Here.{EachHere, ReadEachHere, ReadsHere, SpelledHere};
ghost use Rattle.x5_dispber.specs.Direct.{IsMark, LeafAt, world_agent};
ghost use Rattle.x5_dispber.specs.ShadowViews.{agent_name, told_known, told_other};
ghost use Rattle.x5_model_messages.specs.Shadows as shadows;
ghost use Rattle.x5_model_typed.specs.Named as named;
ghost use Rattle.x5_model_typed.specs.Nodes as nodes;
ghost use Rattle.x5_types.specs.FormView.{around, leaf_view, world};
ghost use Rattle.x5_types.specs.NodeView.{node_view};

use crate::read_refreshes::{agent_named, text_of};
use std::alloc::Global;
use x5_direct::Unread;
use x5_direct::element::opened;
use x5_direct::names::name_at;
use x5_know::{AgentNames, Start};
use x5_names::Name;
use x5_ops::{Access, AgentId, AgentList, Nssr, NssrList, Specific, SpecificList};
use x5_types::{Bytes, Leaf, Letters, Node, Surroundings, read_leaf};

/// What the primitive element says with which the octets begin, and how many octets it takes.
pub(crate) fn leaf_at<'a>(
    alloc: Global,
    surroundings: Surroundings<'_>,
    first: u8,
    leaf: Leaf,
    octets: &'a [u8],
) -> Result<(Node<'a>, usize), Unread>
    requires { first % 32 < 31 }
    ensures says { IfOk result (λ r. LeafAt (leaf_view (around surroundings.entry) leaf) first (node_view r.0) octets.now (drop r.1 octets.now)) }
    ensures some { IfOk result (λ r. (0 < r.1) × (r.1 ≤ length octets.now)) }
{
    let (content, rest) = opened(first, octets)?;
    let taken = octets.len() - rest.len();
    match read_leaf(alloc, surroundings, leaf, Bytes::Lent(content))? {
        Some(node) => Ok((node, taken)),
        None => Err(Unread::Unusual),
    }
}

/// The agent of the world whose name the octets begin with, and how many octets that takes.
fn agent_name_at(
    alloc: Global,
    start: &Start,
    names: &AgentNames,
    octets: &[u8],
) -> Result<(AgentId, usize), Unread>
    ensures says { IfOk result (λ r. LeafAt (world_agent (world start.now names.now)) 19 (nodes.Text (agent_name names.now r.0)) octets.now (drop r.1 octets.now)) }
    ensures some { IfOk result (λ r. (0 < r.1) × (r.1 ≤ length octets.now)) }
{
    let surroundings = Surroundings::World(start, names);
    let (node, taken) = leaf_at(
        alloc,
        surroundings,
        0x13,
        Leaf::Text(Letters::WorldAgent),
        octets,
    )?;
    Ok((agent_named(names, text_of(&node)), taken))
}

/// Whether the octets are the mark that an agent has a copy, or nothing where it's a master.
fn is_mark(copy: bool, octets: &[u8]) -> bool
    ensures { result ≡ true → IsMark copy octets.now }
{
    if copy {
        octets == [1u8, 1, 0xff].as_slice()
    } else {
        octets.is_empty()
    }
}

/// The agent that the octets begin with, which has a copy or is a master, and how many octets it takes.
fn agent_at(
    alloc: Global,
    start: &Start,
    names: &AgentNames,
    copy: bool,
    octets: &[u8],
) -> Result<(AgentId, usize), Unread>
    ensures reads { IfOk result (λ r. SpelledHere (world start.now names.now) 1 named.WorldAgent (shadows.agent_node copy (agent_name names.now r.0)) octets.now (drop r.1 octets.now)) }
    ensures some { IfOk result (λ r. (0 < r.1) × (r.1 ≤ length octets.now)) }
{
    let (content, rest) = opened(0x30, octets)?;
    let taken = octets.len() - rest.len();
    let (agent, size) = agent_name_at(alloc, start, names, content)?;
    if !is_mark(copy, &content[size..]) {
        return Err(Unread::Unusual);
    }
    Ok((agent, taken))
}

/// The agents that are all of the octets, each with a copy or each a master.
fn all_agents_at(
    alloc: Global,
    start: &Start,
    names: &AgentNames,
    copy: bool,
    octets: &[u8],
) -> Result<AgentList, Unread>
    ensures { IfOk result (λ l. EachHere (world start.now names.now) 1 named.WorldAgent (map (shadows.agent_node copy) (map (agent_name names.now) l)) octets.now) }
{
    let mut agents = Vec::new(alloc);
    let mut left = octets;
    while !left.is_empty() {
        let (agent, taken) = agent_at(alloc, start, names, copy, left)?;
        agents.push(agent)?;
        left = &left[taken..];
    }
    Ok(AgentList::from_vec(agents))
}

/// The master, and then the agents that have copies, that are all of the octets.
fn access_at(
    alloc: Global,
    start: &Start,
    names: &AgentNames,
    octets: &[u8],
) -> Result<Access, Unread>
    ensures { IfOk result (λ a. EachHere (world start.now names.now) 1 named.WorldAgent
        (shadows.agent_node false (agent_name names.now a.master) ∷ map (shadows.agent_node true) (map (agent_name names.now) a.shadows)) octets.now) }
{
    let (master, size) = agent_at(alloc, start, names, false, octets)?;
    let shadows = all_agents_at(alloc, start, names, true, &octets[size..])?;
    Ok(Access { master, shadows })
}

/// The subordinate reference that the octets begin with, which belongs to no context yet, and how many octets it takes.
fn known_at(
    alloc: Global,
    start: &Start,
    names: &AgentNames,
    octets: &[u8],
) -> Result<(Specific, usize), Unread>
    ensures reads { IfOk result (λ r. ReadsHere (world start.now names.now) 4 named.Known shadows.known_in (told_known names.now r.0) octets.now (drop r.1 octets.now)) }
    ensures some { IfOk result (λ r. (0 < r.1) × (r.1 ≤ length octets.now)) }
{
    let (content, rest) = opened(0x30, octets)?;
    let taken = octets.len() - rest.len();
    let (pin, size) = name_at(alloc, content)?;
    let (members, end) = opened(0x30, &content[size..])?;
    if !end.is_empty() {
        return Err(Unread::Unusual);
    }
    let access = access_at(alloc, start, names, members)?;
    let known = Specific {
        context: Name::root(alloc),
        pin,
        access,
    };
    Ok((known, taken))
}

/// The subordinate references that are all of the octets.
pub(crate) fn all_known_at(
    alloc: Global,
    start: &Start,
    names: &AgentNames,
    octets: &[u8],
) -> Result<SpecificList, Unread>
    ensures { IfOk result (λ l. ReadEachHere (world start.now names.now) 4 named.Known shadows.known_in (map (told_known names.now) l) octets.now) }
{
    let mut known = Vec::new(alloc);
    let mut left = octets;
    while !left.is_empty() {
        let (one, taken) = known_at(alloc, start, names, left)?;
        known.push(one)?;
        left = &left[taken..];
    }
    Ok(SpecificList::from_vec(known))
}

/// The non-specific subordinate reference that the octets begin with, which belongs to no context yet, and how many octets it takes.
fn other_at(
    alloc: Global,
    start: &Start,
    names: &AgentNames,
    octets: &[u8],
) -> Result<(Nssr, usize), Unread>
    ensures reads { IfOk result (λ r. ReadsHere (world start.now names.now) 4 named.NonSpecific shadows.non_specific_in (told_other names.now r.0) octets.now (drop r.1 octets.now)) }
    ensures some { IfOk result (λ r. (0 < r.1) × (r.1 ≤ length octets.now)) }
{
    let (content, rest) = opened(0x30, octets)?;
    let taken = octets.len() - rest.len();
    let (at, size) = name_at(alloc, content)?;
    let (members, end) = opened(0x30, &content[size..])?;
    if !end.is_empty() {
        return Err(Unread::Unusual);
    }
    let agents = all_agents_at(alloc, start, names, false, members)?;
    let other = Nssr {
        context: Name::root(alloc),
        at,
        agents,
    };
    Ok((other, taken))
}

/// The non-specific subordinate references that are all of the octets.
pub(crate) fn all_others_at(
    alloc: Global,
    start: &Start,
    names: &AgentNames,
    octets: &[u8],
) -> Result<NssrList, Unread>
    ensures { IfOk result (λ l. ReadEachHere (world start.now names.now) 4 named.NonSpecific shadows.non_specific_in (map (told_other names.now) l) octets.now) }
{
    let mut others = Vec::new(alloc);
    let mut left = octets;
    while !left.is_empty() {
        let (other, taken) = other_at(alloc, start, names, left)?;
        others.push(other)?;
        left = &left[taken..];
    }
    Ok(NssrList::from_vec(others))
}
