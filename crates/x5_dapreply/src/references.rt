//! References, trace items and sources (X.518, section 10) as values of types of messages, with agents by their names.
ghost use Rattle.std.specs.Prelude.{◌≡◌, IfOk, map};
ghost use Rattle.x5_dapreply.specs.ReplyViews.{told_access, told_item, told_reference, told_source};
ghost use Rattle.x5_model_messages.specs.Replies as replies;
ghost use Rattle.x5_model_messages.specs.Terms.{node_of, rdn_node as rdn_node_of};
ghost use Rattle.x5_model_typed.specs.Nodes as nodes;
ghost use Rattle.x5_ops.specs.ReferenceViews.{progress_view};
ghost use Rattle.x5_types.specs.NodeView.{node_view};

use std::alloc::Global;
use x5_dapber::names::{name_node, rdn_node};
use x5_dapber::parts::{many, number, three, two};
use x5_memory::NoMemory;
use x5_names::Rdn;
use x5_ops::{AccessPoint, AgentName, Moment, Progress, Reference, Source, TraceItem};
use x5_types::{Characters, Node};

fn agent_node<'a>(agent: &'a AgentName) -> Node<'a>
    ensures { node_view result ≡ nodes.Text agent.now }
{
    Node::Text(Characters::Lent(agent.as_str()))
}

/// How far a name is resolved (X.518, section 10.5).
pub fn progress_node<'a>(alloc: Global, progress: Progress) -> Result<Node<'a>, NoMemory>
    ensures { IfOk result (λ n. node_view n ≡ replies.progress_node (progress_view progress)) }
{
    match progress {
        Progress::NotStarted => two(alloc, number(1), Node::Vacant),
        Progress::Proceeding(next) => two(alloc, number(2), number(u32::from(next))),
        Progress::Completed => two(alloc, number(3), Node::Vacant),
    }
}

fn access_node<'a>(alloc: Global, access: &'a AccessPoint) -> Result<Node<'a>, NoMemory>
    ensures { IfOk result (λ n. node_view n ≡ replies.access_node (told_access access.now)) }
{
    two(alloc, agent_node(&access.agent), Node::Flag(access.copy))
}

fn accesses_node<'a>(alloc: Global, agents: &'a [AccessPoint]) -> Result<Node<'a>, NoMemory>
    ensures { IfOk result (λ n. node_view n ≡ node_of (map replies.access_node (map told_access agents.now))) }
{
    let mut nodes = Vec::with_capacity(alloc, agents.len())?;
    for access in agents {
        nodes.push(access_node(alloc, access)?)?;
    }
    Ok(many(nodes))
}

/// RDNs: a SEQUENCE OF them.
pub fn rdns_node<'a>(alloc: Global, rdns: &'a [Rdn]) -> Result<Node<'a>, NoMemory>
    ensures { IfOk result (λ n. node_view n ≡ node_of (map rdn_node_of rdns.now)) }
{
    let mut nodes = Vec::with_capacity(alloc, rdns.len())?;
    for rdn in rdns {
        nodes.push(rdn_node(alloc, rdn)?)?;
    }
    Ok(many(nodes))
}

/// A continuation reference (X.518, section 10.10).
pub(crate) fn reference_node<'a>(
    alloc: Global,
    reference: &'a Reference,
) -> Result<Node<'a>, NoMemory>
    ensures { IfOk result (λ n. node_view n ≡ replies.reference_node (told_reference reference.now)) }
{
    let mut parts = Vec::new(alloc);
    parts.push(name_node(alloc, &reference.target)?)?;
    parts.push(progress_node(alloc, reference.progress)?)?;
    parts.push(number(u32::from(reference.kind.number())))?;
    parts.push(accesses_node(alloc, reference.agents.as_slice())?)?;
    parts.push(rdns_node(alloc, reference.exclusions.as_slice())?)?;
    parts.push(Node::Flag(reference.tried))?;
    Ok(many(parts))
}

/// References: a SEQUENCE OF them.
pub(crate) fn references_node<'a>(
    alloc: Global,
    references: &'a [Reference],
) -> Result<Node<'a>, NoMemory>
    ensures { IfOk result (λ n. node_view n ≡ node_of (map replies.reference_node (map told_reference references.now))) }
{
    let mut nodes = Vec::with_capacity(alloc, references.len())?;
    for reference in references {
        nodes.push(reference_node(alloc, reference)?)?;
    }
    Ok(many(nodes))
}

/// An item of trace information (X.518, section 10.6).
pub fn item_node<'a>(alloc: Global, item: &'a TraceItem) -> Result<Node<'a>, NoMemory>
    ensures { IfOk result (λ n. node_view n ≡ replies.item_node (told_item item.now)) }
{
    let mut parts = Vec::with_capacity(alloc, 4)?;
    parts.push(agent_node(&item.agent))?;
    parts.push(name_node(alloc, &item.target)?)?;
    parts.push(progress_node(alloc, item.progress)?)?;
    parts.push(Node::Flag(item.wide))?;
    Ok(many(parts))
}

fn moment_node<'a>(moment: Option<Moment>) -> Node<'a>
    ensures { node_view result ≡ replies.number_or_vacant moment }
{
    match moment {
        None => Node::Vacant,
        Some(Moment(seconds)) => number(seconds),
    }
}

/// A naming context that an answer was computed from.
pub(crate) fn source_node<'a>(alloc: Global, source: &'a Source) -> Result<Node<'a>, NoMemory>
    ensures { IfOk result (λ n. node_view n ≡ replies.source_node (told_source source.now)) }
{
    let context = name_node(alloc, &source.context)?;
    three(
        alloc,
        context,
        agent_node(&source.agent),
        moment_node(source.moment),
    )
}

/// Sources: a SEQUENCE OF them.
pub(crate) fn sources_node<'a>(alloc: Global, sources: &'a [Source]) -> Result<Node<'a>, NoMemory>
    ensures { IfOk result (λ n. node_view n ≡ node_of (map replies.source_node (map told_source sources.now))) }
{
    let mut nodes = Vec::with_capacity(alloc, sources.len())?;
    for source in sources {
        nodes.push(source_node(alloc, source)?)?;
    }
    Ok(many(nodes))
}
