//! References, trace items and sources (X.518, section 10) that values of types of messages say, with agents by their names.
ghost use Rattle.std.specs.Prelude.{◌≡◌, IfOk, All, map};
ghost use Rattle.x5_dapber.specs.Sayable.{IsCount};
ghost use Rattle.x5_dapreply.specs.ReplyViews.{told_access, told_item, told_reference, told_source};
ghost use Rattle.x5_dapreply.specs.Sayable.{IsAccess, IsItem, IsProgress, IsReference, IsSmall, IsSource};
ghost use Rattle.x5_model_messages.specs.Replies as replies;
ghost use Rattle.x5_model_messages.specs.Terms as terms;
ghost use Rattle.x5_model_typed.specs.Rules as rules;
ghost use Rattle.x5_ops.specs.ReferenceViews.{kind_view, progress_view};
ghost use Rattle.x5_types.specs.NodeView.{node_view};

use std::alloc::Global;
use x5_dapber::read_parts::{code_in, count_in, flag_in, rdn_of};
use x5_memory::NoMemory;
use x5_ops::{
    AccessList, AccessPoint, AgentName, Moment, Progress, RdnList, RefType, Reference,
    ReferenceList, Source, SourceList, TraceItem,
};
use x5_rules::{name_of, text_in};
use x5_types::Node;

/// The number of one octet that the node says, or else 0.
pub fn small_in(node: &Node<'_>) -> u8
    requires { IsSmall (node_view node.now) }
    ensures { result ≡ replies.or_zero (terms.number_in (node_view node.now)) }
{
    match node {
        Node::Number(number) => u8::try_from(*number).unwrap_or(0),
        _ => 0,
    }
}

fn agent_in(alloc: Global, node: &Node<'_>) -> Result<AgentName, NoMemory>
    ensures { IfOk result (λ a. a ≡ rules.text_in (node_view node.now)) }
{
    Ok(AgentName::new(text_in(alloc, node)?))
}

/// How far the node says that a name is resolved.
pub fn progress_in(node: &Node<'_>) -> Progress
    requires { IsProgress (node_view node.now) }
    ensures { progress_view result ≡ replies.progress_in (node_view node.now) }
{
    let [phase, next] = node.parts() else {
        unreachable!()
    };
    match code_in(phase) {
        1 => Progress::NotStarted,
        2 => Progress::Proceeding(small_in(next)),
        _ => Progress::Completed,
    }
}

/// The kind of reference that the node says.
pub fn kind_in(node: &Node<'_>) -> RefType
    requires { IsCount (node_view node.now) }
    ensures { kind_view result ≡ replies.kind_in (node_view node.now) }
{
    match code_in(node) {
        1 => RefType::Superior,
        2 => RefType::Subordinate,
        3 => RefType::Cross,
        4 => RefType::NonSpecific,
        5 => RefType::Supplier,
        _ => RefType::Own,
    }
}

fn access_in(alloc: Global, node: &Node<'_>) -> Result<AccessPoint, NoMemory>
    requires { IsAccess (node_view node.now) }
    ensures { IfOk result (λ a. told_access a ≡ replies.access_in (node_view node.now)) }
{
    let [agent, copy] = node.parts() else {
        unreachable!()
    };
    Ok(AccessPoint {
        agent: agent_in(alloc, agent)?,
        copy: flag_in(copy),
    })
}

fn accesses_in(alloc: Global, nodes: &[Node<'_>]) -> Result<AccessList, NoMemory>
    requires { All (λ n. IsAccess (node_view n)) nodes.now }
    ensures { IfOk result (λ l. map told_access l ≡ map replies.access_in (map node_view nodes.now)) }
{
    let mut agents = AccessList::new(alloc);
    for node in nodes {
        agents.push(access_in(alloc, node)?)?;
    }
    Ok(agents)
}

/// The RDNs that the nodes say.
pub fn rdns_in(alloc: Global, nodes: &[Node<'_>]) -> Result<RdnList, NoMemory>
    ensures { IfOk result (λ l. l ≡ map terms.rdn_of (map node_view nodes.now)) }
{
    let mut rdns = RdnList::new(alloc);
    for node in nodes {
        rdns.push(rdn_of(alloc, node)?)?;
    }
    Ok(rdns)
}

/// The continuation reference that the node says.
pub(crate) fn reference_in(alloc: Global, node: &Node<'_>) -> Result<Reference, NoMemory>
    requires { IsReference (node_view node.now) }
    ensures { IfOk result (λ r. told_reference r ≡ replies.reference_in (node_view node.now)) }
{
    let [target, progress, kind, agents, exclusions, tried] = node.parts() else {
        unreachable!()
    };
    Ok(Reference {
        target: name_of(alloc, target)?,
        progress: progress_in(progress),
        kind: kind_in(kind),
        agents: accesses_in(alloc, agents.parts())?,
        exclusions: rdns_in(alloc, exclusions.parts())?,
        tried: flag_in(tried),
    })
}

/// The references that the nodes say.
pub(crate) fn references_in(alloc: Global, nodes: &[Node<'_>]) -> Result<ReferenceList, NoMemory>
    requires { All (λ n. IsReference (node_view n)) nodes.now }
    ensures { IfOk result (λ l. map told_reference l ≡ map replies.reference_in (map node_view nodes.now)) }
{
    let mut references = ReferenceList::new(alloc);
    for node in nodes {
        references.push(reference_in(alloc, node)?)?;
    }
    Ok(references)
}

/// The item of trace information that the node says.
pub fn item_in(alloc: Global, node: &Node<'_>) -> Result<TraceItem, NoMemory>
    requires { IsItem (node_view node.now) }
    ensures { IfOk result (λ i. told_item i ≡ replies.item_in (node_view node.now)) }
{
    let [agent, target, progress, wide] = node.parts() else {
        unreachable!()
    };
    Ok(TraceItem {
        agent: agent_in(alloc, agent)?,
        target: name_of(alloc, target)?,
        progress: progress_in(progress),
        wide: flag_in(wide),
    })
}

/// The moment that the node says, if it says one.
pub fn moment_in(node: &Node<'_>) -> Option<Moment>
    requires { IsCount (node_view node.now) }
    ensures { result ≡ terms.number_in (node_view node.now) }
{
    match count_in(node) {
        None => None,
        Some(seconds) => Some(Moment(seconds)),
    }
}

/// The source that the node says.
pub(crate) fn source_in(alloc: Global, node: &Node<'_>) -> Result<Source, NoMemory>
    requires { IsSource (node_view node.now) }
    ensures { IfOk result (λ s. told_source s ≡ replies.source_in (node_view node.now)) }
{
    let [context, agent, moment] = node.parts() else {
        unreachable!()
    };
    Ok(Source {
        context: name_of(alloc, context)?,
        agent: agent_in(alloc, agent)?,
        moment: moment_in(moment),
    })
}

/// The sources that the nodes say.
pub(crate) fn sources_in(alloc: Global, nodes: &[Node<'_>]) -> Result<SourceList, NoMemory>
    requires { All (λ n. IsSource (node_view n)) nodes.now }
    ensures { IfOk result (λ l. map told_source l ≡ map replies.source_in (map node_view nodes.now)) }
{
    let mut sources = SourceList::new(alloc);
    for node in nodes {
        sources.push(source_in(alloc, node)?)?;
    }
    Ok(sources)
}
