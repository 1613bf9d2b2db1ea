//! Results and errors (X.511, sections 7.7, 9, 10 and 12) as values of types of messages.
ghost use Rattle.std.specs.Prelude.{◌≡◌, [], ◌∷◌, IfOk, map, not};
ghost use Rattle.std.specs.Option.{option_map};
ghost use Rattle.x5_dapreply.specs.ReplyViews.{told_answer, told_error, told_item, told_outcome, told_reference, told_reply, told_source};
ghost use Rattle.x5_model_messages.specs.Replies as replies;
ghost use Rattle.x5_model_messages.specs.Terms.{node_of};
ghost use Rattle.x5_model_typed.specs.Nodes as nodes;
ghost use Rattle.x5_ops.specs.AnswerViews.{info_view, shown_view, sub_view};
ghost use Rattle.x5_types.specs.NodeView.{node_view};

use crate::references::{item_node, reference_node, references_node, source_node, sources_node};
use std::alloc::Global;
use x5_dapber::names::{name_node, rdn_node, type_node};
use x5_dapber::parts::{chosen, many, number, one, three, two};
use x5_dapber::values::values_node;
use x5_memory::NoMemory;
use x5_ops::{
    Answer, Attribute, DirError, EntryInfo, Outcome, Reference, Reply, Source, Sub, TraceItem,
};
use x5_types::Node;

fn shown_node<'a>(alloc: Global, attribute: &'a Attribute) -> Result<Node<'a>, NoMemory>
    ensures { IfOk result (λ n. node_view n ≡ replies.shown_node (shown_view attribute.now)) }
{
    let kind = type_node(alloc, &attribute.kind)?;
    let values = values_node(alloc, attribute.values.as_slice())?;
    two(alloc, kind, values)
}

fn all_shown_node<'a>(alloc: Global, attributes: &'a [Attribute]) -> Result<Node<'a>, NoMemory>
    ensures { IfOk result (λ n. node_view n ≡ node_of (map replies.shown_node (map shown_view attributes.now))) }
{
    let mut nodes = Vec::with_capacity(alloc, attributes.len())?;
    for attribute in attributes {
        nodes.push(shown_node(alloc, attribute)?)?;
    }
    Ok(many(nodes))
}

/// What is shown of an entry (X.511, section 7.7); `fromEntry` where it doesn't come from a shadow.
fn info_node<'a>(alloc: Global, info: &'a EntryInfo) -> Result<Node<'a>, NoMemory>
    ensures { IfOk result (λ n. node_view n ≡ replies.info_node (info_view info.now)) }
{
    let name = name_node(alloc, &info.name)?;
    let attributes = all_shown_node(alloc, info.attributes.as_slice())?;
    three(alloc, name, Node::Flag(!info.copy), attributes)
}

fn infos_node<'a>(alloc: Global, infos: &'a [EntryInfo]) -> Result<Node<'a>, NoMemory>
    ensures { IfOk result (λ n. node_view n ≡ node_of (map replies.info_node (map info_view infos.now))) }
{
    let mut nodes = Vec::with_capacity(alloc, infos.len())?;
    for info in infos {
        nodes.push(info_node(alloc, info)?)?;
    }
    Ok(many(nodes))
}

fn sub_node<'a>(alloc: Global, sub: &'a Sub) -> Result<Node<'a>, NoMemory>
    ensures { IfOk result (λ n. node_view n ≡ replies.sub_node (sub_view sub.now)) }
{
    two(alloc, rdn_node(alloc, &sub.rdn)?, Node::Flag(!sub.copy))
}

fn subs_node<'a>(alloc: Global, subs: &'a [Sub]) -> Result<Node<'a>, NoMemory>
    ensures { IfOk result (λ n. node_view n ≡ node_of (map replies.sub_node (map sub_view subs.now))) }
{
    let mut nodes = Vec::with_capacity(alloc, subs.len())?;
    for sub in subs {
        nodes.push(sub_node(alloc, sub)?)?;
    }
    Ok(many(nodes))
}

fn limit_node<'a>(limited: bool) -> Node<'a>
    ensures { node_view result ≡ replies.limit_node limited }
{
    if limited { number(1) } else { Node::Vacant }
}

/// The partial outcome of a list or search (X.511, section 10.1.3).
pub(crate) fn outcome_node<'a>(alloc: Global, outcome: &'a Outcome) -> Result<Node<'a>, NoMemory>
    ensures { IfOk result (λ n. node_view n ≡ replies.outcome_node (told_outcome outcome.now)) }
{
    let unexplored = references_node(alloc, outcome.unexplored.as_slice())?;
    two(alloc, limit_node(outcome.limited), unexplored)
}

/// The result of a read.
fn entry_node<'a>(
    alloc: Global,
    entry: &'a EntryInfo,
    source: &'a Source,
) -> Result<Node<'a>, NoMemory>
    ensures { IfOk result (λ n. node_view n
        ≡ node_of (replies.info_node (info_view entry.now) ∷ replies.source_node (told_source source.now) ∷ [])) }
{
    let mut parts = Vec::with_capacity(alloc, 2)?;
    parts.push(info_node(alloc, entry)?)?;
    parts.push(source_node(alloc, source)?)?;
    Ok(many(parts))
}

/// The result of a list.
fn listed_node<'a>(
    alloc: Global,
    subs: &'a [Sub],
    sources: &'a [Source],
    outcome: &'a Outcome,
) -> Result<Node<'a>, NoMemory>
    ensures { IfOk result (λ n. node_view n
        ≡ node_of (node_of (map replies.sub_node (map sub_view subs.now)) ∷ node_of (map replies.source_node (map told_source sources.now))
        ∷ replies.outcome_node (told_outcome outcome.now) ∷ [])) }
{
    let mut parts = Vec::with_capacity(alloc, 3)?;
    parts.push(subs_node(alloc, subs)?)?;
    parts.push(sources_node(alloc, sources)?)?;
    parts.push(outcome_node(alloc, outcome)?)?;
    Ok(many(parts))
}

/// The result of a search.
fn found_node<'a>(
    alloc: Global,
    entries: &'a [EntryInfo],
    sources: &'a [Source],
    outcome: &'a Outcome,
) -> Result<Node<'a>, NoMemory>
    ensures { IfOk result (λ n. node_view n
        ≡ node_of (node_of (map replies.info_node (map info_view entries.now)) ∷ node_of (map replies.source_node (map told_source sources.now))
        ∷ replies.outcome_node (told_outcome outcome.now) ∷ [])) }
{
    let mut parts = Vec::with_capacity(alloc, 3)?;
    parts.push(infos_node(alloc, entries)?)?;
    parts.push(sources_node(alloc, sources)?)?;
    parts.push(outcome_node(alloc, outcome)?)?;
    Ok(many(parts))
}

/// A result: of a read, a compare, a list, a search, or an update.
pub(crate) fn answer_node<'a>(alloc: Global, answer: &'a Answer) -> Result<Node<'a>, NoMemory>
    ensures { IfOk result (λ n. node_view n ≡ replies.answer_node (told_answer answer.now)) }
{
    match answer {
        Answer::Entry { entry, source } => entry_node(alloc, entry, source),
        Answer::Match {
            matched,
            copy,
            source,
        } => {
            let source = source_node(alloc, source)?;
            three(alloc, Node::Flag(*matched), Node::Flag(!*copy), source)
        }
        Answer::Listed {
            subs,
            sources,
            outcome,
        } => listed_node(alloc, subs.as_slice(), sources.as_slice(), outcome),
        Answer::Found {
            entries,
            sources,
            outcome,
        } => found_node(alloc, entries.as_slice(), sources.as_slice(), outcome),
        Answer::Changed => Ok(Node::Vacant),
    }
}

/// A returned result with its id and the operation's code.
fn result_node<'a>(alloc: Global, id: u32, code: u32, said: Node<'a>) -> Result<Node<'a>, NoMemory>
    ensures { IfOk result (λ n. node_view n ≡ replies.result_node id code (node_view said.entry)) }
{
    let inner = two(alloc, number(code), said)?;
    chosen(alloc, 2, two(alloc, number(id), inner)?)
}

/// A returned error with its id and its code.
fn error_node<'a>(
    alloc: Global,
    id: u32,
    code: u32,
    parameter: Node<'a>,
) -> Result<Node<'a>, NoMemory>
    ensures { IfOk result (λ n. node_view n ≡ replies.error_node id code (node_view parameter.entry)) }
{
    chosen(alloc, 3, three(alloc, number(id), number(code), parameter)?)
}

fn reference_or_vacant<'a>(
    alloc: Global,
    reference: &'a Option<Reference>,
) -> Result<Node<'a>, NoMemory>
    ensures { IfOk result (λ n. node_view n ≡ replies.reference_or_vacant (option_map told_reference reference.now)) }
{
    match reference {
        None => Ok(Node::Vacant),
        Some(reference) => reference_node(alloc, reference),
    }
}

fn item_or_vacant<'a>(alloc: Global, item: &'a Option<TraceItem>) -> Result<Node<'a>, NoMemory>
    ensures { IfOk result (λ n. node_view n ≡ replies.item_or_vacant (option_map told_item item.now)) }
{
    match item {
        None => Ok(Node::Vacant),
        Some(item) => item_node(alloc, item),
    }
}

/// A service error with the id of the request.
fn service_node<'a>(
    alloc: Global,
    id: u32,
    problem: u8,
    reference: &'a Option<Reference>,
    item: &'a Option<TraceItem>,
) -> Result<Node<'a>, NoMemory>
    ensures { IfOk result (λ n. node_view n
        ≡ replies.error_node id 3 (node_of (nodes.whole problem ∷ replies.reference_or_vacant (option_map told_reference reference.now)
        ∷ replies.item_or_vacant (option_map told_item item.now) ∷ []))) }
{
    let mut parts = Vec::with_capacity(alloc, 3)?;
    parts.push(number(u32::from(problem)))?;
    parts.push(reference_or_vacant(alloc, reference)?)?;
    parts.push(item_or_vacant(alloc, item)?)?;
    error_node(alloc, id, 3, many(parts))
}

/// An error (X.511, section 12) with the id of the request.
fn failed_node<'a>(
    alloc: Global,
    referral: u32,
    id: u32,
    error: &'a DirError,
) -> Result<Node<'a>, NoMemory>
    ensures { IfOk result (λ n. node_view n ≡ replies.reply_node referral id (told_error error.now)) }
{
    match error {
        DirError::Name { matched } => {
            let name = name_node(alloc, matched)?;
            let parameter = two(alloc, number(1), name)?;
            error_node(alloc, id, 2, parameter)
        }
        DirError::Attribute { problem, kind } => {
            let kind = type_node(alloc, kind)?;
            let parameter = two(alloc, number(u32::from(*problem)), kind)?;
            error_node(alloc, id, 1, parameter)
        }
        DirError::Update { problem } => {
            let parameter = one(alloc, number(u32::from(*problem)))?;
            error_node(alloc, id, 8, parameter)
        }
        DirError::Service {
            problem,
            reference,
            item,
        } => service_node(alloc, id, *problem, reference, item),
    }
}

/// A reply: a result of the operation, an error or a referral, whose code is that of the protocol.
pub fn reply_node<'a>(
    alloc: Global,
    referral: u32,
    id: u32,
    operation: u8,
    reply: &'a Reply,
) -> Result<Node<'a>, NoMemory>
    ensures { IfOk result (λ n. node_view n ≡ replies.reply_node referral id (told_reply operation reply.now)) }
{
    match reply {
        Reply::Done(answer) => {
            let answer = answer_node(alloc, answer)?;
            result_node(alloc, id, u32::from(operation), answer)
        }
        Reply::Failed(error) => failed_node(alloc, referral, id, error),
        Reply::Refer(reference) => {
            let parameter = reference_node(alloc, reference)?;
            error_node(alloc, id, referral, parameter)
        }
    }
}
