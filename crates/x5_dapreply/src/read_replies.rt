//! Results and errors (X.511, sections 7.7, 9, 10 and 12) that values of types of messages say.
ghost use Rattle.std.specs.Prelude.{◌≡◌, ℕ, IfOk, All, map, not};
ghost use Rattle.std.specs.Option.{option_map};
ghost use Rattle.x5_dapber.specs.Sayable.{IsAttribute, IsType};
ghost use Rattle.x5_dapreply.specs.ReplyViews.{heard, heard_in, told_answer, told_item, told_outcome, told_reference, result_said};
ghost use Rattle.x5_dapreply.specs.Sayable as sayable;
ghost use Rattle.x5_model_messages.specs.Replies as replies;
ghost use Rattle.x5_model_messages.specs.Terms as terms;
ghost use Rattle.x5_model_typed.specs.Nodes.{parts};
ghost use Rattle.x5_ops.specs.AnswerViews.{info_view, shown_view, sub_view};
ghost use Rattle.x5_types.specs.NodeView.{node_view};

use crate::read_references::{
    item_in, reference_in, references_in, small_in, source_in, sources_in,
};
use std::alloc::Global;
use x5_dapber::read_parts::{code_in, count_in, flag_in, is_vacant, rdn_of};
use x5_dapber::read_values::{type_in, values_in};
use x5_memory::NoMemory;
use x5_ops::{
    Answer, Attribute, AttributeList, DirError, EntryInfo, EntryList, Listed, Outcome, Reference,
    Reply, Sub, SubList, TraceItem,
};
use x5_rules::name_of;
use x5_types::Node;

fn shown_in(alloc: Global, node: &Node<'_>) -> Result<Attribute, NoMemory>
    requires { IsAttribute (node_view node.now) }
    ensures { IfOk result (λ a. shown_view a ≡ replies.shown_in (node_view node.now)) }
{
    let [kind, values] = node.parts() else {
        unreachable!()
    };
    let kind = type_in(alloc, kind)?;
    let values = values_in(alloc, values.parts())?;
    Ok(Attribute {
        kind,
        values: Listed::from_vec(values),
    })
}

fn all_shown_in(alloc: Global, nodes: &[Node<'_>]) -> Result<AttributeList, NoMemory>
    requires { All (λ n. IsAttribute (node_view n)) nodes.now }
    ensures { IfOk result (λ l. map shown_view l ≡ map replies.shown_in (map node_view nodes.now)) }
{
    let mut attributes = Vec::with_capacity(alloc, nodes.len())?;
    for node in nodes {
        attributes.push(shown_in(alloc, node)?)?;
    }
    Ok(AttributeList::from_vec(attributes))
}

/// What the node shows of an entry.
fn info_in(alloc: Global, node: &Node<'_>) -> Result<EntryInfo, NoMemory>
    requires { sayable.IsInfo (node_view node.now) }
    ensures { IfOk result (λ e. info_view e ≡ replies.info_in (node_view node.now)) }
{
    let [name, from_entry, attributes] = node.parts() else {
        unreachable!()
    };
    Ok(EntryInfo {
        name: name_of(alloc, name)?,
        copy: !flag_in(from_entry),
        attributes: all_shown_in(alloc, attributes.parts())?,
    })
}

fn infos_in(alloc: Global, nodes: &[Node<'_>]) -> Result<EntryList, NoMemory>
    requires { All (λ n. sayable.IsInfo (node_view n)) nodes.now }
    ensures { IfOk result (λ l. map info_view l ≡ map replies.info_in (map node_view nodes.now)) }
{
    let mut entries = Vec::with_capacity(alloc, nodes.len())?;
    for node in nodes {
        entries.push(info_in(alloc, node)?)?;
    }
    Ok(EntryList::from_vec(entries))
}

fn sub_in(alloc: Global, node: &Node<'_>) -> Result<Sub, NoMemory>
    requires { sayable.IsSub (node_view node.now) }
    ensures { IfOk result (λ s. sub_view s ≡ replies.sub_in (node_view node.now)) }
{
    let [rdn, from_entry] = node.parts() else {
        unreachable!()
    };
    Ok(Sub {
        rdn: rdn_of(alloc, rdn)?,
        copy: !flag_in(from_entry),
    })
}

fn subs_in(alloc: Global, nodes: &[Node<'_>]) -> Result<SubList, NoMemory>
    requires { All (λ n. sayable.IsSub (node_view n)) nodes.now }
    ensures { IfOk result (λ l. map sub_view l ≡ map replies.sub_in (map node_view nodes.now)) }
{
    let mut subs = Vec::with_capacity(alloc, nodes.len())?;
    for node in nodes {
        subs.push(sub_in(alloc, node)?)?;
    }
    Ok(SubList::from_vec(subs))
}

/// The partial outcome of a list or search that the node says.
fn outcome_in(alloc: Global, node: &Node<'_>) -> Result<Outcome, NoMemory>
    requires { sayable.IsOutcome (node_view node.now) }
    ensures { IfOk result (λ o. told_outcome o ≡ replies.outcome_in (node_view node.now)) }
{
    let [limit, unexplored] = node.parts() else {
        unreachable!()
    };
    Ok(Outcome {
        limited: count_in(limit).is_some(),
        unexplored: references_in(alloc, unexplored.parts())?,
    })
}

/// What a read found.
fn entry_in(alloc: Global, entry: &Node<'_>, source: &Node<'_>) -> Result<Answer, NoMemory>
    requires { sayable.IsInfo (node_view entry.now) × sayable.IsSource (node_view source.now) }
    ensures { IfOk result (λ a. told_answer a ≡ replies.Entry (replies.info_in (node_view entry.now)) (replies.source_in (node_view source.now))) }
{
    Ok(Answer::Entry {
        entry: info_in(alloc, entry)?,
        source: source_in(alloc, source)?,
    })
}

/// What a compare found.
fn matched_in(
    alloc: Global,
    matched: &Node<'_>,
    from_entry: &Node<'_>,
    source: &Node<'_>,
) -> Result<Answer, NoMemory>
    requires { sayable.IsSource (node_view source.now) }
    ensures { IfOk result (λ a. told_answer a ≡ replies.Match (terms.flag_in (node_view matched.now)) (not (terms.flag_in (node_view from_entry.now)))
        (replies.source_in (node_view source.now))) }
{
    Ok(Answer::Match {
        matched: flag_in(matched),
        copy: !flag_in(from_entry),
        source: source_in(alloc, source)?,
    })
}

/// What a list found.
fn listed_in(
    alloc: Global,
    subs: &Node<'_>,
    sources: &Node<'_>,
    outcome: &Node<'_>,
) -> Result<Answer, NoMemory>
    requires { sayable.IsListed (node_view subs.now) (node_view sources.now) (node_view outcome.now) }
    ensures { IfOk result (λ a. told_answer a ≡ replies.Listed (map replies.sub_in (parts (node_view subs.now)))
        (map replies.source_in (parts (node_view sources.now))) (replies.outcome_in (node_view outcome.now))) }
{
    Ok(Answer::Listed {
        subs: subs_in(alloc, subs.parts())?,
        sources: sources_in(alloc, sources.parts())?,
        outcome: outcome_in(alloc, outcome)?,
    })
}

/// What a search found.
fn found_in(
    alloc: Global,
    entries: &Node<'_>,
    sources: &Node<'_>,
    outcome: &Node<'_>,
) -> Result<Answer, NoMemory>
    requires { sayable.IsFound (node_view entries.now) (node_view sources.now) (node_view outcome.now) }
    ensures { IfOk result (λ a. told_answer a ≡ replies.Found (map replies.info_in (parts (node_view entries.now)))
        (map replies.source_in (parts (node_view sources.now))) (replies.outcome_in (node_view outcome.now))) }
{
    Ok(Answer::Found {
        entries: infos_in(alloc, entries.parts())?,
        sources: sources_in(alloc, sources.parts())?,
        outcome: outcome_in(alloc, outcome)?,
    })
}

/// The result of the operation with the code that the node says.
fn answer_in(alloc: Global, code: u32, node: &Node<'_>) -> Result<Answer, NoMemory>
    requires { sayable.AreResult code (parts (node_view node.now)) }
    ensures { IfOk result (λ a. told_answer a ≡ replies.answer_in code (node_view node.now)) }
{
    match node.parts() {
        [entry, source] => entry_in(alloc, entry, source),
        [first, second, third] => match code {
            2 => matched_in(alloc, first, second, third),
            4 => listed_in(alloc, first, second, third),
            _ => found_in(alloc, first, second, third),
        },
        _ => Ok(Answer::Changed),
    }
}

fn reference_if(alloc: Global, node: &Node<'_>) -> Result<Option<Reference>, NoMemory>
    requires { sayable.IsReferenceIf (node_view node.now) }
    ensures { IfOk result (λ r. option_map told_reference r ≡ replies.reference_if (node_view node.now)) }
{
    match node {
        Node::Vacant => Ok(None),
        _ => Ok(Some(reference_in(alloc, node)?)),
    }
}

fn item_if(alloc: Global, node: &Node<'_>) -> Result<Option<TraceItem>, NoMemory>
    requires { sayable.IsItemIf (node_view node.now) }
    ensures { IfOk result (λ i. option_map told_item i ≡ replies.item_if (node_view node.now)) }
{
    match node {
        Node::Vacant => Ok(None),
        _ => Ok(Some(item_in(alloc, node)?)),
    }
}

/// A problem of an attribute.
fn attribute_in(alloc: Global, problem: &Node<'_>, kind: &Node<'_>) -> Result<Reply, NoMemory>
    requires { sayable.IsSmall (node_view problem.now) × IsType (node_view kind.now) }
    ensures { IfOk result (λ r. heard r
        ≡ replies.AttributeProblem (replies.or_zero (terms.number_in (node_view problem.now))) (terms.type_in (node_view kind.now))) }
{
    Ok(Reply::Failed(DirError::Attribute {
        problem: small_in(problem),
        kind: type_in(alloc, kind)?,
    }))
}

/// A name that has no entry.
fn unmatched_in(alloc: Global, matched: &Node<'_>) -> Result<Reply, NoMemory>
    ensures { IfOk result (λ r. heard r ≡ replies.NoSuchObject (terms.name_of (node_view matched.now))) }
{
    Ok(Reply::Failed(DirError::Name {
        matched: name_of(alloc, matched)?,
    }))
}

/// A problem of the service.
fn service_in(
    alloc: Global,
    problem: &Node<'_>,
    reference: &Node<'_>,
    item: &Node<'_>,
) -> Result<Reply, NoMemory>
    requires { sayable.IsSmall (node_view problem.now) × sayable.IsReferenceIf (node_view reference.now) × sayable.IsItemIf (node_view item.now) }
    ensures { IfOk result (λ r. heard r ≡ replies.ServiceProblem (replies.or_zero (terms.number_in (node_view problem.now)))
        (replies.reference_if (node_view reference.now)) (replies.item_if (node_view item.now))) }
{
    Ok(Reply::Failed(DirError::Service {
        problem: small_in(problem),
        reference: reference_if(alloc, reference)?,
        item: item_if(alloc, item)?,
    }))
}

/// A referral, whatever its code.
fn referral_in(alloc: Global, node: &Node<'_>) -> Result<Reply, NoMemory>
    requires { sayable.IsReference (node_view node.now) }
    ensures { (code : ℕ) → IfOk result (λ r. heard r ≡ replies.error_in code (node_view node.now)) }
{
    Ok(Reply::Refer(reference_in(alloc, node)?))
}

/// The error of the code, or the referral, that the node says.
fn error_in(alloc: Global, code: u32, node: &Node<'_>) -> Result<Reply, NoMemory>
    requires { sayable.IsError code (node_view node.now) }
    ensures { IfOk result (λ r. heard r ≡ replies.error_in code (node_view node.now)) }
{
    match node.parts() {
        [problem] => Ok(Reply::Failed(DirError::Update {
            problem: small_in(problem),
        })),
        [problem, subject] => {
            if code == 1 {
                attribute_in(alloc, problem, subject)
            } else {
                unmatched_in(alloc, subject)
            }
        }
        [problem, reference, item] => service_in(alloc, problem, reference, item),
        _ => referral_in(alloc, node),
    }
}

/// The result that the node says, of the operation whose code stands before it.
fn result_in(alloc: Global, node: &Node<'_>) -> Result<Reply, NoMemory>
    requires { sayable.IsResult (node_view node.now) }
    ensures { IfOk result (λ r. heard r ≡ result_said (node_view node.now)) }
{
    let [code, said] = node.parts() else {
        unreachable!()
    };
    Ok(Reply::Done(answer_in(alloc, code_in(code), said)?))
}

/// The id and the reply of the answer that the node says.
pub fn reply_in(alloc: Global, node: &Node<'_>) -> Result<(u32, Reply), NoMemory>
    requires { sayable.IsReply (node_view node.now) }
    ensures { IfOk result (λ p. (p.0, heard p.1) ≡ heard_in (node_view node.now)) }
{
    let Node::Chosen(_, message) = node else {
        unreachable!()
    };
    match message.parts() {
        [id, inner] => Ok((code_in(id), result_in(alloc, inner)?)),
        [id, code, parameter] => Ok((code_in(id), error_in(alloc, code_in(code), parameter)?)),
        _ => unreachable!(),
    }
}
