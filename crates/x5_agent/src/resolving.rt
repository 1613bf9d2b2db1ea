//! Where the name of a message ends at an agent, and what it's answered there.

ghost use Rattle.std.specs.Prelude.{◌≡◌, ◌<◌, ◌&&◌, ℕ, List, true, false, None, length, IfOk};
ghost use Rattle.x5_model.specs.Entries.{Named};
ghost use Rattle.x5_model.specs.Statics.{fault_of};
ghost use Rattle.x5_model.specs.Words.{same_octets, distinct};
ghost use Rattle.x5_model_heard.specs.Told.{name_agents};
ghost use Rattle.x5_model_heard.specs.Kept.{looks_at_one};
ghost use Rattle.x5_model_run.specs.Chain.{Scene};
ghost use Rattle.x5_model_run.specs.Journal.{Journal, is_done, is_wide};
ghost use Rattle.x5_model_run.specs.Placed.{fits, is_query_below};
ghost use Rattle.x5_model_known.specs.Counted.{holdings_counted};
ghost use Rattle.x5_model_known.specs.Holding.{holdings_name};
ghost use Rattle.x5_model_serve.specs.Finding as finding;
ghost use Rattle.x5_model_serve.specs.Answering.{rest_of_parts};
ghost use Rattle.x5_model_serve.specs.Serving.{begins_parts, hand, holds_now};
ghost use Rattle.x5_holdings.specs.State.{holdings_view};
ghost use Rattle.x5_find.specs.Finds as finds;
ghost use Rattle.x5_ops.specs.ReferenceViews.{chained_view, reference_view};
ghost use Rattle.x5_ops.specs.RequestViews.{body_view, request_view};
ghost use Rattle.x5_ops.specs.AnswerViews.{reply_view};
ghost use Rattle.x5_serve.specs.Networks.{IsFound};
ghost use Rattle.x5_agent.specs.Answers.{KnowsThem, IsAtSupplier, IsNear, IsSaid, is_failed};

use crate::naming::{asked, reference};
use std::alloc::Global;
use x5_access::{one, others};
use x5_dse::NodeId;
use x5_eval::{evaluate, read_copy, read_own};
use x5_find::{Found as Place, find as resolve};
use x5_holdings::Holdings;
use x5_know::AgentNames;
use x5_memory::NoMemory;
use x5_names::Name;
use x5_ops::{AgentId, Body, Chained, Progress, RefType, Reference, Reply};
use x5_serve::Found;

/// The name of the entry at the node of a context that the agent masters.
fn name_at(alloc: Global, state: &Holdings, own: usize, node: NodeId) -> Result<Name, NoMemory>
    requires { (named : Named) × finds.IsLowest state.now own node named }
    ensures { IfOk result (λ name. (named : Named) → finds.IsLowest state.now own node named → name ≡ named.name) }
{
    state.own()[own].tree().name(alloc, node)
}

/// The reference to the other agents of the NSSR at the lowest entry on the way.
fn wide(
    alloc: Global,
    names: &AgentNames,
    state: &Holdings,
    message: &Chained,
    own: usize,
    node: NodeId,
    agents: &[AgentId],
) -> Result<Reference, NoMemory>
    requires apart { distinct same_octets names.now ≡ true }
    requires near { IsNear state.now (chained_view names.now message.now) }
    requires known { KnowsThem (length names.now) (holdings_view state.now) (chained_view names.now message.now) }
    requires found { finds.IsMulticast state.now (chained_view names.now message.now) own node agents.now }
    ensures { IfOk result (λ r. finding.find (holdings_view state.now) (chained_view names.now message.now) ≡ finding.Onward (reference_view names.now r)) }
{
    let lowest = name_at(alloc, state, own, node)?;
    let progress = Progress::Proceeding((lowest.len() + 1) as u8);
    let others = others(alloc, names, state.me(), agents)?;
    let name = &message.target;
    reference(
        alloc,
        name,
        RefType::NonSpecific,
        progress,
        Some(&lowest),
        others,
    )
}

/// The reference to the supplier of a copy.
fn supplier(
    alloc: Global,
    names: &AgentNames,
    state: &Holdings,
    message: &Chained,
    copy: usize,
) -> Result<Reference, NoMemory>
    requires apart { distinct same_octets names.now ≡ true }
    requires near { IsNear state.now (chained_view names.now message.now) }
    requires known { KnowsThem (length names.now) (holdings_view state.now) (chained_view names.now message.now) }
    requires found { IsAtSupplier state.now (chained_view names.now message.now) copy }
    ensures { IfOk result (λ r. finding.find (holdings_view state.now) (chained_view names.now message.now) ≡ finding.Onward (reference_view names.now r)) }
{
    let copied = &state.copies()[copy];
    let prefix = copied.prefix();
    let progress = Progress::Proceeding(prefix.len() as u8);
    let agents = one(alloc, names, copied.supplier())?;
    let name = &message.target;
    reference(
        alloc,
        name,
        RefType::Supplier,
        progress,
        Some(prefix),
        agents,
    )
}

/// Whether the reply is an error. No memory.
fn is_error(reply: &Reply) -> bool
    ensures { (names : List (List ℕ)) → result ≡ is_failed (reply_view names reply.now) }
{
    matches!(reply, Reply::Failed(_))
}

/// What the copy answers to a read or compare; where that would be an error, the reference to its supplier.
fn in_copy(
    alloc: Global,
    names: &AgentNames,
    state: &Holdings,
    message: &Chained,
    copy: usize,
    node: NodeId,
) -> Result<Found, NoMemory>
    requires there { state.now.me < length names.now }
    requires apart { distinct same_octets names.now ≡ true }
    requires alone { looks_at_one (body_view message.now.request.body) ≡ true }
    requires unrefused { fault_of (body_view message.now.request.body) ≡ None }
    requires fit { fits (chained_view names.now message.now) ≡ true }
    requires near { IsNear state.now (chained_view names.now message.now) }
    requires known { KnowsThem (length names.now) (holdings_view state.now) (chained_view names.now message.now) }
    requires found { finds.IsCopyHere state.now (chained_view names.now message.now) copy node }
    ensures { IfOk result (λ found. IsSaid names.now (holdings_view state.now) (chained_view names.now message.now) found) }
{
    let reply = read_copy(alloc, names, state, message, copy, node)?;
    if is_error(&reply) {
        drop(reply);
        return Ok(Found::Onward(supplier(alloc, names, state, message, copy)?));
    }
    Ok(Found::Told(reply))
}

/// Whether it's a list or search. No memory.
fn is_query(body: &Body) -> bool
    ensures { result ≡ is_query_below (body_view body.now) }
{
    matches!(body, Body::List { .. } | Body::Search { .. })
}

/// Whether the message came with a completed name by a nonSpecific reference: it asks for what stands below its entry. No memory.
fn is_below(message: &Chained) -> bool
    ensures { (names : List (List ℕ)) → result ≡ (is_done (chained_view names message.now).progress && is_wide (chained_view names message.now).kind) }
{
    message.progress.is_same(Progress::Completed) && message.kind.is_wide()
}

/// The agent's own part of a list or search, and the references for the rest.
fn part(
    alloc: Global,
    names: &AgentNames,
    state: &Holdings,
    message: &Chained,
) -> Result<Found, NoMemory>
    requires there { state.now.me < length names.now }
    requires apart { distinct same_octets names.now ≡ true }
    requires query { is_query_below (body_view message.now.request.body) ≡ true }
    requires rest { name_agents (length names.now) (rest_of_parts (holdings_view state.now) (chained_view names.now message.now)) ≡ true }
    requires begins { begins_parts (hand state.now.me (chained_view names.now message.now)) (finding.find (holdings_view state.now) (chained_view names.now message.now)) ≡ true }
    ensures { IfOk result (λ found. IsSaid names.now (holdings_view state.now) (chained_view names.now message.now) found) }
{
    let (answer, rest) = evaluate(alloc, names, state, message)?;
    Ok(Found::Part(answer, rest))
}

/// What is made of a message whose target is in a context that the agent masters.
fn at_own(
    alloc: Global,
    names: &AgentNames,
    state: &Holdings,
    message: &Chained,
    own: usize,
    node: NodeId,
) -> Result<Found, NoMemory>
    requires there { state.now.me < length names.now }
    requires apart { distinct same_octets names.now ≡ true }
    requires unrefused { fault_of (body_view message.now.request.body) ≡ None }
    requires fit { fits (chained_view names.now message.now) ≡ true }
    requires rest { name_agents (length names.now) (rest_of_parts (holdings_view state.now) (chained_view names.now message.now)) ≡ true }
    requires found { finds.IsHere state.now (chained_view names.now message.now) own node }
    ensures { IfOk result (λ found. IsSaid names.now (holdings_view state.now) (chained_view names.now message.now) found) }
{
    if message.request.body.is_update() {
        return Ok(Found::Due);
    }
    if is_query(&message.request.body) {
        return part(alloc, names, state, message);
    }
    Ok(Found::Told(read_own(alloc, names, state, message, own, node)?))
}

/// What is made of a message whose target is in a copy that may be used.
fn at_copy(
    alloc: Global,
    names: &AgentNames,
    state: &Holdings,
    message: &Chained,
    copy: usize,
    node: NodeId,
) -> Result<Found, NoMemory>
    requires there { state.now.me < length names.now }
    requires apart { distinct same_octets names.now ≡ true }
    requires unrefused { fault_of (body_view message.now.request.body) ≡ None }
    requires fit { fits (chained_view names.now message.now) ≡ true }
    requires near { IsNear state.now (chained_view names.now message.now) }
    requires known { KnowsThem (length names.now) (holdings_view state.now) (chained_view names.now message.now) }
    requires rest { name_agents (length names.now) (rest_of_parts (holdings_view state.now) (chained_view names.now message.now)) ≡ true }
    requires found { finds.IsCopyHere state.now (chained_view names.now message.now) copy node }
    ensures { IfOk result (λ found. IsSaid names.now (holdings_view state.now) (chained_view names.now message.now) found) }
{
    if is_query(&message.request.body) {
        return part(alloc, names, state, message);
    }
    in_copy(alloc, names, state, message, copy, node)
}

/// What the agent makes of a message, unless that asks for what stands below the entry of its name.
fn at_name(
    alloc: Global,
    names: &AgentNames,
    state: &Holdings,
    message: &Chained,
) -> Result<Found, NoMemory>
    requires there { state.now.me < length names.now }
    requires apart { distinct same_octets names.now ≡ true }
    requires unrefused { fault_of (body_view message.now.request.body) ≡ None }
    requires fit { fits (chained_view names.now message.now) ≡ true }
    requires near { IsNear state.now (chained_view names.now message.now) }
    requires known { KnowsThem (length names.now) (holdings_view state.now) (chained_view names.now message.now) }
    requires rest { name_agents (length names.now) (rest_of_parts (holdings_view state.now) (chained_view names.now message.now)) ≡ true }
    requires named { (is_done (chained_view names.now message.now).progress && is_wide (chained_view names.now message.now).kind) ≡ false }
    ensures { IfOk result (λ found. IsSaid names.now (holdings_view state.now) (chained_view names.now message.now) found) }
{
    match resolve(state, message) {
        Place::Here { own, node } => at_own(alloc, names, state, message, own, node),
        Place::CopyHere { copy, node } => at_copy(alloc, names, state, message, copy, node),
        Place::Root => part(alloc, names, state, message),
        Place::Go {
            kind,
            progress,
            known,
            to,
        } => {
            let agents = asked(alloc, names, &message.request, to)?;
            let name = &message.target;
            Ok(Found::Onward(reference(alloc, name, kind, progress, known, agents)?))
        }
        Place::Multicast { own, node, agents } => {
            let agents = agents.as_slice();
            Ok(Found::Onward(wide(alloc, names, state, message, own, node, agents)?))
        }
        Place::NoSuchObject { at: None } => Ok(Found::Nowhere(Name::root(alloc))),
        Place::NoSuchObject {
            at: Some((own, node)),
        } => Ok(Found::Nowhere(name_at(alloc, state, own, node)?)),
        Place::UnableToProceed | Place::InvalidReference => Ok(Found::Stuck),
    }
}

/// What the agent makes of the message by what it holds (X.518, sections 18 and 19): the reply to a read or compare, its own part
/// of a list or search with the references for the rest, or that it has the target of an update; a reference by which the name
/// goes on; or that neither is to be had there.
pub fn find(
    alloc: Global,
    names: &AgentNames,
    state: &Holdings,
    message: &Chained,
) -> Result<Found, NoMemory>
    requires there { state.now.me < length names.now }
    requires apart { distinct same_octets names.now ≡ true }
    requires unrefused { fault_of (body_view message.now.request.body) ≡ None }
    requires fit { fits (chained_view names.now message.now) ≡ true }
    requires known { holdings_name (length names.now) (holdings_view state.now) ≡ true }
    requires counted { holdings_counted (holdings_view state.now) ≡ true }
    ensures { IfOk result (λ found. (s : Scene) (j : Journal) → holds_now s j (hand state.now.me (chained_view names.now message.now)) ≡ holdings_view state.now → IsFound s names.now j (hand state.now.me (chained_view names.now message.now)) found) }
{
    if is_below(message) {
        return part(alloc, names, state, message);
    }
    at_name(alloc, names, state, message)
}
