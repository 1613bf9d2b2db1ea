//! Replies that an agent gives by itself, and what replies say.

ghost use Rattle.std.specs.Prelude.{◌≡◌, ℕ, ◌<◌, true, false, List, [], ◌∷◌, length, map, nat_lt, IfOk, IsTrue, Some, None};
ghost use Rattle.x5_model.specs.Words.{same_octets, distinct, is_empty};
ghost use Rattle.x5_model.specs.Answers as model;
ghost use Rattle.x5_model.specs.Problems as problem;
ghost use Rattle.x5_model_run.specs.Journal.{item_of};
ghost use Rattle.x5_model_serve.specs.Answering as answering;
ghost use Rattle.x5_model_serve.specs.Serving.{hand, is_final, limit_reply, asked_by, stuck_problem};
ghost use Rattle.x5_ops.specs.AgentNames.{agent_of};
ghost use Rattle.x5_ops.specs.ReferenceViews.{chained_view, reference_view, access_view, item_view};
ghost use Rattle.x5_ops.specs.AnswerViews.{reply_view};
ghost use Rattle.x5_trace.specs.Items.{IsNamed};
ghost use Rattle.x5_serve.specs.Steps.{IsTelling, heard_view, IsHeardBy};
ghost use Rattle.x5_ops.specs.declared.answers.Reply.TheVariants.{Failed};

use std::alloc::Global;
use x5_know::AgentNames;
use x5_memory::NoMemory;
use x5_names::Name;
use x5_ops::service_problem::{
    ADMINISTRATIVE_LIMIT_EXCEEDED, INVALID_REFERENCE, UNABLE_TO_PROCEED, UNAVAILABLE,
};
use x5_ops::update_problem::ENTRY_ALREADY_EXISTS;
use x5_ops::{
    AccessList, AccessPoint, AgentId, Chained, DirError, Listed, Progress, RdnList, Reference,
    Reply, TraceItem,
};

/// What the sender of a message hears in the end: nothing, or a reply.
#[derive(Drop)]
pub enum Heard {
    Unheard,
    Hears(Reply),
}

/// The agent's own item for a message that it received (X.518, section 10.6).
pub fn own_item(names: &AgentNames, me: AgentId, message: &Chained) -> Result<TraceItem, NoMemory>
    requires there { me < length names.now }
    requires apart { distinct same_octets names.now ≡ true }
    ensures item { IfOk result (λ item. item_view names.now item ≡ item_of me (chained_view names.now message.now)) }
    ensures named { IfOk result (λ item. IsNamed names.now item.agent) }
{
    Ok(TraceItem {
        agent: names.name(me).clone()?,
        target: message.target.clone()?,
        progress: message.progress,
        wide: message.kind.is_wide(),
    })
}

/// The agent as one that a reference names.
fn access_to(names: &AgentNames, me: AgentId) -> Result<AccessPoint, NoMemory>
    requires there { me < length names.now }
    requires apart { distinct same_octets names.now ≡ true }
    ensures { IfOk result (λ access. access_view names.now access ≡ me) }
{
    Ok(AccessPoint {
        agent: names.name(me).clone()?,
        copy: false,
    })
}

/// The list of it alone.
fn alone(alloc: Global, access: AccessPoint) -> Result<AccessList, NoMemory>
    ensures { IfOk result (λ agents. agents ≡ access ∷ []) }
{
    let mut agents = Listed::new(alloc);
    agents.push(access)?;
    Ok(agents)
}

/// A copy of the RDNs.
pub fn copied_rdns(rdns: &RdnList) -> Result<RdnList, NoMemory>
    ensures { IfOk result (λ copy. copy ≡ rdns.now) }
{
    Ok(rdns.clone()?)
}

/// The reference by which the agent was asked.
fn own_reference(
    alloc: Global,
    names: &AgentNames,
    me: AgentId,
    message: &Chained,
) -> Result<Reference, NoMemory>
    requires there { me < length names.now }
    requires apart { distinct same_octets names.now ≡ true }
    ensures { IfOk result (λ r. reference_view names.now r ≡ asked_by (hand me (chained_view names.now message.now))) }
{
    Ok(Reference {
        target: message.target.clone()?,
        progress: message.progress,
        kind: message.kind,
        agents: alone(alloc, access_to(names, me)?)?,
        exclusions: copied_rdns(&message.exclusions)?,
        tried: false,
    })
}

/// A service error without a reference: no message is left, or the trace is too long. No memory.
pub fn limit_exceeded() -> Reply
    ensures { (names : List (List ℕ)) → reply_view names result ≡ limit_reply }
{
    Reply::Failed(DirError::Service {
        problem: ADMINISTRATIVE_LIMIT_EXCEEDED,
        reference: None,
        item: None,
    })
}

/// The message has come by a wrong reference.
pub fn unfit(
    alloc: Global,
    names: &AgentNames,
    me: AgentId,
    message: &Chained,
) -> Result<Reply, NoMemory>
    requires there { me < length names.now }
    requires apart { distinct same_octets names.now ≡ true }
    ensures { IfOk result (λ y. reply_view names.now y ≡ model.Failed (model.ServiceProblem problem.invalid_reference (Some (asked_by (hand me (chained_view names.now message.now)))) None)) }
{
    Ok(Reply::Failed(DirError::Service {
        problem: INVALID_REFERENCE,
        reference: Some(own_reference(alloc, names, me, message)?),
        item: None,
    }))
}

/// The agent can't go on from the message's progress (X.518, section 18).
pub fn stuck(
    alloc: Global,
    names: &AgentNames,
    me: AgentId,
    message: &Chained,
) -> Result<Reply, NoMemory>
    requires there { me < length names.now }
    requires apart { distinct same_octets names.now ≡ true }
    ensures { IfOk result (λ y. reply_view names.now y ≡ model.Failed (model.ServiceProblem (stuck_problem (hand me (chained_view names.now message.now))) (Some (asked_by (hand me (chained_view names.now message.now)))) None)) }
{
    let problem = if message.kind.is_wide() {
        UNABLE_TO_PROCEED
    } else {
        INVALID_REFERENCE
    };
    Ok(Reply::Failed(DirError::Service {
        problem,
        reference: Some(own_reference(alloc, names, me, message)?),
        item: None,
    }))
}

/// The agents of the reference were asked in vain. No memory.
pub fn unavailable(reference: Reference) -> Reply
    ensures { (names : List (List ℕ)) → reply_view names result ≡ answering.is_unavailable (answering.in_vain (reference_view names reference)) }
{
    Reply::Failed(DirError::Service {
        problem: UNAVAILABLE,
        reference: Some(Reference {
            tried: true,
            ..reference
        }),
        item: None,
    })
}

/// The user's message to the agent was sent in vain: nothing was heard.
pub fn user_in_vain(
    alloc: Global,
    names: &AgentNames,
    first: AgentId,
    message: &Chained,
) -> Result<Reply, NoMemory>
    requires there { first < length names.now }
    requires apart { distinct same_octets names.now ≡ true }
    ensures { IfOk result (λ y. reply_view names.now y ≡ answering.is_unavailable (answering.in_vain (asked_by (hand first (chained_view names.now message.now))))) }
{
    Ok(unavailable(own_reference(alloc, names, first, message)?))
}

/// These agents of the reference were asked in vain.
pub fn unavailable_of(reference: &Reference, noted: AccessList) -> Result<Reply, NoMemory>
    ensures { IfOk result (λ y. (names : List (List ℕ)) → reply_view names y ≡ answering.is_unavailable (answering.of_these (map (access_view names) noted) (reference_view names reference.now))) }
{
    Ok(Reply::Failed(DirError::Service {
        problem: UNAVAILABLE,
        reference: Some(Reference {
            target: reference.target.clone()?,
            progress: reference.progress,
            kind: reference.kind,
            agents: noted,
            exclusions: reference.exclusions.clone()?,
            tried: true,
        }),
        item: None,
    }))
}

/// The name above what a nonSpecific reference still has to resolve.
fn above_next(alloc: Global, reference: &Reference) -> Result<Name, NoMemory>
    ensures { IfOk result (λ name. (names : List (List ℕ)) → name ≡ answering.above_next (reference_view names reference.now)) }
{
    match reference.progress {
        Progress::NotStarted => Ok(Name::root(alloc)),
        Progress::Proceeding(next) => {
            let kept = (next as usize)
                .saturating_sub(1)
                .min(reference.target.len());
            reference.target.first(alloc, kept)
        }
        Progress::Completed => Ok(reference.target.clone()?),
    }
}

/// None of the agents of an NSSR can go on: there is no such entry, and the NSSR's is the lowest (X.518, section 20).
pub fn nobody_has(alloc: Global, reference: &Reference) -> Result<Reply, NoMemory>
    ensures { IfOk result (λ y. (names : List (List ℕ)) → reply_view names y ≡ model.Failed (model.NoSuchObject (answering.above_next (reference_view names reference.now)))) }
{
    Ok(Reply::Failed(DirError::Name {
        matched: above_next(alloc, reference)?,
    }))
}

/// Whether an error is of the service, with this number. No memory.
pub fn is_problem(error: &DirError, number: u8) -> bool
    ensures { (names : List (List ℕ)) → result ≡ answering.is_service number (reply_view names (Failed error.now)) }
{
    match error {
        DirError::Service { problem, .. } => *problem == number,
        _ => false,
    }
}

/// Whether the agent that replied can't go on with the name. No memory.
pub fn is_unable(reply: &Reply) -> bool
    ensures { (names : List (List ℕ)) → result ≡ answering.is_service problem.unable_to_proceed (reply_view names reply.now) }
{
    match reply {
        Reply::Failed(error) => is_problem(error, UNABLE_TO_PROCEED),
        _ => false,
    }
}

/// What the reply to a probe tells of its agent.
#[derive(Drop)]
pub enum Told {
    Unable,
    Unsure,
    Ends(DirError),
}

/// What the reply to a probe tells: the agent can't go on with the new name; it couldn't hear its own supplier, and knows nothing
/// (as of a referral, which whoever hears one has followed); or the update ends, since the name is taken or by an error. No memory.
pub fn told_by(reply: Reply) -> Told
    ensures { (names : List (List ℕ)) → is_final (reply_view names reply) ≡ true → IsTelling names reply result }
{
    match reply {
        Reply::Done(answer) => {
            drop(answer);
            Told::Ends(DirError::Update {
                problem: ENTRY_ALREADY_EXISTS,
            })
        }
        Reply::Refer(reference) => {
            drop(reference);
            Told::Unsure
        }
        Reply::Failed(error) => {
            if is_problem(&error, UNABLE_TO_PROCEED) {
                drop(error);
                Told::Unable
            } else if is_problem(&error, UNAVAILABLE) {
                drop(error);
                Told::Unsure
            } else {
                Told::Ends(error)
            }
        }
    }
}

/// Whether a reply is heard. No memory.
pub fn is_heard(heard: &Heard) -> bool
    ensures { (names : List (List ℕ)) → IsHeardBy (heard_view names heard.now) result }
{
    match heard {
        Heard::Hears(_) => true,
        Heard::Unheard => false,
    }
}
