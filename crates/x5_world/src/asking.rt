//! A user's message and what comes of it, up to its reply.

ghost use Rattle.std.specs.Prelude.{◌≡◌, ℕ, List, ◌<◌, ◌≤◌, ◌+◌, true, length, IfOk};
ghost use Rattle.std.specs.List.{list_all};
ghost use Rattle.x5_dapreply.specs.ReplyViews.{told_reply};
ghost use Rattle.x5_model_fitting.specs.Replies.{ReplyWithin};
ghost use Rattle.x5_model_fitting.specs.Requests.{RequestWithin};
ghost use Rattle.x5_model_heard.specs.Told.{are_agents};
ghost use Rattle.x5_model_known.specs.Replying.{reply_agents};
ghost use Rattle.x5_model_run.specs.Chain as chain;
ghost use Rattle.x5_model_run.specs.Needs.{target_of};
ghost use Rattle.x5_model.specs.Answers as model;
ghost use Rattle.x5_model_serve.specs.Serving.{IsRequest, Serves, hand};
ghost use Rattle.x5_ops.specs.AnswerViews.{reply_view};
ghost use Rattle.x5_ops.specs.JournalViews.{code_view};
ghost use Rattle.x5_ops.specs.ReferenceViews.{chained_view};
ghost use Rattle.x5_ops.specs.RequestViews.{body_view, request_view};
ghost use Rattle.x5_serve.specs.Networks.{Stays, DoesAt};
ghost use Rattle.x5_serve.specs.Sendable.{MayBeSent};
ghost use Rattle.x5_world.specs.Users.{IsUsers, user_in_vain_at};
ghost use Rattle.x5_world.specs.State.{HasShortNames};
ghost use Rattle.x5_world.specs.Sent.{IsChanged, IsNet, is_counted, journal_of, scene_of};

use crate::begin::Begun;
use crate::exchange::{Exchange, ID};
use crate::journal::Sent;
use crate::world::World;
use std::alloc::Global;
use x5_memory::NoMemory;
use x5_names::Name;
use x5_ops::{AgentId, Body, Chained, Listed, Operation, Progress, RefType, Reply, Request};
use x5_serve::{Carried, Network, serve, user_in_vain};
use x5_wire::{carried_answer, carried_reply, carried_request};

/// The network after a request, what the user is told, the messages that it took, and the agents that accepted the update, each in
/// their order.
#[derive(Drop)]
pub(crate) struct Told {
    pub world: World,
    pub reply: Reply,
    pub lines: Vec<Sent>,
    pub accepted: Vec<AgentId>,
}

/// The name that a request asks to be resolved: the parent's of a new entry, else its own.
fn target(alloc: Global, body: &Body) -> Result<Name, NoMemory>
    ensures { IfOk result (λ name. name ≡ target_of (body_view body.now)) }
{
    match body {
        Body::Add { object, .. } => Ok(object.parent(alloc)?),
        _ => Ok(body.name().clone()?),
    }
}

/// What a user asks: nothing is resolved, and nobody passed it on.
pub(crate) fn opening(alloc: Global, request: &Request) -> Result<Chained, NoMemory>
    ensures { IfOk result (λ message. (names : List (List ℕ)) → chained_view names message ≡ chain.opening (request_view request.now)) }
{
    Ok(Chained {
        target: target(alloc, &request.body)?,
        progress: Progress::NotStarted,
        kind: RefType::Own,
        exclusions: Listed::new(alloc),
        trace: Listed::new(alloc),
        request: request.copy(alloc)?,
    })
}

/// What a user asks as the agent has it, which reads it in the octets that it goes by (X.519, section 7: DAP).
pub(crate) fn heard(alloc: Global, request: &Request) -> Result<Chained, NoMemory>
    requires { RequestWithin (request_view request.now) }
    ensures { IfOk result (λ message. (names : List (List ℕ)) → chained_view names message ≡ chain.opening (request_view request.now)) }
{
    let request = carried_request(alloc, ID, request)?;
    let message = opening(alloc, &request);
    drop(request);
    message
}

/// Serves the user's message, whose reply is lost; so the user has `unavailable`.
fn served_in_vain<N: Network>(
    alloc: Global,
    net: &mut N,
    first: AgentId,
    message: &Chained,
) -> Result<Reply, NoMemory>
    requires there { first < length (N.names net.old) }
    requires user { IsUsers (N.scene net.old) first (chained_view (N.names net.old) message.now) }
    requires sent { MayBeSent (N.names net.old) message.now }
    ensures stays { Stays N.scene N.most N.names net.old net.new }
    ensures served { IfOk result (λ _. (y : model.Reply) × DoesAt N.scene N.most N.journal net.old net.new (Serves (hand first (chained_view (N.names net.old) message.now)) y)) }
    ensures told { IfOk result (λ reply. reply_view (N.names net.old) reply ≡ user_in_vain_at first (chained_view (N.names net.old) message.now)) }
{
    drop(serve(alloc, net, first, message)?);
    user_in_vain(alloc, net.names(), first, message)
}

/// A reply as whoever sent the message has it, which reads it in the octets that it goes back by (X.519, section 7): an agent's to a user
/// (DAP) or, where the message was handed over as another agent's (`dsp`), to that agent (DSP).
fn told_back(
    alloc: Global,
    dsp: bool,
    operation: Operation,
    reply: &Reply,
) -> Result<Reply, NoMemory>
    requires { ReplyWithin (told_reply (code_view operation) reply.now) }
    ensures { IfOk result (λ back. (names : List (List ℕ)) → reply_view names back ≡ reply_view names reply.now) }
{
    if dsp {
        carried_reply(alloc, ID, operation, reply)
    } else {
        carried_answer(alloc, ID, operation, reply)
    }
}

/// The reply that the user has where his message was served; he may have handed it over as another agent's (`dsp`).
fn user_served<N: Network>(
    alloc: Global,
    dsp: bool,
    net: &mut N,
    first: AgentId,
    message: &Chained,
) -> Result<Reply, NoMemory>
    requires there { first < length (N.names net.old) }
    requires user { IsUsers (N.scene net.old) first (chained_view (N.names net.old) message.now) }
    requires sent { MayBeSent (N.names net.old) message.now }
    ensures stays { Stays N.scene N.most N.names net.old net.new }
    ensures served { IfOk result (λ reply. DoesAt N.scene N.most N.journal net.old net.new (Serves (hand first (chained_view (N.names net.old) message.now)) (reply_view (N.names net.old) reply))) }
{
    let operation = message.request.body.operation();
    let reply = serve(alloc, net, first, message)?;
    let back = told_back(alloc, dsp, operation, &reply);
    drop(reply);
    back
}

/// A user's message in the network, which begins as it stands, and which he may hand over as another agent's (`dsp`): what it comes to, with the reply, the messages that it takes, and the
/// agents that accept its update, which hold it then.
pub(crate) fn asked<B: Begun>(
    alloc: Global,
    dsp: bool,
    world: World,
    first: AgentId,
    message: Chained,
    most: usize,
) -> Result<Told, NoMemory>
    requires begun { world ≡ B.net }
    requires there { first < length B.net.names }
    requires short { HasShortNames (body_view message.request.body) }
    requires sent { MayBeSent B.net.names message }
    requires net { IsNet B.net }
    requires room { B.net.sent + most ≤ 18446744073709551615 }
    requires some { 0 < most }
    ensures asked { IfOk result (λ told. IsRequest (scene_of B.net first (chained_view B.net.names message)) most (journal_of B.net.names told.lines.items told.accepted.items) (reply_view B.net.names told.reply)) }
    ensures held { IfOk result (λ told. IsChanged B.net told.world (request_view message.request) told.accepted.items) }
    ensures within { IfOk result (λ told. length told.lines.items ≤ most) }
    ensures counted { IfOk result (λ told. list_all (is_counted B.net.names) told.lines.items ≡ true) }
    ensures accepted { IfOk result (λ told. are_agents (length B.net.names) told.accepted.items ≡ true) }
    ensures named { IfOk result (λ told. reply_agents (length B.net.names) (reply_view B.net.names told.reply) ≡ true) }
{
    let mut exchange = Exchange::<B>::new(alloc, world, first, &message, most);
    let reply = match exchange.send(alloc, None, first, &message)? {
        Carried::Spent => unreachable!(),
        Carried::Undelivered => user_in_vain(alloc, exchange.names(), first, &message)?,
        Carried::Unheard(taken) => served_in_vain(alloc, &mut exchange, first, &taken)?,
        Carried::Taken(taken) => user_served(alloc, dsp, &mut exchange, first, &taken)?,
    };
    let (world, lines, accepted) = exchange.into_parts();
    Ok(Told {
        world,
        reply,
        lines,
        accepted,
    })
}
