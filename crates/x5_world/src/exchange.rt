//! A user's request on its way from agent to agent.

ghost use Rattle.std.specs.Prelude.{◌≡◌, ℕ, ◌<◌, ◌≤◌, true, nat_lt, List, [], length, IfOk};
ghost use Rattle.x5_model.specs.Words.{in_option};
ghost use Rattle.x5_model_run.specs.Chain.{Scene};
ghost use Rattle.x5_model_run.specs.Journal.{Journal};
ghost use Rattle.x5_model_run.specs.Needs as needs;
ghost use Rattle.x5_model_fitting.specs.Chained.{ChainedWithin};
ghost use Rattle.x5_model_serve.specs.Serving.{Hand, holds_now};
ghost use Rattle.x5_holdings.specs.State.{holdings_view};
ghost use Rattle.x5_dspber.specs.ChainedViews.{told_chained};
ghost use Rattle.x5_ops.specs.JournalViews.{fate_view};
ghost use Rattle.x5_ops.specs.ReferenceViews.{chained_view};
ghost use Rattle.x5_serve.specs.Networks.{IsCarriedBy, IsVerdict};
ghost use Rattle.x5_serve.specs.Sendable.{IsTaken, MayBeSent};
ghost use Rattle.x5_update.specs.Judging as judging;
ghost use Rattle.x5_world.specs.Arrivals.{arrival_by};
ghost use Rattle.x5_world.specs.Once.{under_way_once};
ghost use Rattle.x5_world.specs.Sent.{IsUnderWay, scene_of, journal_of};

use crate::begin::Begun;
use crate::journal::Sent;
use crate::links::has_agent;
use crate::world::World;
use std::alloc::Global;
use std::marker::PhantomData;
use x5_holdings::Holdings;
use x5_know::AgentNames;
use x5_memory::NoMemory;
use x5_ops::{
    AgentId, AgentName, Chained, ChangeFault, Fate, Operation, Progress, Reference, Reply,
};
use x5_serve::{Carried, Found, Network, Verdict};
use x5_wire::{carried_message, carried_reply};

/// The id of a message, and of the reply to it: each message goes by an association of its own (X.519, section 7).
pub(crate) const ID: u32 = 1;

/// A user's request in the network of all agents, with the messages that were sent for it so far and the agents that accepted its
/// update, in their order. These hold what they accepted; all else is as it was when the request began.
#[derive(Drop)]
pub(crate) struct Exchange<'a, B: Begun> {
    world: World,
    first: AgentId,
    message: &'a Chained,
    most: usize,
    lines: Vec<Sent>,
    accepted: Vec<AgentId>,
    begun: PhantomData<B>,
    ghost under_way: { IsUnderWay B.net world first (chained_view B.net.names message.now) most lines.items accepted.items } by { under_way_once B.net world first (chained_view B.net.names message.now) most lines.items accepted.items },
}

/// What becomes of a message that was sent. No memory.
fn arrival(fate: Fate, taken: Chained) -> Carried
    ensures { result ≡ arrival_by (fate_view fate) taken }
{
    match fate {
        Fate::Lost => {
            drop(taken);
            Carried::Undelivered
        }
        Fate::NoReply => Carried::Unheard(taken),
        Fate::Sent => Carried::Taken(taken),
    }
}

/// A message as its receiver has it: an agent's as it is read in the octets that it goes by (X.519, section 7: DSP), a user's as it was
/// handed over.
fn received(alloc: Global, from: Option<AgentId>, message: &Chained) -> Result<Chained, NoMemory>
    requires { ChainedWithin (told_chained message.now) }
    ensures told { IfOk result (λ taken. told_chained taken ≡ told_chained message.now) }
    ensures seen { IfOk result (λ taken. (names : List (List ℕ)) → chained_view names taken ≡ chained_view names message.now) }
{
    match from {
        Some(_) => carried_message(alloc, ID, message),
        None => Ok(message.copy(alloc)?),
    }
}

/// Whether whoever holds this can go on with the name of the message (X.518, section 18). No memory.
fn goes_on(held: &Holdings, message: &Chained) -> bool
    ensures { (names : List (List ℕ)) → result ≡ needs.resolves (holdings_view held.now) (chained_view names message.now) }
{
    match message.progress {
        Progress::NotStarted => true,
        Progress::Proceeding(next) => held.holds_within(message.target.rdns(), next as usize),
        Progress::Completed => false,
    }
}

/// What a master's judgement of an update is to whoever serves it.
fn verdict(judged: Result<Option<Reference>, ChangeFault>) -> Result<Verdict, NoMemory>
    ensures { IfOk result (λ verdict. (s : Scene) (names : List (List ℕ)) (j : Journal) (k : Hand) → judging.IsVerdict names (holds_now s j k) k.message judged → IsVerdict s names j k verdict) }
{
    match judged {
        Ok(probe) => Ok(Verdict::Passed(probe)),
        Err(ChangeFault::Refused(error)) => Ok(Verdict::Refused(error)),
        Err(ChangeFault::NoMemory) => Err(NoMemory),
    }
}

impl<'a, B: Begun> Exchange<'a, B> {
    /// The request before its first message; it may take so many. No memory.
    pub(crate) fn new(
        alloc: Global,
        world: World,
        first: AgentId,
        message: &'a Chained,
        most: usize,
    ) -> Exchange<'a, B>
        requires { IsUnderWay B.net world first (chained_view B.net.names message.now) most [] [] }
        ensures { (result.first ≡ first) × (result.message ≡ message.entry) × (result.most ≡ most) × (result.lines.items ≡ []) × (result.accepted.items ≡ []) }
    {
        Exchange {
            world,
            first,
            message,
            most,
            lines: Vec::new(alloc),
            accepted: Vec::new(alloc),
            begun: PhantomData,
        }
    }

    /// Sends a message of an agent or, with no sender, of the user, as the trait's `carry` says: an agent's as octets.
    pub(crate) fn send(
        &mut self,
        alloc: Global,
        from: Option<AgentId>,
        to: AgentId,
        message: &Chained,
    ) -> Result<Carried, NoMemory>
        requires from { in_option true (λ a. nat_lt a (length B.net.names)) from ≡ true }
        requires to { to < length B.net.names }
        requires sent { MayBeSent B.net.names message.now }
        ensures stays { (self.new.first ≡ self.old.first) × (self.new.message ≡ self.old.message) × (self.new.most ≡ self.old.most) × (self.new.accepted ≡ self.old.accepted) }
        ensures left { length self.old.lines.items ≤ length self.new.lines.items }
        ensures taken { IfOk result (λ carried. IsTaken B.net.names carried) }
        ensures carried { IfOk result (λ carried. IsCarriedBy (scene_of B.net self.old.first (chained_view B.net.names self.old.message.now)) self.old.most B.net.names (journal_of B.net.names self.old.lines.items self.old.accepted.items) (journal_of B.net.names self.new.lines.items self.old.accepted.items) from to (chained_view B.net.names message.now) carried) }
    {
        if self.lines.len() >= self.most {
            return Ok(Carried::Spent);
        }
        let number = self.world.sent() + self.lines.len() as u64 + 1;
        let fate = self.world.fate(number, from, to);
        self.lines.push(Sent {
            number,
            from,
            to,
            message: message.copy(alloc)?,
            fate,
        })?;
        Ok(arrival(fate, received(alloc, from, message)?))
    }

    /// The network, the messages that were sent, and the agents that accepted the update, each in their order. No memory.
    pub(crate) fn into_parts(self) -> (World, Vec<Sent>, Vec<AgentId>)
        ensures { (result.0 ≡ self.entry.world) × (result.1 ≡ self.entry.lines) × (result.2 ≡ self.entry.accepted) }
    {
        (self.world, self.lines, self.accepted)
    }
}

impl<'a, B: Begun> Network for Exchange<'a, B> {
    ghost use Rattle.x5_serve.specs.Networks.{left_of, Stays, IsFound, IsDue, IsReady};
    ghost use Rattle.x5_world.specs.Laws.{keeps_limits, knows};

    ghost scene = { λ e. scene_of B.net e.first (chained_view B.net.names e.message.now) };

    ghost most = { λ e. e.most };

    ghost journal = { λ e. journal_of B.net.names e.lines.items e.accepted.items };

    ghost names = { λ e. B.net.names };

    fn names(&self) -> &AgentNames {
        self.world.names()
    }

    fn named(&self, name: &AgentName) -> Option<AgentId> {
        self.world.names().find(name.as_str())
    }

    fn willing(&self, id: AgentId) -> bool {
        !self.world.refuses(id)
    }

    fn is_done(&self, me: AgentId, message: &Chained) -> bool {
        message.request.body.is_update()
            && has_agent(&self.accepted, me)
            && goes_on(self.world.held(me), message)
    }

    fn find(&self, alloc: Global, me: AgentId, message: &Chained) -> Result<Found, NoMemory> {
        x5_agent::find(alloc, self.world.names(), self.world.held(me), message)
    }

    fn prepare(&self, alloc: Global, me: AgentId, message: &Chained) -> Result<Verdict, NoMemory> {
        let held = self.world.held(me);
        verdict(x5_update::prepare(alloc, self.world.names(), held, message))
    }

    fn commit(&mut self, alloc: Global, me: AgentId, message: &Chained) -> Result<(), NoMemory> {
        self.accepted.reserve(1)?;
        self.world.commit(alloc, me, message)?;
        self.accepted.push_reserved(me);
        Ok(())
    }

    fn carry(
        &mut self,
        alloc: Global,
        from: AgentId,
        to: AgentId,
        message: &Chained,
    ) -> Result<Carried, NoMemory> {
        self.send(alloc, Some(from), to, message)
    }

    fn carry_back(
        &self,
        alloc: Global,
        operation: Operation,
        reply: &Reply,
    ) -> Result<Reply, NoMemory> {
        carried_reply(alloc, ID, operation, reply)
    }

    ghost apart = { λ e. e.under_way.net.apart };

    ghost plain = { λ e. e.under_way.net.plain };

    ghost knows = { λ e. knows B.net e.first (chained_view B.net.names e.message.now) e.under_way.net };

    ghost bounded = { λ e. keeps_limits B.net e.world e.first (chained_view B.net.names e.message.now) e.most e.lines.items e.accepted.items e.under_way };
}
