//! The network of a run.

ghost use Rattle.std.specs.Prelude.{◌≡◌, ℕ, ◌<◌, ◌+◌, ◌≤◌, ◌*◌, ◌==◌, [], true, nat_lt, length, List, IfOk, OnErr, slice_get, slice_set, Some, None, Err};
ghost use Rattle.std.specs.List.{filter, list_all, position};
ghost use Rattle.std.specs.Option.{option_map};
ghost use Rattle.x5_know.specs.WorldView.{world_view};
ghost use Rattle.x5_model_run.specs.Chain as chain;
ghost use Rattle.x5_model_run.specs.Network as network;
ghost use Rattle.x5_model_run.specs.History.{Point};
ghost use Rattle.x5_model_run.specs.Run.{Protocol, Dap, Dsp, Changes, Drops, Blank, Set, Silent, did_by};
ghost use Rattle.x5_model_run.specs.Stage.{once_each};
ghost use Rattle.x5_model.specs.Values.{key_of};
ghost use Rattle.x5_model_tree.specs.Consistent.{IsConsistent};
ghost use Rattle.x5_model_tree.specs.Described.{IsDescribed};
ghost use Rattle.x5_model_fitting.specs.Requests.{BodyWithin, CountWithin, RequestWithin};
ghost use Rattle.x5_model_limits.specs.Described.{world_is_utf8};
ghost use Rattle.x5_model_shadowing.specs.Files.{nssrs_are_utf8};
ghost use Rattle.x5_refresh.specs.Joined.{is_of_supplier};
ghost use Rattle.x5_refresh.specs.Sent.{CanAccept, count_in};
ghost use Rattle.x5_holdings.specs.State.{holdings_view};
ghost use Rattle.x5_ops.specs.JournalViews.{fate_view, outage_view, protocol_view};
ghost use Rattle.x5_ops.specs.ReferenceViews.{chained_view};
ghost use Rattle.x5_ops.specs.RequestViews.{body_view, request_view};
ghost use Rattle.x5_update.specs.Judging.{IsReady};
ghost use Rattle.x5_serve.specs.Sendable.{MayBeSent};
ghost use Rattle.x5_world.specs.Answered.{IsAnswered, NamesAgents, line_names_agents};
ghost use Rattle.x5_typed.specs.Breaches.{breach_view};
ghost use Rattle.x5_typed.specs.declared.fault.Breach as typed;
ghost use Rattle.x5_world.specs.Delivered.{IsDelivered, IsDeliveredAt, NamesAgentsIn, breach_in};
ghost use Rattle.x5_world.specs.LogViews.{logs_view};
ghost use Rattle.x5_world.specs.Places.{FitsPlace};
ghost use Rattle.x5_world.specs.Refreshes.{IsRefreshedAt, IsSound};
ghost use Rattle.x5_world.specs.Refreshing.{IsBounded, IsBoundedIn, IsKnown, IsSupplied, IsTakenAt, acknowledging, is_known_in, problem_in};
ghost use Rattle.x5_world.specs.Sent.{IsCommittedAt, IsHolder, no_net};
ghost use Rattle.x5_world.specs.State.{StandsAt, HasRoom, HasShortNames, after, holdings_in, most_messages};
ghost use Rattle.x5_model_tree.specs.World.{names_of_agents};

use crate::asking::{asked, heard, opening};
use crate::counts::{contexts, pairs};
use crate::delivered::{Delivered, breach_of, receiver};
use crate::journal;
use crate::links::Links;
use crate::naming::copied;
use crate::refreshing::{Supplied, refreshed};
use crate::refreshment::Refreshment;
use crate::seen::nothing_seen;
use crate::stamps::none_of;
use std::alloc::Global;
use std::marker::{Brand, Model};
use std::mem::replace;
use x5_agents::agents_of;
use x5_dapber::{WireFault, decode_request};
use x5_dspber::decode_chained;
use x5_holdings::Holdings;
use x5_know::{AgentNames, Agreement, AgreementList, Described, Start};
use x5_memory::NoMemory;
use x5_ops::{AgentId, Chained, Fate, Journal, Listed, Moment, Outage, Reply, Request};
use x5_refresh::Brought;
use x5_shadow_wire::LastTotal;
use x5_supply::{SupplyFault, list_entries};
use x5_typed::Breach;

/// The agents with what each holds, the network between them, and their agreements with the stamp of the last refresh by each that
/// its supplier knows to be taken; and what both ends of each agreement have seen of total refreshes, which changes nothing but how long
/// they take.
#[derive(Drop)]
pub struct World {
    names: AgentNames,
    agents: Vec<Holdings>,
    links: Links,
    sent: u64,
    contexts: usize,
    pairs: usize,
    agreements: AgreementList,
    acked: Vec<Option<Moment>>,
    line: u32,
    seen: Vec<LastTotal>,
}

impl Model for World {
    ghost use Rattle.std.specs.Prelude.{map};
    ghost use Rattle.x5_holdings.specs.State.{holdings_view};
    ghost use Rattle.x5_world.specs.LogViews.{logs_view};
    ghost use Rattle.x5_world.specs.State.{Net};
    ghost use Rattle.x5_world.specs.Sent.{IsNet};

    ghost Value = { Net };

    ghost view = { λ w. record { names = w.names; agents = map holdings_view w.agents.items; logs = map logs_view w.agents.items; network = w.links; sent = w.sent; contexts = w.contexts; pairs = w.pairs; agreements = w.agreements; acked = w.acked.items; line = w.line } };

    ghost invariant = { λ w. IsNet (record { names = w.names; agents = map holdings_view w.agents.items; logs = map logs_view w.agents.items; network = w.links; sent = w.sent; contexts = w.contexts; pairs = w.pairs; agreements = w.agreements; acked = w.acked.items; line = w.line }) };
}

impl World {
    /// The network before the first line of a script: each agent holds what the file, whose texts are UTF-8, describes of it, and
    /// nothing was sent.
    pub fn new(alloc: Global, described: &Described) -> Result<World, NoMemory>
        requires described { IsDescribed (world_view described.now) }
        requires named { described.now.names ≡ names_of_agents (world_view described.now) }
        requires utf8 { world_is_utf8 (world_view described.now) ≡ true }
        requires references { nssrs_are_utf8 (world_view described.now) ≡ true }
        ensures names { IfOk result (λ w. w.names ≡ names_of_agents (world_view described.now)) }
        ensures stands { IfOk result (λ w. StandsAt w (record { described = world_view described.now; past = [] })) }
        ensures room { IfOk result (λ w. HasRoom w 0) }
    {
        let names = copied(alloc, &described.names)?;
        let agents = agents_of(alloc, described)?;
        let links = Links::of(alloc, &described.network)?;
        let contexts = contexts(described.agents.as_slice());
        let pairs = pairs(described.agents.as_slice());
        Ok(World {
            names,
            agents,
            links,
            sent: 0,
            contexts,
            pairs,
            agreements: described.agreements.clone()?,
            acked: none_of(alloc, described.agreements.as_slice())?,
            line: 0,
            seen: nothing_seen(alloc, described.agreements.as_slice())?,
        })
    }

    /// The network of nobody. No memory.
    fn nobody(alloc: Global) -> World
        ensures { result ≡ no_net }
    {
        World {
            names: AgentNames::new(alloc),
            agents: Vec::new(alloc),
            links: Links::nobody(alloc),
            sent: 0,
            contexts: 0,
            pairs: 0,
            agreements: Listed::new(alloc),
            acked: Vec::new(alloc),
            line: 0,
            seen: Vec::new(alloc),
        }
    }

    /// The agents' names. No memory.
    pub fn names(&self) -> &AgentNames
        ensures { result.now ≡ self.now.names }
    {
        &self.names
    }

    /// How many messages were sent so far. No memory.
    pub(crate) fn sent(&self) -> u64
        ensures { result ≡ self.now.sent }
    {
        self.sent
    }

    /// What becomes of the message of this number. No memory.
    pub(crate) fn fate(&self, number: u64, from: Option<AgentId>, to: AgentId) -> Fate
        ensures { fate_view result ≡ network.fate_of self.now.network number from to }
    {
        self.links.fate(number, from, to)
    }

    /// Whether the agent doesn't chain. No memory.
    pub(crate) fn refuses(&self, agent: AgentId) -> bool
        ensures { result ≡ network.refuses self.now.network agent }
    {
        self.links.refuses(agent)
    }

    /// What the agent holds. No memory.
    pub(crate) fn held(&self, agent: AgentId) -> &Holdings
        requires { agent < length self.now.names }
        ensures held { slice_get self.now.agents agent ≡ Some (holdings_view result.now) }
        ensures holder { IsHolder self.now.names agent (holdings_view result.now) }
    {
        &self.agents[agent.0 as usize]
    }

    /// Puts these holdings in the place of what the agent holds, and gives that back: so an agent answers from the holdings that
    /// another world's file describes. They are the agent's own, name agents of the network and are within the limits of messages, as
    /// are those of the same agent in any network with as many agents. Nothing else changes: agreements with their stamps, links, and
    /// how many messages a request may take stay as they are. No memory.
    pub fn swap_holdings(&mut self, agent: AgentId, holdings: Holdings) -> Holdings
        requires there { agent < length self.old.names }
        requires fits { FitsPlace (length self.old.names) agent holdings }
        ensures fits { FitsPlace (length self.old.names) agent result }
        ensures held { slice_get self.old.agents agent ≡ Some (holdings_view result) }
        ensures kept { slice_get self.old.logs agent ≡ Some (logs_view result) }
        ensures swapped { self.new ≡ record self.old { agents = slice_set self.old.agents agent (holdings_view holdings); logs = slice_set self.old.logs agent (logs_view holdings) } }
    {
        replace(&mut self.agents[agent.0 as usize], holdings)
    }

    /// Does an update that the agent passes, as the master of its target: it's made ready, and then the agent holds the change, and
    /// notes it with the line's moment. The update is within the limits of messages. After want of memory all is as it was.
    pub(crate) fn commit(
        &mut self,
        alloc: Global,
        agent: AgentId,
        message: &Chained,
    ) -> Result<(), NoMemory>
        requires there { agent < length self.old.names }
        requires ready { (names : List (List ℕ)) × IsReady (holdings_in self.old agent) (chained_view names message.now) }
        requires within { BodyWithin (request_view message.now.request).body }
        ensures committed { IfOk result (λ _. IsCommittedAt agent (request_view message.now.request) self.old self.new) }
        ensures err { OnErr result (self.new ≡ self.old) }
    {
        let moment = Moment(self.line + 1);
        let held = &mut self.agents[agent.0 as usize];
        held.set_moment(moment);
        let update = x5_update::make_ready(alloc, held, message)?;
        x5_update::commit(held, update);
        Ok(())
    }

    /// The place of the agreement of this number; the first of several. No memory.
    pub(crate) fn place_of(&self, number: u32) -> Option<usize>
        ensures { result ≡ position (λ g. g.number == number) self.now.agreements }
    {
        self.agreements
            .as_slice()
            .iter()
            .position(|agreement| agreement.id == number)
    }

    /// The agreement of this place.
    pub(crate) fn agreement(&self, place: usize) -> Result<Agreement, NoMemory>
        requires { place < length self.now.agreements }
        ensures { IfOk result (λ g. slice_get self.now.agreements place ≡ Some g) }
    {
        Ok(self.agreements.as_slice()[place].clone()?)
    }

    /// The stamp of the last refresh by the agreement of this place that its supplier knows to be taken. No memory.
    pub(crate) fn acked(&self, place: usize) -> Option<Moment>
        requires { place < length self.now.acked }
        ensures { slice_get self.now.acked place ≡ Some result }
    {
        self.acked[place]
    }

    /// The agreement's supplier lists the entries of its context, if it masters that, so that a total refresh needs not go through its
    /// tree again. The network is the same.
    fn list_entries(&mut self, alloc: Global, agreement: &Agreement) -> Result<(), NoMemory>
        requires { agreement.now.supplier < length self.old.names }
        ensures { self.new ≡ self.old }
    {
        let agent = agreement.supplier;
        list_entries(
            alloc,
            &mut self.agents[agent.0 as usize],
            &agreement.context,
        )
    }

    /// What the agreement's supplier sends, or its problem, from its tree or from the list that it has made of its entries.
    fn sent_by(
        &mut self,
        alloc: Global,
        agreement: &Agreement,
        total: bool,
        last: Option<Moment>,
    ) -> Result<Supplied, NoMemory>
        requires { agreement.now.supplier < length self.old.names }
        ensures same { self.new ≡ self.old }
        ensures supplied { IfOk result (λ sent. IsSupplied self.old agreement.now total last sent) }
        ensures known { IfOk result (λ sent. IsKnown (length self.old.names) sent) }
        ensures bounded { IfOk result (λ sent. IsBounded sent) }
        ensures told { IfOk result (λ sent. is_of_supplier (problem_in sent) ≡ true) }
    {
        let moment = Moment(self.line + 1);
        let agent = agreement.supplier;
        let held = &mut self.agents[agent.0 as usize];
        held.set_moment(moment);
        match x5_refresh::supply(alloc, held, &agreement.context, total, last) {
            Ok(sent) => Ok(Supplied::Sent(sent.0, sent.1)),
            Err(SupplyFault::Shadow(problem)) => Ok(Supplied::Refused(problem)),
            Err(SupplyFault::NoMemory) => Err(NoMemory),
        }
    }

    /// What the agreement's supplier sends at this line, from the moment that it goes on from, or its problem (X.525, section 11.2).
    /// It is within the limits of messages.
    pub(crate) fn supply(
        &mut self,
        alloc: Global,
        agreement: &Agreement,
        total: bool,
        last: Option<Moment>,
    ) -> Result<Supplied, NoMemory>
        requires { agreement.now.supplier < length self.old.names }
        ensures same { self.new ≡ self.old }
        ensures supplied { IfOk result (λ sent. IsSupplied self.old agreement.now total last sent) }
        ensures known { IfOk result (λ sent. IsKnown (length self.old.names) sent) }
        ensures bounded { IfOk result (λ sent. IsBounded sent) }
        ensures told { IfOk result (λ sent. is_of_supplier (problem_in sent) ≡ true) }
    {
        if total {
            self.list_entries(alloc, agreement)?;
        }
        self.sent_by(alloc, agreement, total, last)
    }

    /// The agreement's consumer takes what was brought, at this line; it can be taken, names agents, and is within the limits of
    /// messages. How many entries or steps it is. After want of memory nobody is left in the network.
    pub(crate) fn accept(
        &mut self,
        alloc: Global,
        agreement: &Agreement,
        stamp: Moment,
        brought: Brought,
    ) -> Result<u64, NoMemory>
        requires there { agreement.now.consumer < length self.old.names }
        requires can { CanAccept (holdings_in self.old agreement.now.consumer) (key_of agreement.now.context) brought }
        requires known { is_known_in (length self.old.names) brought ≡ true }
        requires stamped { CountWithin stamp }
        requires bounded { IsBoundedIn brought }
        ensures taken { IfOk result (λ _. IsTakenAt self.old agreement.now stamp brought self.new) }
        ensures counted { IfOk result (λ count. count ≡ count_in brought) }
    {
        let moment = Moment(self.line + 1);
        let agent = agreement.consumer;
        let held = &mut self.agents[agent.0 as usize];
        held.set_moment(moment);
        let Ok(count) = x5_refresh::accept(alloc, held, &agreement.context, stamp, brought) else {
            *self = World::nobody(alloc);
            return Err(NoMemory);
        };
        Ok(count)
    }

    /// The supplier of the agreement of this place knows that a refresh with the stamp was taken. No memory.
    pub(crate) fn acknowledge(&mut self, place: usize, stamp: Moment)
        requires { place < length self.old.acked }
        ensures { self.new ≡ acknowledging true place stamp self.old }
    {
        self.acked[place] = Some(stamp);
    }

    /// One line more was done. No memory.
    fn count_line(&mut self)
        requires { self.old.line < 100000 }
        ensures { self.new ≡ record self.old { line = self.old.line + 1 } }
    {
        self.line += 1;
    }

    /// One line more was done, by so many messages. No memory.
    fn count(&mut self, messages: usize)
        requires room { self.old.sent + messages ≤ 18446744073709551615 }
        requires lines { self.old.line < 100000 }
        ensures { self.new ≡ record self.old { sent = self.old.sent + messages; line = self.old.line + 1 } }
    {
        self.sent += messages as u64;
        self.line += 1;
    }

    /// How many messages a request may take that is asked now.
    fn budget(&self, alloc: Global) -> Result<usize, NoMemory>
        requires { length self.now.network.lost_replies ≤ 100015 }
        ensures is { IfOk result (λ most. most ≡ ((self.now.contexts + 34) * (length self.now.names + 9) + self.now.pairs) * (1 + length (once_each (filter (λ number. nat_lt self.now.sent number) self.now.network.lost_replies)))) }
        ensures most { IfOk result (λ most. most ≤ most_messages) }
    {
        let losses = self.links.losses_behind(alloc, self.sent)?;
        Ok(((self.contexts + 34) * (self.names.len() + 9) + self.pairs) * (1 + losses))
    }

    /// What a message of the user is answered by this agent, the messages that it takes, in their order, and who accepts its update,
    /// where it may take so many; the user may have handed it over as another agent's (`dsp`). What an agent accepted it holds afterwards. After want of memory nobody is left in the network.
    fn send(
        &mut self,
        alloc: Global,
        dsp: bool,
        first: AgentId,
        message: Chained,
        most: usize,
    ) -> Result<(Reply, Journal), NoMemory>
        requires there { first < length self.old.names }
        requires short { HasShortNames (body_view message.request.body) }
        requires sent { MayBeSent self.old.names message }
        requires is { most ≡ ((self.old.contexts + 34) * (length self.old.names + 9) + self.old.pairs) * (1 + length (once_each (filter (λ number. nat_lt self.old.sent number) self.old.network.lost_replies))) }
        requires most { most ≤ most_messages }
        requires room { (lines : ℕ) × (HasRoom self.old lines × (lines < 100000)) }
        ensures names { IfOk result (λ _. self.new.names ≡ self.old.names) }
        ensures answered { IfOk result (λ out. (p : Point) → StandsAt self.old p → IsAnswered self.old self.new p first (chained_view self.old.names message) out.0 out.1) }
        ensures named { IfOk result (λ out. NamesAgents self.old.names out.0 out.1) }
        ensures room_after { IfOk result (λ _. (lines : ℕ) → HasRoom self.old lines → HasRoom self.new (lines + 1)) }
    {
        let before = replace(self, World::nobody(alloc));
        let told = asked::<Brand>(alloc, dsp, before, first, message, most)?;
        *self = told.world;
        let names = self.names();
        let lines = journal::lines(alloc, names, &told.lines)?;
        let journal = journal::journal(alloc, names, lines, &told.accepted)?;
        let messages = told.lines.len();
        self.count(messages);
        Ok((told.reply, journal))
    }

    /// What a user's request, within the limits of messages, is answered by this agent, the messages that it takes, in their order,
    /// and who accepts the update. What an agent accepted it holds afterwards. After want of memory nobody is left in the network.
    pub fn ask(
        &mut self,
        alloc: Global,
        first: AgentId,
        request: &Request,
    ) -> Result<(Reply, Journal), NoMemory>
        requires there { first < length self.old.names }
        requires short { HasShortNames (body_view request.now.body) }
        requires within { RequestWithin (request_view request.now) }
        requires room { (lines : ℕ) × (HasRoom self.old lines × (lines < 100000)) }
        ensures names { IfOk result (λ _. self.new.names ≡ self.old.names) }
        ensures answered { IfOk result (λ out. (p : Point) → StandsAt self.old p → IsAnswered self.old self.new p first (chain.opening (request_view request.now)) out.0 out.1) }
        ensures named { IfOk result (λ out. NamesAgents self.old.names out.0 out.1) }
        ensures room_after { IfOk result (λ _. (lines : ℕ) → HasRoom self.old lines → HasRoom self.new (lines + 1)) }
    {
        let most = self.budget(alloc)?;
        let message = heard(alloc, request)?;
        self.send(alloc, false, first, message, most)
    }

    /// A message of the user to this agent that is none: what becomes of it. No memory.
    fn spoil(&mut self, to: AgentId) -> Fate
        requires room { self.old.sent + 1 ≤ 18446744073709551615 }
        requires lines { self.old.line < 100000 }
        ensures fate { fate_view result ≡ network.fate_of self.old.network (self.old.sent + 1) None to }
        ensures counted { self.new ≡ record self.old { sent = self.old.sent + 1; line = self.old.line + 1 } }
    {
        let fate = self.fate(self.sent + 1, None, to);
        self.count(1);
        fate
    }

    /// Octets on their way to this agent that are no message: they have this first breach, or memory ran out in reading.
    fn reject(&mut self, to: AgentId, fault: WireFault) -> Result<Delivered, NoMemory>
        requires there { to < length self.old.names }
        requires room { (lines : ℕ) × (HasRoom self.old lines × (lines < 100000)) }
        ensures names { IfOk result (λ _. self.new.names ≡ self.old.names) }
        ensures rejected { IfOk result (λ d. (breach : typed.Breach) × (breach_in fault ≡ Some breach) × ((p : Point) (via : Protocol) (count : ℕ) → StandsAt self.old p → IsDelivered self.old self.new p via to count (Err (breach_view breach)) d)) }
        ensures named { IfOk result (λ d. NamesAgentsIn self.old.names d) }
        ensures room_after { IfOk result (λ _. (lines : ℕ) → HasRoom self.old lines → HasRoom self.new (lines + 1)) }
    {
        let Some(breach) = breach_of(fault) else {
            return Err(NoMemory);
        };
        let name = receiver(&self.names, to)?;
        let fate = self.spoil(to);
        Ok(Delivered::Rejected(name, fate, breach))
    }

    /// Hands a message that octets spell to this agent, as a user's or as another agent's (`dsp`); it may take so many messages.
    fn take(
        &mut self,
        alloc: Global,
        dsp: bool,
        to: AgentId,
        message: Chained,
        most: usize,
    ) -> Result<Delivered, NoMemory>
        requires there { to < length self.old.names }
        requires short { HasShortNames (body_view message.request.body) }
        requires sent { MayBeSent self.old.names message }
        requires is { most ≡ ((self.old.contexts + 34) * (length self.old.names + 9) + self.old.pairs) * (1 + length (once_each (filter (λ number. nat_lt self.old.sent number) self.old.network.lost_replies))) }
        requires most { most ≤ most_messages }
        requires room { (lines : ℕ) × (HasRoom self.old lines × (lines < 100000)) }
        ensures names { IfOk result (λ _. self.new.names ≡ self.old.names) }
        ensures taken { IfOk result (λ d. (p : Point) (via : Protocol) (count : ℕ) → StandsAt self.old p → IsDelivered self.old self.new p via to count (Ok (chained_view self.old.names message)) d) }
        ensures named { IfOk result (λ d. NamesAgentsIn self.old.names d) }
        ensures room_after { IfOk result (λ _. (lines : ℕ) → HasRoom self.old lines → HasRoom self.new (lines + 1)) }
    {
        let (reply, journal) = self.send(alloc, dsp, to, message, most)?;
        Ok(Delivered::Answered(reply, journal))
    }

    /// Hands octets to this agent as a user's message (X.519, section 7: DAP).
    fn deliver_request(
        &mut self,
        alloc: Global,
        to: AgentId,
        octets: &[u8],
    ) -> Result<Delivered, NoMemory>
        requires there { to < length self.old.names }
        requires room { (lines : ℕ) × (HasRoom self.old lines × (lines < 100000)) }
        ensures names { IfOk result (λ _. self.new.names ≡ self.old.names) }
        ensures delivered { IfOk result (λ d. (p : Point) → StandsAt self.old p → IsDeliveredAt self.old self.new p Dap to octets.now d) }
        ensures named { IfOk result (λ d. NamesAgentsIn self.old.names d) }
        ensures room_after { IfOk result (λ _. (lines : ℕ) → HasRoom self.old lines → HasRoom self.new (lines + 1)) }
    {
        let most = self.budget(alloc)?;
        match decode_request(alloc, octets) {
            Ok((_, request)) => {
                let opened = opening(alloc, &request);
                drop(request);
                let message = opened?;
                self.take(alloc, false, to, message, most)
            }
            Err(fault) => self.reject(to, fault),
        }
    }

    /// Hands octets to this agent as another agent's message (X.519, section 7: DSP).
    fn deliver_chained(
        &mut self,
        alloc: Global,
        to: AgentId,
        octets: &[u8],
    ) -> Result<Delivered, NoMemory>
        requires there { to < length self.old.names }
        requires room { (lines : ℕ) × (HasRoom self.old lines × (lines < 100000)) }
        ensures names { IfOk result (λ _. self.new.names ≡ self.old.names) }
        ensures delivered { IfOk result (λ d. (p : Point) → StandsAt self.old p → IsDeliveredAt self.old self.new p Dsp to octets.now d) }
        ensures named { IfOk result (λ d. NamesAgentsIn self.old.names d) }
        ensures room_after { IfOk result (λ _. (lines : ℕ) → HasRoom self.old lines → HasRoom self.new (lines + 1)) }
    {
        let most = self.budget(alloc)?;
        match decode_chained(alloc, octets) {
            Ok((_, message)) => self.take(alloc, true, to, message, most),
            Err(fault) => self.reject(to, fault),
        }
    }

    /// Hands octets to this agent as a user's message, or as another agent's (`dsp`; X.519, section 7): the message that they spell is
    /// answered as any other that comes to the agent; others are told by their first breach, and nothing changes. After want of memory
    /// the network isn't used again.
    pub fn deliver(
        &mut self,
        alloc: Global,
        dsp: bool,
        to: AgentId,
        octets: &[u8],
    ) -> Result<Delivered, NoMemory>
        requires there { to < length self.old.names }
        requires room { (lines : ℕ) × (HasRoom self.old lines × (lines < 100000)) }
        ensures names { IfOk result (λ _. self.new.names ≡ self.old.names) }
        ensures delivered { IfOk result (λ d. (p : Point) → StandsAt self.old p → IsDeliveredAt self.old self.new p (protocol_view dsp) to octets.now d) }
        ensures named { IfOk result (λ d. NamesAgentsIn self.old.names d) }
        ensures room_after { IfOk result (λ _. (lines : ℕ) → HasRoom self.old lines → HasRoom self.new (lines + 1)) }
    {
        if dsp {
            self.deliver_chained(alloc, to, octets)
        } else {
            self.deliver_request(alloc, to, octets)
        }
    }

    /// An agent is down or up again, a pair is cut or joined again, an agent refuses to chain or is willing again. After want of
    /// memory all is as it was.
    pub fn change(&mut self, outage: Outage) -> Result<(), NoMemory>
        requires room { (lines : ℕ) × (HasRoom self.old lines × (lines < 100000)) }
        ensures names { self.new.names ≡ self.old.names }
        ensures stands { IfOk result (λ _. (p : Point) → StandsAt self.old p → StandsAt self.new (after (did_by (Changes (outage_view outage)) Set) p)) }
        ensures room_after { IfOk result (λ _. (lines : ℕ) → HasRoom self.old lines → HasRoom self.new (lines + 1)) }
        ensures err { OnErr result (self.new ≡ self.old) }
    {
        self.links.change(outage)?;
        self.count_line();
        Ok(())
    }

    /// Of the messages sent from now on the one of this number, from 1, is lost, or the reply to it. After want of memory all is
    /// as it was.
    pub fn lose(&mut self, reply: bool, number: u32) -> Result<(), NoMemory>
        requires room { (lines : ℕ) × (HasRoom self.old lines × (lines < 100000)) }
        ensures names { self.new.names ≡ self.old.names }
        ensures stands { IfOk result (λ _. (p : Point) → StandsAt self.old p → StandsAt self.new (after (did_by (Drops reply number) Set) p)) }
        ensures room_after { IfOk result (λ _. (lines : ℕ) → HasRoom self.old lines → HasRoom self.new (lines + 1)) }
        ensures err { OnErr result (self.new ≡ self.old) }
    {
        let number = self.sent + u64::from(number);
        self.links.lose(reply, number)?;
        self.count_line();
        Ok(())
    }

    /// What the ends of agreements have seen, which the network has no more. No memory.
    fn take_seen(&mut self, alloc: Global) -> Vec<LastTotal>
        ensures { self.new ≡ self.old }
    {
        replace(&mut self.seen, Vec::new(alloc))
    }

    /// The ends of agreements have seen this. No memory.
    fn keep_seen(&mut self, seen: Vec<LastTotal>)
        ensures { self.new ≡ self.old }
    {
        self.seen = seen;
    }

    /// Refreshes the consumer's copy by the agreement of this number, pushed by the supplier or pulled by the consumer, wholly or by
    /// the changes since its moment (X.525, sections 9 to 12). Its messages go as octets, in which moments are dates and times from this
    /// start on. Knowledge is consistent. After want of memory the network isn't used again.
    pub fn refresh(
        &mut self,
        alloc: Global,
        start: &Start,
        number: u32,
        push: bool,
        total: bool,
    ) -> Result<Refreshment, NoMemory>
        requires room { (lines : ℕ) × (HasRoom self.old lines × (lines < 100000)) }
        requires sound { IsSound self.old }
        ensures names { IfOk result (λ _. self.new.names ≡ self.old.names) }
        ensures refreshed { IfOk result (λ r. (p : Point) → StandsAt self.old p → IsConsistent p.described → IsRefreshedAt self.new p number push total r) }
        ensures named { IfOk result (λ r. list_all (line_names_agents self.old.names) r.lines ≡ true) }
        ensures room_after { IfOk result (λ _. (lines : ℕ) → HasRoom self.old lines → HasRoom self.new (lines + 1)) }
    {
        let mut seen = self.take_seen(alloc);
        let done = refreshed(alloc, start, self, &mut seen, number, push, total)?;
        self.keep_seen(seen);
        self.count(done.lines.len());
        Ok(done)
    }

    /// A comment: nothing happens, and the next line finds the network as it is. No memory.
    pub fn pass(&mut self)
        requires room { (lines : ℕ) × (HasRoom self.old lines × (lines < 100000)) }
        ensures names { self.new.names ≡ self.old.names }
        ensures stands { (p : Point) → StandsAt self.old p → StandsAt self.new (after (did_by Blank Silent) p) }
        ensures room_after { (lines : ℕ) → HasRoom self.old lines → HasRoom self.new (lines + 1) }
    {
        self.count_line();
    }
}
