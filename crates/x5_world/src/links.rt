//! How the network stands at a line: who is down, which pairs are cut, who refuses to chain, and which messages and replies are
//! lost.

ghost use Rattle.std.specs.Prelude.{◌≡◌, ◌≤◌, ◌==◌, nat_lt, not, length, IfOk, OnErr};
ghost use Rattle.std.specs.List.{filter, list_any};
ghost use Rattle.x5_model.specs.Words.{has};
ghost use Rattle.x5_model_run.specs.Network as network;
ghost use Rattle.x5_model_run.specs.Stage.{once_each};
ghost use Rattle.x5_ops.specs.JournalViews.{fate_view, outage_view};
ghost use Rattle.x5_world.specs.Sent.{no_net};

use std::alloc::Global;
use std::marker::Model;
use x5_know::{NetworkState, Pair};
use x5_memory::NoMemory;
use x5_ops::{AgentId, Fate, Outage};

/// The network between the agents. Whoever is down, cut or lost twice stands here twice.
#[derive(Drop)]
pub(crate) struct Links {
    down: Vec<AgentId>,
    refusing: Vec<AgentId>,
    cut: Vec<Pair>,
    lost_messages: Vec<u64>,
    lost_replies: Vec<u64>,
}

impl Model for Links {
    ghost use Rattle.x5_model_tree.specs.World.{Network};

    ghost Value = { Network };

    ghost view = { λ l. record { down = l.down.items; refusing = l.refusing.items; cut = l.cut.items; lost_messages = l.lost_messages.items; lost_replies = l.lost_replies.items } };
}

/// The numbers, as messages are counted.
fn widened(alloc: Global, numbers: &[u32]) -> Result<Vec<u64>, NoMemory>
    ensures { IfOk result (λ wide. wide.items ≡ numbers.now) }
{
    let mut wide = Vec::new(alloc);
    for number in numbers {
        wide.push(u64::from(*number))?;
    }
    Ok(wide)
}

/// Whether the agent is one of these. No memory.
pub(crate) fn has_agent(agents: &[AgentId], agent: AgentId) -> bool
    ensures { result ≡ has ◌==◌ agents.now agent }
{
    agents.iter().any(|other| other.0 == agent.0)
}

/// Whether the number is one of these. No memory.
fn has_number(numbers: &[u64], number: u64) -> bool
    ensures { result ≡ has ◌==◌ numbers.now number }
{
    numbers.iter().any(|other| *other == number)
}

/// Whether this is the pair of the two, in either order. No memory.
fn is_pair(a: AgentId, b: AgentId, pair: &Pair) -> bool
    ensures { result ≡ network.is_pair a b pair.now }
{
    (pair.a.0 == a.0 && pair.b.0 == b.0) || (pair.a.0 == b.0 && pair.b.0 == a.0)
}

/// Drops the agent from the list, wherever it stands. No memory.
fn drop_agent(agents: &mut Vec<AgentId>, agent: AgentId)
    ensures { agents.new.items ≡ network.without agent agents.old.items }
{
    agents.retain(|other| other.0 != agent.0);
}

/// Drops the pair from the list, wherever it stands and in either order. No memory.
fn drop_pair(pairs: &mut Vec<Pair>, a: AgentId, b: AgentId)
    ensures { pairs.new.items ≡ filter (λ p. not (network.is_pair a b p)) pairs.old.items }
{
    pairs.retain(|pair| !is_pair(a, b, pair));
}

/// The numbers above this one.
fn later(alloc: Global, numbers: &[u64], sent: u64) -> Result<Vec<u64>, NoMemory>
    ensures { IfOk result (λ more. more.items ≡ filter (λ n. nat_lt sent n) numbers.now) }
{
    let mut more = Vec::new(alloc);
    for number in numbers {
        if *number > sent {
            more.push(*number)?;
        }
    }
    Ok(more)
}

/// How many different numbers these are. No memory.
fn different(numbers: &[u64]) -> usize
    ensures count { result ≡ length (once_each numbers.now) }
    ensures most { result ≤ length numbers.now }
{
    let mut count = 0;
    let mut at = numbers.len();
    while at > 0 {
        at -= 1;
        let again = has_number(&numbers[at + 1..], numbers[at]);
        if !again {
            count += 1;
        }
    }
    count
}

impl Links {
    /// The network between nobody. No memory.
    pub(crate) fn nobody(alloc: Global) -> Links
        ensures { result ≡ no_net.network }
    {
        Links {
            down: Vec::new(alloc),
            refusing: Vec::new(alloc),
            cut: Vec::new(alloc),
            lost_messages: Vec::new(alloc),
            lost_replies: Vec::new(alloc),
        }
    }

    /// The network as a world's file describes it.
    pub(crate) fn of(alloc: Global, state: &NetworkState) -> Result<Links, NoMemory>
        ensures { IfOk result (λ links. links ≡ state.now) }
    {
        Ok(Links {
            down: Vec::from_slice(alloc, state.down.as_slice())?,
            refusing: Vec::from_slice(alloc, state.refusing.as_slice())?,
            cut: Vec::from_slice(alloc, state.cut.as_slice())?,
            lost_messages: widened(alloc, state.lost_messages.as_slice())?,
            lost_replies: widened(alloc, state.lost_replies.as_slice())?,
        })
    }

    /// Whether the agent is up. No memory.
    fn is_up(&self, agent: AgentId) -> bool
        ensures { result ≡ network.is_up self.now agent }
    {
        !has_agent(&self.down, agent)
    }

    /// Whether the agent doesn't chain. No memory.
    pub(crate) fn refuses(&self, agent: AgentId) -> bool
        ensures { result ≡ network.refuses self.now agent }
    {
        has_agent(&self.refusing, agent)
    }

    /// Whether the pair of the two is cut. No memory.
    fn is_cut(&self, a: AgentId, b: AgentId) -> bool
        ensures { result ≡ list_any (network.is_pair a b) self.now.cut }
    {
        self.cut.iter().any(|pair| is_pair(a, b, pair))
    }

    /// Whether a message of the agent, or of the user, reaches the other. No memory.
    fn reaches(&self, from: Option<AgentId>, to: AgentId) -> bool
        ensures { result ≡ network.reaches self.now from to }
    {
        match from {
            None => self.is_up(to),
            Some(from) => self.is_up(from) && self.is_up(to) && !self.is_cut(from, to),
        }
    }

    /// What becomes of the message of this number, from 1. No memory.
    pub(crate) fn fate(&self, number: u64, from: Option<AgentId>, to: AgentId) -> Fate
        ensures { fate_view result ≡ network.fate_of self.now number from to }
    {
        if !self.reaches(from, to) || has_number(&self.lost_messages, number) {
            Fate::Lost
        } else if has_number(&self.lost_replies, number) {
            Fate::NoReply
        } else {
            Fate::Sent
        }
    }

    /// How many replies to messages behind so many are to be lost, each once.
    pub(crate) fn losses_behind(&self, alloc: Global, sent: u64) -> Result<usize, NoMemory>
        ensures count { IfOk result (λ n. n ≡ length (once_each (filter (λ number. nat_lt sent number) self.now.lost_replies))) }
        ensures most { IfOk result (λ n. n ≤ length self.now.lost_replies) }
    {
        let later = later(alloc, &self.lost_replies, sent)?;
        Ok(different(&later))
    }

    /// What a script does to the network. After want of memory it's as it was.
    pub(crate) fn change(&mut self, outage: Outage) -> Result<(), NoMemory>
        ensures ok { IfOk result (λ _. self.new ≡ network.after_outage (outage_view outage) self.old) }
        ensures err { OnErr result (self.new ≡ self.old) }
    {
        match outage {
            Outage::Down(agent) => self.down.insert(0, agent)?,
            Outage::Up(agent) => drop_agent(&mut self.down, agent),
            Outage::Cut(a, b) => self.cut.insert(0, Pair { a, b })?,
            Outage::Join(a, b) => drop_pair(&mut self.cut, a, b),
            Outage::Refuse(agent) => self.refusing.insert(0, agent)?,
            Outage::Willing(agent) => drop_agent(&mut self.refusing, agent),
        }
        Ok(())
    }

    /// The message of this number is to be lost, or the reply to it. After want of memory the network is as it was.
    pub(crate) fn lose(&mut self, reply: bool, number: u64) -> Result<(), NoMemory>
        ensures ok { IfOk result (λ _. self.new ≡ network.after_loss reply number self.old) }
        ensures err { OnErr result (self.new ≡ self.old) }
    {
        if reply {
            self.lost_replies.insert(0, number)?;
        } else {
            self.lost_messages.insert(0, number)?;
        }
        Ok(())
    }
}
