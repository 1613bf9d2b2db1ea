//! What agents stand in: the network that carries their messages, and what each agent does by itself.

ghost use Rattle.std.specs.Prelude.{◌≡◌, ℕ, ◌<◌, ◌≤◌, List, length, not, true, IfOk, Some};
ghost use Rattle.std.specs.List.{position, list_all};
ghost use Rattle.x5_model.specs.Words.{same_octets, distinct};
ghost use Rattle.x5_model_tree.specs.Described.{is_agent_name};
ghost use Rattle.x5_model_run.specs.Network.{refuses};
ghost use Rattle.x5_model_run.specs.Journal.{Journal, operation_of};
ghost use Rattle.x5_model_run.specs.Chain.{Scene};
ghost use Rattle.x5_model_heard.specs.Told.{KnowsAgents};
ghost use Rattle.x5_model_heard.specs.Kept.{IsOfUser};
ghost use Rattle.x5_model_serve.specs.Serving.{hand, is_done_here, with_accepted, Arrives};
ghost use Rattle.x5_ops.specs.JournalViews.{code_view};
ghost use Rattle.x5_ops.specs.ReferenceViews.{chained_view};
ghost use Rattle.x5_ops.specs.AnswerViews.{reply_view};
ghost use Rattle.x5_serve.specs.Sendable.{MayBeSent, IsTaken, MayBeReplied, KeepsLimits};
ghost use Rattle.x5_serve.specs.Networks.{left_of, Stays, IsCarriedBy, IsFound, IsVerdict, IsDue, IsReady};

use std::alloc::Global;
use x5_know::AgentNames;
use x5_memory::NoMemory;
use x5_names::Name;
use x5_ops::{
    AgentId, AgentName, Answer, Chained, DirError, Operation, Reference, ReferenceList, Reply,
};

/// What becomes of a message that is sent: it doesn't reach its receiver; none is left, so it isn't sent; it reaches its receiver,
/// whose reply will be lost; or it does, and the reply will too. Where it reaches its receiver it's as that one has it.
#[derive(Drop)]
pub enum Carried {
    Undelivered,
    Spent,
    Unheard(Chained),
    Taken(Chained),
}

/// Where the resolution of a name ends at an agent, with what it answers there by itself (X.518, sections 18 and 19): the reply to
/// a read or compare, from a context of its own or a copy; its part of a list or search, with the references for the rest; the
/// target of an update, in a context of its own. Or the name goes on by a reference; there is no such entry, this being the
/// lowest on the way; or the agent can't go on from the progress.
#[derive(Drop)]
pub enum Found {
    Told(Reply),
    Part(Answer, ReferenceList),
    Due,
    Onward(Reference),
    Nowhere(Name),
    Stuck,
}

/// What a master makes of an update by its own ground: it's refused, or may be done, once the agents of the reference, if there is
/// one, are probed (X.518, section 19.1).
#[derive(Drop)]
pub enum Verdict {
    Refused(DirError),
    Passed(Option<Reference>),
}

/// Agents in a network, while one request is carried through. Whoever implements it gives what each agent does by itself and what
/// becomes of messages; who asks whom, in which order and what is made of replies is this crate's.
///
/// `scene` is what the request is judged by: what each agent held when it began, how the network stood, how many messages were
/// sent before, and what the user asked of whom. It stays to the end; an agent that accepted the update meanwhile holds what
/// `holds_now` says of `scene` and `journal`. `most` is how many messages the request may take. `journal` has the request's
/// messages so far, the newest first, and the agents that accepted its update. `names` has the agents' names; an agent is called
/// by its place among them. Two methods change anything, `commit` and `carry`, and these the journal alone.
///
/// After want of memory nothing is promised of the journal but that no message comes back, and the network isn't used again.
pub trait Network {
    ghost scene: { Self → Scene };

    ghost most: { Self → ℕ };

    ghost journal: { Self → Journal };

    ghost names: { Self → List (List ℕ) };

    /// The agents' names, each at its agent's place. No memory.
    fn names(&self) -> &AgentNames
        ensures { result.now ≡ names self.now };

    /// The agent of this name; None exactly where there is none. No memory.
    fn named(&self, name: &AgentName) -> Option<AgentId>
        ensures { result ≡ position (λ n. same_octets n name.now) (names self.now) };

    /// Whether the agent chains: it doesn't where the network has it refuse (X.518, section 10). No memory.
    fn willing(&self, id: AgentId) -> bool
        requires { id < length (names self.now) }
        ensures { result ≡ not (refuses (scene self.now).network id) };

    /// Whether the message is an update that the agent accepted before for this request, and it can go on with its name, by what it
    /// holds since. No memory.
    fn is_done(&self, me: AgentId, message: &Chained) -> bool
        requires { me < length (names self.now) }
        ensures { result ≡ is_done_here (scene self.now) (hand me (chained_view (names self.now) message.now)) (journal self.now) };

    /// Resolves the name of a message at its receiver, and answers it there from what that agent holds now, without asking anybody
    /// (X.518, sections 18 and 19). The message was looked at: it is no loop, not too long, not done before, not refused by its
    /// request alone, and fits that; an update is the user's, and so is a read or compare. The references that it tells name agents
    /// of the network.
    fn find(&self, alloc: Global, me: AgentId, message: &Chained) -> Result<Found, NoMemory>
        requires there { me < length (names self.now) }
        requires of_user { IsOfUser (scene self.now) (chained_view (names self.now) message.now) }
        requires arrives { Arrives (scene self.now) (hand me (chained_view (names self.now) message.now)) (journal self.now) }
        ensures { IfOk result (λ found. IsFound (scene self.now) (names self.now) (journal self.now) (hand me (chained_view (names self.now) message.now)) found) };

    /// Judges an update at the agent that has its target, and does nothing (X.511, section 11; X.518, section 19.1). The update is
    /// the user's, and the agent accepted none before for this request.
    fn prepare(&self, alloc: Global, me: AgentId, message: &Chained) -> Result<Verdict, NoMemory>
        requires there { me < length (names self.now) }
        requires due { IsDue (scene self.now) (journal self.now) (hand me (chained_view (names self.now) message.now)) }
        ensures { IfOk result (λ verdict. IsVerdict (scene self.now) (names self.now) (journal self.now) (hand me (chained_view (names self.now) message.now)) verdict) };

    /// Does an update that its master doesn't refuse, and notes that the agent accepted it; no message is sent. Nobody else did it,
    /// and while probes went around the master's verdict stayed.
    fn commit(&mut self, alloc: Global, me: AgentId, message: &Chained) -> Result<(), NoMemory>
        requires there { me < length (names self.old) }
        requires ready { IsReady (scene self.old) (journal self.old) (hand me (chained_view (names self.old) message.now)) }
        ensures stays { Stays scene most names self.old self.new }
        ensures left { left_of (most self.new) (journal self.new) ≤ left_of (most self.old) (journal self.old) }
        ensures accepted { IfOk result (λ _. journal self.new ≡ with_accepted me (journal self.old)) };

    /// Sends a message from agent to agent. Where none is left nothing is noted (`Spent`); else it counts, and its line is noted
    /// with its number, sender, receiver, text and fate, whether or not it arrives. Where it arrives its receiver has just what
    /// was sent. It needs a message that may be sent, and what its receiver has may be sent too.
    fn carry(
        &mut self,
        alloc: Global,
        from: AgentId,
        to: AgentId,
        message: &Chained,
    ) -> Result<Carried, NoMemory>
        requires from { from < length (names self.old) }
        requires to { to < length (names self.old) }
        requires sent { MayBeSent (names self.old) message.now }
        ensures stays { Stays scene most names self.old self.new }
        ensures left { left_of (most self.new) (journal self.new) ≤ left_of (most self.old) (journal self.old) }
        ensures taken { IfOk result (λ carried. IsTaken (names self.old) carried) }
        ensures carried { IfOk result (λ carried. IsCarriedBy (scene self.old) (most self.old) (names self.old) (journal self.old) (journal self.new) (Some from) to (chained_view (names self.old) message.now) carried) };

    /// Carries back the reply to a message with this operation, which it answers: the sender has just what was replied. Replies
    /// aren't noted.
    fn carry_back(
        &self,
        alloc: Global,
        operation: Operation,
        reply: &Reply,
    ) -> Result<Reply, NoMemory>
        requires { MayBeReplied (names self.now) (code_view operation) reply.now }
        ensures { IfOk result (λ back. reply_view (names self.now) back ≡ reply_view (names self.now) reply.now) };

    /// No two agents have one name.
    ghost apart: { (net : Self) → distinct same_octets (names net) ≡ true };

    /// They are as agents may be named.
    ghost plain: { (net : Self) → list_all is_agent_name (names net) ≡ true };

    /// What agents of the network know, whatever was accepted, are agents of the network.
    ghost knows: { (net : Self) → KnowsAgents (length (names net)) (scene net) };

    /// What agents of the network hold, what the user asked, and all messages that were sent are within the limits of messages.
    ghost bounded: { (net : Self) → KeepsLimits (length (names net)) (scene net) (journal net) };
}
