//! The messages of a request or a refresh, and what a script does to the network (X.518; X.525).

ghost use Rattle.std.specs.Prelude.{◌≡◌};
ghost use Rattle.x5_ops.specs.JournalViews.{fate_view, code_view};
ghost use Rattle.x5_model_run.specs.Network as network;

use crate::agents::{AgentId, AgentName, AgentNameList};
use crate::answers::Moment;
use crate::lists::Listed;
use crate::references::Progress;
use x5_names::Name;

/// An operation that a user requests (X.511, sections 9 to 11).
#[derive(Clone, Copy, PartialEq, Eq)]
pub enum Operation {
    Read,
    Compare,
    List,
    Search,
    AddEntry,
    RemoveEntry,
    ModifyEntry,
    ModifyDn,
}

impl Operation {
    /// Its code in a message (X.519, section 7). No memory.
    pub fn code(self) -> u8
        ensures { result ≡ code_view self }
    {
        match self {
            Operation::Read => 1,
            Operation::Compare => 2,
            Operation::List => 4,
            Operation::Search => 5,
            Operation::AddEntry => 6,
            Operation::RemoveEntry => 7,
            Operation::ModifyEntry => 8,
            Operation::ModifyDn => 9,
        }
    }
}

/// An operation between a supplier and a consumer (X.525, section 11).
#[derive(Clone, Copy, PartialEq, Eq)]
pub enum ShadowOperation {
    RequestShadowUpdate,
    UpdateShadow,
    CoordinateShadowUpdate,
}

/// What became of a message: it didn't arrive; it arrived, and its reply didn't; both arrived.
#[derive(Clone, Copy, PartialEq, Eq)]
pub enum Fate {
    Lost,
    NoReply,
    Sent,
}

impl Fate {
    /// Whether the receiver has the message. No memory.
    pub fn arrives(self) -> bool
        ensures { result ≡ network.arrives (fate_view self) }
    {
        match self {
            Fate::Lost => false,
            Fate::NoReply | Fate::Sent => true,
        }
    }

    /// Whether the sender hears nothing. No memory.
    pub fn is_unheard(self) -> bool
        ensures { result ≡ network.is_unheard (fate_view self) }
    {
        match self {
            Fate::Lost | Fate::NoReply => true,
            Fate::Sent => false,
        }
    }
}

/// A message: of a request, where `from` is None for the user and `t` is how many agents passed the request on before; of a
/// refresh; or raw octets for an agent, by the protocol between agents or not, and how many.
#[derive(Drop)]
pub enum Line {
    Msg {
        from: Option<AgentName>,
        to: AgentName,
        operation: Operation,
        progress: Progress,
        t: u32,
        target: Name,
        fate: Fate,
    },
    Dis {
        from: AgentName,
        to: AgentName,
        operation: ShadowOperation,
        agreement: u32,
        fate: Fate,
    },
    Raw {
        to: AgentName,
        dsp: bool,
        count: u64,
        fate: Fate,
    },
}

/// Messages in the order in which they were sent.
pub type LineList = Listed<Line>;

/// The messages of a line of a script, and the agents that accepted its update, both in their order.
#[derive(Drop)]
pub struct Journal {
    pub lines: LineList,
    pub accepted: AgentNameList,
}

/// What a refresh did (X.525, section 9): a total or incremental one with its moment and how many entries or steps were sent,
/// one that found nothing new, a message that wasn't heard, or a problem by its number with the moments that the consumer and
/// the supplier have.
#[derive(Clone, Copy, Drop)]
pub enum Refreshed {
    Total(Moment, u64),
    Incremental(Moment, u64),
    Nothing(Moment),
    Lost,
    Failed {
        problem: u8,
        held: Option<Moment>,
        given: Option<Moment>,
    },
}

/// What a script does to the network: an agent is down or up again, a pair is cut or joined again, an agent refuses to chain
/// or is willing again.
#[derive(Clone, Copy, PartialEq, Eq)]
pub enum Outage {
    Down(AgentId),
    Up(AgentId),
    Cut(AgentId, AgentId),
    Join(AgentId, AgentId),
    Refuse(AgentId),
    Willing(AgentId),
}

/// What a split or an unsplit of a naming context did: the entry's new master, or why nothing was done: the name isn't an
/// entry, is a context prefix, is none, is one of one RDN, a context has an agreement, or a limit would be passed.
#[derive(Clone, Copy, PartialEq, Eq)]
pub enum Replanted {
    Done(AgentId),
    NoEntry,
    IsPin,
    NoPin,
    TopPin,
    HasAgreement,
    Full,
}
