//! What agents tell each other beside a request (X.518, section 10).

ghost use Rattle.std.specs.Prelude.{◌≡◌, ℕ, List, IfOk};
ghost use Rattle.std.specs.Option.{option_map};
ghost use Rattle.x5_ops.specs.ReferenceViews.{progress_view, kind_view, kind_of_number, chained_view};
ghost use Rattle.x5_model_run.specs.Journal as journal;

use crate::agents::AgentName;
use crate::lists::Listed;
use crate::requests::Request;
use std::alloc::{AllocError, Global};
use x5_names::{Name, Rdn};

/// How far a name is resolved (X.518, section 10.5): not at all, all RDNs before the k-th, counted from 1, or whole.
#[derive(Clone, Copy, PartialEq, Eq)]
pub enum Progress {
    NotStarted,
    Proceeding(u8),
    Completed,
}

impl Progress {
    /// Whether the two are the same. No memory.
    pub fn is_same(self, other: Progress) -> bool
        ensures { result ≡ journal.same_progress (progress_view self) (progress_view other) }
    {
        match (self, other) {
            (Progress::NotStarted, Progress::NotStarted) => true,
            (Progress::Proceeding(a), Progress::Proceeding(b)) => a == b,
            (Progress::Completed, Progress::Completed) => true,
            _ => false,
        }
    }
}

/// Kinds of knowledge references (X.501, section 22); `Own` is the one by which a user asks an agent.
#[derive(Clone, Copy, PartialEq, Eq)]
pub enum RefType {
    Superior,
    Subordinate,
    Cross,
    NonSpecific,
    Supplier,
    Own,
}

impl RefType {
    /// Its number in messages (X.518, section 10.7). No memory.
    pub fn number(self) -> u8
        ensures { result ≡ journal.kind_number (kind_view self) }
    {
        match self {
            RefType::Superior => 1,
            RefType::Subordinate => 2,
            RefType::Cross => 3,
            RefType::NonSpecific => 4,
            RefType::Supplier => 5,
            RefType::Own => 8,
        }
    }

    /// The kind with the number, if there is one. No memory.
    pub fn from_number(number: u8) -> Option<RefType>
        ensures { option_map kind_view result ≡ kind_of_number number }
    {
        match number {
            1 => Some(RefType::Superior),
            2 => Some(RefType::Subordinate),
            3 => Some(RefType::Cross),
            4 => Some(RefType::NonSpecific),
            5 => Some(RefType::Supplier),
            8 => Some(RefType::Own),
            _ => None,
        }
    }

    /// Whether it's nonSpecific. No memory.
    pub fn is_wide(self) -> bool
        ensures { result ≡ journal.is_wide (kind_view self) }
    {
        self.number() == 4
    }
}

/// An item of trace information (X.518, section 10.6): an agent, and the message that it received; `wide` marks a message
/// of the type nonSpecific.
#[derive(Drop)]
pub struct TraceItem {
    pub agent: AgentName,
    pub target: Name,
    pub progress: Progress,
    pub wide: bool,
}

/// The items of the agents that passed a message on, the newest last.
pub type Trace = Listed<TraceItem>;

/// An agent that a reference names; `copy` says that it has a copy of the context, and isn't its master.
#[derive(Drop)]
pub struct AccessPoint {
    pub agent: AgentName,
    pub copy: bool,
}

/// Agents of a reference, in the order in which they are asked.
pub type AccessList = Listed<AccessPoint>;

/// RDNs in their order.
pub type RdnList = Listed<Rdn>;

/// A continuation reference (X.518, section 10.9); `tried` says that its agents were asked in vain. The entries below the
/// target by the RDNs of `exclusions` are left out.
#[derive(Drop)]
pub struct Reference {
    pub target: Name,
    pub progress: Progress,
    pub kind: RefType,
    pub agents: AccessList,
    pub exclusions: RdnList,
    pub tried: bool,
}

/// References in their order.
pub type ReferenceList = Listed<Reference>;

/// A message between agents (X.518, section 10.3: chaining arguments).
#[derive(Drop)]
pub struct Chained {
    pub target: Name,
    pub progress: Progress,
    pub kind: RefType,
    pub exclusions: RdnList,
    pub trace: Trace,
    pub request: Request,
}

impl Clone for TraceItem {
    ghost is_clone = { λ a b. b ≡ a };

    fn clone(&self) -> Result<TraceItem, AllocError> {
        Ok(TraceItem {
            agent: self.agent.clone()?,
            target: self.target.clone()?,
            progress: self.progress,
            wide: self.wide,
        })
    }
}

impl Clone for AccessPoint {
    ghost is_clone = { λ a b. b ≡ a };

    fn clone(&self) -> Result<AccessPoint, AllocError> {
        Ok(AccessPoint {
            agent: self.agent.clone()?,
            copy: self.copy,
        })
    }
}

impl Clone for Reference {
    ghost is_clone = { λ a b. b ≡ a };

    fn clone(&self) -> Result<Reference, AllocError> {
        Ok(Reference {
            target: self.target.clone()?,
            progress: self.progress,
            kind: self.kind,
            agents: self.agents.clone()?,
            exclusions: self.exclusions.clone()?,
            tried: self.tried,
        })
    }
}

impl Chained {
    /// A copy.
    pub fn copy(&self, alloc: Global) -> Result<Chained, AllocError>
        ensures { IfOk result (λ m. (names : List (List ℕ)) → chained_view names m ≡ chained_view names self.now) }
    {
        Ok(Chained {
            target: self.target.clone()?,
            progress: self.progress,
            kind: self.kind,
            exclusions: self.exclusions.clone()?,
            trace: self.trace.clone()?,
            request: self.request.copy(alloc)?,
        })
    }
}
