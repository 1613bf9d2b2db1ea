//! What a user is answered (X.511).

ghost use Rattle.std.specs.Prelude.{◌≡◌};

use crate::agents::AgentName;
use crate::lists::Listed;
use crate::references::{Reference, ReferenceList, TraceItem};
use crate::requests::AttributeList;
use std::alloc::AllocError;
use std::fmt;
use std::marker::Model;
use x5_names::{Name, Rdn};
use x5_syntax::TypeRef;

/// A moment: seconds since the world's start.
#[derive(Clone, Copy, PartialEq, Eq)]
pub struct Moment(pub u32);

impl Model for Moment {
    ghost use Rattle.std.specs.Prelude.{ℕ};

    ghost Value = { ℕ };

    ghost view = { λ m. m.0 };

    ghost inverse = { λ n. record { 0 = n } };
}

/// A naming context that an answer was computed from, its agent, and the moment of the copy; None at a master.
#[derive(Drop)]
pub struct Source {
    pub context: Name,
    pub agent: AgentName,
    pub moment: Option<Moment>,
}

/// Sources in their order.
pub type SourceList = Listed<Source>;

/// The partial outcome of a list or search (X.511, section 10.1.3): whether a size limit cut it, and the parts that nobody
/// looked into.
#[derive(Drop)]
pub struct Outcome {
    pub limited: bool,
    pub unexplored: ReferenceList,
}

/// What an answer says of an entry (X.511, section 7.7); `copy` says that it comes from a shadow.
#[derive(Drop)]
pub struct EntryInfo {
    pub name: Name,
    pub copy: bool,
    pub attributes: AttributeList,
}

/// What a search found, in its order.
pub type EntryList = Listed<EntryInfo>;

/// What a list says of an entry below; `copy` says that it comes from a shadow.
#[derive(Drop)]
pub struct Sub {
    pub rdn: Rdn,
    pub copy: bool,
}

/// What a list found, in its order.
pub type SubList = Listed<Sub>;

/// A result: of a read, a compare, a list, a search, or an update.
#[derive(Drop)]
pub enum Answer {
    Entry {
        entry: EntryInfo,
        source: Source,
    },
    Match {
        matched: bool,
        copy: bool,
        source: Source,
    },
    Listed {
        subs: SubList,
        sources: SourceList,
        outcome: Outcome,
    },
    Found {
        entries: EntryList,
        sources: SourceList,
        outcome: Outcome,
    },
    Changed,
}

/// An error (X.511, section 12), with the number of its problem; a name error is noSuchObject, with the longest part of the
/// name that is an entry.
#[derive(Drop)]
pub enum DirError {
    Name {
        matched: Name,
    },
    Attribute {
        problem: u8,
        kind: TypeRef,
    },
    Update {
        problem: u8,
    },
    Service {
        problem: u8,
        reference: Option<Reference>,
        item: Option<TraceItem>,
    },
}

impl fmt::Debug for DirError {
    /// What kind of error it is: all that an error which wraps it says of it.
    fn fmt<W: fmt::Write>(&self, f: &mut fmt::Formatter<W>) -> fmt::Result {
        match self {
            DirError::Name { .. } => write!(f, "a name error"),
            DirError::Attribute { .. } => write!(f, "an attribute error"),
            DirError::Update { .. } => write!(f, "an update error"),
            DirError::Service { .. } => write!(f, "a service error"),
        }
    }
}

/// What is answered to a request: a result, an error or a referral.
#[derive(Drop)]
pub enum Reply {
    Done(Answer),
    Failed(DirError),
    Refer(Reference),
}

impl Clone for Source {
    ghost is_clone = { λ a b. b ≡ a };

    fn clone(&self) -> Result<Source, AllocError> {
        Ok(Source {
            context: self.context.clone()?,
            agent: self.agent.clone()?,
            moment: self.moment,
        })
    }
}

impl Clone for EntryInfo {
    ghost is_clone = { λ a b. b ≡ a };

    fn clone(&self) -> Result<EntryInfo, AllocError> {
        Ok(EntryInfo {
            name: self.name.clone()?,
            copy: self.copy,
            attributes: self.attributes.clone()?,
        })
    }
}

impl Clone for Sub {
    ghost is_clone = { λ a b. b ≡ a };

    fn clone(&self) -> Result<Sub, AllocError> {
        Ok(Sub {
            rdn: self.rdn.clone()?,
            copy: self.copy,
        })
    }
}
