//! What agents keep: naming contexts, and what they know of others (X.501: knowledge; X.525: shadowing agreements).

ghost use Rattle.std.specs.Prelude.{◌≡◌};

use crate::agents::{AgentId, AgentList, AgentName};
use crate::lists::Listed;
use std::alloc::AllocError;
use std::marker::Model;
use x5_match::Entry;
use x5_names::Name;

/// Where a context can be asked for: its master, and zero to eight agents that have a copy.
#[derive(Drop)]
pub struct Access {
    pub master: AgentId,
    pub shadows: AgentList,
}

impl Model for Access {
    ghost use Rattle.x5_model_tree.specs.World as world;

    ghost Value = { world.Access };

    ghost view = { λ a. record { master = a.master; shadows = a.shadows } };
}

/// A subordinate reference: the prefix of a context below, and where it can be asked for. `context` is the prefix of the
/// mastered context or the copy to which it belongs, and the root for one of one RDN at a first-level agent.
#[derive(Drop)]
pub struct Specific {
    pub context: Name,
    pub pin: Name,
    pub access: Access,
}

/// Subordinate references in their order.
pub type SpecificList = Listed<Specific>;

/// A cross reference: the prefix of a context anywhere, and where it can be asked for.
#[derive(Drop)]
pub struct Cross {
    pub pin: Name,
    pub access: Access,
}

/// Cross references in their order.
pub type CrossList = Listed<Cross>;

/// A non-specific subordinate reference: agents that master something just below the entry `at`, which is of the context.
#[derive(Drop)]
pub struct Nssr {
    pub context: Name,
    pub at: Name,
    pub agents: AgentList,
}

/// Non-specific subordinate references in their order.
pub type NssrList = Listed<Nssr>;

/// A supplier reference: the agent that a copy of the context comes from.
#[derive(Drop)]
pub struct Supplier {
    pub context: Name,
    pub agent: AgentId,
}

/// Supplier references in their order.
pub type SupplierList = Listed<Supplier>;

/// What an agent knows of others.
#[derive(Drop)]
pub struct Refs {
    pub superior: Option<AgentId>,
    pub specific: SpecificList,
    pub cross: CrossList,
    pub nssr: NssrList,
    pub suppliers: SupplierList,
}

/// An entry with its full name.
#[derive(Drop)]
pub struct Named {
    pub name: Name,
    pub entry: Entry,
}

impl Model for Named {
    ghost use Rattle.x5_model.specs.Entries as entries;

    ghost Value = { entries.Named };

    ghost view = { λ n. record { name = n.name; entry = n.entry } };
}

/// Entries with their names, in their order.
pub type NamedList = Listed<Named>;

/// What a total refresh brings: entries, subordinate references and NSSRs of one context. Each reference's `context` is the root.
#[derive(Drop)]
pub struct Content {
    pub entries: NamedList,
    pub specific: SpecificList,
    pub nssr: NssrList,
}

/// A change of a context that an incremental refresh brings.
#[derive(Drop)]
pub enum Step {
    Add(Named),
    Remove(Name),
    Modify(Named),
    Rename(Name, Named),
}

/// Changes in their order.
pub type StepList = Listed<Step>;

/// A naming context that an agent masters: its prefix, its entries, each behind its parent and the prefix's first, and its NSSRs.
#[derive(Drop)]
pub struct ContextSpec {
    pub prefix: Name,
    pub entries: NamedList,
    pub nssr: NssrList,
}

/// Naming contexts in their order.
pub type ContextSpecList = Listed<ContextSpec>;

/// What is described of an agent; one without a superior is first-level.
#[derive(Drop)]
pub struct AgentSpec {
    pub name: AgentName,
    pub superior: Option<AgentId>,
    pub contexts: ContextSpecList,
    pub specific: SpecificList,
    pub cross: CrossList,
}

/// The world's agents in the order of its file: an `AgentId` is a place here.
pub type AgentSpecs = Listed<AgentSpec>;

impl Clone for Access {
    ghost is_clone = { λ a b. b ≡ a };

    fn clone(&self) -> Result<Access, AllocError> {
        Ok(Access {
            master: self.master,
            shadows: self.shadows.clone()?,
        })
    }
}

impl Clone for Specific {
    ghost is_clone = { λ a b. b ≡ a };

    fn clone(&self) -> Result<Specific, AllocError> {
        Ok(Specific {
            context: self.context.clone()?,
            pin: self.pin.clone()?,
            access: self.access.clone()?,
        })
    }
}

impl Clone for Nssr {
    ghost is_clone = { λ a b. b ≡ a };

    fn clone(&self) -> Result<Nssr, AllocError> {
        Ok(Nssr {
            context: self.context.clone()?,
            at: self.at.clone()?,
            agents: self.agents.clone()?,
        })
    }
}

impl Clone for Named {
    ghost is_clone = { λ a b. b ≡ a };

    fn clone(&self) -> Result<Named, AllocError> {
        Ok(Named {
            name: self.name.clone()?,
            entry: self.entry.clone()?,
        })
    }
}

impl Clone for Step {
    ghost is_clone = { λ a b. b ≡ a };

    fn clone(&self) -> Result<Step, AllocError> {
        match self {
            Step::Add(named) => Ok(Step::Add(named.clone()?)),
            Step::Remove(name) => Ok(Step::Remove(name.clone()?)),
            Step::Modify(named) => Ok(Step::Modify(named.clone()?)),
            Step::Rename(name, named) => Ok(Step::Rename(name.clone()?, named.clone()?)),
        }
    }
}
