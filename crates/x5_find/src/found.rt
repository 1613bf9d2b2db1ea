//! What is found of a name.

use x5_dse::NodeId;
use x5_names::Name;
use x5_ops::{Access, AgentId, AgentList, Progress, RefType};

/// Who can be asked: one agent, or those of an access, its master first.
#[derive(Clone, Copy)]
pub enum Via<'a> {
    One(AgentId),
    Access(&'a Access),
}

/// Where the resolution of a name ends. `own` and `copy` are places among the contexts that the agent masters, and among its
/// copies.
#[derive(Clone, Copy)]
pub enum Found<'a> {
    /// The node of the target, in a context that the agent masters.
    Here {
        own: usize,
        node: NodeId,
    },
    /// The node of the target, in a copy that may be used. An answer from it that is an error is to be had from the supplier.
    CopyHere {
        copy: usize,
        node: NodeId,
    },
    /// The root, at a first-level agent.
    Root,
    /// At others, by a reference of this kind; `known` is the pin or prefix as the agent spells it, None for a superior.
    Go {
        kind: RefType,
        progress: Progress,
        known: Option<&'a Name>,
        to: Via<'a>,
    },
    /// Below the node, which is the lowest on the way, at one of the agents of its NSSR; the agent itself is left out.
    Multicast {
        own: usize,
        node: NodeId,
        agents: &'a AgentList,
    },
    /// Nowhere: the lowest entry on the way, or None for the root.
    NoSuchObject {
        at: Option<(usize, NodeId)>,
    },
    /// The agent can't go on from the progress of a nonSpecific reference.
    UnableToProceed,
    /// The agent can't go on from the progress of another reference.
    InvalidReference,
}
