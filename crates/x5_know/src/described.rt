//! The world as its file describes it: all agents with what they know, the shadowing agreements, and the network.

use crate::agreements::AgreementList;
use crate::names::AgentNames;
use crate::network::NetworkState;
use crate::start::Start;
use x5_ops::{AgentSpec, Listed};

/// Of each reference of a list whether it's a cross reference.
pub type KindList = Listed<bool>;

/// An agent as its file describes it. Its references of both kinds stand there in one list: `crosses` says of each of them, in their
/// order, whether it's a cross reference.
#[derive(Drop)]
pub struct DescribedAgent {
    pub spec: AgentSpec,
    pub crosses: KindList,
}

/// Agents in the order of the file.
pub type DescribedAgents = Listed<DescribedAgent>;

/// A world as its file describes it. `agents` has one member per name, in the order of `names`, and every `AgentId` is a place there.
#[derive(Drop)]
pub struct Described {
    pub start: Start,
    pub names: AgentNames,
    pub agents: DescribedAgents,
    pub agreements: AgreementList,
    pub network: NetworkState,
}
