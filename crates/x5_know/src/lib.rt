//! What is described of a world beside its agents one by one: their names, its start, from which moments are counted, the
//! shadowing agreements and the network.
#![tactic(auto)]

mod agreements;
mod described;
mod key;
mod names;
mod network;
mod start;

pub use agreements::{Agreement, AgreementList};
pub use described::{Described, DescribedAgent, DescribedAgents, KindList};
pub use names::AgentNames;
pub use network::{NetworkState, NumberList, Pair, PairList};
pub use start::Start;
pub use x5_ops::{
    Access, AgentId, AgentList, AgentName, AgentNameList, AgentSpec, AgentSpecs, Content,
    ContextSpec, ContextSpecList, Cross, CrossList, MOST_AGENTS, Named, NamedList, Nssr, NssrList,
    Refs, Specific, SpecificList, Step, StepList, Supplier, SupplierList,
};
