//! Requests, answers, references and what agents know, as they are in memory and in messages (X.501, X.511, X.518, X.525).
#![tactic(auto)]

mod agents;
mod answers;
pub mod attribute_problem;
mod changes;
mod entries;
mod journal;
mod knowledge;
mod lists;
mod reading;
mod references;
mod requests;
pub mod service_problem;
mod statics;
pub mod update_problem;

pub use agents::{AgentId, AgentList, AgentName, AgentNameList, MOST_AGENTS};
pub use answers::{
    Answer, DirError, EntryInfo, EntryList, Moment, Outcome, Reply, Source, SourceList, Sub,
    SubList,
};
pub use changes::{ChangeFault, added_entry, change};
pub use entries::{doubled, drop_value, has_rdn, put_value, with_rdn, with_values, without_rdn};
pub use journal::{
    Fate, Journal, Line, LineList, Operation, Outage, Refreshed, Replanted, ShadowOperation,
};
pub use knowledge::{
    Access, AgentSpec, AgentSpecs, Content, ContextSpec, ContextSpecList, Cross, CrossList, Named,
    NamedList, Nssr, NssrList, Refs, Specific, SpecificList, Step, StepList, Supplier,
    SupplierList,
};
pub use lists::Listed;
pub use reading::{compares, selection_fault, shown};
pub use references::{
    AccessList, AccessPoint, Chained, Progress, RdnList, RefType, Reference, ReferenceList, Trace,
    TraceItem,
};
pub use requests::{
    Attribute, AttributeList, Body, Change, ChangeList, Controls, Request, Selection, Subset,
    TypeList, ValueList,
};
pub use statics::{Refusal, fault_of};
pub use x5_match::{Entry, Filter, holds};
pub use x5_names::{Name, Rdn};
