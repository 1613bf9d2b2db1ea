//! The entries that an agent has of one naming context, found by name and kept in the order of their keys (X.501, section 7:
//! the directory information tree; section 8: entries).
#![tactic(auto)]

mod children;
mod node;
mod order;
mod place;
mod tree;
mod walk;

pub use children::Children;
pub use node::{DseFault, NodeId};
pub use order::compare_rdns;
pub use tree::DseTree;
pub use walk::Walk;
