//! What an agent answers by itself where the resolution of a name ended at it (X.518, section 19: evaluation of operations; X.511):
//! a read or compare, with its source.
#![tactic(auto)]

mod beginning;
mod evaluating;
mod exclusions;
mod local;
mod naming;
mod numbers;
mod reading;
mod references;
mod scope;
mod shown;
mod subsets;
mod visits;

pub use evaluating::evaluate;
pub use reading::{read_copy, read_own};
