//! The parts of a list or search, joined to one answer (X.518, section 21: merging), and the size limit, which comes last.
#![tactic(auto)]

mod join;
mod limiting;
mod member;
mod merging;

pub use limiting::limit;
pub use merging::{PartList, merge};
