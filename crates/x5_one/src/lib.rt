//! The plain tree of the whole world, which answers requests without any agents (X.501, section 7: the directory information
//! tree; X.511, sections 9 to 11: the operations).
#![tactic(auto)]

mod answering;
mod asking;
mod contexts;
mod entries;
mod places;
mod renaming;
mod tree;
mod updating;

pub use tree::OneTree;
