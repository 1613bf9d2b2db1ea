//! Trace information: which agents a message went through, and whether it comes to one of them again (X.518, section 10.6, and
//! loop detection).
#![tactic(auto)]

mod trace;

pub use trace::{MOST_ITEMS, push, repeats};
