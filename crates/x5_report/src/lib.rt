//! What a run prints of each command: the number of its line, its messages, and what came of it; and its summary
//! (docs/FORMATS.md, output).
#![tactic(auto)]

mod lines;
mod octets;
mod order;
mod plain;
mod refreshes;
mod replies;
mod report;
mod targets;
mod totals;
mod words;

pub use report::{LineOutcome, block};
pub use totals::{Totals, summary};
