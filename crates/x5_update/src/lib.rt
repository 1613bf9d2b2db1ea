//! Updates at the agent that masters their target (X.511, section 11; X.518, section 19.1): what it makes of one by what it holds
//! and knows itself, and the change of what it holds.
#![tactic(auto)]

mod committing;
mod judging;
mod place;
mod plans;
mod probes;
mod values;

pub use committing::{Prepared, commit, make_ready};
pub use judging::prepare;
pub use x5_holdings::Holdings;
