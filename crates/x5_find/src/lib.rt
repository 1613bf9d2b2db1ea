//! Where the resolution of a name ends at an agent: at an entry of its own or of a copy, at a reference that leads on, or nowhere
//! (X.518, section 18: Find DSE).
#![tactic(auto)]

mod found;
mod steps;

pub use found::{Found, Via};
pub use steps::find;
pub use x5_holdings::{Copied, Held, Holdings};
