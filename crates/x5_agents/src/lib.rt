//! What each agent of a described world holds before the first line of a script: the contexts that it masters, copies of which
//! nothing was sent yet, and what it knows of others (X.501, section 22; X.525, section 9).
#![tactic(auto)]

mod contexts;
mod copies;
mod entries;
mod holdings;
mod references;

pub use holdings::agents_of;
pub use x5_holdings::Holdings;
