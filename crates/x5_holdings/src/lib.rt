//! What an agent holds: the naming contexts that it masters, copies of others, and what it knows of where contexts are (X.501,
//! sections 22 and 23: DSA information tree; X.525: shadowed information). The longest known prefix of a name is found by key.
#![tactic(auto)]

mod below;
mod changing;
mod copied;
mod filling;
mod held;
mod holdings;
mod log;
mod order;
mod own;
mod pins;
mod rows;
mod runs;
mod tables;

pub use changing::EntryChange;
pub use filling::Filling;
pub use held::{Copied, Held, may_use_copies};
pub use holdings::{Holdings, Pin};
pub use log::{ChangeLog, Logged};
pub use rows::Row;
