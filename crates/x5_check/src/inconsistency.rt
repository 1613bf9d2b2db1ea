//! What is told of a breach.

use x5_names::Name;
use x5_ops::AgentId;

/// A value that is told: an agent, a name as it's spelled in the file, or an agreement by its number.
#[derive(Drop)]
pub enum Shown {
    Agent(AgentId),
    Name(Name),
    Agreement(u32),
}

/// A breach of a condition, 1 to 10, with the two values that are told of it.
#[derive(Drop)]
pub struct Inconsistency {
    pub condition: u8,
    pub first: Shown,
    pub second: Shown,
}
