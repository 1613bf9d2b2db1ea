//! The network of all agents of a described world: a user's request goes from agent to agent by messages, of which each arrives or
//! is lost as the network stands (X.518, sections 8 and 17 to 21).
#![tactic(auto)]

mod asking;
mod begin;
mod counts;
mod delivered;
mod exchange;
mod journal;
mod links;
mod naming;
mod refreshing;
mod refreshment;
mod seen;
mod shadows;
mod stamps;
mod world;

pub use delivered::Delivered;
pub use refreshment::Refreshment;
pub use world::World;
