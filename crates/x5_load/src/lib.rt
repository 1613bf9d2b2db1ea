//! The world file (docs/FORMATS.md, world file): JSON that describes a world, or the first thing that is wrong in it.
#![tactic(auto)]

mod agents;
mod agreements;
mod distinct;
mod limits;
mod loading;
mod mentioned;
mod network;
mod refs;
mod stamp;
mod world;

pub use loading::load;
pub use x5_world_members::LoadFault;
