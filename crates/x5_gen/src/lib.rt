//! A world and a script made of a number, to try large ones (docs/FORMATS.md, generated files).
#![tactic(auto)]

mod draws;
mod script;
mod world;

pub use script::script_of;
pub use world::world_of;
