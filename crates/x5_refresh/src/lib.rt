//! One refresh between a supplier and a consumer, apart from the network that carries its messages: what is sent, whether it goes
//! on, what the consumer's copy is then, and what became of it (X.525, sections 9 to 12).
#![tactic(auto)]

mod accepting;
mod brought;
mod course;
mod courses;
mod supplying;

pub use accepting::accept;
pub use brought::Brought;
pub use course::{Start, begins, ended, opens};
pub use courses::coursing;
pub use supplying::supply;
