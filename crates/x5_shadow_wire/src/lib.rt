//! Messages of shadowing between agents, as they are carried (X.525, sections 9 to 12; X.519, section 7; X.690): the octets of what asks
//! for a refresh or tells of it, of what it brings, and of the replies, and what whoever has these octets reads in them. Within the
//! limits of messages that is what was sent, so nothing is refused on the way.
#![tactic(auto)]

mod asked;
mod counts;
mod last;
mod replied;
mod shadows;
mod updates;

pub use crate::asked::{Asked, carried_asked};
pub use crate::last::LastTotal;
pub use crate::replied::{Problem, carried_problem};
pub use crate::shadows::carried_shadow;
pub use crate::updates::{Update, carried_update};
pub use x5_memory::NoMemory;
