//! What a user asks of agents, and what they send each other, as it is carried: the octets of a request, a message or a reply (X.511;
//! X.518, section 10; X.519, section 7; X.690), and what whoever has them reads in them. Within the limits of messages that is what was
//! sent, so nothing is refused on the way.
#![tactic(auto)]

mod fault;
mod messages;
mod replies;
mod requests;
mod shadows;

pub use crate::messages::carried_message;
pub use crate::replies::carried_reply;
pub use crate::requests::carried_request;
pub use crate::shadows::carried_shadow;
pub use x5_memory::NoMemory;
