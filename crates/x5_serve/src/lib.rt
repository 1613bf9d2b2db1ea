//! Serving: what an agent does with a message, and what it makes of the replies that others give it (X.518, sections 17 to 21), over
//! any network. Whatever is known or was done before, the journal and the reply are those of the relation of the agents' steps.
#![tactic(auto)]

mod arrival;
mod dispatch;
mod network;
mod parts;
mod passing;
mod replies;

pub use dispatch::{ask, serve};
pub use network::{Carried, Found, Network, Verdict};
pub use replies::{Heard, user_in_vain};
