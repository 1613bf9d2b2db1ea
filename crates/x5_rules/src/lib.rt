//! What values of messages' types have to be as wholes, beside the types of their parts, and as what they are kept
//! (X.501, X.511, X.518, X.525, RFC 4511).
#![tactic(auto)]

mod entry;
mod known;
mod name;
mod pair;
mod pieces;
mod rule;
mod trace;
mod value;

pub use crate::name::{name_in, name_of, rdn_in, rdn_of, text_in, type_in};
pub use crate::rule::settle;
pub use crate::value::normal_in;
pub use x5_memory::NoMemory;
