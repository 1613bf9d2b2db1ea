//! Parts of messages read straight from octets into what they say, where they're spelled as they usually are (X.690: definite
//! lengths, strings in one piece, an RDN of one pair). Where anything else stands there nothing is said, and the reader over the table
//! of types reads it.
#![tactic(auto)]

pub mod element;
pub mod entries;
pub mod infos;
pub mod names;
pub mod part;
pub mod seen;
mod unread;
pub mod values;

pub use crate::unread::Unread;
pub use x5_memory::NoMemory;
