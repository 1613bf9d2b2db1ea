//! Elements of the Basic Encoding Rules (X.690): read from octets, also from octets that come in
//! pieces, and written in their canonical spelling.
#![tactic(auto)]

mod element;
mod feeder;
mod header;
mod laws;
mod reader;
mod writer;

pub use crate::element::{BerFault, Tlv, read_tlv};
pub use crate::feeder::{FeedFault, Feeder, LONGEST};
pub use crate::header::{Head, Identifier, read_header};
pub use crate::laws::{canonical_spells, spellings_are_apart};
pub use crate::writer::put_tlv;
pub use x5_memory::NoMemory;
