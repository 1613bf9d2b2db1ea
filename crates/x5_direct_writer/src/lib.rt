//! Names, attributes and entries written straight as their canonical octets (X.690, section 10), from the last octet to the first: what
//! the writer over the table of types writes of them, with no values of types between. What is rare goes by that writer.
#![tactic(auto)]

pub mod answers;
pub mod entries;
mod header;
pub mod names;
pub mod values;

pub use crate::header::enclose;
pub use x5_memory::NoMemory;
pub use x5_writer::{Backwards, WriteFault};
