//! Writing by type: values of the types that messages are made of (X.511, X.518, X.525, RFC 4511), as their canonical
//! octets (X.690), by one table of types and one writer over it. Octets are written from the last to the first, so
//! that the length of each content is known before it's written.
#![tactic(auto)]

mod backwards;
mod choices;
mod components;
mod fault;
mod leaf;
mod number;
mod string;
mod writer;

pub use crate::backwards::Backwards;
pub use crate::fault::WriteFault;
pub use crate::number::put_oid;
pub use crate::writer::{write, write_in, write_node};
pub use x5_memory::NoMemory;
pub use x5_types::Surroundings;
