//! Reading by type: octets as values of the types that messages between agents are made of (X.511, X.518, X.525; X.690),
//! by one reader over the table of types.
#![tactic(auto)]

mod fault;
mod reader;
mod slots;
mod state;

pub use crate::fault::{Breach, ReadFault};
pub use crate::reader::{read, read_in};
pub use x5_ber::BerFault;
pub use x5_types::{Bytes, Named, Node, Operation, Surroundings};
