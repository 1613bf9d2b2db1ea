//! Requests of users as octets (DAP: X.511, X.519), written and read: each part as a value of its type, and the whole by the one writer
//! and the one reader over the table of types (X.690). The parts that answers and messages between agents have, too, are public.
#![tactic(auto)]

pub mod arguments;
mod attributes;
pub mod direct;
mod fault;
mod filters;
mod messages;
pub mod names;
pub mod parts;
pub mod read_arguments;
mod read_attributes;
mod read_filters;
pub mod read_parts;
pub mod read_values;
mod usual_filters;
mod usual_selections;
pub mod values;
pub mod write_arguments;
pub mod write_parts;

pub use crate::fault::WireFault;
pub use crate::messages::{decode_request, encode_request};
pub use x5_memory::NoMemory;
pub use x5_typed::BerFault;
pub use x5_writer::WriteFault;
