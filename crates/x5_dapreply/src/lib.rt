//! Answers to users as octets (DAP: X.511, X.519), written and read: each part as a value of its type, and the whole by the one writer
//! and the one reader over the table of types (X.690). The parts that messages between agents have, too, are public.
#![tactic(auto)]

pub mod direct;
pub mod direct_parts;
mod found;
mod messages;
pub mod read_references;
pub mod read_replies;
pub mod references;
pub mod replies;
mod sources;
mod whole;

pub use crate::messages::{decode_answer, encode_answer};
pub use crate::whole::{Protocol, write_reply};
pub use x5_dapber::WireFault;
pub use x5_memory::NoMemory;
pub use x5_typed::BerFault;
pub use x5_writer::WriteFault;
