//! Messages between agents as octets (DSP: X.518, X.519), written and read: each part as a value of its type, and the whole by the one
//! writer and the one reader over the table of types (X.690).
#![tactic(auto)]

mod direct;
mod direct_parts;
mod messages;
mod read_chained;
mod write_chained;
mod write_trace;

pub use crate::messages::{decode_chained, decode_result, encode_chained, encode_result};
pub use x5_dapber::WireFault;
pub use x5_memory::NoMemory;
pub use x5_typed::BerFault;
pub use x5_writer::WriteFault;
