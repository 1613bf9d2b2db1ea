//! Messages of shadowing as octets (DISP: X.525, X.519), written and read: each part as a value of its type, and the whole by the one
//! writer and the one reader over the table of types (X.690), with the start and the agents that both ends share.
#![tactic(auto)]

mod direct;
mod direct_references;
mod entries;
mod messages;
mod read_again;
mod read_entries;
mod read_refreshes;
mod read_shadows;
mod refreshes;
mod shadow;
mod total;
mod written;

pub use crate::messages::{decode_shadow, encode_shadow};
pub use crate::read_again::ReadEntries;
pub use crate::shadow::{Refresh, Shadow};
pub use crate::written::WrittenEntries;
pub use x5_dapber::WireFault;
pub use x5_memory::NoMemory;
pub use x5_typed::BerFault;
pub use x5_writer::WriteFault;
