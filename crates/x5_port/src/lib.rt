// The outside: files that are read whole and a sink that takes octets, in memory and real.
#![tactic(auto)]

mod asked;
mod fault;
mod memory;
mod port;
mod real;

pub use fault::{Failed, FileFault};
pub use memory::{MemoryFiles, MemorySink};
pub use port::{Files, Sink, put_all};
pub use real::{RealFiles, RealSink};
pub use x5_memory::NoMemory;
