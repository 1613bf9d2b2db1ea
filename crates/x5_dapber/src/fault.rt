//! Why octets aren't a message, and want of memory.
ghost use Rattle.std.specs.Prelude.{◌≡◌};
ghost use Rattle.x5_dapber.specs.Results.{wire_fault};
ghost use Rattle.x5_dapber.specs.declared.fault.WireFault.TheVariants.{NoMemory as NoMemoryFault};

use thiserror::Error;
use x5_memory::NoMemory;
use x5_typed::{BerFault, Breach, ReadFault};

/// Why octets aren't read as a message.
#[derive(Clone, Copy, Debug, PartialEq, Eq, Error)]
pub enum WireFault {
    /// The first breach in the order of reading, by spelling (X.690) or by type, with its place. Places count from the first octet.
    #[error("{0}")]
    Ber(BerFault),
    /// The first breach in the order of reading: an operation or error code that the protocol doesn't have (X.511, X.519).
    #[error("unrecognised code {0}")]
    Unrecognised(i64),
    /// Memory ran out. Nothing is said of the octets.
    #[error("out of memory")]
    NoMemory,
}

impl From<NoMemory> for WireFault {
    ghost from_gives = { λ _ fault. fault ≡ NoMemoryFault };

    fn from(_: NoMemory) -> Self {
        WireFault::NoMemory
    }
}

impl From<ReadFault> for WireFault {
    ghost from_gives = { λ read fault. fault ≡ wire_fault read };

    fn from(fault: ReadFault) -> Self {
        match fault {
            ReadFault::Breach(Breach::Ber(fault)) => WireFault::Ber(fault),
            ReadFault::Breach(Breach::Unrecognised(code)) => WireFault::Unrecognised(code),
            ReadFault::NoMemory => WireFault::NoMemory,
        }
    }
}
