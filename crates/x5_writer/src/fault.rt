//! Why a value isn't written.
ghost use Rattle.std.specs.Prelude.{◌≡◌};
ghost use Rattle.x5_writer.specs.declared.fault.WriteFault.TheVariants.{NoMemory as NoMemoryFault};

use thiserror::Error;
use x5_memory::NoMemory;

/// Why a value isn't written as one of a type.
#[derive(Clone, Copy, Debug, PartialEq, Eq, Error)]
pub enum WriteFault {
    /// It is no value of the type.
    #[error("no value of the type")]
    Misfit,
    /// Memory ran out. Nothing is said of the value.
    #[error("out of memory")]
    NoMemory,
}

impl From<NoMemory> for WriteFault {
    ghost from_gives = { λ _ fault. fault ≡ NoMemoryFault };

    fn from(_: NoMemory) -> Self {
        WriteFault::NoMemory
    }
}
