// The faults of files and sinks.
ghost use Rattle.std.specs.Prelude.{◌≡◌, ◌≤◌};
ghost use Rattle.x5_port.specs.Outside.{Rose, next_count};
ghost use Rattle.x5_port.specs.declared.fault.FileFault.TheVariants.{NoMemory as NoMemoryFault};

use std::alloc::AllocError;
use x5_memory::NoMemory;

/// Why a file's octets weren't answered.
#[derive(Clone, Copy, Debug, PartialEq, Eq, thiserror::Error)]
pub enum FileFault {
    /// The file is missing or can't be read. The files have counted it, and keep the file's name.
    #[error("the file can't be read")]
    Failed,
    /// The file has more octets than the caller takes.
    #[error("the file is too long")]
    TooLong,
    /// Memory ran out.
    #[error("out of memory")]
    NoMemory,
}

impl From<NoMemory> for FileFault {
    ghost from_gives = { λ _ fault. fault ≡ NoMemoryFault };

    fn from(_: NoMemory) -> Self {
        FileFault::NoMemory
    }
}

impl From<AllocError> for FileFault {
    ghost from_gives = { λ _ fault. fault ≡ NoMemoryFault };

    fn from(_: AllocError) -> Self {
        FileFault::NoMemory
    }
}

/// A sink didn't take a piece. The sink has counted it.
#[derive(Clone, Copy, Debug, PartialEq, Eq, thiserror::Error)]
#[error("the write failed")]
pub struct Failed;

// The count after one more fault. It stands still at the last value of u64.
pub(crate) fn raised(count: u64) -> u64
    ensures rose { Rose count result }
    ensures rising { count ≤ result }
    ensures next { result ≡ next_count count }
{
    count.saturating_add(1)
}
