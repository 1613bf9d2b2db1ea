//! Why a world file isn't taken.

ghost use Rattle.std.specs.Prelude.{◌≡◌};
ghost use Rattle.x5_world_members.specs.declared.fault.LoadFault.TheVariants.{NoMemory as NoMemoryFault};

use std::alloc::{AllocError, AllocFailed};
use x5_memory::NoMemory;
use x5_syntax::Text;

/// Why a world file isn't taken. Paths are JSON pointers (RFC 6901).
#[derive(Debug, Drop, thiserror::Error)]
pub enum LoadFault {
    /// Its octets are no value of JSON.
    #[error("not JSON")]
    NotJson,
    /// What stands at the path isn't what must stand there.
    #[error("not of the format")]
    BadShape(Text),
    /// The text at the path is no name.
    #[error("no name")]
    BadName(Text),
    /// The list or the value at the path passes this limit.
    #[error("over the limit of {1}")]
    OverLimit(Text, u32),
    /// The agent at the path has the name of one before it.
    #[error("an agent's name again")]
    RepeatedAgent(Text),
    /// The name at the path is no agent's.
    #[error("no agent's name")]
    UnknownAgent(Text),
    /// Memory ran out.
    #[error("out of memory")]
    NoMemory,
}

impl From<NoMemory> for LoadFault {
    ghost from_gives = { λ _ fault. fault ≡ NoMemoryFault };

    fn from(_: NoMemory) -> Self {
        LoadFault::NoMemory
    }
}

impl From<AllocError> for LoadFault {
    ghost from_gives = { λ _ fault. fault ≡ NoMemoryFault };

    fn from(_: AllocError) -> Self {
        LoadFault::NoMemory
    }
}

impl<T: Drop> From<AllocFailed<T>> for LoadFault {
    ghost from_gives = { λ _ fault. fault ≡ NoMemoryFault };

    fn from(_: AllocFailed<T>) -> Self {
        LoadFault::NoMemory
    }
}
