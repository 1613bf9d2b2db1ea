//! Breaches of types, and want of memory.
ghost use Rattle.std.specs.Prelude.{◌≡◌};
ghost use Rattle.x5_model_octets.specs.Faults as faults;
ghost use Rattle.x5_model_octets.specs.Breaches as octet_breaches;
ghost use Rattle.x5_typed.specs.Breaches.{breach_view};
ghost use Rattle.x5_typed.specs.declared.fault.ReadFault.TheVariants.{NoMemory as NoMemoryFault, Breach as BreachFault};

use std::alloc::{AllocError, AllocFailed};
use thiserror::Error;
use x5_ber::BerFault;
use x5_memory::NoMemory;

/// The first breach, in the order of reading, of octets that aren't a value of a type.
#[derive(Clone, Copy, Debug, PartialEq, Eq, Error)]
pub enum Breach {
    /// A breach by spelling or by type, with its place. Places count from the first octet.
    #[error("{0}")]
    Ber(BerFault),
    /// An operation or error code that the protocol doesn't have (X.511, X.518).
    #[error("unrecognised code {0}")]
    Unrecognised(i64),
}

/// Why octets aren't read as a value of a type.
#[derive(Clone, Copy, Debug, PartialEq, Eq, Error)]
pub enum ReadFault {
    /// They aren't one.
    #[error("{0}")]
    Breach(Breach),
    /// Memory ran out. Nothing is said of the octets.
    #[error("out of memory")]
    NoMemory,
}

impl From<AllocError> for ReadFault {
    ghost from_gives = { λ _ fault. fault ≡ NoMemoryFault };

    fn from(_: AllocError) -> Self {
        ReadFault::NoMemory
    }
}

impl<T: Drop> From<AllocFailed<T>> for ReadFault {
    ghost from_gives = { λ _ fault. fault ≡ NoMemoryFault };

    fn from(_: AllocFailed<T>) -> Self {
        ReadFault::NoMemory
    }
}

impl From<NoMemory> for ReadFault {
    ghost from_gives = { λ _ fault. fault ≡ NoMemoryFault };

    fn from(_: NoMemory) -> Self {
        ReadFault::NoMemory
    }
}

impl From<Breach> for ReadFault {
    ghost from_gives = { λ b fault. fault ≡ BreachFault b };

    fn from(breach: Breach) -> Self {
        ReadFault::Breach(breach)
    }
}

/// A tag that isn't expected, at the place.
pub(crate) fn wrong_tag(at: usize) -> Breach
    ensures { breach_view result ≡ octet_breaches.Ber (faults.BadTag at) }
{
    Breach::Ber(BerFault::BadTag(at))
}

/// A content outside its type, of the element at the place.
pub(crate) fn wrong_content(at: usize) -> Breach
    ensures { breach_view result ≡ octet_breaches.Ber (faults.BadContent at) }
{
    Breach::Ber(BerFault::BadContent(at))
}
