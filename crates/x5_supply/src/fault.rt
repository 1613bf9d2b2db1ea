//! Why a context isn't supplied.

ghost use Rattle.std.specs.Prelude.{◌≡◌};
ghost use Rattle.x5_supply.specs.declared.fault.SupplyFault.TheVariants.{NoMemory as NoMemoryFault};

use thiserror::Error;
use x5_memory::NoMemory;

/// inactiveAgreement (X.525, section 12): there is nothing to send.
pub const INACTIVE_AGREEMENT: u8 = 2;

/// fullUpdateRequired (X.525, section 12): the changes since that moment aren't known.
pub const FULL_UPDATE_REQUIRED: u8 = 6;

/// Why a context isn't supplied.
#[derive(Clone, Copy, Debug, PartialEq, Eq, Error)]
pub enum SupplyFault {
    /// A problem of shadowing, by its number.
    #[error("the context isn't supplied")]
    Shadow(u8),
    #[error("out of memory")]
    NoMemory,
}

impl From<NoMemory> for SupplyFault {
    ghost from_gives = { λ _ fault. fault ≡ NoMemoryFault };

    fn from(_: NoMemory) -> Self {
        SupplyFault::NoMemory
    }
}
