//! What a supplier sends of a naming context to a consumer: the whole of it, or the changes since a moment (X.525, sections 9 and
//! 11).
#![tactic(auto)]

mod content;
mod entries;
mod fault;
mod references;
mod sources;
mod standing;
mod steps;

pub use content::total;
pub use entries::list_entries;
pub use fault::{FULL_UPDATE_REQUIRED, INACTIVE_AGREEMENT, SupplyFault};
pub use sources::stamp;
pub use standing::supplying;
pub use steps::since;
