//! Whether what the agents of a world know is consistent, by the ten conditions; and if it isn't, the first breach.
#![tactic(auto)]

mod agents;
mod conditions;
mod contexts;
mod endless_superiors;
mod false_agreement;
mod false_member;
mod false_reference;
mod false_shadow;
mod inconsistency;
mod index;
mod known;
mod longer_pin;
mod missing_parent;
mod repeated_prefix;
mod table;
mod unknown_below;
mod unknown_top;

pub use conditions::check;
pub use inconsistency::{Inconsistency, Shown};
