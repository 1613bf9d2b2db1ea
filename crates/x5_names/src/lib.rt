//! Names of entries with their keys (X.501, section 8): they're compared by the keys that they keep, and no comparison folds case.
#![tactic(auto)]

mod compared;
mod keys;
mod known;
mod shared;
mod spelled;

pub use keys::{Key, KeyPair, KeyRdn};
pub use known::KnownName;
pub use spelled::{Name, Pair, Rdn};
pub use x5_syntax::{NameFault, NoMemory};
