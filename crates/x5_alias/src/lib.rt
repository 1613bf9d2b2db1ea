//! Aliases (X.501, section 8.8): an alias's entry says what other name it stands for, and where nothing is found below it, the user
//! puts that name in its place and asks again (X.511, section 7.11).
#![tactic(auto)]

mod putting;
mod reading;
mod turning;

pub use putting::{dereferenced, put_for};
pub use reading::{alias_in, alias_read, not_below};
pub use turning::{Turn, next_turn};
