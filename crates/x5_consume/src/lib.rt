//! What a consumer does with a refresh of a naming context: its copy becomes what was sent, or the steps that were sent are done
//! on it (X.525, sections 7 and 11).
#![tactic(auto)]

mod building;
mod places;
mod preparing;
mod ready;
mod stepping;
mod steps;
mod total;

pub use places::expected;
pub use steps::accept_steps;
pub use total::accept_total;
