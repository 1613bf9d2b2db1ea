//! An index of entries by their values, which finds the entries that have a value without looking at the others. The index is
//! this project's own; values are compared by their normal forms (X.501, section 8: matching rules).
#![tactic(auto)]

mod gathered;
mod lookup;
mod posting;
mod postings;
mod room;

pub use gathered::Gathered;
pub use lookup::NodeList;
pub use postings::Postings;
pub use room::Room;
