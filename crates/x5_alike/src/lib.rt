//! Whether names and entries are the same to the letter: not only equal by their types' rules, but spelled alike (X.501, sections 8 and
//! 9). What was made of the one can then be used for the other.
#![tactic(auto)]

mod alike;
mod entries;
mod names;
mod values;

pub use alike::{Alike, are_alike};
