//! The words of the command line.
#![tactic(auto)]

mod command;
mod words;

pub use words::{FORMS, Files, Words, read_words};
