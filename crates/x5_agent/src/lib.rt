//! What one agent makes by itself of a message: an answer or its part of one, that it has the target of an update, a reference by
//! which the name goes on, or that none of these is to be had there (X.518, sections 18 and 19).
#![tactic(auto)]

mod naming;
mod resolving;

pub use resolving::find;
