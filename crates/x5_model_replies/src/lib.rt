//! Right replies between agents over consistent knowledge, and what holds of those that were heard while a request is
//! served (X.518, sections 17 to 21): definitions in `specs/`, which theorems alone cite.
#![tactic(auto)]
