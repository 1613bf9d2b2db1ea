//! Tests of texts, values, names and filters through their public calls. Nothing stands on it.
#![tactic(auto)]

#[cfg(test)]
mod filters;
#[cfg(test)]
mod names;
#[cfg(test)]
mod values;
