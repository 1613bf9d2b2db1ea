//! Tests of an agent's entries, of its index of values and of merging through their public calls. Nothing stands on it.
#![tactic(auto)]

#[cfg(test)]
mod entries;
#[cfg(test)]
mod indexes;
#[cfg(test)]
mod merges;
