//! Tests of what is printed of a command, through the public call. Nothing stands on it.
#![tactic(auto)]

#[cfg(test)]
mod blocks;
