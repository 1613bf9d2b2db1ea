//! A test of the network's agents through its public calls: what they answer is what they hold. Nothing stands on it.
#![tactic(auto)]

#[cfg(test)]
mod swaps;
