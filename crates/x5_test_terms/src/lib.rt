//! Tests of traces, of moments and of agents' names through their public calls. Nothing stands on it.
#![tactic(auto)]

#[cfg(test)]
mod moments;
#[cfg(test)]
mod traces;
