//! Tests of the edges through their public calls: elements of octets, and files and a sink, in memory and real. Nothing stands on it.
#![tactic(auto)]

#[cfg(test)]
mod octets;
#[cfg(test)]
mod ports;
