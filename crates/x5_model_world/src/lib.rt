//! Definitions alone: what the octets of a world file describe, member by member, or the first breach with its path
//! and the limit that was passed. `load` of x5_load answers by them.
#![tactic(auto)]
