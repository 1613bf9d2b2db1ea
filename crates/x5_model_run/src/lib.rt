//! What a run of requests over agents is: the network, journals of messages, what agents know and need, right answers and refreshes. This crate has definitions alone (`specs/`), which clauses cite.
#![tactic(auto)]
