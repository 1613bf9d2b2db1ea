//! Worked examples as proved facts: worlds, requests and answers written out, and what the definitions say of them. Nothing stands on this crate.
#![tactic(auto)]
