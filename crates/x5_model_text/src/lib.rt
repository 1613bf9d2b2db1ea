//! How a directory's types, values and names are spelled as text (docs/FORMATS.md). This crate has definitions alone (`specs/`), which clauses cite, and their laws (`proofs/`).
#![tactic(auto)]
