// Definitions alone: which octets spell which element by the Basic Encoding Rules (X.690), and the
// first fault of octets that spell none. Contracts of other crates cite them.
#![tactic(auto)]
