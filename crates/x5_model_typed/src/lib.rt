//! Definitions: the types of messages as data (X.511, X.518, X.519, X.525, in the notation of X.680), which octets
//! spell which value of a type, the first breach of octets that spell none, and the octets that are written. Contracts
//! of other crates cite them. Each function here does nothing; its clauses are laws of every table of types, which
//! `proofs/` shows over the definitions.
#![tactic(auto)]

ghost use Rattle.x5_model_typed.specs.Laws.{OneTree, NoSpellingBegins, OneValue, JudgedIs, JudgedIsSpelled};

/// Octets are one element with its places at most, no spelling begins another, and octets spell one value of a type
/// at most (X.690, section 8).
pub fn spellings_are_apart()
    ensures one_tree { OneTree }
    ensures no_beginning { NoSpellingBegins }
    ensures one_value { OneValue }
{}

/// Where reading by type comes to a value, the element is that value, and the octets spell it.
pub fn judged_is_spelled()
    ensures judged_is { JudgedIs }
    ensures spelled { JudgedIsSpelled }
{}
