//! The references that an agent needs ask others apart. The function here does nothing; its clause is the theorem.
#![tactic(auto)]

ghost use Rattle.x5_model_needs.specs.Needed.{NeedsApart};

/// No two references that an agent needs ask the same of one agent, so each message has one cause (X.518, section 19).
pub fn apart()
    ensures { NeedsApart }
{}
