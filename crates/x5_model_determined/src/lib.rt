//! What agents do with a request is determined. The function here does nothing; its clauses are the theorems.
#![tactic(auto)]

ghost use Rattle.x5_model_determined.specs.Determined.{ActsAreDetermined, RequestIsDetermined};

/// The same thing done from the same journal comes to the same, and a request has one journal and one reply, whatever agents
/// know (X.518, sections 17 to 21).
pub fn one_outcome()
    ensures acts { ActsAreDetermined }
    ensures request { RequestIsDetermined }
{}
