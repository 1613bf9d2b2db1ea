//! What a user is answered over consistent knowledge where each message arrives, and which errors he never gets. Each function
//! here does nothing; its clauses are the theorems.
#![tactic(auto)]

ghost use Rattle.x5_model_run.specs.Right.{SendsRight};
ghost use Rattle.x5_model_settled.specs.Judges.{RightAndWhole};
ghost use Rattle.x5_model_complete.specs.Complete.{LinesAreComplete, RunsAreComplete, LinesAreSpared, RunsAreSpared};
ghost use Rattle.x5_model_complete.specs.Complete.{ClearLinesAreComplete, ClearRunsAreComplete};

/// Where each message of a request arrived and so did each reply, the user's agent is willing and chaining is allowed, its answer
/// is a result that leaves nothing unexplored, `changed` where the one tree takes the update, or the one tree's own error (X.518,
/// sections 17 to 21).
pub fn completing()
    ensures lines { LinesAreComplete }
    ensures runs { RunsAreComplete SendsRight }
    ensures whole { RunsAreComplete RightAndWhole }
{}

/// So it is with every agent up and willing, no pair cut, and nothing to be lost of so many messages as the request takes.
pub fn clearing()
    ensures lines { ClearLinesAreComplete }
    ensures runs { ClearRunsAreComplete SendsRight }
    ensures whole { ClearRunsAreComplete RightAndWhole }
{}

/// Whatever is in the way, the one service error that comes to a user is `unavailable`: none of invalidReference,
/// unableToProceed, loopDetected and administrativeLimitExceeded does (X.511, section 12.8).
pub fn sparing()
    ensures lines { LinesAreSpared }
    ensures runs { RunsAreSpared SendsRight }
    ensures whole { RunsAreSpared RightAndWhole }
{}
