//! What a user who follows is told at lines of a run over consistent knowledge. Each function here does nothing; its clauses are
//! the theorems.
#![tactic(auto)]

ghost use Rattle.x5_model_settled.specs.Held.{Performed};
ghost use Rattle.x5_model_pursued.specs.Lines.{AtLines, AtRuns, FollowsRight, ResolvesRight, FollowsWhole, ResolvesWhole, FollowsHeard};

/// At every line what he is told is right, with nothing left to follow, whichever agents refuse to chain (X.518, section 20).
pub fn pursuing()
    ensures lines { AtLines FollowsRight }
    ensures runs { AtRuns Performed FollowsRight }
{}

/// So it is of each journal where he follows aliases too (X.501, section 8.8), and he ends where the one tree's own resolution does,
/// unless a copy answers before or somebody isn't heard.
pub fn resolving()
    ensures lines { AtLines ResolvesRight }
    ensures runs { AtRuns Performed ResolvesRight }
{}

/// Where each message and each reply arrived, or nothing is in the way of messages to come, his answer is whole.
pub fn hearing()
    ensures lines { AtLines FollowsWhole }
    ensures runs { AtRuns Performed FollowsWhole }
    ensures aliases { AtLines ResolvesWhole }
    ensures resolved { AtRuns Performed ResolvesWhole }
    ensures network { AtLines FollowsHeard }
    ensures clear { AtRuns Performed FollowsHeard }
{}
