//! What a run prints. Definitions (`specs/`), which clauses cite, and laws of them: the functions here do nothing.
#![tactic(auto)]

ghost use Rattle.x5_model_output.specs.Plain.{PlainIsTold};
ghost use Rattle.x5_model_output.specs.Summary.{OneMoreAdds, CappedOnTheWay};

/// Counts are sums, block by block, and may be capped on the way.
pub fn summaries()
    ensures more { OneMoreAdds }
    ensures capped { CappedOnTheWay }
{}

/// A request's block on the one tree is what the tree tells.
pub fn plain_blocks()
    ensures { PlainIsTold }
{}
