//! Whole runs stay within the limits of messages: where a world's texts are UTF-8 and what the lines of a script ask for is within
//! these limits, so is what agents hold at every line, each message that they send, and each reply. Each function here does
//! nothing; its clauses are the theorems.
#![tactic(auto)]

ghost use Rattle.x5_model_run.specs.Right.{SendsRight};
ghost use Rattle.x5_model_settled.specs.Held.{BySteps, Performed};
ghost use Rattle.x5_model_within.specs.Held.{MomentsBounded, HeldBounded, HeldNameAgents};
ghost use Rattle.x5_model_within.specs.Runs.{AcceptedBounded, RunsBounded};
ghost use Rattle.x5_model_within.specs.Scripts.{ScriptsBounded};
ghost use Rattle.x5_model_within.specs.Files.{FilesAreUtf8};

/// What agents hold at every line that moved no context is within the limits, and names agents of the world alone, whether or not
/// knowledge is consistent (X.501, section 22; X.525, section 9).
pub fn holding()
    ensures moments { MomentsBounded }
    ensures bounded { HeldBounded }
    ensures agents { HeldNameAgents }
{}

/// Each message that agents send at the lines of a run is within the limits, and so is each reply, which is one to what was asked
/// (X.518, sections 17 to 21); and so is what they accept.
pub fn running()
    ensures accepted { AcceptedBounded SendsRight }
    ensures steps { RunsBounded BySteps }
    ensures performed { RunsBounded Performed }
{}

/// The texts of a world that a file describes are UTF-8; and each request that a script spells is within the limits, and comes to
/// an agent that has a name.
pub fn reading()
    ensures files { FilesAreUtf8 }
    ensures scripts { ScriptsBounded }
{}
