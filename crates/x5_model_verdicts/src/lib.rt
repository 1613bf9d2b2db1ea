//! What the master of an update concludes of it, and what it holds afterwards. Each function here does nothing; its clauses
//! are the theorems.
#![tactic(auto)]

ghost use Rattle.x5_model_verdicts.specs.Committing.{CommittedIsAfter, RunsAreStamped};
ghost use Rattle.x5_model_verdicts.specs.Verdicts.{NoneAccepted, RefusalIsRight, AloneIsRight, ProbedIsRight, MissedIsRight, TakenIsRight, BreakIsRight, ProbesAcceptNone};
ghost use Rattle.x5_model_verdicts.specs.Growth.{LinesGrow, NoErrorAfter, AcceptedMeanwhile, TriedInVain};
ghost use Rattle.x5_model_run.specs.Right.{SendsRight};

/// What the agents hold at the line after an accepted update is what they held, changed at the agent that accepted it, in the
/// context that holds the target (X.511, section 11).
pub fn committing()
    ensures after { CommittedIsAfter }
    ensures stamped { RunsAreStamped SendsRight }
{}

/// Where an update comes to its master nothing was accepted before, and nothing is while probes are sent. What the master
/// answers is right: where its own ground refuses; where it accepts, without probes or after them, and then what was accepted
/// is right too; and where probes weren't heard, found the new name, or brought another error (X.511, section 11; X.518,
/// section 19.1).
pub fn verdicts()
    ensures none { NoneAccepted }
    ensures refusal { RefusalIsRight }
    ensures alone { AloneIsRight }
    ensures probed { ProbedIsRight }
    ensures missed { MissedIsRight }
    ensures taken { TakenIsRight }
    ensures breaking { BreakIsRight }
    ensures silence { ProbesAcceptNone }
{}

/// Once an update was accepted no error is right for it, and what is accepted while agents are asked in vain comes with a
/// lost reply.
pub fn meanwhile()
    ensures grows { LinesGrow }
    ensures after { NoErrorAfter }
    ensures accepted { AcceptedMeanwhile }
    ensures tried { TriedInVain }
{}
