//! What the theorem on serving presumes of a point follows of a run over consistent knowledge. Each function here does nothing;
//! its clauses are the theorems.
#![tactic(auto)]

ghost use Rattle.x5_model_run.specs.Right.{SendsRight};
ghost use Rattle.x5_model_settled.specs.Judges.{RightAndWhole};
ghost use Rattle.x5_model_settled.specs.Settled.{LinesAreSettled, RunsAreSettled, LinesAreRight, RunsAreRight, LinesTakeRight, RunsTakeRight, LinesHandleRight, RunsHandleRight};
ghost use Rattle.x5_model_settled.specs.Runs.{AgentsRunIsRun, AgentsPrintRun};
ghost use Rattle.x5_model_settled.specs.Afterwards.{HoldsAfter, HoldsOn, NetworkStays, MovedNoneAfter, KnowsAsDescribed, StampedAtFirst, StampedOn, StampedAfterRefresh, StampedAfter};
ghost use Rattle.x5_model_settled.specs.Held.{BySteps, HeldIsHoldings, HeldIsByStep, HeldAtFirst, HeldOn, HeldAfterLine, StepsAreAgents, StepsAreRight, StepsPrintRun, StepsArePerformed, StepsPrintPerformed, PerformedIsRight};

/// Every line of a run is a setting of a user's request to an agent of the world, and so is every line that was led to without
/// moving contexts (X.501, section 22).
pub fn settling()
    ensures lines { LinesAreSettled }
    ensures runs { RunsAreSettled SendsRight }
    ensures whole { RunsAreSettled RightAndWhole }
{}

/// So whatever agents do there with a request is right, and no message that it needs is left out (X.518, sections 17 to 21). And
/// whatever message a user hands to an agent there, what is accepted of it is right.
pub fn running()
    ensures lines { LinesAreRight }
    ensures runs { RunsAreRight SendsRight }
    ensures whole { RunsAreRight RightAndWhole }
    ensures takes { LinesTakeRight }
    ensures taken { RunsTakeRight RightAndWhole }
    ensures handles { LinesHandleRight }
    ensures handled { RunsHandleRight RightAndWhole }
{}

/// A script that agents carry out is a run: each answer is right, and no message is left out; and what is printed of it is the
/// output of such a run.
pub fn carrying_out()
    ensures runs { AgentsRunIsRun }
    ensures prints { AgentsPrintRun }
{}

/// What agents hold at the next line is what they held, changed where a message's update was accepted (X.511, section 11); the
/// network is as it was; and what these theorems ask of a line holds at the next one.
pub fn afterwards()
    ensures holds { HoldsAfter }
    ensures still { HoldsOn }
    ensures network { NetworkStays }
    ensures moved { MovedNoneAfter }
    ensures knows { KnowsAsDescribed }
    ensures first { StampedAtFirst }
    ensures on { StampedOn }
    ensures refreshed { StampedAfterRefresh }
    ensures stamped { StampedAfter BySteps }
    ensures right { StampedAfter RightAndWhole }
{}

/// What agents hold, whether or not knowledge is consistent (X.501, section 22): at first what is described of them, and after each
/// line that refreshes and moves nothing what they held, changed where they accepted an update.
pub fn holding()
    ensures consistent { HeldIsHoldings }
    ensures other { HeldIsByStep }
    ensures first { HeldAtFirst }
    ensures on { HeldOn }
    ensures after { HeldAfterLine }
{}

/// A script that agents carry out step by step over consistent knowledge is one that they carry out, copies refreshed or not; each
/// answer is right, and what is printed of it is the output of such a run. One judge says both: what agents do, and that it is
/// right where knowledge is consistent.
pub fn stepping()
    ensures agents { StepsAreAgents }
    ensures runs { StepsAreRight }
    ensures prints { StepsPrintRun }
    ensures performed { StepsArePerformed }
    ensures printed { StepsPrintPerformed }
    ensures right { PerformedIsRight }
{}
