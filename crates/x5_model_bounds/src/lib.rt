//! How many messages a request takes over consistent knowledge (X.518, section 19): fewer than its budget.
//! Each function here does nothing; its clauses are the theorems.
#![tactic(auto)]

ghost use Rattle.x5_model_bounds.specs.Unable.{UnableSendsNothing};
ghost use Rattle.x5_model_bounds.specs.Bounds.{ResolutionPays, PartsPay, ProbesPay, JudgeIsMaster, ServingPays, NeverSpent};

/// An agent that says that it is unable to proceed has sent nothing, and nobody passes that reply on.
pub fn unable()
    ensures { UnableSendsNothing }
{}

/// Name resolution, probes and the parts of a list or search pay for themselves, and the judge of an update is its master.
pub fn going_on()
    ensures resolution { ResolutionPays }
    ensures parts { PartsPay }
    ensures probes { ProbesPay }
    ensures judge { JudgeIsMaster }
{}

/// What each act costs.
pub fn costs()
    ensures { ServingPays }
{}

/// A request takes fewer messages than its budget, so that none is ever missing.
pub fn few_messages()
    ensures { NeverSpent }
{}
