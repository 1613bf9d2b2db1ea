//! Where the resolution of a name ends, and what follows from it. Each function here does nothing; its clauses are the theorems.
#![tactic(auto)]

ghost use Rattle.x5_model_find.specs.Finds.{NowhereIsTold, NobodyIsTold, HoldingsOrderly, OnwardNeeds, NothingNeeded, BeginsAlike, CopyIsTold, StandAlike, CopiesAlways, HereNeeds, PartsNeeded, PlacedGoesOn, OwnIsTold, HereIsJudge, JudgeIsHere};

/// What a line finds is the same for the parts of a query and for updates, and so it was at each moment of a copy.
pub fn standing()
    ensures alike { StandAlike }
    ensures copies { CopiesAlways }
{}

/// Where an agent finds no entry of a name, the one tree has none, and who knows it was asked.
pub fn errors()
    ensures nowhere { NowhereIsTold }
    ensures nobody { NobodyIsTold }
    ensures own { OwnIsTold }
    ensures copy { CopyIsTold }
    ensures judge { HereIsJudge }
    ensures found { JudgeIsHere }
{}

/// What is found decides what is needed: by definitions alone, where each prefix is held once, as agents hold them over sound knowledge.
pub fn finding()
    ensures orderly { HoldingsOrderly }
    ensures onward { OnwardNeeds }
    ensures nothing { NothingNeeded }
    ensures here { HereNeeds }
    ensures parts { PartsNeeded }
    ensures placed { PlacedGoesOn }
    ensures begins { BeginsAlike }
{}
