//! What the line after a refresh finds, and what logs replay to. Each function here does nothing; its clauses are the theorems.
#![tactic(auto)]

ghost use Rattle.x5_model_refreshed.specs.Refreshed.{CopyIsStamped, OtherStampsStay, MasterIsCopied, CopyIsCopied, AllElseStays};
ghost use Rattle.x5_model_refreshed.specs.Growing.{QuietLogsStay, UpdateIsNoted, NoOtherNotes, KeptGrows};
ghost use Rattle.x5_model_refreshed.specs.Noting.{StepIsUpdate};
ghost use Rattle.x5_model_refreshed.specs.Bringing.{BlockBrings, OthersDoNothing, BlocksLead};
ghost use Rattle.x5_model_refreshed.specs.Renewing.{OwnAreMastered, CopiesAreConsumed, ConsumersHaveCopies, CopiesHavePlaces, CopyIsRenewed, OtherCopiesStay, ConsumerIsRenewed, OthersHoldOn};
ghost use Rattle.x5_model_refreshed.specs.Supplying.{SuppliedIsHeld, MasterSupplies, ConsumerSupplies, ReferencesStay, CopyAdvances};
ghost use Rattle.x5_model_refreshed.specs.Lengthening.{TotalBeginsLog, StepsLengthenLog, OtherLogsStay, KeptGrowsOn};
ghost use Rattle.x5_model_refreshed.specs.Acknowledging.{StampIsAcked, AckedAtPlace, NoneAcked, ElseAsBefore};
ghost use Rattle.x5_model_refreshed.specs.Replaying.{LogCounts, MasterReplays, ConsumerReplays, RefreshReplays, LastAreLater, RunsLead};
ghost use Rattle.x5_model_refreshed.specs.Doable.{PartsAreWhole, CopiesAreWhole, StepCanBeDone, MasterCanReplay, ConsumerCanReplay, RefreshCanReplay};
ghost use Rattle.x5_model_run.specs.Right.{SendsRight};

/// After a refresh the consumer's copy is what its supplier had as of the stamp, and all else is as it was (X.525, section 7:
/// shadowed information).
pub fn refreshing()
    ensures stamped { CopyIsStamped }
    ensures others { OtherStampsStay }
    ensures master { MasterIsCopied }
    ensures copy { CopyIsCopied }
    ensures rest { AllElseStays }
{}

/// The step of an update makes of a context's entries what the update makes of them. So the later steps of a log make the entries
/// of now from those of an earlier moment, and an incremental refresh brings a consumer's copy to its supplier's entries (X.525,
/// sections 7, 9 and 11).
pub fn replaying()
    ensures step { StepIsUpdate }
    ensures counts { LogCounts }
    ensures master { MasterReplays }
    ensures consumer { ConsumerReplays }
    ensures refresh { RefreshReplays }
    ensures last { LastAreLater }
    ensures runs { RunsLead SendsRight }
{}

/// What a supplier has of a context is whole, with each name spelled on that of the entry above; and the later steps of its log can
/// be done one after another, so that an incremental refresh never fails (X.525, section 11.3: update shadow).
pub fn doing()
    ensures whole { PartsAreWhole }
    ensures copies { CopiesAreWhole }
    ensures step { StepCanBeDone }
    ensures master { MasterCanReplay }
    ensures consumer { ConsumerCanReplay }
    ensures refresh { RefreshCanReplay }
{}

/// Line by line a log grows by the steps of the updates that its agent, as the context's master, accepted in the context; of them the
/// last 256 are kept, and the moment of the newest that went is the base (X.525, section 9).
pub fn logging()
    ensures quiet { QuietLogsStay }
    ensures noted { UpdateIsNoted }
    ensures others { NoOtherNotes }
    ensures kept { KeptGrows }
{}

/// A refresh line's block brings a refresh by the agreement of its number, or nothing; either way the next line is one of such a run.
pub fn outcomes()
    ensures brings { BlockBrings }
    ensures nothing { OthersDoNothing }
    ensures leads { BlocksLead }
{}

/// What agents hold after a refresh is what they held, but for the consumer's copy by the agreement, which is as of the stamp
/// (X.525, section 7).
pub fn renewed_copies()
    ensures own { OwnAreMastered }
    ensures copies { CopiesAreConsumed }
    ensures have { ConsumersHaveCopies }
    ensures places { CopiesHavePlaces }
    ensures copy { CopyIsRenewed }
    ensures stay { OtherCopiesStay }
    ensures consumer { ConsumerIsRenewed }
    ensures others { OthersHoldOn }
{}

/// What a copy becomes by a refresh is told by what its supplier holds: of a master its context, of a consumer its own copy; and
/// after an incremental refresh what the steps make of the copy's entries (X.525, sections 7 and 9).
pub fn supplied_copies()
    ensures supplied { SuppliedIsHeld }
    ensures master { MasterSupplies }
    ensures consumer { ConsumerSupplies }
    ensures references { ReferencesStay }
    ensures advances { CopyAdvances }
{}

/// After a total refresh the consumer's log begins anew; after an incremental one it has the steps more, noted one after another;
/// and all other logs are as they were (X.525, section 9).
pub fn longer_logs()
    ensures total { TotalBeginsLog }
    ensures steps { StepsLengthenLog }
    ensures others { OtherLogsStay }
    ensures kept { KeptGrowsOn }
{}

/// The supplier knows of a refresh to be taken where it was acknowledged; and the network, the tree and knowledge are as they were.
pub fn acknowledgements()
    ensures acked { StampIsAcked }
    ensures place { AckedAtPlace }
    ensures none { NoneAcked }
    ensures rest { ElseAsBefore }
{}
