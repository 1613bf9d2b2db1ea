//! What is right for a message that was passed on is right for the message for which it was sent. Each function here does
//! nothing; its clauses are the theorems.
#![tactic(auto)]

ghost use Rattle.x5_model_passing.specs.Passing.{SameIsAsked, ResultPassesBack, ErrorPassesBack, LossPassesBack, WithinPassesBack, PassesBack};
ghost use Rattle.x5_model_passing.specs.Acceptance.{QueriesAcceptNone, OffIsSilent};
ghost use Rattle.x5_model_passing.specs.Taking.{TakingIsRight, CastingIsRight, NobodyIsRight, SilenceIsRight};
ghost use Rattle.x5_model_passing.specs.Due.{DueIsHere, OthersAreSettled, CarriedIsSame};

/// A name that goes on elsewhere is asked for there in the same way. So a result, the tree's error and what was lost are
/// the same for whoever passed the message on, and a right reply to it is a right reply to the message before (X.518,
/// sections 18 and 20).
pub fn passing_back()
    ensures same { SameIsAsked }
    ensures results { ResultPassesBack }
    ensures errors { ErrorPassesBack }
    ensures losses { LossPassesBack }
    ensures within { WithinPassesBack }
    ensures back { PassesBack }
{}

/// While a query is served nothing is accepted; and where it is answered that somebody wasn't heard, that nobody could go
/// on, or that a limit ended it, nothing was, or a reply was lost: by what is done alone, over any knowledge.
pub fn accepting()
    ensures queries { QueriesAcceptNone }
    ensures off { OffIsSilent }
{}

/// Where a name goes on elsewhere, what is heard by the reference is a right reply to the message at hand, and so is
/// `unavailable` where nobody was. Of an NSSR, it is what an agent replies that could go on; noSuchObject, where each of them
/// was heard and holds nothing that goes as far; or `unavailable`, where some weren't heard (X.518, section 20).
pub fn going_on()
    ensures taking { TakingIsRight }
    ensures casting { CastingIsRight }
    ensures nobody { NobodyIsRight }
    ensures silence { SilenceIsRight }
{}

/// An update is due where its target is found, at its master; so a line that goes on elsewhere, or nowhere, is settled. And
/// what is carried on is the same request (X.518, section 19.1).
pub fn settling()
    ensures here { DueIsHere }
    ensures settled { OthersAreSettled }
    ensures carried { CarriedIsSame }
{}
