//! What was said of a journal is said still where lines are added to it. Each function here does nothing; its clauses are
//! the theorems.
#![tactic(auto)]

ghost use Rattle.x5_model_lasting.specs.Lasting.{HeardStays, SomeLineStays, InVainStays, ClearedStays, PassedStays, TakenStays, UntriedStays, LostStays, BlockedStays, ResultStays, TellerStays, RightStays, RightLasts, AcceptingStays, LineLeavesThem, AcceptedStays, DoneStays, NotDoneStays, ServedStays, ServedItselfStays, SettledStays, FinishedStays, ThoroughStays, FinishedIsThorough};
ghost use Rattle.x5_model_lasting.specs.Keeping.{KeepsLasts, SpentStays, AtHandStays, AtMasterStays, MayTakeStays, AskedStays, AskedApart, NotedStays, ReplyStays, CalmStays, KeepsItself, KeepsBoth, KeepsLost, KeepsSent, KeepsAccepting, AskedSent, OnlyOneSent, OnlyByBoth};

/// Who was heard, asked in vain, cleared or passed is so still, what was taken is taken, and what blocks a reference blocks it
/// still, whichever lines are added (X.518, section 20).
pub fn messages()
    ensures heard { HeardStays }
    ensures line { SomeLineStays }
    ensures vain { InVainStays }
    ensures cleared { ClearedStays }
    ensures passed { PassedStays }
    ensures taken { TakenStays }
    ensures untried { UntriedStays }
    ensures lost { LostStays }
    ensures blocked { BlockedStays }
{}

/// A right reply stays right where lines are added, if what it says of acceptance stays (X.518, sections 17 to 19).
pub fn replying()
    ensures result { ResultStays }
    ensures told { TellerStays }
    ensures one { RightStays }
    ensures right { RightLasts }
{}

/// The line by which an agent accepted stays, if no unheard probe comes below it, and so does what was accepted; what is
/// served and settled then stays so (X.518, section 19.1).
pub fn completing()
    ensures accepting { AcceptingStays }
    ensures line { LineLeavesThem }
    ensures accepted { AcceptedStays }
    ensures done { DoneStays }
    ensures not_done { NotDoneStays }
    ensures served { ServedStays }
    ensures itself { ServedItselfStays }
    ensures settled { SettledStays }
    ensures finished { FinishedStays }
    ensures thorough { ThoroughStays }
    ensures all { FinishedIsThorough }
{}

/// What holds of the message at hand before something is done for it holds after it: that it is at hand, who may send for it,
/// who was asked and heard by a reference, and which reply is right (X.518, sections 18 to 20).
pub fn holding()
    ensures lasts { KeepsLasts }
    ensures spent { SpentStays }
    ensures at_hand { AtHandStays }
    ensures at_master { AtMasterStays }
    ensures may_take { MayTakeStays }
    ensures asked { AskedStays }
    ensures apart { AskedApart }
    ensures noted { NotedStays }
    ensures reply { ReplyStays }
    ensures calm { CalmStays }
{}

/// What is kept where nothing is done, by two things that are done one after the other, by a message that is lost, by one
/// that is served, and by an update that is accepted in the end (X.518, sections 19 and 20).
pub fn composing()
    ensures itself { KeepsItself }
    ensures both { KeepsBoth }
    ensures lost { KeepsLost }
    ensures sent { KeepsSent }
    ensures accepting { KeepsAccepting }
{}

/// Who was asked for an opener, once a message by a reference was sent for it (X.518, section 20).
pub fn sending()
    ensures asked { AskedSent }
    ensures one { OnlyOneSent }
    ensures both { OnlyByBoth }
{}
