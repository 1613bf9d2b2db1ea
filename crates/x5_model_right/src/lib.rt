//! What agents do with a request is right, over consistent knowledge: by one induction over all that is done, whose cases are
//! lemmas of their own. Each function here does nothing; its clauses are the theorems.
#![tactic(auto)]

ghost use Rattle.x5_model_right.specs.Journeys.{NeededAgents};
ghost use Rattle.x5_model_right.specs.Served.{Loops, IsLong, Unfit, Refused, IsNowhere, DoneBefore, IsStuck, Refers, CarriesOut, Goes, GoesWide, ReadsOwn, ReadsCopy, GivesParts, AsksParts};
ghost use Rattle.x5_model_right.specs.Sent.{HoldsBack, Spent, IsLost, Dropped, IsHeard, IsFinal, Referral, WideReferral, Unexplored};
ghost use Rattle.x5_model_right.specs.Taken.{NoneYet, InVainToo, NextIsHeard, NoneIsHeard};
ghost use Rattle.x5_model_right.specs.Cast.{NoneAsked, UnableToo, SilentToo, IsAnswered, NobodyHas, SomeSilent};
ghost use Rattle.x5_model_right.specs.Gathered.{NoPart, PartUnheard, PartUnavailable, PartAnswered, PartBreaks};
ghost use Rattle.x5_model_right.specs.Updated.{NotDone, DoesAlone, ProbesAll, Misses, IsTaken, Breaks, NoProbe, Clear, Unsure, Silent};
ghost use Rattle.x5_model_right.specs.Right.{ServingIsRight, RequestIsRight, AllIsRight, RequestsAreRight};

/// Whom needed references name: agents of the world, one at least (X.518, section 18).
pub fn needing()
    ensures { NeededAgents }
{}

/// Serving a message where nothing is sent: it is placed, so it is no loop, not too long and fits; what is refused by the request
/// alone is refused by the tree; an update that its agent did before is done; who can't go on is unable; where no entry is found
/// the tree has none; who may not chain refers on; and
/// an update at its master is carried out (X.518, sections 17 and 18).
pub fn arriving()
    ensures loops { Loops }
    ensures long { IsLong }
    ensures unfit { Unfit }
    ensures refused { Refused }
    ensures nowhere { IsNowhere }
    ensures done { DoneBefore }
    ensures stuck { IsStuck }
    ensures refers { Refers }
    ensures carries { CarriesOut }
{}

/// Where a name goes on, its owner asks the agents of the reference, or of an NSSR (X.518, section 20).
pub fn going()
    ensures goes { Goes }
    ensures wide { GoesWide }
{}

/// A read or compare is answered from a context of the agent's own, or from a copy (X.518, section 19.2).
pub fn answering()
    ensures own { ReadsOwn }
    ensures copied { ReadsCopy }
{}

/// Where the base of a list or search is found: who may not chain gives its own part, and any other asks for the rest (X.518,
/// section 19.3).
pub fn parting()
    ensures gives { GivesParts }
    ensures asks { AsksParts }
{}

/// One message: a user holds it back; none is left; it is lost; its reply is lost; or it is heard, and followed (X.518, section 20).
pub fn one_message()
    ensures held { HoldsBack }
    ensures spent { Spent }
    ensures lost { IsLost }
    ensures dropped { Dropped }
    ensures heard { IsHeard }
{}

/// What a sender makes of a reply: nothing is left; a referral is followed; so are unexplored references (X.518, section 20).
pub fn following()
    ensures last { IsFinal }
    ensures referral { Referral }
    ensures wide { WideReferral }
    ensures unexplored { Unexplored }
{}

/// The agents of one reference, in their order, until one is heard (X.518, section 20).
pub fn one_reference()
    ensures none { NoneYet }
    ensures vain { InVainToo }
    ensures heard { NextIsHeard }
    ensures unheard { NoneIsHeard }
{}

/// The agents of an NSSR, in their order, until one can go on (X.518, section 20: multi-chaining).
pub fn one_nssr()
    ensures none { NoneAsked }
    ensures unable { UnableToo }
    ensures silent { SilentToo }
    ensures answered { IsAnswered }
    ensures nobody { NobodyHas }
    ensures some { SomeSilent }
{}

/// The references of a list or search, one after the other (X.518, sections 19.3 and 21).
pub fn all_parts()
    ensures none { NoPart }
    ensures unheard { PartUnheard }
    ensures unavailable { PartUnavailable }
    ensures answered { PartAnswered }
    ensures breaks { PartBreaks }
{}

/// An update at its master: its own ground refuses it; it is done, without probes or after them; some weren't heard; a probe finds
/// the new name, or brings another error (X.511, section 11; X.518, section 19.1).
pub fn at_master()
    ensures refused { NotDone }
    ensures alone { DoesAlone }
    ensures probed { ProbesAll }
    ensures missed { Misses }
    ensures found { IsTaken }
    ensures broken { Breaks }
{}

/// The agents that a probe goes to, in their order: who can't go on is cleared; who couldn't hear its own supplier is noted, and so
/// is who wasn't heard (X.518, section 19.1).
pub fn all_probes()
    ensures none { NoProbe }
    ensures clear { Clear }
    ensures unsure { Unsure }
    ensures silent { Silent }
{}

/// From its cases, whatever is done for a message is licensed, right and thorough, and so is a request (X.518, sections 17 to 21).
pub fn serving()
    ensures claims { ServingIsRight }
    ensures request { RequestIsRight }
{}

/// Without any premise on its cases, since all are proved: over consistent knowledge whatever is done for a message is licensed,
/// right and thorough, and so is what a user is told (X.518, sections 17 to 21).
pub fn everything()
    ensures claims { AllIsRight }
    ensures requests { RequestsAreRight }
{}
