//! What agents send and reply stays within the limits of messages, over any knowledge: so every message between them can be
//! written, and is read back (X.518, sections 18 to 21). Each function here does nothing; its clauses are the theorems.
#![tactic(auto)]

ghost use Rattle.x5_model_limits.specs.Laws.{FindsBounded, RestBounded, ProbesBounded, CarriedBounded, OpeningBounded};
ghost use Rattle.x5_model_limits.specs.Laws.{OwnPartBounded, CopyPartBounded, LocalPartBounded, AnswersBounded};
ghost use Rattle.x5_model_limits.specs.Laws.{RefusalsBounded, JudgedBounded, GroundBounded, CommittedBounded};
ghost use Rattle.x5_model_limits.specs.Laws.{DoesBounded, RequestsBounded, DescribedBounded, LinesBounded};
ghost use Rattle.x5_model_limits.specs.Steps.{NotedBounded, ReplayBounded};
ghost use Rattle.x5_model_limits.specs.Operations.{RepliesToAsked, RequestsAnswered};

/// Where what an agent holds and the message are within the limits, so is what it finds of the name, and what it needs for a
/// list or search, and for probes.
pub fn what_is_found()
    ensures found { FindsBounded }
    ensures rest { RestBounded }
    ensures probes { ProbesBounded }
{}

/// What is carried by a reference is within the limits, where the message that it's carried for has room in its trace; and so is
/// what a user asks.
pub fn what_is_carried()
    ensures carried { CarriedBounded }
    ensures opening { OpeningBounded }
{}

/// What an agent answers from a context or a copy within the limits, and its part of a list or search, is within them (X.518,
/// section 19).
pub fn parts_bounded()
    ensures own { OwnPartBounded }
    ensures copy { CopyPartBounded }
    ensures local { LocalPartBounded }
{}

/// What is made of answers and references within the limits stays within them (X.518, section 21).
pub fn answers_bounded()
    ensures { AnswersBounded }
{}

/// What an agent refuses a request with within the limits, by the request alone or by the entries of its own contexts, is within
/// them (X.511, sections 9 to 12).
pub fn refusals_bounded()
    ensures refused { RefusalsBounded }
    ensures judged { JudgedBounded }
    ensures ground { GroundBounded }
{}

/// What an agent holds once it accepted an update that is within the limits is within them (X.511, section 11).
pub fn committed_bounded()
    ensures { CommittedBounded }
{}

/// Where all that the agents of a world hold is within the limits, and names agents of that world alone, so is whatever they
/// tell when something within them comes to one, and each message that they send meanwhile. So it is of a user's request.
pub fn what_is_done()
    ensures does { DoesBounded }
    ensures requests { RequestsBounded }
{}

/// What is noted of an update that is within the limits is within them, and so are the entries that such steps make (X.525,
/// section 9).
pub fn steps_bounded()
    ensures noted { NotedBounded }
    ensures replay { ReplayBounded }
{}

/// Over any knowledge a reply is one to what was asked: its answer is the result of that operation (X.511, sections 9 to 11).
pub fn what_is_answered()
    ensures does { RepliesToAsked }
    ensures requests { RequestsAnswered }
{}

/// What a world's file describes of an agent is within the limits, where its texts are UTF-8 (X.501, section 22).
pub fn described_bounded()
    ensures { DescribedBounded }
{}

/// At every line of a run what an agent holds is within the limits, copies refreshed or not, so long as the updates that
/// were accepted are, and the moments of copies have four octets (X.525, section 9).
pub fn lines_bounded()
    ensures { LinesBounded }
{}
