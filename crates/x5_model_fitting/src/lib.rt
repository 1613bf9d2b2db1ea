//! Which messages can be written: requests, messages between agents and replies that are within the limits of the types
//! of messages, in the standard's terms. Each function here does nothing; its clauses are the theorems, which `proofs/`
//! shows over the definitions.
#![tactic(auto)]

ghost use Rattle.x5_model_fitting.specs.Keeping.{BeginningIsWithin, LongerNameIsWithin, LongerTraceIsWithin, NormalIsWithin, StoredNameIsWithin};
ghost use Rattle.x5_model_fitting.specs.Laws.{ChainedFits, ChainedIsSpelled, ReplyFits, ReplyToAgentFits, RequestFits, RequestIsSpelled, SpelledChainedIsWithin, SpelledReplyIsWithin, SpelledReplyToAgentIsWithin, SpelledRequestIsWithin};

/// A user's request within the limits is a value of its type, and as it is spelled (X.511): so what is written of it
/// spells it and is read back.
pub fn requests_fit()
    ensures fits { RequestFits }
    ensures spelled { RequestIsSpelled }
{}

/// So is a message between agents (X.518, section 10).
pub fn messages_fit()
    ensures fits { ChainedFits }
    ensures spelled { ChainedIsSpelled }
{}

/// A reply within the limits is a value of the type of answers, to users and between agents (X.511, sections 7, 10 and
/// 12).
pub fn replies_fit()
    ensures to_user { ReplyFits }
    ensures to_agent { ReplyToAgentFits }
{}

/// What octets spell of a user's request, of a message between agents, or of a reply to either is within the limits.
pub fn what_is_spelled_is_within()
    ensures requests { SpelledRequestIsWithin }
    ensures messages { SpelledChainedIsWithin }
    ensures to_user { SpelledReplyIsWithin }
    ensures to_agent { SpelledReplyToAgentIsWithin }
{}

/// Names that a file describes are within the limits, and so are their beginnings, names with one RDN more, trace
/// information with one more item, and values that have a normal form for their kind.
pub fn limits_are_kept()
    ensures described { StoredNameIsWithin }
    ensures beginning { BeginningIsWithin }
    ensures longer { LongerNameIsWithin }
    ensures trace { LongerTraceIsWithin }
    ensures values { NormalIsWithin }
{}
