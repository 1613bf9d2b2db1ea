//! What whoever passes a request on may rely on, by the relation of the agents' steps alone, over any knowledge (X.518, sections
//! 17 to 20). Each function here does nothing; its clauses are the theorems.
#![tactic(auto)]

ghost use Rattle.x5_model_heard.specs.Told.{RepliesAreTold};
ghost use Rattle.x5_model_heard.specs.Kept.{ProbesAcceptNone, HereIsFresh, UpdatesAreCarried};

/// A reply names agents of the world alone, where what agents know does; and where it says that somebody is unavailable it has
/// a reference to them.
pub fn hearing()
    ensures { RepliesAreTold }
{}

/// While probes are sent nothing is accepted. Where the target of an update is found the agent has accepted none. And an
/// update that is passed on stays the user's, as does a read or compare.
pub fn keeping()
    ensures probes { ProbesAcceptNone }
    ensures fresh { HereIsFresh }
    ensures updates { UpdatesAreCarried }
{}
