//! What agents do with a message, step by step: the relation of messages, journals and replies (X.518, sections 17 to 21).
//! Each function here does nothing; its clauses are the theorems, which `proofs/` shows by cases of the relation.
#![tactic(auto)]

ghost use Rattle.x5_model_serve.specs.Framing.{ServingIsFramed};
ghost use Rattle.x5_model_serve.specs.Following.{IdleIsFollowed};
ghost use Rattle.x5_model_serve.specs.Licensing.{NextIsLicensed};
ghost use Rattle.x5_model_serve.specs.Walked.{WalkIsOnce, RestIsNeeded, WalkIsWhole, NeedsAreWalked};

/// What is done for a message leaves all that stands above it in the journal.
pub fn framing()
    ensures { ServingIsFramed }
{}

/// The next message of a needed reference has its cause, where no two needed references ask the same of one agent.
pub fn licensing()
    ensures { NextIsLicensed }
{}

/// Whoever leaves something to be followed may not chain and sent nothing, and a sender hears nothing that is left to be
/// followed (X.518, section 20).
pub fn following_up()
    ensures { IdleIsFollowed }
{}

/// The walk of a list or search comes to what is evaluated on the spot, to each pin once, whatever is held; and where no pin
/// is evaluated twice, to all of it, so that all that it needs is asked for (X.518, section 19.3).
pub fn walking()
    ensures once { WalkIsOnce }
    ensures rest { RestIsNeeded }
    ensures whole { WalkIsWhole }
    ensures needs { NeedsAreWalked }
{}
