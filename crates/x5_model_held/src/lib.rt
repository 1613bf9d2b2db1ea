//! What agents hold as a world's file describes it, and while nothing changes what they hold. The functions here do nothing;
//! their clauses are the theorems.
#![tactic(auto)]

ghost use Rattle.x5_model_held.specs.Theorems.{HeldAsDescribed, HeldWhileStill};

/// Over consistent knowledge an agent holds before the first line what its file describes: of each context that it masters,
/// the part of the one tree (X.501, section 22).
#[tactic(auto, using(crate::proofs::Begun::held_as_described))]
pub fn beginning()
    ensures { HeldAsDescribed }
{}

/// Outages, losses and what accepts nothing leave what agents hold as it was.
#[tactic(auto, using(crate::proofs::Still::held_while_still))]
pub fn standing()
    ensures { HeldWhileStill }
{}
