//! What is accepted of any message that a user hands to an agent, as his own or as another agent's. The function here does
//! nothing; its clause is the theorem.
#![tactic(auto)]

ghost use Rattle.x5_model_handed.specs.Handed.{AnyIsRight};

/// Over consistent knowledge what is accepted is right, whatever a message says of how far it has come, by which reference and
/// through which agents (X.518, sections 17 to 19).
#[tactic(auto, using(crate::proofs::Induction::any_is_right))]
pub fn accepting()
    ensures { AnyIsRight }
{}
