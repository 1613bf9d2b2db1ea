//! Which messages of shadowing can be written: those that are within the limits of the types of messages, in a world
//! with a start and agents, in the standard's terms. Each function here does nothing; its clauses are the theorems, which
//! `proofs/` shows over the definitions.
#![tactic(auto)]

ghost use Rattle.x5_model_shadowed.specs.Agents.{AgentIsItself, AgentIsWithin};
ghost use Rattle.x5_model_shadowed.specs.Laws.{ShadowFits, ShadowIsSpelled};
ghost use Rattle.x5_model_shadowed.specs.Sending.{EntryIsWithin, StepIsWithin};

/// A message of shadowing within the limits is a value of its type, and as it is spelled (X.525, sections 9 to 12): so
/// what is written of it spells it and is read back.
pub fn shadows_fit()
    ensures fits { ShadowFits }
    ensures spelled { ShadowIsSpelled }
{}

/// An entry that agents hold within the limits of messages, in order and of values that are their types', is within those
/// of messages of shadowing, and so is a change that brings it (X.525, section 11).
pub fn refreshes_can_be_sent()
    ensures entries { EntryIsWithin }
    ensures steps { StepIsWithin }
{}

/// An agent of the world is within the limits by its name, and whoever has that name is this agent.
pub fn agents_go_by_their_names()
    ensures within { AgentIsWithin }
    ensures itself { AgentIsItself }
{}
