//! Definitions: what each line of a script asks for, or the first fault from the left of one that asks for nothing, with its
//! column; and what a whole script asks for. The one function does nothing; its clause is a theorem.
#![tactic(auto)]

ghost use Rattle.x5_model_script.specs.Named.{ScriptsNameAgents};

/// An agent that a script names is one of those whose names it was given.
#[tactic(auto, using(crate::proofs::NamedLaws::script_named))]
pub fn scripts_name_agents()
    ensures { ScriptsNameAgents }
{}
