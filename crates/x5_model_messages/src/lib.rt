//! Definitions: what requests are written as, as values of the types of messages, and what such values say (X.511, X.519, X.525). Contracts of
//! other crates cite them. Each function here does nothing; its clauses are laws, which `proofs/` shows over the definitions.
#![tactic(auto)]

ghost use Rattle.x5_model_messages.specs.ChainedLaws.{ChainedReadBack};
ghost use Rattle.x5_model_messages.specs.ShadowLaws.{ShadowsReadBack};
ghost use Rattle.x5_model_messages.specs.Laws.{TypesReadBack, NamesReadBack, RequestsReadBack};

/// What is written of a type that agents know or don't, and of a name, says it (X.501; X.660).
pub fn names_read_back()
    ensures types { TypesReadBack }
    ensures names { NamesReadBack }
{}

/// So does what is written of a user's request, with its id.
pub fn requests_read_back()
    ensures { RequestsReadBack }
{}

/// And what is written of a message between agents, with its id.
pub fn chained_read_back()
    ensures { ChainedReadBack }
{}

/// And what is written of a message of shadowing, with its id (X.525).
pub fn shadows_read_back()
    ensures { ShadowsReadBack }
{}
