//! Definitions: messages of LDAP (RFC 4511) as what a directory is asked and answers, and the octets of responses. Each
//! function here does nothing; its clauses are laws, which `proofs/` shows over the definitions.
#![tactic(auto)]

ghost use Rattle.x5_model_ldap.specs.Laws.{NamesReadBack};

/// What is written of a name (RFC 4514) is read as it.
#[tactic(auto, using(crate::proofs::Back::name_back))]
pub fn names_read_back()
    ensures { NamesReadBack }
{}
