//! Agents, and their names (X.501: DSA models).

ghost use Rattle.std.specs.Prelude.{◌≡◌, [], ◌∷◌};
ghost use Rattle.std.specs.List.{list_all};
ghost use Rattle.x5_model.specs.Words.{same_octets};
ghost use Rattle.x5_model_tree.specs.Described.{is_agent_name, begins_with_letter, is_name_octet};

use crate::lists::Listed;
use std::alloc::AllocError;
use std::marker::Model;
use x5_syntax::Text;

/// Agents of a world at most.
pub const MOST_AGENTS: usize = 64;

/// Octets of an agent's name at most.
pub const MOST_NAME_OCTETS: usize = 32;

/// An agent, by its place among the world's agents, from 0.
#[derive(Clone, Copy, PartialEq, Eq)]
pub struct AgentId(pub u8);

impl Model for AgentId {
    ghost use Rattle.std.specs.Prelude.{ℕ};

    ghost Value = { ℕ };

    ghost view = { λ a. a.0 };

    ghost inverse = { λ n. record { 0 = n } };
}

/// Agents in their order.
pub type AgentList = Listed<AgentId>;

/// The name of an agent, which messages carry.
#[derive(Drop)]
pub struct AgentName {
    text: Text,
}

impl Model for AgentName {
    ghost use Rattle.std.specs.Prelude.{ℕ, List};

    ghost Value = { List ℕ };

    ghost view = { λ n. n.text };
}

/// Whether the octet may stand in the name of an agent.
fn is_name_octet_of(octet: u8) -> bool
    ensures { result ≡ is_name_octet octet }
{
    octet.is_ascii_alphanumeric() || octet == b'-'
}

/// Whether all octets may.
fn are_name_octets(octets: &[u8]) -> bool
    ensures { result ≡ list_all is_name_octet octets.now }
{
    octets.iter().all(|octet| is_name_octet_of(*octet))
}

/// Whether the first octet is a letter.
fn begins(octets: &[u8]) -> bool
    ensures { result ≡ begins_with_letter octets.now }
{
    match octets {
        [first, ..] => first.is_ascii_alphabetic(),
        [] => false,
    }
}

/// Whether it's the word that stands for the user.
fn is_user(octets: &[u8]) -> bool
    ensures { result ≡ same_octets octets.now (117 ∷ 115 ∷ 101 ∷ 114 ∷ []) }
{
    octets == b"user".as_slice()
}

impl AgentName {
    /// Whether the text may name an agent: one to 32 ASCII letters, digits and `-`, the first a letter, and not `user`. No memory.
    pub fn is_plain(text: &str) -> bool
        ensures { result ≡ is_agent_name text.now }
    {
        let octets = text.as_bytes();
        octets.len() <= MOST_NAME_OCTETS
            && begins(octets)
            && are_name_octets(octets)
            && !is_user(octets)
    }

    /// The name with this text. No memory.
    pub fn new(text: Text) -> AgentName
        ensures { result ≡ text }
    {
        AgentName { text }
    }

    /// The name as it's printed. No memory.
    pub fn as_str(&self) -> &str
        ensures { result.now ≡ self.now }
    {
        self.text.as_str()
    }

    /// Whether the two are one name. No memory.
    pub fn is_same(&self, other: &AgentName) -> bool
        ensures { result ≡ same_octets self.now other.now }
    {
        self.text.as_str().as_bytes() == other.text.as_str().as_bytes()
    }
}

impl Clone for AgentName {
    ghost is_clone = { λ a b. b ≡ a };

    fn clone(&self) -> Result<AgentName, AllocError> {
        Ok(AgentName {
            text: self.text.clone()?,
        })
    }
}

/// Names of agents in their order.
pub type AgentNameList = Listed<AgentName>;
