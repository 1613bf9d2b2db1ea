//! The names of a world's agents, each of which is found without a walk through the others.

ghost use Rattle.std.specs.Prelude.{◌≡◌, ◌<◌, ◌≤◌, [], ◌∷◌, ◌++◌, length, slice_get, Some, not, if◌then◌else◌, IfOk, OnErr};
ghost use Rattle.std.specs.List.{list_any, position};
ghost use Rattle.x5_model.specs.Words.{same_octets};
ghost use Rattle.x5_know.specs.Names.{has_name, with_name};

use crate::key::NameKey;
use indexmap::IndexSet;
use std::alloc::Global;
use std::marker::Model;
use x5_memory::NoMemory;
use x5_ops::{AgentId, AgentName};

/// The names of the world's agents, in the order of its file: an `AgentId` is a place here. No name stands here twice.
#[derive(Drop)]
pub struct AgentNames {
    names: IndexSet<NameKey>,
}

impl Model for AgentNames {
    ghost use Rattle.std.specs.Prelude.{ℕ, List, ◌≤◌, length};

    ghost Value = { List (List ℕ) };

    ghost view = { λ a. a.names.keys };

    ghost invariant = { λ a. length a.names.keys ≤ 64 };
}

impl AgentNames {
    /// No names yet. No memory.
    pub fn new(alloc: Global) -> AgentNames
        ensures { result ≡ [] }
    {
        AgentNames {
            names: IndexSet::new(alloc),
        }
    }

    /// Adds a name at the end, and says whether it's new; one that stands here already isn't added. After want of memory the names
    /// are as they were.
    pub fn add(&mut self, name: AgentName) -> Result<bool, NoMemory>
        requires room { length self.old < 64 }
        ensures added { IfOk result (λ b. b ≡ not (has_name self.old name)) }
        ensures names { IfOk result (λ b. self.new ≡ with_name self.old name) }
        ensures err { OnErr result (self.new ≡ self.old) }
    {
        let added = self.names.insert(NameKey::new(name))?;
        Ok(added)
    }

    /// How many agents there are. No memory.
    pub fn len(&self) -> usize
        ensures same { result ≡ length self.now }
        ensures most { result ≤ 64 }
    {
        self.names.len()
    }

    /// The name of the agent. No memory.
    pub fn name(&self, id: AgentId) -> &AgentName
        requires { id < length self.now }
        ensures { slice_get self.now id ≡ Some result.now }
    {
        self.names.as_slice()[id.0 as usize].name()
    }

    /// The agent whose name the text is, if there is one. No memory.
    pub fn find(&self, text: &str) -> Option<AgentId>
        ensures { result ≡ position (λ n. same_octets n text.now) self.now }
    {
        match self.names.get_index_of(text) {
            Some(place) => Some(AgentId(place as u8)),
            None => None,
        }
    }
}
