//! Keys of names, each of which is found without a walk through the others.

ghost use Rattle.std.specs.Prelude.{◌≡◌, [], ◌∷◌, ◌++◌, false, OnOk};
ghost use Rattle.std.specs.List.{position};
ghost use Rattle.x5_model.specs.Keys.{same_key};
ghost use Rattle.x5_model_world.specs.ContextText.{has_key};

use indexmap::IndexSet;
use std::alloc::Global;
use std::marker::Model;
use x5_memory::NoMemory;
use x5_names::Key;

/// Keys of names in the order in which they were added, each once.
#[derive(Drop)]
pub struct KeySet {
    keys: IndexSet<Key>,
}

impl Model for KeySet {
    ghost use Rattle.std.specs.Prelude.{List};
    ghost use Rattle.x5_model.specs.Keys as model;

    ghost Value = { List model.Key };

    ghost view = { λ s. s.keys.keys };
}

impl KeySet {
    /// No keys yet. No memory.
    pub fn new(alloc: Global) -> KeySet
        ensures { result ≡ [] }
    {
        KeySet {
            keys: IndexSet::new(alloc),
        }
    }

    /// Whether the key is one of these. No memory.
    pub fn has(&self, key: &Key) -> bool
        ensures { result ≡ has_key self.now key.now }
    {
        self.keys.contains(key)
    }

    /// The place of the key among these, if it's one of them. No memory.
    pub fn place(&self, key: &Key) -> Option<usize>
        ensures { result ≡ position (same_key key.now) self.now }
    {
        self.keys.get_index_of(key)
    }

    /// Adds a key that isn't one of these at the end.
    pub fn add(&mut self, key: Key) -> Result<(), NoMemory>
        requires { has_key self.old key ≡ false }
        ensures { OnOk result (self.new ≡ self.old ++ key ∷ []) }
    {
        let _added = self.keys.insert(key)?;
        Ok(())
    }
}
