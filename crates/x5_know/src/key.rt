//! The name of an agent as it is found by its text.

ghost use Rattle.std.specs.Prelude.{◌≡◌, string_bytes};
ghost use Rattle.std.proofs.Common.{ap, sym, ◌∙◌};
ghost use Rattle.std.specs.Cmp.{partial_equiv_from_equiv};
ghost use Rattle.std.specs.Cmp.Lexicographic.{bytes_decides, nat_list_eq_equiv};
ghost use Rattle.std.specs.Hash as fed;
ghost use Rattle.x5_model.specs.Words.{same_octets};

use indexmap::Equivalent;
use std::hash::{Hash, Hasher};
use std::marker::Model;
use x5_ops::AgentName;

/// A name as a key.
#[derive(Drop)]
pub(crate) struct NameKey {
    name: AgentName,
}

impl Model for NameKey {
    ghost use Rattle.std.specs.Prelude.{ℕ, List};

    ghost Value = { List ℕ };

    ghost view = { λ k. k.name };
}

impl NameKey {
    /// The key of the name. No memory.
    pub(crate) fn new(name: AgentName) -> NameKey
        ensures { result ≡ name }
    {
        NameKey { name }
    }

    /// The name of the key. No memory.
    pub(crate) fn name(&self) -> &AgentName
        ensures { result.now ≡ self.now }
    {
        &self.name
    }
}

impl PartialEq for NameKey {
    ghost eq = { λ a b. same_octets a b };

    ghost laws = { partial_equiv_from_equiv nat_list_eq_equiv };

    fn eq(&self, other: &NameKey) -> bool {
        self.name.is_same(&other.name)
    }
}

impl Eq for NameKey {
    ghost laws = { nat_list_eq_equiv };
}

impl Hash for NameKey {
    ghost hash_input = { λ k. fed.str k };

    ghost respects_eq = { λ a b h. ap fed.str ((bytes_decides a b).0 h) };

    fn hash<H: Hasher>(&self, state: &mut H) {
        self.name.as_str().hash(state);
    }
}

impl Equivalent<NameKey> for &str {
    ghost equivalent = { λ q k. same_octets k q.now };

    ghost respects_hash = { λ q k h. ap fed.str (sym ((bytes_decides k q.now).0 h)) };

    ghost respects_eq = { λ q x y h. nat_list_eq_equiv.symm y q.now ∙ sym (nat_list_eq_equiv.congr x q.now y h) };

    fn equivalent(&self, key: &NameKey) -> bool {
        key.name.as_str().as_bytes() == self.as_bytes()
    }
}
