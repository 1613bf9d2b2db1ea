//! What names are compared by: type numbers and normal values, RDN by RDN from the root.

ghost use Rattle.std.specs.Prelude.{◌≡◌, ◌≤◌, length, take, IfOk};
ghost use Rattle.std.specs.Cmp.Lexicographic.{lists_per, lists_equiv};
ghost use Rattle.std.specs.Ordering.{as_partial_cmp};
ghost use Rattle.std.proofs.Common.{refl, ap};
ghost use Rattle.x5_model.specs.Keys as model;
ghost use Rattle.x5_model.specs.Values.{key_of};
ghost use Rattle.x5_names.specs.KeyHash as model_hash;
ghost use Rattle.x5_model.proofs.KeyLaws.{pair_cmp_total, pair_ties, pair_decides, rdn_cmp_total, rdn_ties, rdn_decides, key_cmp_total, key_ties, key_decides};
ghost use Rattle.x5_names.specs.KeyOrder.{same_pair_laws, same_pair_equivalence, pair_partial_order, rdn_partial_order, key_partial_order};

use crate::shared::Rdns;
use std::alloc::{AllocError, Global};
use std::cmp::Ordering;
use std::hash::{Hash, Hasher};
use std::marker::Model;
use x5_syntax::{NoMemory, Normal};

/// A pair of a key: a type's number and a normal value.
#[derive(Drop)]
pub struct KeyPair {
    kind: u8,
    normal: Normal,
}

impl Model for KeyPair {
    ghost use Rattle.x5_model.specs.Keys as keys;

    ghost Value = { keys.KeyPair };

    ghost view = { λ p. (p.kind, p.normal) };
}

/// The key of an RDN: its pairs in the order of type numbers.
#[derive(Drop)]
pub struct KeyRdn {
    pairs: Vec<KeyPair>,
}

impl Model for KeyRdn {
    ghost use Rattle.x5_model.specs.Keys as keys;

    ghost Value = { keys.KeyRdn };

    ghost view = { λ r. r.pairs.items };
}

/// The key of a name: the keys of its RDNs from the root, which it shares with the name.
#[derive(Drop)]
pub struct Key {
    rdns: Rdns,
}

impl Model for Key {
    ghost use Rattle.x5_model.specs.Keys as keys;
    ghost use Rattle.x5_model.specs.Values.{key_of};

    ghost Value = { keys.Key };

    ghost view = { λ k. key_of k.rdns };
}

impl KeyPair {
    /// A pair of a key. No memory.
    pub fn new(kind: u8, normal: Normal) -> KeyPair
        ensures { result ≡ (kind, normal) }
    {
        KeyPair { kind, normal }
    }
}

impl KeyRdn {
    /// The key of an RDN with these pairs. No memory.
    pub fn new(pairs: Vec<KeyPair>) -> KeyRdn
        ensures { result ≡ pairs.items }
    {
        KeyRdn { pairs }
    }
}

impl Key {
    /// The key of a name with these RDNs. No memory.
    pub(crate) fn new(rdns: Rdns) -> Key
        ensures { result ≡ key_of rdns }
    {
        Key { rdns }
    }

    /// How many RDNs the name has. No memory.
    pub fn len(&self) -> usize
        ensures { result ≡ length self.now }
    {
        self.rdns.as_slice().len()
    }

    /// Whether the first RDNs of the other name are those of this one. No memory.
    #[tactic(auto, using(crate::proofs::Fronts::front_is))]
    pub fn is_prefix(&self, of: &Key) -> bool
        ensures { result ≡ model.is_prefix self.now of.now }
    {
        let first = self.rdns.as_slice();
        let all = of.rdns.as_slice();
        let count = first.len().min(all.len());
        &all[..count] == first
    }

    /// The key of the first RDNs.
    #[tactic(auto, using(crate::proofs::Fronts::key_front))]
    pub fn first(&self, alloc: Global, count: usize) -> Result<Key, NoMemory>
        requires { count ≤ length self.now }
        ensures { IfOk result (λ key. key ≡ take count self.now) }
    {
        let rdns = self.rdns.first(alloc, count)?;
        Ok(Key::new(rdns))
    }
}

impl PartialEq for KeyPair {
    ghost eq = { model.same_pair };

    ghost laws = { same_pair_laws };

    fn eq(&self, other: &KeyPair) -> bool {
        self.kind == other.kind && self.normal.as_slice() == other.normal.as_slice()
    }
}

impl Eq for KeyPair {
    ghost laws = { same_pair_equivalence };
}

impl PartialOrd for KeyPair {
    ghost partial_cmp = { as_partial_cmp model.pair_cmp };

    ghost laws = { pair_partial_order };

    fn partial_cmp(&self, other: &KeyPair) -> Option<Ordering> {
        Some(self.cmp(other))
    }
}

impl Ord for KeyPair {
    ghost cmp = { model.pair_cmp };

    ghost total = { pair_cmp_total };

    ghost matches_partial_cmp = { λ x y. refl };

    ghost matches_eq = { pair_ties };

    fn cmp(&self, other: &KeyPair) -> Ordering {
        self.kind
            .cmp(&other.kind)
            .then(self.normal.as_slice().cmp(other.normal.as_slice()))
    }
}

impl PartialEq for KeyRdn {
    ghost eq = { model.same_rdn };

    ghost laws = { lists_per same_pair_laws };

    fn eq(&self, other: &KeyRdn) -> bool {
        self.pairs == other.pairs
    }
}

impl Eq for KeyRdn {
    ghost laws = { lists_equiv same_pair_equivalence };
}

impl PartialOrd for KeyRdn {
    ghost partial_cmp = { as_partial_cmp model.rdn_cmp };

    ghost laws = { rdn_partial_order };

    fn partial_cmp(&self, other: &KeyRdn) -> Option<Ordering> {
        Some(self.cmp(other))
    }
}

impl Ord for KeyRdn {
    ghost cmp = { model.rdn_cmp };

    ghost total = { rdn_cmp_total };

    ghost matches_partial_cmp = { λ x y. refl };

    ghost matches_eq = { rdn_ties };

    fn cmp(&self, other: &KeyRdn) -> Ordering {
        self.pairs.cmp(&other.pairs)
    }
}

impl PartialEq for Key {
    ghost eq = { model.same_key };

    ghost laws = { lists_per (lists_per same_pair_laws) };

    #[tactic(auto, using(crate::proofs::ByKeys::same_names))]
    fn eq(&self, other: &Key) -> bool {
        self.rdns.as_slice() == other.rdns.as_slice()
    }
}

impl Eq for Key {
    ghost laws = { lists_equiv (lists_equiv same_pair_equivalence) };
}

impl PartialOrd for Key {
    ghost partial_cmp = { as_partial_cmp model.key_cmp };

    ghost laws = { key_partial_order };

    fn partial_cmp(&self, other: &Key) -> Option<Ordering> {
        Some(self.cmp(other))
    }
}

impl Ord for Key {
    ghost cmp = { model.key_cmp };

    ghost total = { key_cmp_total };

    ghost matches_partial_cmp = { λ x y. refl };

    ghost matches_eq = { key_ties };

    #[tactic(auto, using(crate::proofs::ByKeys::names_cmp))]
    fn cmp(&self, other: &Key) -> Ordering {
        self.rdns.as_slice().cmp(other.rdns.as_slice())
    }
}

impl Hash for KeyPair {
    ghost hash_input = { model_hash.pair_writes };

    ghost respects_eq = { λ a b same. ap model_hash.pair_writes ((pair_decides a b).0 same) };

    fn hash<H: Hasher>(&self, state: &mut H) {
        state.write_u8(self.kind);
        self.normal.as_slice().hash(state);
    }
}

impl Hash for KeyRdn {
    ghost hash_input = { model_hash.rdn_writes };

    ghost respects_eq = { λ a b same. ap model_hash.rdn_writes ((rdn_decides a b).0 same) };

    fn hash<H: Hasher>(&self, state: &mut H) {
        self.pairs.hash(state);
    }
}

impl Hash for Key {
    ghost hash_input = { model_hash.key_writes };

    ghost respects_eq = { λ a b same. ap model_hash.key_writes ((key_decides a b).0 same) };

    #[tactic(auto, using(crate::proofs::ByKeys::name_hash))]
    fn hash<H: Hasher>(&self, state: &mut H) {
        self.rdns.as_slice().hash(state);
    }
}

impl Clone for KeyPair {
    ghost is_clone = { λ a b. b ≡ a };

    fn clone(&self) -> Result<KeyPair, AllocError> {
        Ok(KeyPair {
            kind: self.kind,
            normal: self.normal.clone()?,
        })
    }
}

impl Clone for KeyRdn {
    ghost is_clone = { λ a b. b ≡ a };

    fn clone(&self) -> Result<KeyRdn, AllocError> {
        Ok(KeyRdn {
            pairs: self.pairs.clone()?,
        })
    }
}

impl Clone for Key {
    ghost is_clone = { λ a b. b ≡ a };

    fn clone(&self) -> Result<Key, AllocError> {
        Ok(Key {
            rdns: self.rdns.clone()?,
        })
    }
}
