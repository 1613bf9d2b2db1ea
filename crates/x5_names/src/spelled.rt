//! Names as they are spelled, with their keys.

ghost use Rattle.std.specs.Prelude.{◌≡◌, ◌-◌, ◌++◌, ◌∷◌, ◌≤◌, [], length, take, map, IfOk, OnOk, OnErr, option_copied, slice_get};
ghost use Rattle.x5_model.specs.Keys as keys;
ghost use Rattle.x5_model.specs.Normal.{stored_pair, stored_rdn, stored};
ghost use Rattle.x5_model.specs.Values.{key_of_pair, key_of_rdn, key_of, name_above, written, written_pair};
ghost use Rattle.x5_model_text.specs.NameText.{text_of_name, text_of_rdn};
ghost use Rattle.x5_names.specs.Reading.{stored_name_of_text, stored_rdn_of_text};
ghost use Rattle.x5_names.specs.Sharing.{shared_pairs};
ghost use Rattle.x5_syntax.specs.Reading.{ReadsName};

use crate::keys::{Key, KeyPair, KeyRdn};
use crate::shared::Rdns;
use std::alloc::{AllocError, Global};
use std::cmp::Ordering;
use std::marker::Model;
use std::rc::Rc;
use std::slice::from_ref;
use x5_syntax::{NameFault, NameValue, NoMemory, Normal, RdnValue, Text, TypeId, text_normal};

/// A pair of an RDN: a type, the text of a value as it's spelled, and its normal form.
#[derive(Drop)]
pub struct Pair {
    kind: TypeId,
    text: Text,
    normal: Normal,
}

impl Model for Pair {
    ghost use Rattle.x5_model.specs.Values as values;

    ghost Value = { values.Pair };

    ghost view = { λ p. record { kind = p.kind; text = p.text; normal = p.normal } };
}

/// The pairs of an RDN: nearly all have one, which then needs no list.
#[derive(Drop)]
enum Pairs {
    One(Rc<Pair>),
    Many(Rc<Vec<Pair>>),
}

/// An RDN: its pairs in the order of type numbers, which its copies share.
#[derive(Drop)]
pub struct Rdn {
    pairs: Pairs,
}

impl Model for Rdn {
    ghost use Rattle.x5_names.specs.Sharing.{shared_pairs};
    ghost use Rattle.x5_model.specs.Values as values;

    ghost Value = { values.Rdn };

    ghost view = { λ r. shared_pairs r.pairs };
}

/// A name from the root, with its key.
#[derive(Drop)]
pub struct Name {
    rdns: Rdns,
    key: Key,
}

impl Model for Name {
    ghost use Rattle.std.specs.Prelude.{◌≡◌};
    ghost use Rattle.x5_model.specs.Values as values;

    ghost Value = { values.Name };

    ghost view = { λ n. n.rdns };

    ghost invariant = { λ n. n.key ≡ values.key_of n.rdns };
}

impl Pair {
    /// A pair of the type and a copy of the text.
    pub fn new(alloc: Global, kind: TypeId, text: &str) -> Result<Pair, NoMemory>
        ensures { IfOk result (λ pair. pair ≡ stored_pair (kind, text.now)) }
    {
        let normal = text_normal(alloc, kind, text)?;
        let text = Text::new(alloc, text)?;
        Ok(Pair { kind, text, normal })
    }

    /// Its type. No memory.
    pub fn kind(&self) -> TypeId
        ensures { result ≡ self.now.kind }
    {
        self.kind
    }

    /// Its text, as it's spelled. No memory.
    pub fn text(&self) -> &Text
        ensures { result.now ≡ self.now.text }
    {
        &self.text
    }

    /// The normal form of its text. No memory.
    pub fn normal(&self) -> &Normal
        ensures { result.now ≡ self.now.normal }
    {
        &self.normal
    }

    /// What it's compared by.
    fn key(&self) -> Result<KeyPair, NoMemory>
        ensures { IfOk result (λ key. key ≡ key_of_pair self.now) }
    {
        Ok(KeyPair::new(self.kind.number(), self.normal.clone()?))
    }
}

impl Clone for Pair {
    ghost is_clone = { λ a b. b ≡ a };

    fn clone(&self) -> Result<Pair, AllocError> {
        Ok(Pair {
            kind: self.kind,
            text: self.text.clone()?,
            normal: self.normal.clone()?,
        })
    }
}

/// The pairs that are written so.
fn pairs_from(alloc: Global, values: &[(TypeId, Text)]) -> Result<Vec<Pair>, NoMemory>
    ensures { IfOk result (λ pairs. pairs.items ≡ stored_rdn values.now) }
{
    let mut pairs = Vec::with_capacity(alloc, values.len())?;
    for pair in values {
        pairs.push(Pair::new(alloc, pair.0, pair.1.as_str())?)?;
    }
    Ok(pairs)
}

impl Clone for Pairs {
    ghost is_clone = { λ a b. shared_pairs b ≡ shared_pairs a };

    fn clone(&self) -> Result<Pairs, AllocError> {
        match self {
            Pairs::One(pair) => Ok(Pairs::One(pair.clone()?)),
            Pairs::Many(pairs) => Ok(Pairs::Many(pairs.clone()?)),
        }
    }
}

impl Rdn {
    /// An RDN of these pairs.
    pub fn new(alloc: Global, pairs: Vec<Pair>) -> Result<Rdn, NoMemory>
        ensures { IfOk result (λ rdn. rdn ≡ pairs.items) }
    {
        let pairs = Pairs::Many(Rc::new(alloc, pairs)?);
        Ok(Rdn { pairs })
    }

    /// An RDN of the one pair.
    pub fn one(alloc: Global, pair: Pair) -> Result<Rdn, NoMemory>
        ensures { IfOk result (λ rdn. rdn ≡ pair ∷ []) }
    {
        let pairs = Pairs::One(Rc::new(alloc, pair)?);
        Ok(Rdn { pairs })
    }

    /// The RDN that is written so.
    pub fn from_value(alloc: Global, value: &RdnValue) -> Result<Rdn, NoMemory>
        ensures { IfOk result (λ rdn. rdn ≡ stored_rdn value.now) }
    {
        match value.pairs() {
            [pair] => Rdn::one(alloc, Pair::new(alloc, pair.0, pair.1.as_str())?),
            pairs => Rdn::new(alloc, pairs_from(alloc, pairs)?),
        }
    }

    /// The RDN that a text spells, within the limits.
    pub fn parse(alloc: Global, text: &str) -> Result<Rdn, NameFault>
        ensures { ReadsName (λ rdn. rdn) result (stored_rdn_of_text text.now) }
    {
        let value = RdnValue::parse(alloc, text)?;
        Ok(Rdn::from_value(alloc, &value)?)
    }

    /// Its pairs. No memory.
    pub fn pairs(&self) -> &[Pair]
        ensures { result.now ≡ self.now }
    {
        match &self.pairs {
            Pairs::One(pair) => from_ref(pair.as_ref()),
            Pairs::Many(pairs) => pairs.as_slice(),
        }
    }

    /// What is written of it.
    pub fn value(&self, alloc: Global) -> Result<RdnValue, NoMemory>
        ensures { IfOk result (λ value. value ≡ map written_pair self.now) }
    {
        let mut pairs = Vec::with_capacity(alloc, self.pairs().len())?;
        for pair in self.pairs() {
            pairs.push((pair.kind, pair.text.clone()?))?;
        }
        Ok(RdnValue::new(pairs))
    }

    /// Its text.
    pub fn text(&self, alloc: Global) -> Result<Text, NoMemory>
        ensures { IfOk result (λ text. text ≡ text_of_rdn self.now) }
    {
        let value = self.value(alloc)?;
        value.text(alloc)
    }

    /// What it's compared by.
    pub fn key(&self, alloc: Global) -> Result<KeyRdn, NoMemory>
        ensures { IfOk result (λ key. key ≡ key_of_rdn self.now) }
    {
        let mut pairs = Vec::with_capacity(alloc, self.pairs().len())?;
        for pair in self.pairs() {
            pairs.push(pair.key()?)?;
        }
        Ok(KeyRdn::new(pairs))
    }
}

impl Clone for Rdn {
    ghost is_clone = { λ a b. b ≡ a };

    fn clone(&self) -> Result<Rdn, AllocError> {
        Ok(Rdn {
            pairs: self.pairs.clone()?,
        })
    }
}

/// The RDNs of a name that is written so.
fn rdns_from(alloc: Global, values: &[RdnValue]) -> Result<Vec<Rdn>, NoMemory>
    ensures { IfOk result (λ rdns. rdns.items ≡ stored values.now) }
{
    let mut rdns = Vec::with_capacity(alloc, values.len())?;
    for value in values {
        rdns.push(Rdn::from_value(alloc, value)?)?;
    }
    Ok(rdns)
}

/// What is written of the RDNs.
fn values_of(alloc: Global, rdns: &[Rdn]) -> Result<Vec<RdnValue>, NoMemory>
    ensures { IfOk result (λ values. values.items ≡ written rdns.now) }
{
    let mut values = Vec::with_capacity(alloc, rdns.len())?;
    for rdn in rdns {
        values.push(rdn.value(alloc)?)?;
    }
    Ok(values)
}

impl Name {
    /// The root, which is no entry. No memory.
    pub fn root(_alloc: Global) -> Name
        ensures { result ≡ [] }
    {
        Name {
            rdns: Rdns::none(),
            key: Key::new(Rdns::none()),
        }
    }

    /// A name of these RDNs.
    pub fn new(alloc: Global, rdns: Vec<Rdn>) -> Result<Name, NoMemory>
        ensures { IfOk result (λ name. name ≡ rdns.items) }
    {
        Name::of(Rdns::new(alloc, rdns)?)
    }

    /// The name of these RDNs, which it shares with its key.
    fn of(rdns: Rdns) -> Result<Name, NoMemory>
        ensures { IfOk result (λ name. name ≡ rdns) }
    {
        let key = Key::new(rdns.clone()?);
        Ok(Name { rdns, key })
    }

    /// The name that is written so.
    pub fn from_value(alloc: Global, value: &NameValue) -> Result<Name, NoMemory>
        ensures { IfOk result (λ name. name ≡ stored value.now) }
    {
        let rdns = rdns_from(alloc, value.rdns())?;
        Name::new(alloc, rdns)
    }

    /// The name that a text spells, within the limits; else the first fault in reading order.
    pub fn parse(alloc: Global, text: &str) -> Result<Name, NameFault>
        ensures { ReadsName (λ name. name) result (stored_name_of_text text.now) }
    {
        let value = NameValue::parse(alloc, text)?;
        Ok(Name::from_value(alloc, &value)?)
    }

    /// What is written of it.
    pub fn value(&self, alloc: Global) -> Result<NameValue, NoMemory>
        ensures { IfOk result (λ value. value ≡ written self.now) }
    {
        let rdns = values_of(alloc, self.rdns())?;
        Ok(NameValue::new(rdns))
    }

    /// Its text.
    pub fn text(&self, alloc: Global) -> Result<Text, NoMemory>
        ensures { IfOk result (λ text. text ≡ text_of_name self.now) }
    {
        let value = self.value(alloc)?;
        value.text(alloc)
    }

    /// What it's compared by. No memory.
    pub fn key(&self) -> &Key
        ensures { result.now ≡ key_of self.now }
    {
        &self.key
    }

    /// How many RDNs it has. No memory.
    pub fn len(&self) -> usize
        ensures { result ≡ length self.now }
    {
        self.rdns().len()
    }

    /// Whether it's the root. No memory.
    pub fn is_root(&self) -> bool
        ensures { result ≡ keys.is_root (key_of self.now) }
    {
        self.key.len() == 0
    }

    /// Its RDNs from the root. No memory.
    pub fn rdns(&self) -> &[Rdn]
        ensures { result.now ≡ self.now }
    {
        self.rdns.as_slice()
    }

    /// Its last RDN; the root has none. No memory.
    pub fn last(&self) -> Option<&Rdn>
        ensures { option_copied result ≡ slice_get self.now (length self.now - 1) }
    {
        self.rdns().last()
    }

    /// Whether the two are the same but for spelling. No memory.
    pub fn is_same(&self, other: &Name) -> bool
        ensures { result ≡ keys.same_key (key_of self.now) (key_of other.now) }
    {
        self.key == other.key
    }

    /// Whether the first RDNs of the other name are those of this one, but for spelling. No memory.
    pub fn is_prefix(&self, of: &Name) -> bool
        ensures { result ≡ keys.is_prefix (key_of self.now) (key_of of.now) }
    {
        self.key.is_prefix(&of.key)
    }

    /// The order of names: RDN by RDN, a prefix first. No memory.
    pub fn cmp_key(&self, other: &Name) -> Ordering
        ensures { result ≡ keys.key_cmp (key_of self.now) (key_of other.now) }
    {
        self.key.cmp(&other.key)
    }

    /// The name of the first RDNs.
    pub fn first(&self, alloc: Global, count: usize) -> Result<Name, NoMemory>
        requires { count ≤ length self.now }
        ensures { IfOk result (λ name. name ≡ take count self.now) }
    {
        let rdns = self.rdns.first(alloc, count)?;
        Name::of(rdns)
    }

    /// The name of what stands just above; the root's is the root.
    pub fn parent(&self, alloc: Global) -> Result<Name, NoMemory>
        ensures { IfOk result (λ name. name ≡ name_above self.now) }
    {
        self.first(alloc, self.len().saturating_sub(1))
    }

    /// The name of what stands below by the RDN.
    pub fn below(&self, alloc: Global, rdn: &Rdn) -> Result<Name, NoMemory>
        ensures { IfOk result (λ name. name ≡ self.now ++ rdn.now ∷ []) }
    {
        let mut rdns: Vec<Rdn> = Vec::with_capacity(alloc, self.len().saturating_add(1))?;
        rdns.extend_from_slice(self.rdns())?;
        rdns.push(rdn.clone()?)?;
        Name::new(alloc, rdns)
    }

    /// Adds the RDN at the end. After want of memory the name is as it was.
    pub fn push(&mut self, alloc: Global, rdn: Rdn) -> Result<(), NoMemory>
        ensures ok { OnOk result (self.new ≡ self.old ++ rdn ∷ []) }
        ensures err { OnErr result (self.new ≡ self.old) }
    {
        let longer = self.below(alloc, &rdn)?;
        *self = longer;
        Ok(())
    }
}

impl Clone for Name {
    ghost is_clone = { λ a b. b ≡ a };

    fn clone(&self) -> Result<Name, AllocError> {
        Ok(Name {
            rdns: self.rdns.clone()?,
            key: self.key.clone()?,
        })
    }
}
