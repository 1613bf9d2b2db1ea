//! Members of the lists of a network, of which no two are the same: each is found without a walk through the others.

ghost use Rattle.std.specs.Prelude.{◌≡◌, ◌==◌, [], ◌∷◌, ◌++◌, map, false, OnOk};
ghost use Rattle.std.specs.List.{list_any};
ghost use Rattle.x5_load.specs.TextPairs.{texts_of};
ghost use Rattle.x5_model_world.specs.NetworkText as model;

use indexmap::IndexSet;
use std::alloc::Global;
use std::marker::Model;
use x5_memory::NoMemory;

/// Texts in the order of the file, each once.
#[derive(Drop)]
pub(crate) struct Texts<'a> {
    texts: IndexSet<&'a str>,
}

impl<'a> Model for Texts<'a> {
    ghost use Rattle.std.specs.Prelude.{List, map};
    ghost use Rattle.x5_model.specs.Values.{Text};

    ghost Value = { List Text };

    ghost view = { λ t. map (λ u. u.now) t.texts.keys };
}

impl<'a> Texts<'a> {
    /// No texts yet. No memory.
    pub(crate) fn new(alloc: Global) -> Texts<'a>
        ensures { result ≡ [] }
    {
        Texts {
            texts: IndexSet::new(alloc),
        }
    }

    /// Whether the text is one of these. No memory.
    #[tactic(auto, using(crate::proofs::Texts::text_there))]
    pub(crate) fn has(&self, text: &str) -> bool
        ensures { result ≡ model.has_text self.now text.now }
    {
        self.texts.contains(text)
    }

    /// Adds a text that isn't one of these at the end.
    #[tactic(auto, using(crate::proofs::Texts::text_there, crate::proofs::Texts::text_more))]
    pub(crate) fn add(&mut self, text: &'a str) -> Result<(), NoMemory>
        requires { model.has_text self.old text.now ≡ false }
        ensures { OnOk result (self.new ≡ self.old ++ text.now ∷ []) }
    {
        let _added = self.texts.insert(text)?;
        Ok(())
    }

    /// The texts as a list. No memory.
    pub(crate) fn as_slice(&self) -> &[&'a str]
        ensures { map (λ t. t.now) result.now ≡ self.now }
    {
        self.texts.as_slice()
    }
}

/// Pairs of texts in the order of the file, each once in its order.
#[derive(Drop)]
pub(crate) struct Pairs<'a> {
    pairs: IndexSet<(&'a str, &'a str)>,
}

impl<'a> Model for Pairs<'a> {
    ghost use Rattle.std.specs.Prelude.{List, map};
    ghost use Rattle.x5_load.specs.TextPairs.{texts_of};
    ghost use Rattle.x5_model_world.specs.NetworkText as model;

    ghost Value = { List model.Texts };

    ghost view = { λ p. map texts_of p.pairs.keys };
}

impl<'a> Pairs<'a> {
    /// No pairs yet. No memory.
    pub(crate) fn new(alloc: Global) -> Pairs<'a>
        ensures { result ≡ [] }
    {
        Pairs {
            pairs: IndexSet::new(alloc),
        }
    }

    /// Whether one of these has the two texts, in this order. No memory.
    #[tactic(auto, using(crate::proofs::Texts::pair_there))]
    pub(crate) fn has(&self, a: &'a str, b: &'a str) -> bool
        ensures { result ≡ list_any (model.same_texts (a.now, b.now)) self.now }
    {
        self.pairs.contains(&(a, b))
    }

    /// Adds a pair that isn't one of these at the end.
    pub(crate) fn add(&mut self, a: &'a str, b: &'a str) -> Result<(), NoMemory>
        requires { list_any (model.same_texts (a.now, b.now)) self.old ≡ false }
        ensures { OnOk result (self.new ≡ self.old ++ (a.now, b.now) ∷ []) }
    {
        let _added = self.pairs.insert((a, b))?;
        Ok(())
    }

    /// The pairs as a list. No memory.
    pub(crate) fn as_slice(&self) -> &[(&'a str, &'a str)]
        ensures { map texts_of result.now ≡ self.now }
    {
        self.pairs.as_slice()
    }
}

/// Numbers in the order of the file, each once.
#[derive(Drop)]
pub(crate) struct Numbers {
    numbers: IndexSet<u32>,
}

impl Model for Numbers {
    ghost use Rattle.std.specs.Prelude.{ℕ, List};

    ghost Value = { List ℕ };

    ghost view = { λ n. n.numbers.keys };
}

impl Numbers {
    /// No numbers yet. No memory.
    pub(crate) fn new(alloc: Global) -> Numbers
        ensures { result ≡ [] }
    {
        Numbers {
            numbers: IndexSet::new(alloc),
        }
    }

    /// Whether the number is one of these. No memory.
    pub(crate) fn has(&self, number: u32) -> bool
        ensures { result ≡ list_any (λ k. number == k) self.now }
    {
        self.numbers.contains(&number)
    }

    /// Adds a number that isn't one of these at the end.
    pub(crate) fn add(&mut self, number: u32) -> Result<(), NoMemory>
        requires { list_any (λ k. number == k) self.old ≡ false }
        ensures { OnOk result (self.new ≡ self.old ++ number ∷ []) }
    {
        let _added = self.numbers.insert(number)?;
        Ok(())
    }

    /// The numbers as a list. No memory.
    pub(crate) fn as_slice(&self) -> &[u32]
        ensures { result.now ≡ self.now }
    {
        self.numbers.as_slice()
    }
}
