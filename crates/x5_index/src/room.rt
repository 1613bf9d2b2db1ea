//! What is made ready of an entry before it is put into an index.

ghost use Rattle.std.specs.Prelude.{◌≡◌, ◌++◌, IfOk, OnOk, IsTrue, length};
ghost use Rattle.x5_model.specs.Attributes.{is_ordered};
ghost use Rattle.x5_model.specs.Members.{Once};
ghost use Rattle.x5_model.specs.Words.{ascending};
ghost use Rattle.x5_index.specs.Index.{term_below, terms_in, terms_of};

use crate::posting::Term;
use std::alloc::Global;
use std::marker::Model;
use x5_match::{Entry, Stored};
use x5_syntax::NoMemory;

/// The values of an entry, made ready to be put into an index without memory.
#[derive(Drop)]
pub struct Room {
    terms: Vec<Term>,
}

impl Model for Room {
    ghost use Rattle.std.specs.Prelude.{List, IsTrue};
    ghost use Rattle.x5_model.specs.Keys.{KeyPair};
    ghost use Rattle.x5_model.specs.Words.{ascending};
    ghost use Rattle.x5_index.specs.Index as index;

    ghost Value = { List KeyPair };

    ghost view = { λ r. r.terms.items };

    ghost invariant = { λ r. IsTrue (ascending index.term_below r.terms.items) };
}

/// Adds the values of an attribute.
fn add_terms(terms: &mut Vec<Term>, attribute: &Stored) -> Result<(), NoMemory>
    ensures { OnOk result (terms.new.items ≡ terms.old.items ++ terms_in attribute.now) }
{
    for value in attribute.values.as_slice() {
        terms.push(Term {
            kind: attribute.kind,
            normal: value.normal.clone()?,
        })?;
    }
    Ok(())
}

impl Room {
    /// The values of the entry, made ready.
    pub fn new(alloc: Global, entry: &Entry) -> Result<Room, NoMemory>
        ensures terms { IfOk result (λ room. room ≡ terms_of entry.now) }
        ensures ordered { IsTrue (is_ordered entry.now) }
    {
        let mut terms = Vec::new(alloc);
        for attribute in entry.attributes() {
            add_terms(&mut terms, attribute)?;
        }
        Ok(Room { terms })
    }

    /// How many values there are. No memory.
    pub fn len(&self) -> usize
        ensures { result ≡ length self.now }
    {
        self.terms.len()
    }

    /// The values in their order. No memory.
    pub(crate) fn as_slice(&self) -> &[Term]
        ensures same { result.now ≡ self.now }
        ensures ordered { IsTrue (ascending term_below result.now) }
    {
        self.terms.as_slice()
    }

    /// The values, each once. No memory.
    pub(crate) fn into_terms(self) -> Vec<Term>
        ensures same { result.items ≡ self }
        ensures once { Once result.items }
    {
        let Room { terms } = self;
        terms
    }
}
