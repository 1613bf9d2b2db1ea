//! Names that are spelled just below one whose text is at hand.

ghost use Rattle.std.specs.Prelude.{◌≡◌, ◌++◌, ◌∷◌, true, Ok, IfOk, IfSome};
ghost use Rattle.x5_model_text.specs.NameText.{slash};
ghost use Rattle.x5_names.specs.Reading.{stored_name_of_text};
ghost use Rattle.x5_syntax.specs.Reading.{ReadsName};

use crate::spelled::{Name, Rdn};
use std::alloc::Global;
use std::marker::Model;
use x5_syntax::{MOST_RDNS, NameFault, NoMemory};

/// A text with the name that it spells.
#[derive(Drop)]
pub struct KnownName<'a> {
    text: &'a str,
    name: Name,
}

impl<'a> Model for KnownName<'a> {
    ghost use Rattle.std.specs.Prelude.{◌≡◌, Ok};
    ghost use Rattle.x5_model.specs.Values as values;
    ghost use Rattle.x5_names.specs.Reading.{stored_name_of_text};

    ghost Value = { values.Text × values.Name };

    ghost view = { λ k. (k.text.now, k.name) };

    ghost invariant = { λ k. stored_name_of_text k.text.now ≡ Ok k.name };
}

/// What stands before the last `/` of the text and behind it. No memory.
fn at_last_slash(text: &str) -> Option<(&str, &str)>
    ensures { IfSome result (λ parts. text.now ≡ parts.0.now ++ slash ∷ parts.1.now) }
{
    text.rsplit_once('/')
}

impl<'a> KnownName<'a> {
    /// The root. No memory.
    pub fn root(alloc: Global) -> KnownName<'a> {
        KnownName {
            text: "/",
            name: Name::root(alloc),
        }
    }

    /// The name that a text spells, within the limits; else the first fault in reading order. What stands above it is known from then on, so
    /// that of names just below the same one, in a row, the last RDN alone is read.
    pub fn parse(&mut self, alloc: Global, text: &'a str) -> Result<Name, NameFault>
        ensures { ReadsName (λ name. name) result (stored_name_of_text text.now) }
    {
        if let Some((above, last)) = at_last_slash(text) {
            if self.knows(alloc, above)? {
                if let Some(name) = self.below(alloc, last)? {
                    return Ok(name);
                }
            }
        }
        Name::parse(alloc, text)
    }

    /// Whether this text is known, which it is from now on if it spells a name.
    fn knows(&mut self, alloc: Global, text: &'a str) -> Result<bool, NoMemory>
        ensures { IfOk result (λ known. known ≡ true → self.new.0 ≡ text.now) }
    {
        if self.text == text {
            return Ok(true);
        }
        match Name::parse(alloc, text) {
            Ok(name) => {
                *self = KnownName { text, name };
                Ok(true)
            }
            Err(NameFault::NoMemory) => Err(NoMemory),
            Err(_) => Ok(false),
        }
    }

    /// The name just below the known one by the RDN that the text spells, if it spells one and a name may go on so.
    fn below(&self, alloc: Global, text: &str) -> Result<Option<Name>, NoMemory>
        ensures { IfOk result (λ found. IfSome found (λ name. stored_name_of_text (self.now.0 ++ slash ∷ text.now) ≡ Ok name)) }
    {
        if self.name.is_root() || self.name.len() >= MOST_RDNS {
            return Ok(None);
        }
        match Rdn::parse(alloc, text) {
            Ok(rdn) => {
                let name = self.name.below(alloc, &rdn)?;
                Ok(Some(name))
            }
            Err(NameFault::NoMemory) => Err(NoMemory),
            Err(_) => Ok(None),
        }
    }
}
