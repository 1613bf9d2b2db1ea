//! The texts of names that share much. Most messages of a request are for one name, which isn't written again for each, and most entries
//! of an answer stand below one, whose text the next one begins with.

ghost use Rattle.std.specs.Prelude.{◌≡◌, IfOk, string_bytes};
ghost use Rattle.x5_model_text.specs.NameText.{text_of_name};
ghost use Rattle.x5_report.specs.Below.{text_below};

use std::alloc::{AllocError, Global};
use std::marker::Model;
use x5_alike::Alike;
use x5_memory::NoMemory;
use x5_names::Name;
use x5_syntax::Text;

/// A name and its text.
#[derive(Drop)]
pub(crate) struct Target {
    name: Name,
    text: Text,
}

impl Model for Target {
    ghost use Rattle.std.specs.Prelude.{◌≡◌};
    ghost use Rattle.x5_model.specs.Values as values;
    ghost use Rattle.x5_model_text.specs.NameText.{text_of_name};

    ghost Value = { values.Name };

    ghost view = { λ t. t.name };

    ghost invariant = { λ t. t.text ≡ text_of_name t.name };
}

impl Target {
    /// The name with its text.
    fn new(alloc: Global, name: &Name) -> Result<Target, NoMemory>
        ensures { IfOk result (λ target. target ≡ name.now) }
    {
        let text = name.text(alloc)?;
        let name = name.clone()?;
        Ok(Target { name, text })
    }

    /// The text of the name. No memory.
    pub(crate) fn text(&self) -> &str
        ensures { result.now ≡ text_of_name self.now }
    {
        self.text.as_str()
    }

    /// The text of the name that stands below by an RDN of this text; the root's own text isn't its beginning.
    fn below(&self, alloc: Global, rdn: &str) -> Result<String, AllocError>
        ensures { IfOk result (λ text. string_bytes text ≡ text_below self.now rdn.now) }
    {
        if self.name.rdns().is_empty() {
            return format!(in alloc; "/{rdn}");
        }
        let above = self.text();
        format!(in alloc; "{above}/{rdn}")
    }
}

/// The name with its text: the last one, where that's the same name.
pub(crate) fn with_text(
    alloc: Global,
    last: Option<Target>,
    name: &Name,
) -> Result<Target, NoMemory>
    ensures { IfOk result (λ target. target ≡ name.now) }
{
    match last {
        Some(target) if target.name.is_alike(name) => Ok(target),
        other => {
            drop(other);
            Target::new(alloc, name)
        }
    }
}

/// The text of the name. What stands above is taken from the last name, where that stood below the same.
#[tactic(auto, using(crate::proofs::Below::is_below))]
pub(crate) fn name_text(
    alloc: Global,
    last: &mut Option<Target>,
    name: &Name,
) -> Result<String, NoMemory>
    ensures { IfOk result (λ text. string_bytes text ≡ text_of_name name.now) }
{
    let Some(rdn) = name.last() else {
        return Ok(name.text(alloc)?.into_string());
    };
    let rdn = rdn.text(alloc)?;
    let above = name.parent(alloc)?;
    let found = with_text(alloc, last.take(), &above);
    drop(above);
    let above = found?;
    let text = above.below(alloc, rdn.as_str());
    *last = Some(above);
    Ok(text?)
}
