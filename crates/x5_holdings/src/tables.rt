//! What is kept beside the lists of what an agent holds: for each list its names by their keys.

ghost use Rattle.std.specs.Prelude.{◌≡◌, [], map, IfOk};
ghost use Rattle.x5_model.specs.Values.{key_of};
ghost use Rattle.x5_holdings.specs.Rows.{AreRowsOf};
ghost use Rattle.x5_holdings.specs.Spots.{AreBelow};
ghost use Rattle.x5_holdings.specs.State.{brought_references};

use crate::below::Below;
use crate::held::{Copied, Held};
use crate::pins::{Pins, add, pins_of_crosses, pins_of_references};
use std::alloc::Global;
use x5_memory::NoMemory;
use x5_ops::{Cross, Specific};

/// The prefixes of contexts and copies, and the pins of subordinate references of contexts, of copies and of the root, and of
/// cross references.
#[derive(Drop)]
pub(crate) struct Tables {
    pub(crate) own: Pins,
    pub(crate) copies: Pins,
    pub(crate) below_own: Below,
    pub(crate) below_copies: Below,
    pub(crate) root: Pins,
    pub(crate) cross: Pins,
}

/// The prefixes of these contexts.
fn prefixes_of_held(alloc: Global, contexts: &[Held]) -> Result<Pins, NoMemory>
    ensures { IfOk result (λ pins. AreRowsOf pins (map (λ c. key_of c.prefix) contexts.now)) }
{
    let mut rows = Vec::new(alloc);
    for held in contexts {
        add(&mut rows, held.prefix())?;
    }
    Pins::of(rows)
}

/// The prefixes of these copies.
fn prefixes_of_copies(alloc: Global, copies: &[Copied]) -> Result<Pins, NoMemory>
    ensures { IfOk result (λ pins. AreRowsOf pins (map (λ c. key_of c.prefix) copies.now)) }
{
    let mut rows = Vec::new(alloc);
    for copy in copies {
        add(&mut rows, copy.prefix())?;
    }
    Pins::of(rows)
}

impl Tables {
    /// The tables of these contexts, copies and references.
    pub(crate) fn of(
        alloc: Global,
        own: &[Held],
        copies: &[Copied],
        root: &[Specific],
        cross: &[Cross],
    ) -> Result<Tables, NoMemory>
        ensures own { IfOk result (λ t. AreRowsOf t.own (map (λ c. key_of c.prefix) own.now)) }
        ensures copies { IfOk result (λ t. AreRowsOf t.copies (map (λ c. key_of c.prefix) copies.now)) }
        ensures below_own { IfOk result (λ t. AreBelow t.below_own (map (λ c. c.subordinate) own.now)) }
        ensures below_copies { IfOk result (λ t. AreBelow t.below_copies (map (λ c. brought_references c.refreshed) copies.now)) }
        ensures root { IfOk result (λ t. AreRowsOf t.root (map (λ k. key_of k.pin) root.now)) }
        ensures cross { IfOk result (λ t. AreRowsOf t.cross (map (λ k. key_of k.pin) cross.now)) }
    {
        Ok(Tables {
            own: prefixes_of_held(alloc, own)?,
            copies: prefixes_of_copies(alloc, copies)?,
            root: pins_of_references(alloc, root)?,
            cross: pins_of_crosses(alloc, cross)?,
            below_own: Below::of_held(alloc, own)?,
            below_copies: Below::of_copies(alloc, copies)?,
        })
    }
}
