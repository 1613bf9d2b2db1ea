//! Entries of a total refresh (X.525, section 10) as octets, which aren't written again where the same entries come again: a supplier
//! mostly sends what it sent last.
ghost use Rattle.std.specs.Prelude.{◌≡◌, IfOk, IfSome, None, OnErr, OnOk, Some, map};
ghost use Rattle.std.specs.Bool.{MatchBool};
ghost use Rattle.x5_direct_writer.specs.PutsOf.{PutsOf};
ghost use Rattle.x5_dispber.specs.Totals.{AreOctetsOf, PutsAlone, entries_octets};
ghost use Rattle.x5_model_messages.specs.Shadows as shadows;
ghost use Rattle.x5_model_messages.specs.Terms.{node_of};
ghost use Rattle.x5_model_typed.specs.Layouts.{Surroundings};
ghost use Rattle.x5_model_typed.specs.Named as named;

use std::alloc::Global;
use std::marker::Model;
use x5_alike::are_alike;
use x5_direct_writer::entries::put_entry_list;
use x5_memory::NoMemory;
use x5_ops::{Named, NamedList};
use x5_writer::{Backwards, WriteFault};

/// Entries, and the canonical octets of the list of them.
#[derive(Drop)]
struct Written {
    entries: NamedList,
    octets: Backwards,
}

impl Model for Written {
    ghost use Rattle.std.specs.Prelude.{List};
    ghost use Rattle.x5_dispber.specs.Totals.{AreOctetsOf};
    ghost use Rattle.x5_model.specs.Entries as model;

    ghost Value = { List model.Named };

    ghost view = { λ w. w.entries };

    ghost invariant = { λ w. AreOctetsOf w.entries w.octets };
}

/// The canonical octets of the list of entries, written apart.
fn octets_of(alloc: Global, entries: &[Named]) -> Result<Backwards, WriteFault>
    ensures { (w : Surroundings) → PutsAlone (entries_octets w entries.now) result }
{
    let mut out = Backwards::new(alloc);
    put_entry_list(alloc, &mut out, entries)?;
    Ok(out)
}

/// Copies of the entries.
pub(crate) fn copies(alloc: Global, entries: &[Named]) -> Result<NamedList, NoMemory>
    ensures { IfOk result (λ l. l ≡ entries.now) }
{
    Ok(NamedList::from_vec(Vec::from_clones(alloc, entries)?))
}

impl Written {
    /// The entries with their octets.
    fn new(alloc: Global, entries: &[Named], octets: Backwards) -> Result<Written, NoMemory>
        requires { AreOctetsOf entries.now octets }
        ensures { IfOk result (λ written. written ≡ entries.now) }
    {
        let entries = copies(alloc, entries)?;
        Ok(Written { entries, octets })
    }

    /// Whether these are its entries. No memory.
    fn is_of(&self, entries: &[Named]) -> bool
        ensures { MatchBool result (self.now ≡ entries.now) (¬ (self.now ≡ entries.now)) }
    {
        are_alike(self.entries.as_slice(), entries)
    }

    /// Puts its entries as a list.
    fn put(&self, out: &mut Backwards) -> Result<(), WriteFault>
        ensures { PutsOf named.Entries (node_of (map shadows.entry_node self.now)) out.old out.new result }
    {
        out.put_written(&self.octets)?;
        Ok(())
    }
}

/// The entries that were written last, if any were, with their octets.
#[derive(Drop)]
pub struct WrittenEntries {
    last: Option<Written>,
}

impl Model for WrittenEntries {
    ghost use Rattle.std.specs.Prelude.{List, Option};
    ghost use Rattle.x5_model.specs.Entries as model;

    ghost Value = { Option (List model.Named) };

    ghost view = { λ w. w.last };
}

impl WrittenEntries {
    /// Nothing was written yet. No memory.
    pub fn none() -> WrittenEntries
        ensures { result ≡ None }
    {
        WrittenEntries { last: None }
    }

    /// What was written last, if it's these entries. No memory.
    fn again(&self, entries: &[Named]) -> Option<&Written>
        ensures { IfSome result (λ written. (written.now ≡ entries.now) × (self.now ≡ Some entries.now)) }
    {
        match &self.last {
            Some(written) if written.is_of(entries) => Some(written),
            _ => None,
        }
    }

    /// Puts the entries as a list: where they are those that were written last, the octets that they had then. They are those that were
    /// written last then; where nothing is put all stays as it was.
    ///
    /// # Errors
    /// `Misfit` exactly where there are no octets of them. Or that memory ran out.
    pub(crate) fn put(
        &mut self,
        alloc: Global,
        out: &mut Backwards,
        entries: &[Named],
    ) -> Result<(), WriteFault>
        ensures puts { PutsOf named.Entries (node_of (map shadows.entry_node entries.now)) out.old out.new result }
        ensures last { OnOk result (self.new ≡ Some entries.now) }
        ensures err { OnErr result (self.new ≡ self.old) }
    {
        if let Some(written) = self.again(entries) {
            return written.put(out);
        }
        let octets = octets_of(alloc, entries)?;
        let written = Written::new(alloc, entries, octets)?;
        written.put(out)?;
        self.last = Some(written);
        Ok(())
    }
}
