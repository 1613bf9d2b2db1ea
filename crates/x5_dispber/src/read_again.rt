//! Entries of a total refresh (X.525, section 10), which aren't read again where all of them come again from the same octets: a supplier
//! mostly sends what it sent last.
ghost use Rattle.std.specs.Prelude.{◌≡◌, IfOk, IfSome, None, OnErr, Some};
ghost use Rattle.x5_direct.specs.Spelled.{ReadEach};
ghost use Rattle.x5_model_messages.specs.Shadows as shadows;
ghost use Rattle.x5_model_typed.specs.Named as named;

use crate::written::copies;
use std::alloc::Global;
use std::marker::Model;
use x5_direct::Unread;
use x5_direct::seen::SeenEntries;
use x5_memory::NoMemory;
use x5_ops::NamedList;

/// Entries as they were read, and the octets that are all of them.
#[derive(Drop)]
struct ReadList {
    entries: NamedList,
    octets: Vec<u8>,
}

impl Model for ReadList {
    ghost use Rattle.std.specs.Prelude.{List};
    ghost use Rattle.x5_direct.specs.Spelled.{ReadEach};
    ghost use Rattle.x5_model.specs.Entries as model;
    ghost use Rattle.x5_model_messages.specs.Shadows as shadows;
    ghost use Rattle.x5_model_typed.specs.Named as named;

    ghost Value = { List model.Named };

    ghost view = { λ r. r.entries };

    ghost invariant = { λ r. ReadEach 7 named.Entry shadows.entry_in r.entries r.octets.items };
}

impl ReadList {
    /// The entries, which are all of the octets.
    fn of(alloc: Global, entries: NamedList, octets: &[u8]) -> Result<ReadList, NoMemory>
        requires { ReadEach 7 named.Entry shadows.entry_in entries octets.now }
        ensures { IfOk result (λ r. r ≡ entries) }
    {
        let octets = Vec::from_slice(alloc, octets)?;
        Ok(ReadList { entries, octets })
    }

    /// Its entries, if these are its octets.
    fn again(&self, alloc: Global, octets: &[u8]) -> Result<Option<NamedList>, NoMemory>
        ensures read { IfOk result (λ o. IfSome o (λ l. ReadEach 7 named.Entry shadows.entry_in l octets.now)) }
        ensures same { IfOk result (λ o. IfSome o (λ l. self.now ≡ l)) }
    {
        if self.octets.as_slice() != octets {
            return Ok(None);
        }
        Ok(Some(copies(alloc, self.entries.as_slice())?))
    }
}

/// The entries that were read last: where all of them come again they aren't read again, and else those of them aren't that come again
/// one by one.
#[derive(Drop)]
pub struct ReadEntries {
    last: Option<ReadList>,
    each: SeenEntries,
}

impl Model for ReadEntries {
    ghost use Rattle.std.specs.Prelude.{List, Option};
    ghost use Rattle.x5_model.specs.Entries as model;

    ghost Value = { Option (List model.Named) };

    ghost view = { λ r. r.last };
}

impl ReadEntries {
    /// Nothing was read yet. No memory.
    pub fn none(alloc: Global) -> ReadEntries
        ensures { result ≡ None }
    {
        ReadEntries {
            last: None,
            each: SeenEntries::none(alloc),
        }
    }

    /// The entries of the last octets, if these are the same.
    fn again(&self, alloc: Global, octets: &[u8]) -> Result<Option<NamedList>, NoMemory>
        ensures read { IfOk result (λ o. IfSome o (λ l. ReadEach 7 named.Entry shadows.entry_in l octets.now)) }
        ensures last { IfOk result (λ o. IfSome o (λ l. self.now ≡ Some l)) }
    {
        match &self.last {
            Some(last) => last.again(alloc, octets),
            None => Ok(None),
        }
    }

    /// The entries that are all of the octets, read one by one.
    fn anew(&mut self, alloc: Global, octets: &[u8]) -> Result<NamedList, Unread>
        ensures read { IfOk result (λ l. ReadEach 7 named.Entry shadows.entry_in l octets.now) }
        ensures last { IfOk result (λ l. self.new ≡ Some l) }
        ensures err { OnErr result (self.new ≡ self.old) }
    {
        let entries = self.each.read(alloc, octets)?;
        let kept = copies(alloc, entries.as_slice())?;
        self.last = Some(ReadList::of(alloc, kept, octets)?);
        Ok(entries)
    }

    /// The entries that are all of the octets; these are what was read last then. Where nothing is read all stays as it was.
    pub(crate) fn read(&mut self, alloc: Global, octets: &[u8]) -> Result<NamedList, Unread>
        ensures read { IfOk result (λ l. ReadEach 7 named.Entry shadows.entry_in l octets.now) }
        ensures last { IfOk result (λ l. self.new ≡ Some l) }
        ensures err { OnErr result (self.new ≡ self.old) }
    {
        match self.again(alloc, octets)? {
            Some(entries) => Ok(entries),
            None => self.anew(alloc, octets),
        }
    }
}
