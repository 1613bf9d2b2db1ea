//! Entries of a refresh (X.525, section 10), of which those that were read before from the same octets aren't read again: a total
//! refresh mostly brings what the last one brought.
ghost use Rattle.std.specs.Prelude.{◌≡◌, ◌<◌, ◌≤◌, [], IfOk, IfSome, OnErr, drop, length};
ghost use Rattle.std.specs.Ordering.{is_le};
ghost use Rattle.x5_direct.specs.Spelled.{BeginEach, ReadEach, Reads};
ghost use Rattle.x5_model.specs.Keys.{key_cmp};
ghost use Rattle.x5_model.specs.Values.{key_of};
ghost use Rattle.x5_model_messages.specs.Shadows as shadows;
ghost use Rattle.x5_model_messages.specs.Terms as terms;
ghost use Rattle.x5_model_typed.specs.Named as named;

use crate::entries::entry_behind;
use crate::names::known_above;
use crate::unread::Unread;
use std::alloc::{AllocError, Global};
use std::marker::Model;
use std::rc::Rc;
use x5_memory::NoMemory;
use x5_names::{Name, Rdn};
use x5_ops::{Named, NamedList};

/// An entry with its name, as it was read, and the octets that spell it.
#[derive(Drop)]
struct SeenEntry {
    entry: Named,
    octets: Rc<Vec<u8>>,
}

impl Model for SeenEntry {
    ghost use Rattle.std.specs.Prelude.{[]};
    ghost use Rattle.x5_direct.specs.Spelled.{Reads};
    ghost use Rattle.x5_model.specs.Entries as entries;
    ghost use Rattle.x5_model_messages.specs.Shadows as shadows;
    ghost use Rattle.x5_model_typed.specs.Named as named;

    ghost Value = { entries.Named };

    ghost view = { λ s. s.entry };

    ghost invariant = { λ s. Reads 7 named.Entry shadows.entry_in s.entry s.octets.value.items [] };
}

impl SeenEntry {
    /// The entry that the octets are.
    fn new(alloc: Global, entry: Named, octets: &[u8]) -> Result<SeenEntry, NoMemory>
        requires { Reads 7 named.Entry shadows.entry_in entry octets.now [] }
        ensures { IfOk result (λ seen. seen ≡ entry) }
    {
        let octets = Vec::from_slice(alloc, octets)?;
        let octets = Rc::new(alloc, octets)?;
        Ok(SeenEntry { entry, octets })
    }

    /// Whether its name stands before this one, or is the same. No memory.
    fn is_up_to(&self, name: &Name) -> bool
        ensures { result ≡ is_le (key_cmp (key_of self.now.name) (key_of name.now)) }
    {
        self.entry.name.cmp_key(name).is_le()
    }

    /// The entry. No memory but for what it doesn't share.
    fn named(&self) -> Result<Named, NoMemory>
        ensures { IfOk result (λ named. named ≡ self.now) }
    {
        Ok(self.entry.clone()?)
    }

    /// How many octets it takes of these, if they begin with its own. No memory.
    fn extent(&self, octets: &[u8]) -> Option<usize>
        ensures reads { IfSome result (λ taken. Reads 7 named.Entry shadows.entry_in self.now octets.now (drop taken octets.now)) }
        ensures some { IfSome result (λ taken. (0 < taken) × (taken ≤ length octets.now)) }
    {
        let spelled = self.octets.as_slice();
        let Some(rest) = octets.strip_prefix(spelled) else {
            return None;
        };
        let taken = octets.len() - rest.len();
        if taken == 0 {
            return None;
        }
        Some(taken)
    }
}

impl Clone for SeenEntry {
    ghost is_clone = { λ a b. b ≡ a };

    fn clone(&self) -> Result<SeenEntry, AllocError> {
        Ok(SeenEntry {
            entry: self.entry.clone()?,
            octets: self.octets.clone()?,
        })
    }
}

/// An entry that is read, how many octets it takes, what the names of those behind it may begin with and its octets, and which of the
/// known entries may come next.
#[derive(Drop)]
struct ReadEntry<'a> {
    entry: SeenEntry,
    taken: usize,
    above: Vec<Rdn>,
    above_octets: &'a [u8],
    next: usize,
}

/// Which of the known entries may come behind this one: the first with a name behind its name. No memory.
fn behind(known: &[SeenEntry], next: usize, name: &Name) -> usize
    ensures { next ≤ result }
{
    let mut place = next;
    while place < known.len() && known[place].is_up_to(name) {
        place += 1;
    }
    place
}

/// The entry that the octets begin with, read anew.
fn anew<'a>(
    alloc: Global,
    known: &[SeenEntry],
    next: usize,
    above_octets: &'a [u8],
    above: Vec<Rdn>,
    octets: &'a [u8],
) -> Result<ReadEntry<'a>, Unread>
    requires { BeginEach 2 named.Rdn terms.rdn_of above.items above_octets.now }
    ensures reads { IfOk result (λ s. Reads 7 named.Entry shadows.entry_in s.entry octets.now (drop s.taken octets.now)) }
    ensures some { IfOk result (λ s. (0 < s.taken) × (s.taken ≤ length octets.now)) }
    ensures above { IfOk result (λ s. BeginEach 2 named.Rdn terms.rdn_of s.above.items s.above_octets.now) }
{
    let (entry, taken, front) = entry_behind(alloc, above_octets, &above, octets)?;
    let (above, above_octets) = known_above(alloc, &entry.name, front, above_octets, above)?;
    let next = behind(known, next, &entry.name);
    let entry = SeenEntry::new(alloc, entry, &octets[..taken])?;
    Ok(ReadEntry {
        entry,
        taken,
        above,
        above_octets,
        next,
    })
}

/// The known entry that may come next, if the octets begin with its own, and how many these are.
fn again(
    known: &[SeenEntry],
    next: usize,
    octets: &[u8],
) -> Result<Option<(SeenEntry, usize)>, NoMemory>
    ensures reads { IfOk result (λ o. IfSome o (λ r. Reads 7 named.Entry shadows.entry_in r.0 octets.now (drop r.1 octets.now))) }
    ensures some { IfOk result (λ o. IfSome o (λ r. (0 < r.1) × (r.1 ≤ length octets.now))) }
{
    let Some(entry) = known.get(next) else {
        return Ok(None);
    };
    match entry.extent(octets) {
        Some(taken) => Ok(Some((entry.clone()?, taken))),
        None => Ok(None),
    }
}

/// The entry that the octets begin with: the known one that may come next, or one that is read anew.
fn step<'a>(
    alloc: Global,
    known: &[SeenEntry],
    next: usize,
    above_octets: &'a [u8],
    above: Vec<Rdn>,
    octets: &'a [u8],
) -> Result<ReadEntry<'a>, Unread>
    requires { BeginEach 2 named.Rdn terms.rdn_of above.items above_octets.now }
    ensures reads { IfOk result (λ s. Reads 7 named.Entry shadows.entry_in s.entry octets.now (drop s.taken octets.now)) }
    ensures some { IfOk result (λ s. (0 < s.taken) × (s.taken ≤ length octets.now)) }
    ensures above { IfOk result (λ s. BeginEach 2 named.Rdn terms.rdn_of s.above.items s.above_octets.now) }
{
    match again(known, next, octets)? {
        Some((entry, taken)) => Ok(ReadEntry {
            entry,
            taken,
            above,
            above_octets,
            next: next.saturating_add(1),
        }),
        None => anew(alloc, known, next, above_octets, above, octets),
    }
}

/// The entries that are all of the octets, some of which may be known.
fn all_read(alloc: Global, known: &[SeenEntry], octets: &[u8]) -> Result<Vec<SeenEntry>, Unread>
    ensures { IfOk result (λ l. ReadEach 7 named.Entry shadows.entry_in l.items octets.now) }
{
    let mut entries = Vec::with_capacity(alloc, octets.len() / 128 + 1)?;
    let mut above = Vec::new(alloc);
    let mut above_octets: &[u8] = &[];
    let mut next = 0;
    let mut rest = octets;
    while !rest.is_empty() {
        let step = step(alloc, known, next, above_octets, above, rest)?;
        above = step.above;
        above_octets = step.above_octets;
        next = step.next;
        entries.push(step.entry)?;
        rest = &rest[step.taken..];
    }
    Ok(entries)
}

/// The entries without their octets.
fn named_by(alloc: Global, seen: &[SeenEntry]) -> Result<NamedList, NoMemory>
    ensures { IfOk result (λ l. l ≡ seen.now) }
{
    let mut entries = Vec::with_capacity(alloc, seen.len())?;
    for each in seen {
        entries.push(each.named()?)?;
    }
    Ok(NamedList::from_vec(entries))
}

/// Entries that were read, with the octets that spell them.
#[derive(Drop)]
pub struct SeenEntries {
    entries: Vec<SeenEntry>,
}

impl Model for SeenEntries {
    ghost use Rattle.std.specs.Prelude.{List};
    ghost use Rattle.x5_model.specs.Entries as model;

    ghost Value = { List model.Named };

    ghost view = { λ s. s.entries.items };
}

impl SeenEntries {
    /// Nothing was read yet. No memory.
    pub fn none(alloc: Global) -> SeenEntries
        ensures { result ≡ [] }
    {
        SeenEntries {
            entries: Vec::new(alloc),
        }
    }

    /// The entries that are all of the octets; these are seen then. Where nothing is read all stays as it was.
    pub fn read(&mut self, alloc: Global, octets: &[u8]) -> Result<NamedList, Unread>
        ensures read { IfOk result (λ l. ReadEach 7 named.Entry shadows.entry_in l octets.now) }
        ensures seen { IfOk result (λ l. self.new ≡ l) }
        ensures err { OnErr result (self.new ≡ self.old) }
    {
        let entries = all_read(alloc, self.entries.as_slice(), octets)?;
        let named = named_by(alloc, entries.as_slice())?;
        self.entries = entries;
        Ok(named)
    }
}
