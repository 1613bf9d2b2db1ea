//! Octets that are written from the last to the first, and the headers of elements (X.690, 8.1 and 10.1).
ghost use Rattle.std.specs.Prelude.{◌≡◌, ◌+◌, ◌*◌, ◌<◌, ◌≤◌, [], ◌∷◌, ◌++◌, length, reverse, OnOk, IsTrue, vec_len, vec_capacity};
ghost use Rattle.x5_model_octets.specs.Headers.{form_bit};
ghost use Rattle.x5_model_octets.specs.Elements.{group_from, groups, identifier, identifier_octets, shortest_length, without_zeros};

use std::alloc::Global;
use std::marker::Model;
use x5_memory::NoMemory;

/// Room is taken for so many octets at once, or for more: most messages have fewer, and take room only once. Before the C library
/// takes a piece of more than about a thousand octets it joins all small ones that were given back, which is much more work.
const LEAST_ROOM: usize = 960;

/// Octets, each put before those that are there: so the length of a content is known where its header is put.
#[derive(Drop)]
pub struct Backwards {
    octets: Vec<u8>,
}

impl Model for Backwards {
    ghost use Rattle.std.specs.Prelude.{ℕ, List, reverse};

    ghost Value = { List ℕ };

    ghost view = { λ b. reverse b.octets.items };
}

impl Backwards {
    /// None yet. No memory.
    pub fn new(alloc: Global) -> Backwards
        ensures { result ≡ [] }
    {
        Backwards {
            octets: Vec::new(alloc),
        }
    }

    /// How many there are. No memory.
    #[inline(always)]
    pub fn len(&self) -> usize
        ensures { result ≡ length self.now }
    {
        self.octets.len()
    }

    /// Puts one.
    #[inline(always)]
    pub fn put(&mut self, octet: u8) -> Result<(), NoMemory>
        ensures { OnOk result (self.new ≡ octet ∷ self.old) }
    {
        make_room(&mut self.octets, 1)?;
        self.octets.push_reserved(octet);
        Ok(())
    }

    /// Puts several, in the order that they have.
    pub fn put_all(&mut self, octets: &[u8]) -> Result<(), NoMemory>
        ensures { OnOk result (self.new ≡ octets.now ++ self.old) }
    {
        push_reversed(&mut self.octets, octets)
    }

    /// Puts those that were written apart.
    pub fn put_written(&mut self, written: &Backwards) -> Result<(), NoMemory>
        ensures { OnOk result (self.new ≡ written.now ++ self.old) }
    {
        self.octets.extend_from_slice(written.octets.as_slice())?;
        Ok(())
    }

    /// The octets, from the first to the last.
    pub fn into_octets(self) -> Vec<u8>
        ensures { result.items ≡ self }
    {
        let Backwards { mut octets } = self;
        octets.reverse();
        octets
    }

    /// The header of an element whose content has that length: the fewest octets for the tag number and for a
    /// definite length. Mostly that is one octet each.
    #[inline(always)]
    pub fn put_header(
        &mut self,
        class: u8,
        constructed: bool,
        tag: u32,
        length: usize,
    ) -> Result<(), NoMemory>
        requires { class < 4 }
        ensures { OnOk result (self.new ≡ identifier_octets (identifier constructed class tag) ++ (shortest_length length ++ self.old)) }
    {
        if tag < 31 && length < 128 && has_room(&self.octets, 2) {
            self.octets.push_reserved(length as u8);
            self.octets
                .push_reserved(leading(class, constructed) + tag as u8);
            return Ok(());
        }
        self.put_any_header(class, constructed, tag, length)
    }

    /// The same header, of any number of octets.
    #[cold]
    #[inline(never)]
    fn put_any_header(
        &mut self,
        class: u8,
        constructed: bool,
        tag: u32,
        length: usize,
    ) -> Result<(), NoMemory>
        requires { class < 4 }
        ensures { OnOk result (self.new ≡ identifier_octets (identifier constructed class tag) ++ (shortest_length length ++ self.old)) }
    {
        self.put_length(length as u64)?;
        self.put_identifier(class, constructed, tag)
    }

    fn put_length(&mut self, length: u64) -> Result<(), NoMemory>
        ensures { OnOk result (self.new ≡ shortest_length length ++ self.old) }
    {
        if length < 128 {
            return self.put(length as u8);
        }
        let octets = length.to_be_bytes();
        let digits = significant(&octets);
        self.put_all(digits)?;
        self.put(128 + digits.len() as u8)
    }

    fn put_identifier(&mut self, class: u8, constructed: bool, tag: u32) -> Result<(), NoMemory>
        requires { class < 4 }
        ensures { OnOk result (self.new ≡ identifier_octets (identifier constructed class tag) ++ self.old) }
    {
        if tag < 31 {
            return self.put(leading(class, constructed) + tag as u8);
        }
        self.put_groups(u64::from(tag))?;
        self.put(leading(class, constructed) + 31)
    }

    /// A number in groups of seven bits, each but the last with bit 8 set (X.690, 8.1.2.4.2 and 8.19.2).
    pub(crate) fn put_groups(&mut self, number: u64) -> Result<(), NoMemory>
        ensures { OnOk result (self.new ≡ groups number ++ self.old) }
    {
        if number < 128 {
            return self.put(number as u8);
        }
        self.put((number % 128) as u8)?;
        self.put_group(number, 1 << 7)?;
        self.put_group(number, 1 << 14)?;
        self.put_group(number, 1 << 21)?;
        self.put_group(number, 1 << 28)
    }

    /// A group, if the number reaches it.
    fn put_group(&mut self, number: u64, power: u64) -> Result<(), NoMemory>
        requires { 0 < power }
        ensures { OnOk result (self.new ≡ group_from number power ++ self.old) }
    {
        if number >= power {
            self.put((128 + number / power % 128) as u8)?;
        }
        Ok(())
    }
}

/// The class and form of an identifier's first octet, with nothing of the tag number (X.690, 8.1.2).
#[inline(always)]
fn leading(class: u8, constructed: bool) -> u8
    requires { class < 4 }
    ensures { result ≡ 64 * class + form_bit constructed }
{
    64 * class + if constructed { 32 } else { 0 }
}

/// Whether there is room for so many more.
#[inline(always)]
fn has_room(row: &Vec<u8>, more: usize) -> bool
    ensures { IsTrue result → vec_len row.now + more ≤ vec_capacity row.now }
{
    row.capacity() - row.len() >= more
}

/// Makes room for so many more.
#[inline(always)]
fn make_room(row: &mut Vec<u8>, more: usize) -> Result<(), NoMemory>
    ensures same { row.new.items ≡ row.old.items }
    ensures room { OnOk result (vec_len row.new + more ≤ vec_capacity row.new) }
{
    if has_room(row, more) {
        return Ok(());
    }
    grow(row, more)
}

/// Takes room for so many more, and for no fewer than `LEAST_ROOM`.
#[cold]
#[inline(never)]
fn grow(row: &mut Vec<u8>, more: usize) -> Result<(), NoMemory>
    ensures same { row.new.items ≡ row.old.items }
    ensures room { OnOk result (vec_len row.new + more ≤ vec_capacity row.new) }
{
    row.reserve(more.max(LEAST_ROOM))?;
    Ok(())
}

/// Adds the octets, the last of them first.
fn push_reversed(row: &mut Vec<u8>, octets: &[u8]) -> Result<(), NoMemory>
    ensures { OnOk result (row.new.items ≡ row.old.items ++ reverse octets.now) }
{
    make_room(row, octets.len())?;
    let mut i = octets.len();
    while i > 0 {
        i -= 1;
        row.push_reserved(octets[i]);
    }
    Ok(())
}

/// The octets from the first that isn't zero.
pub(crate) fn significant(octets: &[u8]) -> &[u8]
    ensures value { result.now ≡ without_zeros octets.now }
    ensures few { length result.now ≤ length octets.now }
{
    let mut digits = octets;
    while let [0, rest @ ..] = digits {
        digits = rest;
    }
    digits
}
