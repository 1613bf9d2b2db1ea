//! The members of lists whose names stand at or below a name: ranges of sorted tables, found without a walk through all
//! that is known.

ghost use Rattle.std.specs.Prelude.{◌≡◌, ◌||◌, ◌<◌, ◌≤◌, ◌++◌, ◌∷◌, [], List, OnOk, map, length, drop, get_or, true, false, IfOk, ℕ};
ghost use Rattle.std.specs.List.{filter, list_any};
ghost use Rattle.std.specs.List.Sorted.{IsSorted, IsPartitionPoint};
ghost use Rattle.x5_model.specs.Keys.{Key, is_prefix, key_below};
ghost use Rattle.x5_model.specs.Requests.{Request as model_request};
ghost use Rattle.x5_model.specs.Values.{key_of};
ghost use Rattle.x5_model_run.specs.Holdings.{known_pins, may_copy};
ghost use Rattle.x5_holdings.specs.State.{holdings_view};
ghost use Rattle.x5_holdings.specs.Rows.{KeyRow, AreRowsOf, row_cmp};
ghost use Rattle.x5_holdings.specs.Runs.{run_of, stands_under, is_long, long_places};

use crate::held::Held;
use crate::holdings::Holdings;
use crate::pins::{Pins, count_below};
use crate::rows::Row;
use std::alloc::Global;
use x5_memory::NoMemory;
use x5_names::Rdn;

/// How many rows at the beginning stand at or below the name of these RDNs, where none stands before it.
fn count_under(rows: &[Row], rdns: &[Rdn]) -> usize
    requires ordered { IsSorted row_cmp rows.now }
    requires behind { (i : ℕ) (d : KeyRow) → i < length rows.now → key_below (get_or rows.now i d).0 (key_of rdns.now) ≡ false }
    ensures within { result ≤ length rows.now }
    ensures parts { IsPartitionPoint (λ (r : KeyRow). stands_under (key_of rdns.now) r ≡ true) (λ (r : KeyRow). stands_under (key_of rdns.now) r ≡ false) rows.now result }
{
    rows.partition_point(|row| row.is_under(rdns))
}

/// The rows at or below the name of these RDNs.
fn run<'a>(rows: &'a [Row], rdns: &[Rdn]) -> &'a [Row]
    requires { IsSorted row_cmp rows.now }
    ensures members { result.now ≡ filter (stands_under (key_of rdns.now)) rows.now }
    ensures ordered { IsSorted row_cmp result.now }
{
    let rest = &rows[count_below(rows, rdns)..];
    let count = count_under(rest, rdns);
    &rest[..count]
}

/// How many rows at the beginning have more RDNs than that, where the first one has: what stands below its first RDNs.
fn count_longer(rows: &[Row], count: usize) -> usize
    requires ordered { IsSorted row_cmp rows.now }
    requires longer { (d : KeyRow) → (0 < length rows.now) × (count < length (get_or rows.now 0 d).0) }
    ensures some { 0 < result }
    ensures within { result ≤ length rows.now }
    ensures rest { filter (is_long count) (drop result rows.now) ≡ filter (is_long count) rows.now }
{
    let rdns = rows[0].name().rdns();
    count_under(rows, &rdns[..count])
}

/// Adds the row's place where it has so many RDNs.
fn push_long(places: &mut Vec<usize>, row: &Row, count: usize) -> Result<(), NoMemory>
    ensures { OnOk result (places.new.items ≡ places.old.items ++ long_places count (row.now ∷ [])) }
{
    if row.name().len() == count {
        places.push(row.place())?;
    }
    Ok(())
}

/// The places of the rows with so many RDNs. What stands below one of them, or below a name of so many RDNs, is passed over.
fn places_of_length(alloc: Global, rows: &[Row], count: usize) -> Result<Vec<usize>, NoMemory>
    requires { IsSorted row_cmp rows.now }
    ensures { IfOk result (λ places. places.items ≡ long_places count rows.now) }
{
    let mut places = Vec::new(alloc);
    let mut next = 0;
    while next < rows.len() {
        if rows[next].name().len() > count {
            next += count_longer(&rows[next..], count);
        } else {
            push_long(&mut places, &rows[next], count)?;
            next += 1;
        }
    }
    Ok(places)
}

impl Pins {
    /// The rows at or below the name of these RDNs. No memory.
    pub(crate) fn under(&self, rdns: &[Rdn]) -> &[Row]
        ensures members { (keys : List Key) → AreRowsOf self.now keys → result.now ≡ run_of keys (key_of rdns.now) }
        ensures ordered { IsSorted row_cmp result.now }
    {
        run(self.rows(), rdns)
    }

    /// Whether one of the names is that of these RDNs, or stands below it. No memory.
    pub(crate) fn has_under(&self, rdns: &[Rdn]) -> bool
        ensures { (keys : List Key) → AreRowsOf self.now keys → result ≡ list_any (is_prefix (key_of rdns.now)) keys }
    {
        !self.under(rdns).is_empty()
    }

    /// The places of the names with so many RDNs at or below the name of these RDNs.
    pub(crate) fn places_under(
        &self,
        alloc: Global,
        rdns: &[Rdn],
        count: usize,
    ) -> Result<Vec<usize>, NoMemory>
        ensures { IfOk result (λ places. (keys : List Key) → AreRowsOf self.now keys → places.items ≡ long_places count (run_of keys (key_of rdns.now))) }
    {
        places_of_length(alloc, self.under(rdns), count)
    }
}

impl Holdings {
    /// The contexts that it masters whose prefixes are the name of these RDNs or stand below it. No memory.
    pub fn own_under(&self, rdns: &[Rdn]) -> &[Row]
        ensures { result.now ≡ run_of (map (λ c. key_of c.prefix) self.now.own) (key_of rdns.now) }
    {
        self.tables().own.under(rdns)
    }

    /// The places of those of them whose prefixes have so many RDNs.
    pub fn own_at_depth(
        &self,
        alloc: Global,
        rdns: &[Rdn],
        depth: usize,
    ) -> Result<Vec<usize>, NoMemory>
        ensures { IfOk result (λ places. places.items ≡ long_places depth (run_of (map (λ c. key_of c.prefix) self.now.own) (key_of rdns.now))) }
    {
        self.tables().own.places_under(alloc, rdns, depth)
    }

    /// The copies whose prefixes are the name of these RDNs or stand below it. No memory.
    pub fn copies_under(&self, rdns: &[Rdn]) -> &[Row]
        ensures { result.now ≡ run_of (map (λ c. key_of c.prefix) self.now.copies) (key_of rdns.now) }
    {
        self.tables().copies.under(rdns)
    }

    /// The places of those of them whose prefixes have so many RDNs.
    pub fn copies_at_depth(
        &self,
        alloc: Global,
        rdns: &[Rdn],
        depth: usize,
    ) -> Result<Vec<usize>, NoMemory>
        ensures { IfOk result (λ places. places.items ≡ long_places depth (run_of (map (λ c. key_of c.prefix) self.now.copies) (key_of rdns.now))) }
    {
        self.tables().copies.places_under(alloc, rdns, depth)
    }

    /// The subordinate references of the root whose pins are the name of these RDNs or stand below it. No memory.
    pub fn root_under(&self, rdns: &[Rdn]) -> &[Row]
        ensures { result.now ≡ run_of (map (λ k. key_of k.pin) self.now.root) (key_of rdns.now) }
    {
        self.tables().root.under(rdns)
    }
}

/// Whether one of what is known of pins has one.
fn is_one(own: bool, copied: bool, below: bool, root: bool, cross: bool) -> bool
    ensures { result ≡ (own || (copied || (below || (root || cross)))) }
{
    own || copied || below || root || cross
}

impl Holdings {
    /// Whether a pin is known that is the name of these RDNs or stands below it, as an update knows them: references that refreshes
    /// of copies brought don't count. No memory.
    pub fn knows_under(&self, rdns: &[Rdn]) -> bool
        ensures { (r : model_request) → may_copy r ≡ false → result ≡ list_any (is_prefix (key_of rdns.now)) (map key_of (known_pins r (holdings_view self.now))) }
    {
        let tables = self.tables();
        let own = tables.own.has_under(rdns);
        let copied = tables.copies.has_under(rdns);
        let below = tables.below_own.has_under(rdns);
        let root = tables.root.has_under(rdns);
        let cross = tables.cross.has_under(rdns);
        is_one(own, copied, below, root, cross)
    }
}

impl Held {
    /// The context's subordinate references whose pins are the name of these RDNs or stand below it. No memory.
    pub fn subordinate_under(&self, rdns: &[Rdn]) -> &[Row]
        ensures { result.now ≡ run_of (map (λ k. key_of k.pin) self.now.subordinate) (key_of rdns.now) }
    {
        self.below().under(rdns)
    }

    /// The places of those of them whose pins have so many RDNs.
    pub fn subordinate_at_depth(
        &self,
        alloc: Global,
        rdns: &[Rdn],
        depth: usize,
    ) -> Result<Vec<usize>, NoMemory>
        ensures { IfOk result (λ places. places.items ≡ long_places depth (run_of (map (λ k. key_of k.pin) self.now.subordinate) (key_of rdns.now))) }
    {
        self.below().places_under(alloc, rdns, depth)
    }

    /// The context's NSSRs at the entry whose name has these RDNs, and at those below it. No memory.
    pub fn nssrs_under(&self, rdns: &[Rdn]) -> &[Row]
        ensures { result.now ≡ run_of (map (λ n. key_of n.at) self.now.nssrs) (key_of rdns.now) }
    {
        self.wide().under(rdns)
    }
}
