//! The names of a list, found by key without a walk: rows in order, among which a key is looked for by halves.

ghost use Rattle.std.specs.Prelude.{◌≡◌, ◌≤◌, ◌++◌, ◌∷◌, [], List, true, false, length, map, IfOk, OnOk};
ghost use Rattle.std.specs.List.Sorted.{IsSorted, IsPartitionPoint};
ghost use Rattle.x5_model.specs.Keys.{Key, key_below};
ghost use Rattle.x5_model.specs.Values.{key_of};
ghost use Rattle.x5_holdings.specs.Rows.{KeyRow, AreRowsOf, IsFirstPlace, numbered, places_of, row_cmp};

use crate::rows::Row;
use std::alloc::Global;
use std::marker::Model;
use x5_memory::NoMemory;
use x5_names::{Name, Rdn};
use x5_ops::{Cross, Nssr, Specific};

/// The names of a list, by their keys.
#[derive(Drop)]
pub(crate) struct Pins {
    rows: Vec<Row>,
}

impl Model for Pins {
    ghost use Rattle.std.specs.Prelude.{List};
    ghost use Rattle.std.specs.List.Sorted.{IsSorted};
    ghost use Rattle.x5_holdings.specs.Rows as keyed;

    ghost Value = { List keyed.KeyRow };

    ghost view = { λ p. p.rows.items };

    ghost invariant = { λ p. IsSorted keyed.row_cmp p.rows.items };
}

/// Adds a row for the next member.
pub(crate) fn add(rows: &mut Vec<Row>, name: &Name) -> Result<(), NoMemory>
    ensures { OnOk result (rows.new.items ≡ rows.old.items ++ (key_of name.now, length rows.old.items) ∷ []) }
{
    let place = rows.len();
    rows.push(Row::new(name.clone()?, place))?;
    Ok(())
}

/// How many rows there are of keys below that of these RDNs.
pub(crate) fn count_below(rows: &[Row], rdns: &[Rdn]) -> usize
    requires { IsSorted row_cmp rows.now }
    ensures within { result ≤ length rows.now }
    ensures parts { IsPartitionPoint (λ (r : KeyRow). key_below r.0 (key_of rdns.now) ≡ true) (λ (r : KeyRow). key_below r.0 (key_of rdns.now) ≡ false) rows.now result }
{
    rows.partition_point(|row| row.compare(rdns).is_lt())
}

impl Pins {
    /// No names. No memory.
    pub(crate) fn none(alloc: Global) -> Pins
        ensures { result ≡ [] }
    {
        Pins {
            rows: Vec::new(alloc),
        }
    }

    /// The names of these rows.
    pub(crate) fn of(rows: Vec<Row>) -> Result<Pins, NoMemory>
        ensures { IfOk result (λ pins. (keys : List Key) → rows.items ≡ numbered keys → AreRowsOf pins keys) }
    {
        let mut rows = rows;
        rows.sort()?;
        Ok(Pins { rows })
    }

    /// The rows in their order. No memory.
    pub(crate) fn rows(&self) -> &[Row]
        ensures rows { result.now ≡ self.now }
        ensures ordered { IsSorted row_cmp self.now }
    {
        self.rows.as_slice()
    }

    /// The first place of the name of these RDNs. No memory.
    pub(crate) fn first(&self, rdns: &[Rdn]) -> Option<usize>
        ensures { IsFirstPlace (places_of self.now) (key_of rdns.now) result }
    {
        let place = count_below(&self.rows, rdns);
        match self.rows.get(place) {
            Some(row) if row.compare(rdns).is_eq() => Some(row.place()),
            _ => None,
        }
    }
}

/// The pins of these subordinate references.
pub(crate) fn pins_of_references(alloc: Global, references: &[Specific]) -> Result<Pins, NoMemory>
    ensures { IfOk result (λ pins. AreRowsOf pins (map (λ k. key_of k.pin) references.now)) }
{
    let mut rows = Vec::new(alloc);
    for reference in references {
        add(&mut rows, &reference.pin)?;
    }
    Pins::of(rows)
}

/// The pins of these cross references.
pub(crate) fn pins_of_crosses(alloc: Global, references: &[Cross]) -> Result<Pins, NoMemory>
    ensures { IfOk result (λ pins. AreRowsOf pins (map (λ k. key_of k.pin) references.now)) }
{
    let mut rows = Vec::new(alloc);
    for reference in references {
        add(&mut rows, &reference.pin)?;
    }
    Pins::of(rows)
}

/// The entries at which these NSSRs stand.
pub(crate) fn entries_of_nssrs(alloc: Global, nssrs: &[Nssr]) -> Result<Pins, NoMemory>
    ensures { IfOk result (λ pins. AreRowsOf pins (map (λ n. key_of n.at) nssrs.now)) }
{
    let mut rows = Vec::new(alloc);
    for nssr in nssrs {
        add(&mut rows, &nssr.at)?;
    }
    Pins::of(rows)
}
