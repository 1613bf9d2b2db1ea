//! The subordinate references of contexts, found by their pins without a walk.

ghost use Rattle.std.specs.Prelude.{◌≡◌, ◌++◌, ◌∷◌, [], if◌then◌else◌, List, map, slice_set, IfOk, OnOk};
ghost use Rattle.std.specs.List.{list_any};
ghost use Rattle.x5_model.specs.Keys.{Key, is_prefix};
ghost use Rattle.x5_model.specs.Values.{key_of};
ghost use Rattle.x5_ops.specs.declared.knowledge.Specific.{Specific as specific};
ghost use Rattle.x5_holdings.specs.Rows.{numbered};
ghost use Rattle.x5_holdings.specs.Spots.{AreBelow, IsSpot, pins_in, spots_from};
ghost use Rattle.x5_holdings.specs.State.{brought_references};

use crate::held::{Copied, Held};
use crate::pins::{Pins, add};
use crate::rows::Row;
use std::alloc::Global;
use std::marker::Model;
use x5_memory::NoMemory;
use x5_names::Rdn;
use x5_ops::Specific;

/// A place among the members of several lists: which list, and which of its members.
#[derive(Clone, Copy)]
pub(crate) struct Spot {
    pub(crate) list: usize,
    pub(crate) member: usize,
}

/// The subordinate references of contexts, by their pins.
#[derive(Drop)]
pub(crate) struct Below {
    pins: Pins,
    spots: Vec<Spot>,
}

impl Model for Below {
    ghost use Rattle.x5_holdings.specs.Spots.{Spotted};

    ghost Value = { Spotted };

    ghost view = { λ b. record { rows = b.pins; spots = b.spots.items } };
}

/// Adds the references of the next context.
fn add_list(
    rows: &mut Vec<Row>,
    spots: &mut Vec<Spot>,
    list: usize,
    references: &[Specific],
) -> Result<(), NoMemory>
    ensures rows { OnOk result ((keys : List Key) → rows.old.items ≡ numbered keys → rows.new.items ≡ numbered (keys ++ map (λ k. key_of k.pin) references.now)) }
    ensures spots { OnOk result (spots.new.items ≡ spots.old.items ++ spots_from list 0 references.now) }
{
    for (member, reference) in references.iter().enumerate() {
        add(rows, &reference.pin)?;
        spots.push(Spot { list, member })?;
    }
    Ok(())
}

/// The references of the copy, or these in their place. No memory.
fn references_of<'a>(
    copy: &'a Copied,
    is_replaced: bool,
    references: &'a [Specific],
) -> &'a [Specific]
    ensures { result.now ≡ if is_replaced then references.now else brought_references copy.now.refreshed }
{
    if is_replaced {
        references
    } else {
        copy.subordinate()
    }
}

impl Below {
    /// No references. No memory.
    pub(crate) fn none(alloc: Global) -> Below
        ensures { AreBelow result [] }
    {
        Below {
            pins: Pins::none(alloc),
            spots: Vec::new(alloc),
        }
    }

    /// The references of these contexts.
    pub(crate) fn of_held(alloc: Global, contexts: &[Held]) -> Result<Below, NoMemory>
        ensures { IfOk result (λ below. AreBelow below (map (λ c. c.subordinate) contexts.now)) }
    {
        let mut rows = Vec::new(alloc);
        let mut spots = Vec::new(alloc);
        for (list, held) in contexts.iter().enumerate() {
            add_list(&mut rows, &mut spots, list, held.subordinate())?;
        }
        let pins = Pins::of(rows)?;
        Ok(Below { pins, spots })
    }

    /// The references of these copies.
    pub(crate) fn of_copies(alloc: Global, copies: &[Copied]) -> Result<Below, NoMemory>
        ensures { IfOk result (λ below. AreBelow below (map (λ c. brought_references c.refreshed) copies.now)) }
    {
        let mut rows = Vec::new(alloc);
        let mut spots = Vec::new(alloc);
        for (list, copy) in copies.iter().enumerate() {
            add_list(&mut rows, &mut spots, list, copy.subordinate())?;
        }
        let pins = Pins::of(rows)?;
        Ok(Below { pins, spots })
    }

    /// The references of these copies, where the copy of this place has these.
    pub(crate) fn with_copy(
        alloc: Global,
        copies: &[Copied],
        place: usize,
        references: &[Specific],
    ) -> Result<Below, NoMemory>
        ensures { IfOk result (λ below. AreBelow below (slice_set (map (λ c. brought_references c.refreshed) copies.now) place references.now)) }
    {
        let mut rows = Vec::new(alloc);
        let mut spots = Vec::new(alloc);
        for (list, copy) in copies.iter().enumerate() {
            let these = references_of(copy, list == place, references);
            add_list(&mut rows, &mut spots, list, these)?;
        }
        let pins = Pins::of(rows)?;
        Ok(Below { pins, spots })
    }

    /// Whether one of the pins is the name of these RDNs, or stands below it. No memory.
    pub(crate) fn has_under(&self, rdns: &[Rdn]) -> bool
        ensures { (lists : List (List specific)) → AreBelow self.now lists → result ≡ list_any (is_prefix (key_of rdns.now)) (pins_in lists) }
    {
        self.pins.has_under(rdns)
    }

    /// Where the first reference to the pin of these RDNs stands. No memory.
    pub(crate) fn first(&self, rdns: &[Rdn]) -> Option<Spot>
        ensures { (lists : List (List specific)) → AreBelow self.now lists → IsSpot lists (key_of rdns.now) result }
    {
        let place = self.pins.first(rdns)?;
        self.spots.get(place).copied()
    }
}
