//! Parses and compares 100,000 names; docs/PERFORMANCE.md says how long that takes.
#![tactic(auto)]

use anyhow::Result;
use std::alloc::Global;
use std::cmp::Ordering;
use std::mem::replace;
use x5_names::Name;

/// The name of a person in one of a hundred units.
fn name(alloc: Global, person: u32) -> Result<Name> {
    let unit = person % 100;
    let text = format!(in alloc; "/C=NL/O=Example/OU=Unit {unit}/CN=Person {person}")?;
    Ok(Name::parse(alloc, text.as_str())?)
}

/// Whether the person's name stands behind the one before, whose place it takes.
fn stands_behind(alloc: Global, before: &mut Name, person: u32) -> Result<bool> {
    let next = name(alloc, person)?;
    let stands = next.cmp_key(before) == Ordering::Greater;
    drop(replace(before, next));
    Ok(stands)
}

/// How many of 100,000 names stand behind the one before.
fn count(alloc: Global, before: &mut Name) -> Result<u32> {
    let mut behind = 0u32;
    for person in 0..100_000 {
        if stands_behind(alloc, before, person)? {
            behind = behind.saturating_add(1);
        }
    }
    Ok(behind)
}

fn main(rt: HostRuntime) -> Result<()> {
    let mut before = Name::root(rt.alloc());
    let counted = count(rt.alloc(), &mut before);
    drop(before);
    let behind = counted?;
    println!(rt; "{behind} of 100000 names stand behind the name before")?;
    Ok(())
}
