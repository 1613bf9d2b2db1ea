//! Times an agent's entries and their index beside ordered maps of std that do the same work: docs/PERFORMANCE.md has the figures.
//! The word behind the program's name is how many entries there are. What was found is printed, and standard error has the times.
#![tactic(auto)]

mod entries;
mod index;
mod maps;

use anyhow::{Result, anyhow};
use std::env;
use std::time::{CpuClock, Duration};

/// The places of so many entries, in an order that jumps about.
fn places(rt: &HostRuntime, count: u32) -> Result<Vec<u32>> {
    let mut scattered = Vec::new(rt.alloc());
    for place in 0..count {
        let mixed = place.wrapping_mul(2_654_435_761);
        scattered.push((mixed ^ (mixed >> 15), place))?;
    }
    scattered.sort()?;
    let mut places = Vec::new(rt.alloc());
    for (_, place) in scattered {
        places.push(place)?;
    }
    Ok(places)
}

/// The number that the first word says.
fn count(rt: &HostRuntime) -> Result<u32> {
    let word = env::args(rt)?
        .nth(1)
        .ok_or_else(|| anyhow!("how many entries?"))?;
    Ok(word.parse::<u32>()?)
}

/// The processor time that was used since then, on standard error.
fn tell(rt: &HostRuntime, what: &str, since: Duration) -> Result<()> {
    let used = rt.process_cpu_time()?.saturating_sub(since);
    eprintln!(rt; "{what}: {} microseconds", used.as_micros())?;
    Ok(())
}

fn main(rt: HostRuntime) -> Result<()> {
    let places = places(&rt, count(&rt)?)?;
    entries::measure(&rt, &places)?;
    index::measure(&rt, &places)?;
    maps::measure(&rt, &places)?;
    Ok(())
}
