//! Steps are made ready: all that takes memory comes before the first is done.

ghost use Rattle.std.specs.Prelude.{◌≡◌, [], ◌∷◌, length, IfOk};
ghost use Rattle.x5_model.specs.Values.{last_rdn};
ghost use Rattle.x5_model_refreshed.specs.Steps.{Add, Modify, Remove, Rename};
ghost use Rattle.x5_consume.specs.Ready.{ArePrepared, IsPrepared, IsReadyFor, room_of, steps_in, values_in};
ghost use Rattle.x5_consume.specs.Steps.{step_view};

use crate::ready::{Prepared, Ready};
use std::alloc::Global;
use x5_index::Room;
use x5_memory::NoMemory;
use x5_names::{Name, Rdn};
use x5_ops::{Named, Step, StepList};

/// The last RDN of the name; of the root it's empty.
fn last_of(alloc: Global, name: &Name) -> Result<Rdn, NoMemory>
    ensures { IfOk result (λ rdn. rdn ≡ last_rdn name.now) }
{
    match name.last() {
        Some(rdn) => Ok(rdn.clone()?),
        None => Ok(Rdn::new(alloc, Vec::new(alloc))?),
    }
}

/// An entry is to come.
fn added(alloc: Global, named: &Named) -> Result<Ready, NoMemory>
    ensures { IfOk result (λ ready. IsReadyFor (Add named.now) ready) }
{
    let room = Room::new(alloc, &named.entry)?;
    let name = named.name.clone()?;
    let entry = named.entry.clone()?;
    Ok(Ready::Add { name, entry, room })
}

/// An entry is to go.
fn removed(name: &Name) -> Result<Ready, NoMemory>
    ensures { IfOk result (λ ready. IsReadyFor (Remove name.now) ready) }
{
    let name = name.clone()?;
    Ok(Ready::Remove { name })
}

/// An entry is to have other attributes.
fn modified(alloc: Global, named: &Named) -> Result<Ready, NoMemory>
    ensures { IfOk result (λ ready. IsReadyFor (Modify named.now) ready) }
{
    let room = Room::new(alloc, &named.entry)?;
    let name = named.name.clone()?;
    let entry = named.entry.clone()?;
    Ok(Ready::Modify { name, entry, room })
}

/// An entry is to have another name, and attributes.
fn renamed(alloc: Global, name: &Name, named: &Named) -> Result<Ready, NoMemory>
    ensures { IfOk result (λ ready. IsReadyFor (Rename name.now named.now) ready) }
{
    let room = Room::new(alloc, &named.entry)?;
    let rdn = last_of(alloc, &named.name)?;
    let name = name.clone()?;
    let entry = named.entry.clone()?;
    Ok(Ready::Rename {
        name,
        rdn,
        entry,
        room,
    })
}

/// What the step needs.
fn ready_for(alloc: Global, step: &Step) -> Result<Ready, NoMemory>
    ensures { IfOk result (λ ready. IsReadyFor (step_view step.now) ready) }
{
    match step {
        Step::Add(named) => added(alloc, named),
        Step::Remove(name) => removed(name),
        Step::Modify(named) => modified(alloc, named),
        Step::Rename(name, named) => renamed(alloc, name, named),
    }
}

/// The step, with what it needs.
fn prepared(alloc: Global, step: Step) -> Result<Prepared, NoMemory>
    ensures step { IfOk result (λ one. one.step ≡ step) }
    ensures prepared { IfOk result (λ one. IsPrepared one) }
{
    match ready_for(alloc, &step) {
        Ok(ready) => Ok(Prepared { ready, step }),
        Err(fault) => {
            drop(step);
            Err(fault)
        }
    }
}

/// The steps in their order, each with what it needs.
pub(crate) fn all_prepared(alloc: Global, steps: StepList) -> Result<Vec<Prepared>, NoMemory>
    ensures steps { IfOk result (λ all. steps_in all.items ≡ steps) }
    ensures prepared { IfOk result (λ all. ArePrepared all.items) }
{
    let mut all = Vec::new(alloc);
    for step in steps.into_vec() {
        all.push(prepared(alloc, step)?)?;
    }
    Ok(all)
}

/// How many values the entry has that comes. No memory.
fn values_for(ready: &Ready) -> usize
    ensures { result ≡ length (room_of ready.now) }
{
    match ready {
        Ready::Add { room, .. } => room.len(),
        Ready::Remove { .. } => 0,
        Ready::Modify { room, .. } => room.len(),
        Ready::Rename { room, .. } => room.len(),
    }
}

/// How many values the entries have that come. No memory; more than can be counted are more than there is memory for.
pub(crate) fn values_for_all(all: &[Prepared]) -> Result<usize, NoMemory>
    ensures { IfOk result (λ count. count ≡ values_in all.now) }
{
    let mut count: usize = 0;
    for one in all {
        let Some(sum) = count.checked_add(values_for(&one.ready)) else {
            return Err(NoMemory);
        };
        count = sum;
    }
    Ok(count)
}
