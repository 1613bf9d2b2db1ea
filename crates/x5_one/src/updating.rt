//! Updates of entries in the order of their keys (X.511, section 11). What needs memory is made first, so that an update that is
//! accepted can't stop half way.

ghost use Rattle.std.specs.Prelude.{◌≡◌, ◌<◌, ◌≤◌, ◌++◌, ◌∷◌, true, None, Ok, Err, List, [], length, map, take, drop, vec_len, IfOk, OnOk, OnErr};
ghost use Rattle.std.specs.List.{list_any};
ghost use Rattle.x5_model.specs.Answers.{NoSuchObject, UpdateProblem};
ghost use Rattle.x5_model.specs.Keys as keys;
ghost use Rattle.x5_model.specs.Statics.{attribute_repeats, fault_of};
ghost use Rattle.x5_model.specs.Values.{key_of};
ghost use Rattle.x5_model.specs.Words.{ascending, first_of};
ghost use Rattle.x5_model_tree.specs.Apply as model;
ghost use Rattle.x5_model_tree.specs.Ask.{is_update};
ghost use Rattle.x5_model_tree.specs.Tree as tree;
ghost use Rattle.x5_ops.specs.RequestViews.{attribute_view, body_view, change_view};
ghost use Rattle.x5_one.specs.Making.{ground, ground_tree, AreAbove, PinsThere, IsMade, IsReplied, IsStopped};
ghost use Rattle.x5_one.specs.Parts.{IsSound};
ghost use Rattle.x5_one.specs.Places.{IsPlace};

use crate::contexts::{Pin, is_above_pin};
use crate::places::{absent, last_of, place_of};
use crate::renaming::rename;
use std::alloc::Global;
use x5_memory::NoMemory;
use x5_names::{Key, Name};
use x5_ops::{
    Answer, AttributeList, Body, ChangeFault, ChangeList, DirError, Entry, Named, Reply,
    added_entry, change, update_problem,
};

/// noSuchObject, where no entry has the key.
pub(crate) fn no_object(alloc: Global, entries: &[Named], key: &Key) -> ChangeFault
    requires { ascending tree.named_below entries.now ≡ true }
    ensures { IsStopped result (Err (NoSuchObject (tree.matched entries.now key.now))) }
{
    match absent(alloc, entries, key) {
        Ok(error) => ChangeFault::Refused(error),
        Err(fault) => ChangeFault::from(fault),
    }
}

/// A problem of an update, by its number. No memory.
pub(crate) fn refused(problem: u8) -> ChangeFault
    ensures { IsStopped result (Err (UpdateProblem problem)) }
{
    ChangeFault::Refused(DirError::Update { problem })
}

/// Puts the entry at the place. After want of memory the entries are as they were.
fn put(entries: &mut Vec<Named>, place: usize, named: Named) -> Result<(), NoMemory>
    requires { place ≤ vec_len entries.old }
    ensures ok { OnOk result (entries.new.items ≡ take place entries.old.items ++ named ∷ drop place entries.old.items) }
    ensures err { OnErr result (entries.new.items ≡ entries.old.items) }
{
    entries.insert(place, named)?;
    Ok(())
}

/// The entry with these attributes.
pub(crate) fn with_entry(named: &Named, entry: Entry) -> Result<Named, NoMemory>
    ensures { IfOk result (λ n. n ≡ record named.now { entry = entry }) }
{
    Ok(Named {
        name: named.name.clone()?,
        entry,
    })
}

/// Adds an entry (X.511, section 11.1): what stands above it is there, and the name isn't.
pub(crate) fn add(
    alloc: Global,
    entries: &mut Vec<Named>,
    object: &Name,
    attributes: &AttributeList,
) -> Result<(), ChangeFault>
    requires order { ascending tree.named_below entries.old.items ≡ true }
    requires apart { first_of (attribute_repeats [] (map attribute_view attributes.now)) ≡ None }
    requires named { 0 < length object.now }
    ensures { (pins : List keys.Key) → PinsThere entries.old.items pins → IsMade result (model.add (ground entries.old.items pins) object.now (map attribute_view attributes.now)) entries.old.items entries.new.items }
{
    let above = object.parent(alloc)?;
    let parent = match place_of(entries, above.key()) {
        Ok(parent) => parent,
        Err(_) => return Err(no_object(alloc, entries, above.key())),
    };
    let place = match place_of(entries, object.key()) {
        Ok(_) => {
            drop(above);
            return Err(refused(update_problem::ENTRY_ALREADY_EXISTS));
        }
        Err(place) => place,
    };
    drop(above);
    let rdn = last_of(alloc, object)?;
    let entry = added_entry(alloc, &rdn, attributes)?;
    let named = &entries[parent];
    let name = named.name.below(alloc, &rdn)?;
    drop(rdn);
    put(entries, place, Named { name, entry })?;
    Ok(())
}

/// Whether something stands below the entry at the place. No memory.
fn has_below(entries: &[Named], at: usize, key: &Key) -> bool
    requires order { ascending tree.named_below entries.now ≡ true }
    requires place { IsPlace (tree.keys_of entries.now) key.now (Ok at) }
    ensures { result ≡ tree.has_below entries.now key.now }
{
    match entries.get(at + 1) {
        Some(next) => key.is_prefix(next.name.key()),
        None => false,
    }
}

/// Removes an entry (X.511, section 11.2), which is no pin and above none, as `above` says, and has nothing below it.
pub(crate) fn remove(
    alloc: Global,
    entries: &mut Vec<Named>,
    object: &Name,
    above: bool,
) -> Result<(), ChangeFault>
    requires { ascending tree.named_below entries.old.items ≡ true }
    ensures { (pins : List keys.Key) → list_any (keys.is_prefix (key_of object.now)) pins ≡ above → IsMade result (model.remove (ground entries.old.items pins) object.now) entries.old.items entries.new.items }
{
    let at = match place_of(entries, object.key()) {
        Ok(at) => at,
        Err(_) => return Err(no_object(alloc, entries, object.key())),
    };
    if above {
        return Err(refused(update_problem::AFFECTS_MULTIPLE_DSAS));
    }
    if has_below(entries, at, object.key()) {
        return Err(refused(update_problem::NOT_ALLOWED_ON_NON_LEAF));
    }
    let _removed = entries.remove(at);
    Ok(())
}

/// Changes the attributes of an entry (X.511, section 11.3).
pub(crate) fn modify(
    alloc: Global,
    entries: &mut Vec<Named>,
    object: &Name,
    changes: &ChangeList,
) -> Result<(), ChangeFault>
    requires { ascending tree.named_below entries.old.items ≡ true }
    ensures { (pins : List keys.Key) → IsMade result (model.modify (ground entries.old.items pins) object.now (map change_view changes.now)) entries.old.items entries.new.items }
{
    let at = match place_of(entries, object.key()) {
        Ok(at) => at,
        Err(_) => return Err(no_object(alloc, entries, object.key())),
    };
    let rdn = last_of(alloc, object)?;
    let named = &entries[at];
    let entry = match change(alloc, &rdn, &named.entry, changes) {
        Ok(entry) => entry,
        Err(fault) => {
            drop(rdn);
            return Err(fault);
        }
    };
    drop(rdn);
    entries[at] = with_entry(named, entry)?;
    Ok(())
}

/// Makes an update that no static refusal stops (X.511, section 11): it's accepted, or it changes nothing.
pub(crate) fn update(
    alloc: Global,
    entries: &mut Vec<Named>,
    pins: &[Pin],
    body: &Body,
) -> Result<(), ChangeFault>
    requires order { ascending tree.named_below entries.old.items ≡ true }
    requires rows { ascending keys.key_below (map (λ p. p.0) pins.now) ≡ true }
    requires changes { is_update (body_view body.now) ≡ true }
    requires passed { fault_of (body_view body.now) ≡ None }
    ensures { (known : List keys.Key) → IsSound (ground_tree entries.old.items known) → AreAbove (map (λ p. p.0) pins.now) known → IsMade result (model.update (ground entries.old.items known) (body_view body.now)) entries.old.items entries.new.items }
{
    match body {
        Body::Add { object, attributes } => add(alloc, entries, object, attributes),
        Body::Remove { object } => {
            let above = is_above_pin(pins, object.key());
            remove(alloc, entries, object, above)
        }
        Body::Modify { object, changes } => modify(alloc, entries, object, changes),
        Body::ModifyDn {
            object,
            rdn,
            drop_old,
        } => {
            let above = is_above_pin(pins, object.key());
            rename(alloc, entries, object, rdn, *drop_old, above)
        }
        _ => unreachable!(),
    }
}

/// The reply to an update, by what was made of it. No memory.
pub(crate) fn replied(made: Result<(), ChangeFault>) -> Result<Reply, NoMemory>
    ensures { IsReplied made result }
{
    match made {
        Ok(()) => Ok(Reply::Done(Answer::Changed)),
        Err(ChangeFault::Refused(error)) => Ok(Reply::Failed(error)),
        Err(ChangeFault::NoMemory) => Err(NoMemory),
    }
}
