//! modifyDN on entries in the order of their keys (X.511, section 11.4): the entry and all below it, which stand next to each
//! other, get new names and go where the new name stands. The names are made first; the rest takes no memory.

ghost use Rattle.std.specs.Prelude.{◌≡◌, ◌<◌, ◌≤◌, ◌+◌, ◌++◌, true, List, length, map, take, drop, get_or, vec_len, IfOk};
ghost use Rattle.std.specs.List.{list_any};
ghost use Rattle.x5_model.specs.Changes as changes;
ghost use Rattle.x5_model.specs.Entries as entry_model;
ghost use Rattle.x5_model.specs.Keys as keys;
ghost use Rattle.x5_model.specs.Members.{In};
ghost use Rattle.x5_model.specs.Values.{key_of};
ghost use Rattle.x5_model.specs.Words.{ascending};
ghost use Rattle.x5_model_tree.specs.Apply as model;
ghost use Rattle.x5_model_tree.specs.Tree as tree;
ghost use Rattle.x5_model_updates.specs.Afterwards.{new_key};
ghost use Rattle.x5_ops.specs.ChangeView.{IsModified};
ghost use Rattle.x5_one.specs.Making.{ground, ground_tree, IsMade};
ghost use Rattle.x5_one.specs.Parts.{IsSound};
ghost use Rattle.x5_one.specs.Places.{IsPlace};
ghost use Rattle.x5_one.specs.Moving.{IsFitting, IsNewPlace, IsPlanned, IsSettled, IsTurned, respelled_entry, moved_run};

use crate::places::{last_of, place_of, run_end};
use crate::updating::{no_object, refused, with_entry};
use std::alloc::Global;
use x5_memory::NoMemory;
use x5_names::{Name, Rdn};
use x5_ops::{
    ChangeFault, DirError, Entry, Named, attribute_problem, doubled, update_problem, with_rdn,
    without_rdn,
};
use x5_syntax::TypeRef;

/// The run of entries that moves, with its new names: it stands from `at` to before `end`, and its new names would go to `place`.
#[derive(Drop)]
struct Move {
    at: usize,
    end: usize,
    place: usize,
    run: Vec<Named>,
}

/// The name with its RDN at this place replaced.
fn respelled(alloc: Global, above: usize, rdn: &Rdn, name: &Name) -> Result<Name, NoMemory>
    requires { above < length name.now }
    ensures { IfOk result (λ n. n ≡ model.respelled above rdn.now name.now) }
{
    let mut rdns = Vec::from_clones(alloc, name.rdns())?;
    rdns[above] = rdn.clone()?;
    Name::new(alloc, rdns)
}

/// The entries with their new names.
fn respelled_all(
    alloc: Global,
    run: &[Named],
    above: usize,
    rdn: &Rdn,
) -> Result<Vec<Named>, NoMemory>
    requires { (e : entry_model.Named) → In e run.now → above < length e.name }
    ensures { IfOk result (λ v. v.items ≡ map (respelled_entry above rdn.now) run.now) }
{
    let mut moved = Vec::new(alloc);
    for named in run {
        let name = respelled(alloc, above, rdn, &named.name)?;
        let entry = named.entry.clone()?;
        moved.push(Named { name, entry })?;
    }
    Ok(moved)
}

/// The entries with their new names; the first, which moves itself, with its new attributes.
fn moved(
    alloc: Global,
    run: &[Named],
    above: usize,
    rdn: &Rdn,
    entry: Entry,
) -> Result<Vec<Named>, NoMemory>
    requires filled { 0 < length run.now }
    requires long { (e : entry_model.Named) → In e run.now → above < length e.name }
    ensures { IfOk result (λ v. (first : entry_model.Named) → first ≡ get_or run.now 0 first → v.items ≡ moved_run above rdn.now entry first run.now) }
{
    let mut moved = respelled_all(alloc, run, above, rdn)?;
    let first = with_entry(&moved[0], entry)?;
    moved[0] = first;
    Ok(moved)
}

/// A copy of the attributes.
fn copied(entry: &Entry) -> Result<Entry, NoMemory>
    ensures { IfOk result (λ e. e ≡ entry.now) }
{
    Ok(entry.clone()?)
}

/// What a modifyDN makes of the entry's attributes (X.511, section 11.4), or the refusal of the single-valued type that it doubles.
fn renamed(
    alloc: Global,
    entry: &Entry,
    old: &Rdn,
    rdn: &Rdn,
    drop_old: bool,
) -> Result<Entry, ChangeFault>
    ensures { IsModified result (changes.single_valued (changes.renamed old.now rdn.now drop_old entry.now)) }
{
    let entry = copied(entry)?;
    let entry = if drop_old {
        without_rdn(alloc, entry, old, rdn)?
    } else {
        entry
    };
    let entry = with_rdn(alloc, entry, rdn)?;
    match doubled(&entry) {
        None => Ok(entry.shared(alloc)?),
        Some(kind) => {
            drop(entry);
            Err(ChangeFault::Refused(DirError::Attribute {
                problem: attribute_problem::CONSTRAINT_VIOLATION,
                kind: TypeRef::Known(kind),
            }))
        }
    }
}

/// The name with another last RDN.
fn new_name(alloc: Global, object: &Name, rdn: &Rdn) -> Result<Name, NoMemory>
    ensures { IfOk result (λ name. key_of name ≡ new_key object.now rdn.now) }
{
    object.parent(alloc)?.below(alloc, rdn)
}

/// Where an entry of the new name would stand; none where another entry has it. No memory.
fn new_place(entries: &[Named], object: &Name, at: usize, name: &Name) -> Option<usize>
    requires { ascending tree.named_below entries.now ≡ true }
    ensures { IsNewPlace entries.now (key_of object.now) (key_of name.now) at result }
{
    if name.is_same(object) {
        return Some(at);
    }
    match place_of(entries, name.key()) {
        Ok(_) => None,
        Err(place) => Some(place),
    }
}

/// Puts the run in place of the entries there. No memory.
fn exchange(entries: &mut [Named], at: usize, end: usize, run: Vec<Named>)
    requires within { end ≤ length entries.old }
    requires fits { at + vec_len run ≡ end }
    ensures { entries.new ≡ take at entries.old ++ (run.items ++ drop end entries.old) }
{
    let mut run = run;
    entries[at..end].swap_with_slice(&mut run);
}

/// Of two parts that stand next to each other, puts the later first. No memory.
fn turn(entries: &mut [Named], from: usize, middle: usize, to: usize)
    requires order { (from ≤ middle) × (middle ≤ to) }
    requires within { to ≤ length entries.old }
    ensures { IsTurned from middle to entries.old entries.new }
{
    entries[from..to].rotate_left(middle - from);
}

/// Puts the run in place of the entries there, and then where the place is, which is before or behind them. No memory.
fn settle(entries: &mut [Named], moving: Move)
    requires { IsFitting moving (length entries.old) }
    ensures { IsSettled moving entries.old entries.new }
{
    let Move {
        at,
        end,
        place,
        run,
    } = moving;
    exchange(entries, at, end, run);
    if place <= at {
        turn(entries, place, at, end);
    } else {
        turn(entries, at, end, place);
    }
}

/// What a modifyDN moves and where to, or its refusal.
fn planned(
    alloc: Global,
    entries: &[Named],
    object: &Name,
    rdn: &Rdn,
    drop_old: bool,
    above: bool,
) -> Result<Move, ChangeFault>
    requires order { ascending tree.named_below entries.now ≡ true }
    requires named { 0 < length object.now }
    ensures fits { IfOk result (λ moving. IsFitting moving (length entries.now)) }
    ensures made { (pins : List keys.Key) → IsSound (ground_tree entries.now pins) → list_any (keys.is_prefix (key_of object.now)) pins ≡ above → IsPlanned result (model.rename (ground entries.now pins) object.now rdn.now drop_old) entries.now }
{
    let at = match place_of(entries, object.key()) {
        Ok(at) => at,
        Err(_) => return Err(no_object(alloc, entries, object.key())),
    };
    if above {
        return Err(refused(update_problem::AFFECTS_MULTIPLE_DSAS));
    }
    let old = last_of(alloc, object)?;
    let named = &entries[at];
    let entry = match renamed(alloc, &named.entry, &old, rdn, drop_old) {
        Ok(entry) => entry,
        Err(fault) => {
            drop(old);
            return Err(fault);
        }
    };
    drop(old);
    let name = new_name(alloc, object, rdn)?;
    let Some(place) = new_place(entries, object, at, &name) else {
        drop(name);
        drop(entry);
        return Err(refused(update_problem::ENTRY_ALREADY_EXISTS));
    };
    drop(name);
    let end = run_end(entries, at, object.key());
    let run = moved(alloc, &entries[at..end], object.len() - 1, rdn, entry)?;
    Ok(Move {
        at,
        end,
        place,
        run,
    })
}

/// Gives an entry another RDN (X.511, section 11.4), and so another name to all below it.
pub(crate) fn rename(
    alloc: Global,
    entries: &mut Vec<Named>,
    object: &Name,
    rdn: &Rdn,
    drop_old: bool,
    above: bool,
) -> Result<(), ChangeFault>
    requires order { ascending tree.named_below entries.old.items ≡ true }
    requires named { 0 < length object.now }
    ensures { (pins : List keys.Key) → IsSound (ground_tree entries.old.items pins) → list_any (keys.is_prefix (key_of object.now)) pins ≡ above → IsMade result (model.rename (ground entries.old.items pins) object.now rdn.now drop_old) entries.old.items entries.new.items }
{
    match planned(alloc, entries, object, rdn, drop_old, above) {
        Ok(moving) => {
            settle(entries, moving);
            Ok(())
        }
        Err(fault) => Err(fault),
    }
}
