//! Entries in the order of their keys: where a key is among them, and the run of those below it.

ghost use Rattle.std.specs.Prelude.{◌≡◌, ◌≤◌, ◌-◌, ℕ, true, List, length, take, drop, IfOk};
ghost use Rattle.std.specs.List.{filter};
ghost use Rattle.std.specs.Option.{option_copied};
ghost use Rattle.x5_model.specs.Answers.{NoSuchObject};
ghost use Rattle.x5_model.specs.Keys as keys;
ghost use Rattle.x5_model.specs.Values.{last_rdn};
ghost use Rattle.x5_model.specs.Words.{ascending};
ghost use Rattle.x5_model_tree.specs.Tree as tree;
ghost use Rattle.x5_ops.specs.AnswerViews.{error_view};
ghost use Rattle.x5_one.specs.Places.{IsPlace, IsStart};

use std::alloc::Global;
use x5_memory::NoMemory;
use x5_names::{Key, Name, Rdn};
use x5_ops::{DirError, Named};

/// Where the key is among the entries, or where it would go. No memory.
pub(crate) fn place_of(entries: &[Named], key: &Key) -> Result<usize, usize>
    requires { ascending tree.named_below entries.now ≡ true }
    ensures { IsPlace (tree.keys_of entries.now) key.now result }
{
    entries.binary_search_by(|named| named.name.key().cmp(key))
}

/// The entry of the key. No memory.
pub(crate) fn entry_of<'a>(entries: &'a [Named], key: &Key) -> Option<&'a Named>
    requires { ascending tree.named_below entries.now ≡ true }
    ensures { option_copied result ≡ tree.entry_at entries.now key.now }
{
    match place_of(entries, key) {
        Ok(at) => Some(&entries[at]),
        Err(_) => None,
    }
}

/// The lowest entry on the way to the key.
fn lowest_entry<'a>(
    alloc: Global,
    entries: &'a [Named],
    key: &Key,
) -> Result<Option<&'a Named>, NoMemory>
    requires { ascending tree.named_below entries.now ≡ true }
    ensures { IfOk result (λ found. option_copied found ≡ tree.lowest entries.now key.now) }
{
    let mut left = key.len();
    while left > 0 {
        let front = key.first(alloc, left)?;
        let found = entry_of(entries, &front);
        if found.is_some() {
            return Ok(found);
        }
        left -= 1;
    }
    Ok(None)
}

/// The longest part of the name that is an entry, as it's spelled there, else the root (X.511, section 12.5: matched).
fn matched(alloc: Global, entries: &[Named], key: &Key) -> Result<Name, NoMemory>
    requires { ascending tree.named_below entries.now ≡ true }
    ensures { IfOk result (λ name. name ≡ tree.matched entries.now key.now) }
{
    match lowest_entry(alloc, entries, key)? {
        Some(named) => Ok(named.name.clone()?),
        None => Ok(Name::root(alloc)),
    }
}

/// noSuchObject, where no entry has the key (X.511, section 12.5).
pub(crate) fn absent(alloc: Global, entries: &[Named], key: &Key) -> Result<DirError, NoMemory>
    requires { ascending tree.named_below entries.now ≡ true }
    ensures { IfOk result (λ error. (names : List (List ℕ)) → error_view names error ≡ NoSuchObject (tree.matched entries.now key.now)) }
{
    let matched = matched(alloc, entries, key)?;
    Ok(DirError::Name { matched })
}

/// Where the run of what is at the key or below it begins. No memory.
pub(crate) fn start_of(entries: &[Named], key: &Key) -> usize
    requires { ascending tree.named_below entries.now ≡ true }
    ensures { IsStart (tree.keys_of entries.now) key.now result }
{
    match place_of(entries, key) {
        Ok(at) => at,
        Err(at) => at,
    }
}

/// Where the run of what is at the key or below it ends, from where it begins. No memory.
pub(crate) fn run_end(entries: &[Named], start: usize, key: &Key) -> usize
    requires order { ascending tree.named_below entries.now ≡ true }
    requires begins { IsStart (tree.keys_of entries.now) key.now start }
    ensures behind { start ≤ result }
    ensures within { result ≤ length entries.now }
    ensures run { take (result - start) (drop start entries.now) ≡ filter (λ e. keys.is_prefix key.now (tree.key_at e)) entries.now }
{
    let rest = &entries[start..];
    start + rest.partition_point(|named| key.is_prefix(named.name.key()))
}

/// The entries at the key and below it, which stand next to each other. No memory.
pub(crate) fn subtree<'a>(entries: &'a [Named], key: &Key) -> &'a [Named]
    requires { ascending tree.named_below entries.now ≡ true }
    ensures { result.now ≡ filter (λ e. keys.is_prefix key.now (tree.key_at e)) entries.now }
{
    let start = start_of(entries, key);
    let end = run_end(entries, start, key);
    &entries[start..end]
}

/// The last RDN of the name; of the root it's empty.
pub(crate) fn last_of(alloc: Global, name: &Name) -> Result<Rdn, NoMemory>
    ensures { IfOk result (λ rdn. rdn ≡ last_rdn name.now) }
{
    match name.last() {
        Some(rdn) => Ok(rdn.clone()?),
        None => Ok(Rdn::new(alloc, Vec::new(alloc))?),
    }
}
