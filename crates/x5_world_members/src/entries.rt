//! The entries of a context, each behind its parent.

ghost use Rattle.std.specs.Prelude.{◌≡◌, [], ◌∷◌, ◌++◌, map, IfOk, OnOk, false};
ghost use Rattle.std.specs.List.{find};
ghost use Rattle.std.specs.Option.{option_copied};
ghost use Rattle.serde_json.specs.View.{view, items_view};
ghost use Rattle.x5_model.specs.Keys.{same_key};
ghost use Rattle.x5_model.specs.Values.{key_of};
ghost use Rattle.x5_model.specs.Words.{is_empty as is_empty_list};
ghost use Rattle.x5_model_tree.specs.Tree.{key_at};
ghost use Rattle.x5_model_world.specs.ContextText as model;
ghost use Rattle.x5_world_members.specs.Parts as parts;
ghost use Rattle.x5_world_members.specs.Paths.{path_of};
ghost use Rattle.x5_world_members.specs.Views.{ReadsPart};

use crate::entry::entry_given;
use crate::fault::LoadFault;
use crate::given::given_behind;
use crate::json::{list_at, members_at, only};
use crate::key_set::KeySet;
use crate::names::{entry_name_behind, last_rdn};
use crate::place::Place;
use crate::spelling::moved_below;
use serde_json::Value;
use std::alloc::Global;
use std::marker::Model;
use x5_match::Entry;
use x5_memory::NoMemory;
use x5_names::{Key, KnownName, Name, Rdn};
use x5_ops::{Named, NamedList};

/// Entries in the order of the file, no two of one key, each of which is found without a walk through the others.
#[derive(Drop)]
pub(crate) struct Entries {
    entries: Vec<Named>,
    keys: KeySet,
}

impl Model for Entries {
    ghost use Rattle.std.specs.Prelude.{◌≡◌, List, map};
    ghost use Rattle.x5_model.specs.Entries as model;
    ghost use Rattle.x5_model_tree.specs.Tree.{key_at};

    ghost Value = { List model.Named };

    ghost view = { λ e. e.entries.items };

    ghost invariant = { λ e. e.keys ≡ map key_at e.entries.items };
}

/// Puts an entry behind these, and its key behind theirs.
#[tactic(auto, using(crate::proofs::Growing::entry_keys_more))]
fn put_entry(entries: &mut Vec<Named>, keys: &mut KeySet, entry: Named) -> Result<(), NoMemory>
    requires keyed { keys.old ≡ map key_at entries.old.items }
    requires new { model.has_key keys.old (key_at entry) ≡ false }
    ensures more { OnOk result (entries.new.items ≡ entries.old.items ++ entry ∷ []) }
    ensures keyed { OnOk result (keys.new ≡ map key_at entries.new.items) }
{
    let key = entry.name.key().clone()?;
    keys.add(key)?;
    entries.push(entry)?;
    Ok(())
}

impl Entries {
    /// No entries yet, and room for so many.
    fn new(alloc: Global, count: usize) -> Result<Entries, NoMemory>
        ensures { IfOk result (λ e. e ≡ []) }
    {
        Ok(Entries {
            entries: Vec::with_capacity(alloc, count)?,
            keys: KeySet::new(alloc),
        })
    }

    /// Whether there are no entries yet.
    fn is_empty(&self) -> bool
        ensures { result ≡ is_empty_list self.now }
    {
        let entries = self.entries.as_slice();
        entries.is_empty()
    }

    /// Whether one of the entries has the name's key.
    pub(crate) fn has(&self, name: &Name) -> bool
        ensures { result ≡ model.has_key (map key_at self.now) (key_of name.now) }
    {
        self.keys.has(name.key())
    }

    /// The first entry that has the key.
    fn at(&self, key: &Key) -> Option<&Named>
        ensures { option_copied result ≡ find (λ e. same_key key.now (key_at e)) self.now }
    {
        match self.keys.place(key) {
            Some(place) => self.entries.as_slice().get(place),
            None => None,
        }
    }

    /// The entries with one more, whose key none of them has.
    fn with(self, entry: Named) -> Result<Entries, NoMemory>
        requires { model.has_key (map key_at self) (key_at entry) ≡ false }
        ensures { IfOk result (λ e. e ≡ self ++ entry ∷ []) }
    {
        let Entries {
            mut entries,
            mut keys,
        } = self;
        put_entry(&mut entries, &mut keys, entry)?;
        Ok(Entries { entries, keys })
    }

    /// The entries as a list. No memory.
    pub(crate) fn into_list(self) -> NamedList
        ensures { result ≡ self }
    {
        let Entries { entries, keys: _ } = self;
        NamedList::from_vec(entries)
    }
}

/// The name of an entry below its parent's, if its parent is one of these.
fn below_parent(alloc: Global, before: &Entries, own: Name) -> Result<Option<Name>, NoMemory>
    ensures { IfOk result (λ o. o ≡ model.below_parent before.now own) }
{
    let key = own.key();
    let above = key.first(alloc, key.len().saturating_sub(1))?;
    match before.at(&above) {
        Some(parent) => {
            let name = moved_below(alloc, &parent.name, own)?;
            Ok(Some(name))
        }
        None => Ok(None),
    }
}

/// The whole name of an entry that stands behind these in the context of the prefix, if it may stand there.
fn whole_name(
    alloc: Global,
    prefix: &Name,
    before: &Entries,
    own: Name,
) -> Result<Option<Name>, NoMemory>
    ensures { IfOk result (λ o. o ≡ model.whole_name prefix.now before.now own) }
{
    if !before.is_empty() {
        return below_parent(alloc, before, own);
    }
    if own.is_same(prefix) {
        let name = prefix.clone()?;
        return Ok(Some(name));
    }
    Ok(None)
}

/// The whole name of an entry that stands behind these, if it may stand there.
#[tactic(auto, using(crate::proofs::Owned::whole_key))]
fn whole_name_at(
    alloc: Global,
    place: &Place<'_>,
    prefix: &Name,
    before: &Entries,
    own: Name,
) -> Result<Name, LoadFault>
    requires { is_empty_list own ≡ false }
    ensures read { ReadsPart (λ n. n) result (parts.whole_name_at (path_of place.now) prefix.now before.now own) }
    ensures key { IfOk result (λ n. key_of n ≡ key_of own) }
{
    match whole_name(alloc, prefix, before, own)? {
        Some(name) => Ok(name),
        None => Err(Place::Member(place, "name").bad_shape(alloc)),
    }
}

/// The entry of the RDN that an object describes.
fn entry_at(alloc: Global, place: &Place<'_>, rdn: &Rdn, value: &Value) -> Result<Entry, LoadFault>
    ensures { ReadsPart (λ e. e) result (parts.entry_at (path_of place.now) rdn.now (view value.now)) }
{
    let texts = list_at(alloc, place, "attrs", value)?;
    let given = given_behind(alloc, &Place::Member(place, "attrs"), texts)?;
    match entry_given(alloc, rdn, given)? {
        Some(entry) => Ok(entry),
        None => Err(place.bad_shape(alloc)),
    }
}

/// An entry with its whole name, which stands behind these.
fn named_at(
    alloc: Global,
    place: &Place<'_>,
    prefix: &Name,
    before: &Entries,
    own: Name,
    value: &Value,
) -> Result<Named, LoadFault>
    requires { is_empty_list own ≡ false }
    ensures read { ReadsPart (λ e. e) result (parts.named_at (path_of place.now) prefix.now before.now own (view value.now)) }
    ensures key { IfOk result (λ e. key_at e ≡ key_of own) }
{
    let rdn = last_rdn(alloc, &own)?;
    let name = whole_name_at(alloc, place, prefix, before, own)?;
    let entry = entry_at(alloc, place, &rdn, value)?;
    Ok(Named { name, entry })
}

/// The entry that an object describes behind these, none of which has its key. What stands above it is known then.
#[tactic(auto, using(crate::proofs::ByParts::entry_by_parts))]
fn named_behind<'a>(
    alloc: Global,
    place: &Place<'_>,
    prefix: &Name,
    known: &mut KnownName<'a>,
    before: &Entries,
    value: &'a Value,
) -> Result<Named, LoadFault>
    ensures read { ReadsPart (λ e. before.now ++ e ∷ []) result (model.entry_behind (path_of place.now) prefix.now before.now (view value.now)) }
    ensures new { IfOk result (λ e. model.has_key (map key_at before.now) (key_at e) ≡ false) }
{
    let members = members_at(alloc, place, value)?;
    let own = entry_name_behind(alloc, place, "name", known, value)?;
    if before.has(&own) {
        drop(own);
        return Err(Place::Member(place, "name").bad_shape(alloc));
    }
    let named = named_at(alloc, place, prefix, before, own, value)?;
    only(alloc, place, &["name", "attrs"], members)?;
    Ok(named)
}

/// The entries with one more, which an object describes. What stands above it is known then.
fn entry_behind<'a>(
    alloc: Global,
    place: &Place<'_>,
    prefix: &Name,
    known: &mut KnownName<'a>,
    before: Entries,
    value: &'a Value,
) -> Result<Entries, LoadFault>
    ensures { ReadsPart (λ e. e) result (model.entry_behind (path_of place.now) prefix.now before (view value.now)) }
{
    match named_behind(alloc, place, prefix, known, &before, value) {
        Ok(named) => {
            let entries = before.with(named)?;
            Ok(entries)
        }
        Err(fault) => {
            drop(before);
            Err(fault)
        }
    }
}

/// The entries of the context of the prefix, which a list describes.
pub(crate) fn entries_behind(
    alloc: Global,
    place: &Place<'_>,
    prefix: &Name,
    items: &[Value],
) -> Result<Entries, LoadFault>
    ensures { ReadsPart (λ e. e) result (model.entries_behind (path_of place.now) 0 prefix.now [] (items_view items.now)) }
{
    let mut entries = Entries::new(alloc, items.len())?;
    let mut known = KnownName::root(alloc);
    for (i, item) in items.iter().enumerate() {
        let at = Place::Item(&*place, i);
        entries = entry_behind(alloc, &at, prefix, &mut known, entries, item)?;
    }
    Ok(entries)
}
