//! Non-specific references of a context (X.501: NSSR), each at an entry of it.

ghost use Rattle.std.specs.Prelude.{◌≡◌, ◌≤◌, ◌++◌, ◌∷◌, [], map, false, IfOk, OnOk};
ghost use Rattle.serde_json.specs.View.{view, items_view, members_view};
ghost use Rattle.x5_model.specs.Values.{key_of};
ghost use Rattle.x5_model_world.specs.ContextText as model;
ghost use Rattle.x5_ops.specs.KnowledgeViews.{nssr_view};
ghost use Rattle.x5_world_members.specs.Parts as parts;
ghost use Rattle.x5_world_members.specs.Paths.{path_of};
ghost use Rattle.x5_world_members.specs.Views.{ReadsPart};

use crate::counts::counted;
use crate::entries::Entries;
use crate::fault::LoadFault;
use crate::json::{members_at, only, some_at};
use crate::key_set::KeySet;
use crate::mentions::agents_behind;
use crate::names::name_at;
use crate::place::Place;
use serde_json::{Map, Value};
use std::alloc::Global;
use std::marker::Model;
use x5_know::AgentNames;
use x5_memory::NoMemory;
use x5_names::Name;
use x5_ops::{AgentList, Nssr, NssrList};

/// The non-specific references of a context so far, no two at one entry, and how many agents are listed in all that the file has so
/// far.
#[derive(Drop)]
pub(crate) struct Nssrs {
    nssrs: Vec<Nssr>,
    keys: KeySet,
    listed: usize,
}

impl Model for Nssrs {
    ghost use Rattle.std.specs.Prelude.{◌≡◌, ◌≤◌, map};
    ghost use Rattle.x5_model_world.specs.ContextText as model;
    ghost use Rattle.x5_ops.specs.KnowledgeViews.{nssr_view};

    ghost Value = { model.Nssrs };

    ghost view = { λ n. record { nssrs = map nssr_view n.nssrs.items; listed = n.listed } };

    ghost invariant = { λ n. (n.listed ≤ 4096) × (n.keys ≡ model.nssr_keys (map nssr_view n.nssrs.items)) };
}

/// Puts a reference behind these, and its key behind theirs.
#[tactic(auto, using(crate::proofs::Growing::nssr_more, crate::proofs::Growing::nssr_keys_more))]
fn put_nssr(nssrs: &mut Vec<Nssr>, keys: &mut KeySet, nssr: Nssr) -> Result<(), NoMemory>
    requires keyed { keys.old ≡ model.nssr_keys (map nssr_view nssrs.old.items) }
    requires new { model.has_key keys.old (key_of nssr.at) ≡ false }
    ensures more { OnOk result (map nssr_view nssrs.new.items ≡ map nssr_view nssrs.old.items ++ nssr_view nssr ∷ []) }
    ensures keyed { OnOk result (keys.new ≡ model.nssr_keys (map nssr_view nssrs.new.items)) }
{
    let key = nssr.at.key().clone()?;
    keys.add(key)?;
    nssrs.push(nssr)?;
    Ok(())
}

impl Nssrs {
    /// No references yet of a context, where so many agents are listed before. No memory.
    pub(crate) fn new(alloc: Global, listed: usize) -> Nssrs
        requires { listed ≤ 4096 }
        ensures { result ≡ record { nssrs = []; listed = listed } }
    {
        Nssrs {
            nssrs: Vec::new(alloc),
            keys: KeySet::new(alloc),
            listed,
        }
    }

    /// How many agents are listed, 4096 at most. No memory.
    pub(crate) fn listed(&self) -> usize
        ensures same { result ≡ self.now.listed }
        ensures most { result ≤ 4096 }
    {
        self.listed
    }

    /// Whether one of the references stands at the name. No memory.
    fn has(&self, name: &Name) -> bool
        ensures { result ≡ model.has_key (model.nssr_keys self.now.nssrs) (key_of name.now) }
    {
        self.keys.has(name.key())
    }

    /// The references with one more, at whose name none stands, where so many agents are listed with its own.
    fn with(self, nssr: Nssr, listed: usize) -> Result<Nssrs, NoMemory>
        requires new { model.has_key (model.nssr_keys self.nssrs) (key_of nssr.at) ≡ false }
        requires most { listed ≤ 4096 }
        ensures { IfOk result (λ n. n ≡ record { nssrs = self.nssrs ++ nssr_view nssr ∷ []; listed = listed }) }
    {
        let Nssrs {
            mut nssrs,
            mut keys,
            listed: _,
        } = self;
        put_nssr(&mut nssrs, &mut keys, nssr)?;
        Ok(Nssrs {
            nssrs,
            keys,
            listed,
        })
    }

    /// The references as a list. No memory.
    pub(crate) fn into_list(self) -> NssrList
        ensures { map nssr_view result ≡ self.nssrs }
    {
        let Nssrs {
            nssrs,
            keys: _,
            listed: _,
        } = self;
        NssrList::from_vec(nssrs)
    }
}

/// Whether a reference may stand at the name: an entry has it, and no reference stands there.
fn is_place(entries: &Entries, before: &Nssrs, name: &Name) -> bool
    ensures { result ≡ model.is_place entries.now before.now.nssrs (key_of name.now) }
{
    entries.has(name) && !before.has(name)
}

/// The agents of a reference that stands behind these at the name, which an object describes, and how many are listed with them.
fn agents_at(
    alloc: Global,
    names: &AgentNames,
    place: &Place<'_>,
    before: &Nssrs,
    at: &Name,
    members: &Map<String, Value>,
    value: &Value,
) -> Result<(AgentList, usize), LoadFault>
    ensures read { ReadsPart (λ r. parts.with_nssr before.now at.now r.0 r.1) result (parts.with_agents names.now (path_of place.now) before.now at.now (members_view members.now.entries) (view value.now)) }
    ensures most { IfOk result (λ r. r.1 ≤ 4096) }
{
    let _ = at;
    let texts = some_at(alloc, place, "agents", value)?;
    let listed = counted(alloc, place, before.listed(), texts)?;
    let agents = agents_behind(alloc, names, &Place::Member(place, "agents"), texts)?;
    only(alloc, place, &["at", "agents"], members)?;
    Ok((agents, listed))
}

/// The references with one more, which an object describes.
fn nssr_behind(
    alloc: Global,
    names: &AgentNames,
    place: &Place<'_>,
    entries: &Entries,
    before: Nssrs,
    value: &Value,
) -> Result<Nssrs, LoadFault>
    ensures { ReadsPart (λ n. n) result (model.nssr_behind names.now (path_of place.now) entries.now before (view value.now)) }
{
    let members = members_at(alloc, place, value)?;
    let at = name_at(alloc, place, "at", value)?;
    if !is_place(entries, &before, &at) {
        drop(at);
        drop(before);
        return Err(Place::Member(place, "at").bad_shape(alloc));
    }
    match agents_at(alloc, names, place, &before, &at, members, value) {
        Ok((agents, listed)) => {
            let context = Name::root(alloc);
            let nssrs = before.with(
                Nssr {
                    context,
                    at,
                    agents,
                },
                listed,
            )?;
            Ok(nssrs)
        }
        Err(fault) => {
            drop(at);
            drop(before);
            Err(fault)
        }
    }
}

/// The references with all that a list describes.
pub(crate) fn nssrs_behind(
    alloc: Global,
    names: &AgentNames,
    place: &Place<'_>,
    entries: &Entries,
    before: Nssrs,
    items: &[Value],
) -> Result<Nssrs, LoadFault>
    ensures { ReadsPart (λ n. n) result (model.nssrs_behind names.now (path_of place.now) 0 entries.now before (items_view items.now)) }
{
    let mut nssrs = before;
    for (i, item) in items.iter().enumerate() {
        nssrs = nssr_behind(alloc, names, &Place::Item(&*place, i), entries, nssrs, item)?;
    }
    Ok(nssrs)
}
