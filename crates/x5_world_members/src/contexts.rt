//! The naming contexts of an agent.

ghost use Rattle.std.specs.Prelude.{◌≡◌, ◌≤◌, [], ◌∷◌, ◌++◌, map, IfOk};
ghost use Rattle.serde_json.specs.View.{view, items_view, members_view};
ghost use Rattle.x5_model_world.specs.ContextText as model;
ghost use Rattle.x5_ops.specs.KnowledgeViews.{context_view};
ghost use Rattle.x5_world_members.specs.Parts as parts;
ghost use Rattle.x5_world_members.specs.Paths.{path_of};
ghost use Rattle.x5_world_members.specs.Views.{ReadsPart};

use crate::counts::{Counts, with_entries};
use crate::entries::{Entries, entries_behind};
use crate::fault::LoadFault;
use crate::json::{list_if_any, members_at, only, some_at};
use crate::names::entry_name_at;
use crate::nssrs::{Nssrs, nssrs_behind};
use crate::place::Place;
use serde_json::{Map, Value};
use std::alloc::Global;
use std::marker::Model;
use x5_know::AgentNames;
use x5_memory::NoMemory;
use x5_names::Name;
use x5_ops::{ContextSpec, ContextSpecList};

/// Contexts of an agent so far, and what the file uses of the limits so far. The references of a context aren't told to which
/// context they belong: that is left the root.
#[derive(Drop)]
pub struct Contexts {
    pub(crate) contexts: Vec<ContextSpec>,
    pub(crate) counts: Counts,
}

impl Model for Contexts {
    ghost use Rattle.std.specs.Prelude.{map};
    ghost use Rattle.x5_model_world.specs.ContextText as model;
    ghost use Rattle.x5_ops.specs.KnowledgeViews.{context_view};

    ghost Value = { model.Contexts };

    ghost view = { λ c. record { contexts = map context_view c.contexts.items; counts = c.counts } };
}

impl Contexts {
    /// No contexts yet, where the file uses so much. No memory.
    pub fn new(alloc: Global, counts: Counts) -> Contexts
        ensures { result ≡ record { contexts = []; counts = counts } }
    {
        Contexts {
            contexts: Vec::new(alloc),
            counts,
        }
    }

    /// What the file uses so far. No memory.
    pub fn counts(&self) -> Counts
        ensures { result ≡ self.now.counts }
    {
        self.counts
    }

    /// The contexts with one more, where the file has so many entries and agents of non-specific references with its own.
    fn with(
        self,
        context: ContextSpec,
        entries: usize,
        nssr_agents: usize,
    ) -> Result<Contexts, NoMemory>
        requires entries { entries ≤ 100_000 }
        requires agents { nssr_agents ≤ 4096 }
        ensures { IfOk result (λ c. c ≡ record { contexts = self.contexts ++ context_view context ∷ []; counts = record { contexts = self.counts.contexts; entries = entries; nssr_agents = nssr_agents } }) }
    {
        let Contexts {
            mut contexts,
            counts,
        } = self;
        contexts.push(context)?;
        let counts = Counts {
            contexts: counts.contexts,
            entries,
            nssr_agents,
        };
        Ok(Contexts { contexts, counts })
    }

    /// The contexts as a list. No memory.
    pub fn into_list(self) -> ContextSpecList
        ensures { map context_view result ≡ self.contexts }
    {
        let Contexts {
            contexts,
            counts: _,
        } = self;
        ContextSpecList::from_vec(contexts)
    }
}

/// The non-specific references that an object lists, where so many agents are listed before.
fn nssrs_at(
    alloc: Global,
    names: &AgentNames,
    place: &Place<'_>,
    entries: &Entries,
    listed: usize,
    value: &Value,
) -> Result<Nssrs, LoadFault>
    requires { listed ≤ 4096 }
    ensures { ReadsPart (λ n. n) result (parts.nssrs_at names.now (path_of place.now) listed entries.now (view value.now)) }
{
    let list = list_if_any(alloc, place, "nssr", value)?;
    let none = Nssrs::new(alloc, listed);
    let here = Place::Member(place, "nssr");
    nssrs_behind(alloc, names, &here, entries, none, list)
}

/// The non-specific references of a context that stands behind these, whose prefix and entries are read, where the file has so many
/// entries with these.
#[tactic(auto, using(crate::proofs::ByParts::context_by_parts))]
fn nssrs_beside(
    alloc: Global,
    names: &AgentNames,
    place: &Place<'_>,
    before: &Contexts,
    prefix: &Name,
    entries: &Entries,
    used: usize,
    members: &Map<String, Value>,
    value: &Value,
) -> Result<Nssrs, LoadFault>
    requires { used ≤ 100_000 }
    ensures { ReadsPart (λ n. model.with_context before.now prefix.now entries.now n used) result (parts.with_entries_read names.now (path_of place.now) before.now prefix.now entries.now used (members_view members.now.entries) (view value.now)) }
{
    let _ = prefix;
    let _ = used;
    let nssr_agents = before.counts().nssr_agents();
    let found = nssrs_at(alloc, names, place, entries, nssr_agents, value)?;
    only(alloc, place, &["prefix", "entries", "nssr"], members)?;
    Ok(found)
}

/// The entries and non-specific references of a context of the prefix that stands behind these, and how many entries the file has
/// with these.
fn both_behind(
    alloc: Global,
    names: &AgentNames,
    place: &Place<'_>,
    before: &Contexts,
    prefix: &Name,
    members: &Map<String, Value>,
    value: &Value,
) -> Result<(Entries, Nssrs, usize), LoadFault>
    ensures read { ReadsPart (λ r. model.with_context before.now prefix.now r.0 r.1 r.2) result (parts.with_prefix_read names.now (path_of place.now) before.now prefix.now (members_view members.now.entries) (view value.now)) }
    ensures most { IfOk result (λ r. r.2 ≤ 100_000) }
{
    let items = some_at(alloc, place, "entries", value)?;
    let used = with_entries(alloc, place, before.counts().entries(), items)?;
    let entries = entries_behind(alloc, &Place::Member(place, "entries"), prefix, items)?;
    match nssrs_beside(
        alloc, names, place, before, prefix, &entries, used, members, value,
    ) {
        Ok(found) => Ok((entries, found, used)),
        Err(fault) => {
            drop(entries);
            Err(fault)
        }
    }
}

/// The contexts with one more, which an object describes.
fn context_behind(
    alloc: Global,
    names: &AgentNames,
    place: &Place<'_>,
    before: Contexts,
    value: &Value,
) -> Result<Contexts, LoadFault>
    ensures { ReadsPart (λ c. c) result (model.context_behind names.now (path_of place.now) before (view value.now)) }
{
    let members = members_at(alloc, place, value)?;
    let prefix = entry_name_at(alloc, place, "prefix", value)?;
    match both_behind(alloc, names, place, &before, &prefix, members, value) {
        Ok((entries, found, used)) => {
            let listed = found.listed();
            let spec = ContextSpec {
                prefix,
                entries: entries.into_list(),
                nssr: found.into_list(),
            };
            let contexts = before.with(spec, used, listed)?;
            Ok(contexts)
        }
        Err(fault) => {
            drop(prefix);
            drop(before);
            Err(fault)
        }
    }
}

/// The contexts with all that a list describes.
pub fn contexts_behind(
    alloc: Global,
    names: &AgentNames,
    place: &Place<'_>,
    before: Contexts,
    items: &[Value],
) -> Result<Contexts, LoadFault>
    ensures { ReadsPart (λ c. c) result (model.contexts_behind names.now (path_of place.now) 0 before (items_view items.now)) }
{
    let mut contexts = before;
    for (i, item) in items.iter().enumerate() {
        contexts = context_behind(alloc, names, &Place::Item(&*place, i), contexts, item)?;
    }
    Ok(contexts)
}
