//! How much of a world's limits its file uses so far.

ghost use Rattle.std.specs.Prelude.{◌≡◌, ◌≤◌, IfOk};
ghost use Rattle.serde_json.specs.View.{items_view};
ghost use Rattle.x5_model_world.specs.AgentText as agents;
ghost use Rattle.x5_model_world.specs.ContextText as contexts;
ghost use Rattle.x5_model_world.specs.WorldFile.{none_yet};
ghost use Rattle.x5_world_members.specs.Paths.{path_of};
ghost use Rattle.x5_world_members.specs.Views.{ReadsPart};

use crate::fault::LoadFault;
use crate::place::Place;
use serde_json::Value;
use std::alloc::Global;
use std::marker::Model;

/// Contexts of a world at most.
const MOST_CONTEXTS: usize = 4096;

/// Entries of a world at most.
const MOST_ENTRIES: usize = 100_000;

/// Agents of all non-specific references of a world at most, each as often as it stands in one.
const MOST_NSSR_AGENTS: usize = 4096;

/// The contexts, the entries and the agents of non-specific references so far, none of which passes its limit.
#[derive(Clone, Copy)]
pub struct Counts {
    pub(crate) contexts: usize,
    pub(crate) entries: usize,
    pub(crate) nssr_agents: usize,
}

impl Model for Counts {
    ghost use Rattle.std.specs.Prelude.{◌≤◌};
    ghost use Rattle.x5_model_world.specs.ContextText as model;

    ghost Value = { model.Counts };

    ghost view = { λ c. record { contexts = c.contexts; entries = c.entries; nssr_agents = c.nssr_agents } };

    ghost inverse = { λ m. record { contexts = m.contexts; entries = m.entries; nssr_agents = m.nssr_agents } };

    ghost invariant = { λ c. (c.contexts ≤ 4096) × (c.entries ≤ 100_000) × (c.nssr_agents ≤ 4096) };
}

impl Counts {
    /// Nothing yet. No memory.
    pub fn none() -> Counts
        ensures { result ≡ none_yet }
    {
        Counts {
            contexts: 0,
            entries: 0,
            nssr_agents: 0,
        }
    }

    /// How many contexts there are so far, 4096 at most. No memory.
    pub fn contexts(&self) -> usize
        ensures same { result ≡ self.now.contexts }
        ensures most { result ≤ 4096 }
    {
        self.contexts
    }

    /// How many entries there are so far, 100,000 at most. No memory.
    pub fn entries(&self) -> usize
        ensures same { result ≡ self.now.entries }
        ensures most { result ≤ 100_000 }
    {
        self.entries
    }

    /// How many agents of non-specific references there are so far, 4096 at most. No memory.
    pub fn nssr_agents(&self) -> usize
        ensures same { result ≡ self.now.nssr_agents }
        ensures most { result ≤ 4096 }
    {
        self.nssr_agents
    }

    /// The same with so many contexts. No memory.
    pub fn with_contexts(&self, contexts: usize) -> Counts
        requires { contexts ≤ 4096 }
        ensures { result ≡ agents.with_contexts self.now contexts }
    {
        Counts {
            contexts,
            entries: self.entries,
            nssr_agents: self.nssr_agents,
        }
    }
}

/// The contexts with those of a list of an agent, if they aren't too many.
#[tactic(auto, using(crate::proofs::Items::counted))]
pub fn with_these(
    alloc: Global,
    place: &Place<'_>,
    used: usize,
    items: &[Value],
) -> Result<usize, LoadFault>
    requires { used ≤ 4096 }
    ensures read { ReadsPart (λ n. n) result (agents.with_these (path_of place.now) used (items_view items.now)) }
    ensures most { IfOk result (λ n. n ≤ 4096) }
{
    let used = used + items.len();
    if used > MOST_CONTEXTS {
        return Err(Place::Member(place, "contexts").over_limit(alloc, MOST_CONTEXTS as u32));
    }
    Ok(used)
}

/// The entries with those of a list of a context, if they aren't too many.
#[tactic(auto, using(crate::proofs::Items::counted))]
pub(crate) fn with_entries(
    alloc: Global,
    place: &Place<'_>,
    used: usize,
    items: &[Value],
) -> Result<usize, LoadFault>
    requires { used ≤ 100_000 }
    ensures read { ReadsPart (λ n. n) result (contexts.with_entries (path_of place.now) used (items_view items.now)) }
    ensures most { IfOk result (λ n. n ≤ 100_000) }
{
    let used = used + items.len();
    if used > MOST_ENTRIES {
        return Err(Place::Member(place, "entries").over_limit(alloc, MOST_ENTRIES as u32));
    }
    Ok(used)
}

/// The agents of non-specific references with those of a list, if they aren't too many.
#[tactic(auto, using(crate::proofs::Items::counted))]
pub(crate) fn counted(
    alloc: Global,
    place: &Place<'_>,
    listed: usize,
    texts: &[Value],
) -> Result<usize, LoadFault>
    requires { listed ≤ 4096 }
    ensures read { ReadsPart (λ n. n) result (contexts.counted (path_of place.now) listed (items_view texts.now)) }
    ensures most { IfOk result (λ n. n ≤ 4096) }
{
    let listed = listed + texts.len();
    if listed > MOST_NSSR_AGENTS {
        return Err(Place::Member(place, "agents").over_limit(alloc, MOST_NSSR_AGENTS as u32));
    }
    Ok(listed)
}
