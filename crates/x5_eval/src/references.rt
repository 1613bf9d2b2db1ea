//! The references that an agent asks for the rest of a list or search, in the order in which they are asked (X.518, section 19.3).

ghost use Rattle.std.specs.Prelude.{◌≡◌, ◌<◌, ◌++◌, ◌∷◌, ◌&&◌, [], ℕ, List, Some, true, length, map, IfOk, OnOk};
ghost use Rattle.std.specs.List.{flat_map};
ghost use Rattle.std.specs.Option.{is_none, is_some, option_map};
ghost use Rattle.x5_model.specs.Words.{distinct, same_octets, sorted};
ghost use Rattle.x5_model.specs.Values.{key_of};
ghost use Rattle.x5_model.specs.References as model;
ghost use Rattle.x5_model_tree.specs.Ask.{in_subset};
ghost use Rattle.x5_model_tree.specs.Tree.{entry_at};
ghost use Rattle.x5_model_run.specs.Holdings.{held_at, known_pin, served, usable_agents};
ghost use Rattle.x5_model_run.specs.Needs as needs;
ghost use Rattle.x5_model_run.specs.Needs.{below_needs, wide_needs};
ghost use Rattle.x5_model_serve.specs.Answering.{rest_of_parts, taken_before};
ghost use Rattle.x5_model_serve.specs.Walking as walking;
ghost use Rattle.x5_ops.specs.KnowledgeViews.{nssr_view, specific_view};
ghost use Rattle.x5_model_run.specs.Journal.{is_wide};
ghost use Rattle.x5_ops.specs.ReferenceViews.{chained_view, kind_view, reference_view};
ghost use Rattle.x5_ops.specs.RequestViews.{request_view, subset_view};
ghost use Rattle.x5_dse.specs.Linked.{entries_of};
ghost use Rattle.x5_holdings.specs.State.{held_view, holdings_view};
ghost use Rattle.x5_model_heard.specs.Told.{are_agents};
ghost use Rattle.x5_eval.specs.Rest.{AreAlike, AreKnown, at_place, context_needs, depth_in, entry_needs, nssr_needs, pin_needs, places_to, root_needs, taken_cmp, unnamed, wide_by, wide_to};

use crate::exclusions::exclusions;
use crate::numbers::places;
use crate::subsets::{is_in_scope, is_in_subset};
use std::alloc::Global;
use std::cmp::Ordering;
use x5_access::{one, usable};
use x5_holdings::{Held, Holdings};
use x5_know::AgentNames;
use x5_memory::NoMemory;
use x5_names::{Name, Rdn};
use x5_ops::{
    AgentId, Chained, Listed, Nssr, Progress, RefType, Reference, ReferenceList, Request, Specific,
    Subset,
};

/// Whether the request may be answered from a context with this prefix, mastered or a copy. No memory.
fn is_served(state: &Holdings, request: &Request, pin: &Name) -> bool
    ensures { result ≡ is_some (held_at (served (request_view request.now) (holdings_view state.now)) (key_of pin.now)) }
{
    if state.own_at(pin.rdns()).is_some() {
        return true;
    }
    match state.copy_at(pin.rdns()) {
        Some(place) => state.copies()[place].usable(request).is_some(),
        None => false,
    }
}

/// Whether the pin of the reference is in the subset, and isn't answered here. No memory.
fn is_due(state: &Holdings, message: &Chained, subset: Subset, reference: &Specific) -> bool
    ensures { result ≡ (in_subset (subset_view subset) (key_of message.now.target) (key_of reference.now.pin) && is_none (held_at (served (request_view message.now.request) (holdings_view state.now)) (key_of reference.now.pin))) }
{
    is_in_subset(subset, message.target.key(), reference.pin.key())
        && !is_served(state, &message.request, &reference.pin)
}

/// The reference to the pin, for those who answer what is at and below it.
fn to_pin(
    alloc: Global,
    names: &AgentNames,
    request: &Request,
    reference: &Specific,
) -> Result<Reference, NoMemory>
    requires known { are_agents (length names.now) (usable_agents (request_view request.now) reference.now.access) ≡ true }
    requires apart { distinct same_octets names.now ≡ true }
    ensures { IfOk result (λ r. reference_view names.now r ≡ needs.reference reference.now.pin model.Done model.Subordinate (usable_agents (request_view request.now) reference.now.access)) }
{
    Ok(Reference {
        progress: Progress::Completed,
        kind: RefType::Subordinate,
        agents: usable(alloc, names, request, &reference.access)?,
        exclusions: Listed::new(alloc),
        tried: false,
        target: reference.pin.clone()?,
    })
}

/// Adds what is asked for by the subordinate reference.
fn add_reference(
    alloc: Global,
    names: &AgentNames,
    state: &Holdings,
    message: &Chained,
    subset: Subset,
    reference: &Specific,
    found: &mut ReferenceList,
) -> Result<(), NoMemory>
    requires apart { distinct same_octets names.now ≡ true }
    requires known { AreKnown (length names.now) (pin_needs (holdings_view state.now) (chained_view names.now message.now) (subset_view subset) (specific_view reference.now)) }
    ensures { OnOk result (map (reference_view names.now) found.new ≡ map (reference_view names.now) found.old ++ pin_needs (holdings_view state.now) (chained_view names.now message.now) (subset_view subset) (specific_view reference.now)) }
{
    if is_due(state, message, subset, reference) {
        found.push(to_pin(alloc, names, &message.request, reference)?)?;
    }
    Ok(())
}

/// Adds what is asked for by the reference at the place.
fn add_at(
    alloc: Global,
    names: &AgentNames,
    state: &Holdings,
    message: &Chained,
    subset: Subset,
    references: &[Specific],
    place: usize,
    found: &mut ReferenceList,
) -> Result<(), NoMemory>
    requires apart { distinct same_octets names.now ≡ true }
    requires known { AreKnown (length names.now) (at_place (pin_needs (holdings_view state.now) (chained_view names.now message.now) (subset_view subset)) (map specific_view references.now) place) }
    ensures { OnOk result (map (reference_view names.now) found.new ≡ map (reference_view names.now) found.old ++ at_place (pin_needs (holdings_view state.now) (chained_view names.now message.now) (subset_view subset)) (map specific_view references.now) place) }
{
    match references.get(place) {
        Some(reference) => add_reference(alloc, names, state, message, subset, reference, found),
        None => Ok(()),
    }
}

/// Adds what is asked for by the references at the places.
fn add_all(
    alloc: Global,
    names: &AgentNames,
    state: &Holdings,
    message: &Chained,
    subset: Subset,
    references: &[Specific],
    places: &[usize],
    found: &mut ReferenceList,
) -> Result<(), NoMemory>
    requires apart { distinct same_octets names.now ≡ true }
    requires known { AreKnown (length names.now) (flat_map (at_place (pin_needs (holdings_view state.now) (chained_view names.now message.now) (subset_view subset)) (map specific_view references.now)) places.now) }
    ensures { OnOk result (map (reference_view names.now) found.new ≡ map (reference_view names.now) found.old ++ flat_map (at_place (pin_needs (holdings_view state.now) (chained_view names.now message.now) (subset_view subset)) (map specific_view references.now)) places.now) }
{
    for &place in places {
        add_at(
            alloc, names, state, message, subset, references, place, found,
        )?;
    }
    Ok(())
}

/// The places of the context's subordinate references to pins that may be in the subset.
fn pins_below(
    alloc: Global,
    held: &Held,
    base: &Name,
    subset: Subset,
) -> Result<Vec<usize>, NoMemory>
    ensures { IfOk result (λ places. places.items ≡ places_to (map (λ k. key_of k.pin) held.now.subordinate) (key_of base.now) (depth_in (subset_view subset) (length base.now))) }
{
    match subset {
        Subset::Base => held.subordinate_at_depth(alloc, base.rdns(), base.len()),
        Subset::One => held.subordinate_at_depth(alloc, base.rdns(), base.len() + 1),
        Subset::Tree => places(alloc, held.subordinate_under(base.rdns())),
    }
}

/// Adds what is asked for by the context's subordinate references.
fn add_below(
    alloc: Global,
    names: &AgentNames,
    state: &Holdings,
    message: &Chained,
    subset: Subset,
    held: &Held,
    found: &mut ReferenceList,
) -> Result<(), NoMemory>
    requires apart { distinct same_octets names.now ≡ true }
    requires known { AreKnown (length names.now) (below_needs (holdings_view state.now) (chained_view names.now message.now) (subset_view subset) (map specific_view held.now.subordinate)) }
    ensures { OnOk result (AreAlike (map (reference_view names.now) found.new) (map (reference_view names.now) found.old ++ below_needs (holdings_view state.now) (chained_view names.now message.now) (subset_view subset) (map specific_view held.now.subordinate))) }
{
    let places = pins_below(alloc, held, &message.target, subset)?;
    let references = held.subordinate();
    add_all(
        alloc, names, state, message, subset, references, &places, found,
    )
}

/// Whether the name is still to be resolved, and the agent holds what it takes for that. No memory.
fn resolves(state: &Holdings, message: &Chained) -> bool
    ensures { (names : List (List ℕ)) → result ≡ needs.resolves (holdings_view state.now) (chained_view names message.now) }
{
    match message.progress {
        Progress::NotStarted => true,
        Progress::Proceeding(k) => state.holds_within(message.target.rdns(), k as usize),
        Progress::Completed => false,
    }
}

/// Whether nothing is known on the way to the target. No memory.
fn is_unknown(state: &Holdings, message: &Chained) -> bool
    ensures { result ≡ is_none (known_pin (request_view message.now.request) (holdings_view state.now) (key_of message.now.target)) }
{
    state
        .known(&message.request, message.target.rdns())
        .is_none()
}

/// Whether the base is the root, and the agent answers it itself. No memory.
fn answers_root(state: &Holdings, message: &Chained) -> bool
    ensures { (names : List (List ℕ)) → is_some (needs.subset_of (chained_view names message.now)) ≡ true → result ≡ needs.answers_root (holdings_view state.now) (chained_view names message.now) }
{
    if state.superior().is_some() || !message.target.is_root() {
        return false;
    }
    if !resolves(state, message) {
        return false;
    }
    is_unknown(state, message)
}

/// Adds what is asked for by the subordinate references of the root, where the agent answers that.
fn add_root(
    alloc: Global,
    names: &AgentNames,
    state: &Holdings,
    message: &Chained,
    subset: Subset,
    found: &mut ReferenceList,
) -> Result<(), NoMemory>
    requires apart { distinct same_octets names.now ≡ true }
    requires subset { (names : List (List ℕ)) → Some (subset_view subset) ≡ needs.subset_of (chained_view names message.now) }
    requires known { AreKnown (length names.now) (root_needs (holdings_view state.now) (chained_view names.now message.now) (subset_view subset)) }
    ensures { OnOk result (AreAlike (map (reference_view names.now) found.new) (map (reference_view names.now) found.old ++ root_needs (holdings_view state.now) (chained_view names.now message.now) (subset_view subset))) }
{
    if !answers_root(state, message) {
        return Ok(());
    }
    let places = places(alloc, state.root_under(message.target.rdns()))?;
    add_all(
        alloc,
        names,
        state,
        message,
        subset,
        state.root(),
        &places,
        found,
    )
}

/// The reference to the agent for what it masters below the entry, but for the exclusions.
fn to_agent(
    alloc: Global,
    names: &AgentNames,
    name: &Name,
    exclusions: &[Rdn],
    agent: AgentId,
) -> Result<Reference, NoMemory>
    requires there { agent < length names.now }
    requires apart { distinct same_octets names.now ≡ true }
    ensures { IfOk result (λ r. reference_view names.now r ≡ wide_to name.now exclusions.now agent) }
{
    Ok(Reference {
        progress: Progress::Completed,
        kind: RefType::NonSpecific,
        agents: one(alloc, names, agent)?,
        exclusions: Listed::from_vec(Vec::from_clones(alloc, exclusions)?),
        tried: false,
        target: name.clone()?,
    })
}

/// Adds a reference to the agent, if it's another one than `me`.
fn add_agent(
    alloc: Global,
    names: &AgentNames,
    me: AgentId,
    name: &Name,
    exclusions: &[Rdn],
    agent: AgentId,
    found: &mut ReferenceList,
) -> Result<(), NoMemory>
    requires apart { distinct same_octets names.now ≡ true }
    requires known { AreKnown (length names.now) (wide_by name.now exclusions.now me (agent ∷ [])) }
    ensures { OnOk result (map (reference_view names.now) found.new ≡ map (reference_view names.now) found.old ++ wide_by name.now exclusions.now me (agent ∷ [])) }
{
    if agent.0 != me.0 {
        found.push(to_agent(alloc, names, name, exclusions, agent)?)?;
    }
    Ok(())
}

/// Adds a reference to each of the agents by itself but `me`.
fn add_agents(
    alloc: Global,
    names: &AgentNames,
    me: AgentId,
    name: &Name,
    exclusions: &[Rdn],
    agents: &[AgentId],
    found: &mut ReferenceList,
) -> Result<(), NoMemory>
    requires apart { distinct same_octets names.now ≡ true }
    requires known { AreKnown (length names.now) (flat_map (λ a. wide_by name.now exclusions.now me (a ∷ [])) agents.now) }
    ensures { OnOk result (map (reference_view names.now) found.new ≡ map (reference_view names.now) found.old ++ flat_map (λ a. wide_by name.now exclusions.now me (a ∷ [])) agents.now) }
{
    for &agent in agents {
        add_agent(alloc, names, me, name, exclusions, agent, found)?;
    }
    Ok(())
}

/// The name of the entry with this name's key, as it's spelled there, if the context has it.
fn entry_name(alloc: Global, held: &Held, at: &Name) -> Result<Option<Name>, NoMemory>
    ensures { IfOk result (λ found. found ≡ option_map (λ e. e.name) (entry_at (entries_of held.now.nodes.nodes) (key_of at.now))) }
{
    let tree = held.tree();
    let Some(node) = tree.find(at) else {
        return Ok(None);
    };
    let _ = tree.entry(node);
    Ok(Some(tree.name(alloc, node)?))
}

/// Adds what is asked of the agents of an NSSR at the entry, if that is in scope.
fn add_entry(
    alloc: Global,
    names: &AgentNames,
    state: &Holdings,
    message: &Chained,
    subset: Subset,
    held: &Held,
    agents: &[AgentId],
    name: &Name,
    found: &mut ReferenceList,
) -> Result<(), NoMemory>
    requires apart { distinct same_octets names.now ≡ true }
    requires known { AreKnown (length names.now) (entry_needs (holdings_view state.now) (chained_view names.now message.now) (subset_view subset) (held_view held.now) agents.now name.now) }
    ensures { OnOk result (map (reference_view names.now) found.new ≡ map (reference_view names.now) found.old ++ entry_needs (holdings_view state.now) (chained_view names.now message.now) (subset_view subset) (held_view held.now) agents.now name.now) }
{
    if !is_in_scope(subset, &message.target, name) {
        return Ok(());
    }
    let left_out = exclusions(alloc, state, &message.request, held, name)?;
    add_agents(alloc, names, state.me(), name, &left_out, agents, found)
}

/// Adds what is asked for by the NSSR, if its entry is in the context and in scope.
fn add_nssr(
    alloc: Global,
    names: &AgentNames,
    state: &Holdings,
    message: &Chained,
    subset: Subset,
    held: &Held,
    nssr: &Nssr,
    found: &mut ReferenceList,
) -> Result<(), NoMemory>
    requires apart { distinct same_octets names.now ≡ true }
    requires known { AreKnown (length names.now) (nssr_needs (holdings_view state.now) (chained_view names.now message.now) (subset_view subset) (held_view held.now) (nssr_view nssr.now)) }
    ensures { OnOk result (map (reference_view names.now) found.new ≡ map (reference_view names.now) found.old ++ nssr_needs (holdings_view state.now) (chained_view names.now message.now) (subset_view subset) (held_view held.now) (nssr_view nssr.now)) }
{
    let agents = nssr.agents.as_slice();
    match entry_name(alloc, held, &nssr.at)? {
        Some(name) => add_entry(
            alloc, names, state, message, subset, held, agents, &name, found,
        ),
        None => Ok(()),
    }
}

/// Adds what is asked for by the context's NSSR at the place.
fn add_nssr_at(
    alloc: Global,
    names: &AgentNames,
    state: &Holdings,
    message: &Chained,
    subset: Subset,
    held: &Held,
    place: usize,
    found: &mut ReferenceList,
) -> Result<(), NoMemory>
    requires apart { distinct same_octets names.now ≡ true }
    requires known { AreKnown (length names.now) (at_place (nssr_needs (holdings_view state.now) (chained_view names.now message.now) (subset_view subset) (held_view held.now)) (map nssr_view held.now.nssrs) place) }
    ensures { OnOk result (map (reference_view names.now) found.new ≡ map (reference_view names.now) found.old ++ at_place (nssr_needs (holdings_view state.now) (chained_view names.now message.now) (subset_view subset) (held_view held.now)) (map nssr_view held.now.nssrs) place) }
{
    match held.nssrs().get(place) {
        Some(nssr) => add_nssr(alloc, names, state, message, subset, held, nssr, found),
        None => Ok(()),
    }
}

/// Adds what is asked for by those at the places.
fn add_nssrs(
    alloc: Global,
    names: &AgentNames,
    state: &Holdings,
    message: &Chained,
    subset: Subset,
    held: &Held,
    places: &[usize],
    found: &mut ReferenceList,
) -> Result<(), NoMemory>
    requires apart { distinct same_octets names.now ≡ true }
    requires known { AreKnown (length names.now) (flat_map (at_place (nssr_needs (holdings_view state.now) (chained_view names.now message.now) (subset_view subset) (held_view held.now)) (map nssr_view held.now.nssrs)) places.now) }
    ensures { OnOk result (map (reference_view names.now) found.new ≡ map (reference_view names.now) found.old ++ flat_map (at_place (nssr_needs (holdings_view state.now) (chained_view names.now message.now) (subset_view subset) (held_view held.now)) (map nssr_view held.now.nssrs)) places.now) }
{
    for &place in places {
        add_nssr_at(alloc, names, state, message, subset, held, place, found)?;
    }
    Ok(())
}

/// Adds what is asked for by the context's NSSRs.
fn add_wide(
    alloc: Global,
    names: &AgentNames,
    state: &Holdings,
    message: &Chained,
    subset: Subset,
    held: &Held,
    found: &mut ReferenceList,
) -> Result<(), NoMemory>
    requires apart { distinct same_octets names.now ≡ true }
    requires known { AreKnown (length names.now) (wide_needs (holdings_view state.now) (chained_view names.now message.now) (subset_view subset) (held_view held.now)) }
    ensures { OnOk result (AreAlike (map (reference_view names.now) found.new) (map (reference_view names.now) found.old ++ wide_needs (holdings_view state.now) (chained_view names.now message.now) (subset_view subset) (held_view held.now))) }
{
    let places = places(alloc, held.nssrs_under(message.target.rdns()))?;
    add_nssrs(alloc, names, state, message, subset, held, &places, found)
}

/// Adds what is asked for the rest below the context.
fn add_context(
    alloc: Global,
    names: &AgentNames,
    state: &Holdings,
    message: &Chained,
    subset: Subset,
    held: &Held,
    found: &mut ReferenceList,
) -> Result<(), NoMemory>
    requires apart { distinct same_octets names.now ≡ true }
    requires known { AreKnown (length names.now) (context_needs (holdings_view state.now) (chained_view names.now message.now) (subset_view subset) (held_view held.now)) }
    ensures { OnOk result (AreAlike (map (reference_view names.now) found.new) (map (reference_view names.now) found.old ++ context_needs (holdings_view state.now) (chained_view names.now message.now) (subset_view subset) (held_view held.now))) }
{
    add_below(alloc, names, state, message, subset, held, found)?;
    add_wide(alloc, names, state, message, subset, held, found)
}

/// Adds what is asked for the rest below these contexts.
fn add_contexts(
    alloc: Global,
    names: &AgentNames,
    state: &Holdings,
    message: &Chained,
    subset: Subset,
    contexts: &[&Held],
    found: &mut ReferenceList,
) -> Result<(), NoMemory>
    requires apart { distinct same_octets names.now ≡ true }
    requires known { AreKnown (length names.now) (flat_map (context_needs (holdings_view state.now) (chained_view names.now message.now) (subset_view subset)) (map (λ c. held_view c.now) contexts.now)) }
    ensures { OnOk result (AreAlike (map (reference_view names.now) found.new) (map (reference_view names.now) found.old ++ flat_map (context_needs (holdings_view state.now) (chained_view names.now message.now) (subset_view subset)) (map (λ c. held_view c.now) contexts.now))) }
{
    for &held in contexts {
        add_context(alloc, names, state, message, subset, held, found)?;
    }
    Ok(())
}

/// Which of two is asked first: by their targets; at one target a specific one comes first. No memory.
fn compare(a: &Reference, b: &Reference) -> Ordering
    ensures { result ≡ taken_cmp (key_of a.now.target) (key_of b.now.target) (is_wide (kind_view a.now.kind)) (is_wide (kind_view b.now.kind)) }
{
    a.target
        .cmp_key(&b.target)
        .then(a.kind.is_wide().cmp(&b.kind.is_wide()))
}

/// These in the order in which they are asked; those of which none comes first stay in their order.
fn in_order(references: ReferenceList) -> Result<ReferenceList, NoMemory>
    ensures { IfOk result (λ all. (names : List (List ℕ)) → map (reference_view names) all ≡ sorted taken_before (map (reference_view names) references)) }
{
    let mut all = references.into_vec();
    all.sort_by(|a, b| compare(a, b))?;
    Ok(Listed::from_vec(all))
}

/// The references that the agent asks for the rest of the list or search, in that order. `contexts` are those that its walk left, in the
/// order in which it left them.
pub(crate) fn rest(
    alloc: Global,
    names: &AgentNames,
    state: &Holdings,
    message: &Chained,
    subset: Subset,
    contexts: &[&Held],
) -> Result<ReferenceList, NoMemory>
    requires apart { distinct same_octets names.now ≡ true }
    requires subset { (names : List (List ℕ)) → Some (subset_view subset) ≡ needs.subset_of (chained_view names message.now) }
    requires contexts { map (λ c. unnamed (held_view c.now)) contexts.now ≡ map unnamed (walking.left (holdings_view state.now) (chained_view names.now message.now)) }
    requires known { AreKnown (length names.now) (rest_of_parts (holdings_view state.now) (chained_view names.now message.now)) }
    ensures { IfOk result (λ references. map (reference_view names.now) references ≡ rest_of_parts (holdings_view state.now) (chained_view names.now message.now)) }
{
    let mut found = Listed::new(alloc);
    add_root(alloc, names, state, message, subset, &mut found)?;
    add_contexts(alloc, names, state, message, subset, contexts, &mut found)?;
    in_order(found)
}
