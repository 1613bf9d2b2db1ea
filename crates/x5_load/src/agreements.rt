//! The shadowing agreements of a world file, and how many entries there are with all copies.

ghost use Rattle.std.specs.Prelude.{◌≡◌, ◌==◌, ◌≤◌, [], map, nat_le};
ghost use Rattle.std.specs.List.{list_any, find, flat_map};
ghost use Rattle.std.specs.Option.{option_copied};
ghost use Rattle.serde_json.specs.View.{view, items_view};
ghost use Rattle.x5_know.specs.WorldView.{described_agent_view};
ghost use Rattle.x5_model.specs.Keys.{same_key};
ghost use Rattle.x5_model.specs.Values.{key_of};
ghost use Rattle.x5_model_world.specs.WorldFile as model;
ghost use Rattle.x5_world_members.specs.Paths.{path_of};
ghost use Rattle.x5_world_members.specs.Views.{ReadsPart};

use serde_json::Value;
use std::alloc::Global;
use x5_know::{AgentNames, Agreement, DescribedAgent};
use x5_names::Name;
use x5_ops::ContextSpec;
use x5_world_members::{
    LoadFault, Place, agent_of, entry_name_at, members_at, number_at, only, text_at,
};

/// Entries of a world with those of all copies at most.
const MOST_WITH_COPIES: usize = 400_000;

/// Whether one of the agreements has the number.
fn has_number(before: &[Agreement], number: u32) -> bool
    ensures { result ≡ list_any (λ g. g.number == number) before.now }
{
    before.iter().any(|agreement| agreement.id == number)
}

/// The agreement that an object behind these describes.
fn agreement_in(
    alloc: Global,
    names: &AgentNames,
    place: &Place<'_>,
    before: &[Agreement],
    value: &Value,
) -> Result<Agreement, LoadFault>
    ensures { ReadsPart (λ g. g) result (model.agreement_in names.now (path_of place.now) before.now (view value.now)) }
{
    let members = members_at(alloc, place, value)?;
    let id = number_at(alloc, place, "id", value)?;
    if has_number(before, id) {
        return Err(Place::Member(place, "id").bad_shape(alloc));
    }
    let supplier = text_at(alloc, place, "supplier", value)?;
    let consumer = text_at(alloc, place, "consumer", value)?;
    let context = entry_name_at(alloc, place, "context", value)?;
    let listed = &["id", "supplier", "consumer", "context"];
    match only(alloc, place, listed, members) {
        Ok(()) => Ok(Agreement {
            id,
            supplier: agent_of(names, supplier),
            consumer: agent_of(names, consumer),
            context,
        }),
        Err(fault) => {
            drop(context);
            Err(fault)
        }
    }
}

/// The agreements that a list describes.
pub(crate) fn agreements_behind(
    alloc: Global,
    names: &AgentNames,
    place: &Place<'_>,
    items: &[Value],
) -> Result<Vec<Agreement>, LoadFault>
    ensures { ReadsPart (λ v. v.items) result (model.agreements_behind names.now (path_of place.now) 0 [] (items_view items.now)) }
{
    let mut agreements = Vec::new(alloc);
    for (i, item) in items.iter().enumerate() {
        let one = agreement_in(alloc, names, &Place::Item(&*place, i), &agreements, item)?;
        agreements.push(one)?;
    }
    Ok(agreements)
}

/// The first of the contexts that has the name's key.
fn of_prefix<'a>(contexts: &'a [ContextSpec], name: &Name) -> Option<&'a ContextSpec>
    ensures { option_copied result ≡ find (λ c. same_key (key_of c.prefix) (key_of name.now)) contexts.now }
{
    contexts.iter().find(|context| context.prefix.is_same(name))
}

/// The first context of all agents that has the name's key.
fn first_of_prefix<'a>(agents: &'a [DescribedAgent], name: &Name) -> Option<&'a ContextSpec>
    ensures { option_copied result ≡ find (λ c. same_key (key_of c.prefix) (key_of name.now)) (flat_map (λ a. a.spec.contexts) agents.now) }
{
    for agent in agents {
        if let Some(context) = of_prefix(agent.spec.contexts.as_slice(), name) {
            return Some(context);
        }
    }
    None
}

/// How many entries the first context has that has the name's key.
fn copied(agents: &[DescribedAgent], name: &Name) -> usize
    ensures { result ≡ model.entries_there (find (λ c. same_key (key_of c.prefix) (key_of name.now)) (flat_map (λ a. a.contexts) (map described_agent_view agents.now))) }
{
    match first_of_prefix(agents, name) {
        Some(context) => context.entries.len(),
        None => 0,
    }
}

/// How many entries an agreement copies.
fn copies(agents: &[DescribedAgent], agreement: &Agreement) -> usize
    ensures { result ≡ model.copies (flat_map (λ a. a.contexts) (map described_agent_view agents.now)) agreement.now }
{
    copied(agents, &agreement.context)
}

/// Whether there are no more entries than a world may have, with those of all copies.
pub(crate) fn copies_fit(
    agents: &[DescribedAgent],
    entries: usize,
    agreements: &[Agreement],
) -> bool
    requires { entries ≤ 400_000 }
    ensures { result ≡ nat_le (model.with_copies (flat_map (λ a. a.contexts) (map described_agent_view agents.now)) entries agreements.now) 400_000 }
{
    let mut total = entries;
    for agreement in agreements {
        let count = copies(agents, agreement);
        if count > MOST_WITH_COPIES - total {
            return false;
        }
        total += count;
    }
    true
}
