//! Condition 7: each agent of an NSSR stands there once, isn't the context's master, and masters a pin just below the NSSR's entry.

ghost use Rattle.std.specs.Prelude.{◌≡◌, ◌≤◌, length, map, option_copied};
ghost use Rattle.std.specs.List.{flat_map};
ghost use Rattle.x5_model_tree.specs.Tree as tree;
ghost use Rattle.x5_model_tree.specs.Consistent.{breaches_7, name_of_nssr, false_members};
ghost use Rattle.x5_ops.specs.KnowledgeViews.{nssr_view};
ghost use Rattle.x5_check.specs.Views.{Tells};
ghost use Rattle.x5_check.specs.Parts.{member_part};

use crate::contexts::Held;
use crate::false_shadow::is_among;
use crate::inconsistency::{Inconsistency, Shown};
use crate::known::Known;
use x5_memory::NoMemory;
use x5_names::{Key, Name};
use x5_ops::{AgentId, Named, Nssr};

/// The entry of this key. No memory.
fn entry_at<'a>(entries: &'a [Named], key: &Key) -> Option<&'a Named>
    ensures { option_copied result ≡ tree.entry_at entries.now key.now }
{
    entries.iter().find(|entry| entry.name.key() == key)
}

/// The name of the NSSR's entry as the context has it. No memory.
fn name_of<'a>(context: &'a Held<'_>, nssr: &'a Nssr) -> &'a Name
    ensures { result.now ≡ name_of_nssr context.now.context (nssr_view nssr.now) }
{
    match entry_at(context.entries(), nssr.at.key()) {
        Some(entry) => &entry.name,
        None => &nssr.at,
    }
}

/// What is told of the agent at the place.
fn false_member_at(
    known: &Known<'_, '_, '_>,
    context: &Held<'_>,
    nssr: &Nssr,
    agents: &[AgentId],
    place: usize,
    agent: AgentId,
) -> Result<Option<Inconsistency>, NoMemory>
    requires { place ≤ length agents.now }
    ensures { Tells result (member_part known.now context.now (nssr_view nssr.now) agents.now place agent) }
{
    if !is_among(&agents[..place], agent)
        && agent != context.master()
        && known.masters_below(agent, nssr.at.key())
    {
        return Ok(None);
    }
    Ok(Some(Inconsistency {
        condition: 7,
        first: Shown::Name(name_of(context, nssr).clone()?),
        second: Shown::Agent(agent),
    }))
}

/// What is told of the NSSR.
fn false_members_of(
    known: &Known<'_, '_, '_>,
    context: &Held<'_>,
    nssr: &Nssr,
) -> Result<Option<Inconsistency>, NoMemory>
    ensures { Tells result (false_members known.now context.now (nssr_view nssr.now)) }
{
    let agents = nssr.agents.as_slice();
    for (place, agent) in agents.iter().enumerate() {
        let told = false_member_at(known, context, nssr, agents, place, *agent)?;
        if told.is_some() {
            return Ok(told);
        }
    }
    Ok(None)
}

/// What is told of the context.
fn false_members_in(
    known: &Known<'_, '_, '_>,
    context: &Held<'_>,
) -> Result<Option<Inconsistency>, NoMemory>
    ensures { Tells result (flat_map (false_members known.now context.now) context.now.context.nssrs) }
{
    let nssrs = context.nssrs();
    for nssr in nssrs {
        let told = false_members_of(known, context, nssr)?;
        if told.is_some() {
            return Ok(told);
        }
    }
    Ok(None)
}

/// The first context with a false NSSR, its first one, and the first of that one's agents that stood there before, is the context's
/// master or masters nothing just below: the entry's name as the context has it, and that agent.
pub(crate) fn false_member(known: &Known<'_, '_, '_>) -> Result<Option<Inconsistency>, NoMemory>
    ensures { Tells result (breaches_7 known.now) }
{
    let held = known.held();
    for context in held {
        let told = false_members_in(known, context)?;
        if told.is_some() {
            return Ok(told);
        }
    }
    Ok(None)
}
