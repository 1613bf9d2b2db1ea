//! The probe that is due before an update gives an entry a new name (X.518, section 19.1).

ghost use Rattle.std.specs.Prelude.{◌≡◌, ◌+◌, ◌<◌, ◌≤◌, ℕ, true, List, length, map, IfOk};
ghost use Rattle.x5_model.specs.References.{NonSpecific};
ghost use Rattle.x5_model.specs.Words.{distinct, same_octets};
ghost use Rattle.x5_model_heard.specs.Told.{name_agents};
ghost use Rattle.x5_model_run.specs.Needs as needs;
ghost use Rattle.x5_ops.specs.ReferenceViews.{access_view, reference_view};
ghost use Rattle.x5_ops.specs.RequestViews.{body_view, name_of};
ghost use Rattle.x5_holdings.specs.State.{held_view, holdings_view};
ghost use Rattle.x5_update.specs.Judging.{probes_from, probes_of};

use crate::values::{copied_name, last_of, new_name};
use std::alloc::Global;
use x5_access::others;
use x5_holdings::{Held, Holdings};
use x5_know::AgentNames;
use x5_memory::NoMemory;
use x5_names::Name;
use x5_ops::{AccessList, Body, Listed, Progress, RefType, Reference};

/// The new name that an update gives an entry; none where it gives none.
fn new_name_of(alloc: Global, body: &Body) -> Result<Option<Name>, NoMemory>
    ensures { IfOk result (λ name. name ≡ needs.new_name (body_view body.now)) }
{
    match body {
        Body::Add { object, .. } => Ok(Some(copied_name(object)?)),
        Body::ModifyDn { object, rdn, .. } => {
            let name = new_name(alloc, object, rdn)?;
            if name.is_same(object) {
                Ok(None)
            } else {
                Ok(Some(name))
            }
        }
        _ => Ok(None),
    }
}

/// The reference to these agents for the name, of which all but the last RDN is spelled as the entry above is.
fn probe_to(
    alloc: Global,
    name: &Name,
    above: &Name,
    agents: AccessList,
) -> Result<Reference, NoMemory>
    requires short { length name.now ≤ 16 }
    requires named { 0 < length name.now }
    requires long { length above.now + 1 ≡ length name.now }
    ensures { IfOk result (λ r. (names : List (List ℕ)) → reference_view names r ≡ needs.proceeding (length name.now) above.now name.now NonSpecific (map (access_view names) agents)) }
{
    let rdn = last_of(alloc, name)?;
    Ok(Reference {
        target: above.below(alloc, &rdn)?,
        progress: Progress::Proceeding(name.len() as u8),
        kind: RefType::NonSpecific,
        agents,
        exclusions: Listed::new(alloc),
        tried: false,
    })
}

/// The reference to the other agents of the NSSR just above the name, if there are some.
fn probe_at(
    alloc: Global,
    names: &AgentNames,
    state: &Holdings,
    held: &Held,
    name: &Name,
) -> Result<Option<Reference>, NoMemory>
    requires there { name_agents (length names.now) (needs.probe_of (holdings_view state.now) name.now (held_view held.now)) ≡ true }
    requires apart { distinct same_octets names.now ≡ true }
    requires short { length name.now ≤ 16 }
    requires named { 0 < length name.now }
    ensures { IfOk result (λ probe. probes_of names.now probe ≡ needs.probe_of (holdings_view state.now) name.now (held_view held.now)) }
{
    let above = name.parent(alloc)?;
    let tree = held.tree();
    let Some(node) = tree.find(&above) else {
        drop(above);
        return Ok(None);
    };
    let Some(nssr) = held.nssr_at(above.rdns()) else {
        drop(above);
        return Ok(None);
    };
    drop(above);
    let agents = others(alloc, names, state.me(), nssr.agents.as_slice())?;
    if agents.len() == 0 {
        drop(agents);
        return Ok(None);
    }
    let _ = tree.entry(node);
    let kept = tree.name(alloc, node)?;
    Ok(Some(probe_to(alloc, name, &kept, agents)?))
}

/// The reference of the probe that is due before the update, which the master's ground passes.
pub(crate) fn probe(
    alloc: Global,
    names: &AgentNames,
    state: &Holdings,
    held: &Held,
    body: &Body,
) -> Result<Option<Reference>, NoMemory>
    requires there { name_agents (length names.now) (probes_from (holdings_view state.now) (held_view held.now) (needs.new_name (body_view body.now))) ≡ true }
    requires apart { distinct same_octets names.now ≡ true }
    requires short { length (name_of (body_view body.now)) ≤ 16 }
    requires named { 0 < length (name_of (body_view body.now)) }
    ensures { IfOk result (λ probe. probes_of names.now probe ≡ probes_from (holdings_view state.now) (held_view held.now) (needs.new_name (body_view body.now))) }
{
    match new_name_of(alloc, body)? {
        None => Ok(None),
        Some(name) => probe_at(alloc, names, state, held, &name),
    }
}
