//! Agents and names as references carry them (X.518, section 10.9).

ghost use Rattle.std.specs.Prelude.{◌≡◌, ◌<◌, ◌-◌, ◌++◌, ◌∷◌, [], true, List, ℕ, length, map, take, drop, IfOk, OnOk};
ghost use Rattle.x5_model.specs.Words.{same_octets, distinct};
ghost use Rattle.x5_model_heard.specs.Told.{are_agents};
ghost use Rattle.x5_model_run.specs.Holdings.{may_copy, usable_agents};
ghost use Rattle.x5_model_run.specs.Needs as needs;
ghost use Rattle.x5_find.specs.Finds as finds;
ghost use Rattle.x5_ops.specs.ReferenceViews.{access_view, kind_view, progress_view, reference_view};
ghost use Rattle.x5_ops.specs.RequestViews.{request_view};

use std::alloc::Global;
use x5_access::{one, usable};
use x5_find::Via;
use x5_know::AgentNames;
use x5_memory::NoMemory;
use x5_names::{Name, Rdn};
use x5_ops::{
    Access, AccessList, AccessPoint, AgentId, AgentList, Listed, Progress, RefType, Reference,
    Request,
};

/// Who can be asked for what the request needs.
pub(crate) fn asked(
    alloc: Global,
    names: &AgentNames,
    request: &Request,
    via: Via<'_>,
) -> Result<AccessList, NoMemory>
    requires there { are_agents (length names.now) (finds.agents_via (request_view request.now) via) ≡ true }
    requires apart { distinct same_octets names.now ≡ true }
    ensures { IfOk result (λ points. map (access_view names.now) points ≡ finds.agents_via (request_view request.now) via.entry) }
{
    match via {
        Via::One(agent) => one(alloc, names, agent),
        Via::Access(access) => usable(alloc, names, request, access),
    }
}

/// The RDNs of both, one behind the other.
fn joined(alloc: Global, front: &[Rdn], back: &[Rdn]) -> Result<Vec<Rdn>, NoMemory>
    ensures { IfOk result (λ rdns. rdns.items ≡ front.now ++ back.now) }
{
    let mut rdns = Vec::from_clones(alloc, front)?;
    rdns.extend_from_slice(back)?;
    Ok(rdns)
}

/// The name, with its first `count` RDNs as the agent spells them.
fn respelled(alloc: Global, known: &Name, count: usize, name: &Name) -> Result<Name, NoMemory>
    ensures { IfOk result (λ spelled. spelled ≡ take count known.now ++ drop count name.now) }
{
    let front = &known.rdns()[..count.min(known.len())];
    let back = &name.rdns()[count.min(name.len())..];
    Name::new(alloc, joined(alloc, front, back)?)
}

/// The target of a reference by which the name goes on: what is resolved of it is spelled as the agent keeps it.
fn target_by(
    alloc: Global,
    progress: Progress,
    known: Option<&Name>,
    name: &Name,
) -> Result<Name, NoMemory>
    ensures { IfOk result (λ target. target ≡ finds.target_by (progress_view progress) known.entry name.now) }
{
    match (progress, known) {
        (Progress::Proceeding(next), Some(kept)) => {
            respelled(alloc, kept, (next as usize).saturating_sub(1), name)
        }
        _ => Ok(name.clone()?),
    }
}

/// The reference by which the name goes on at these agents.
pub(crate) fn reference(
    alloc: Global,
    name: &Name,
    kind: RefType,
    progress: Progress,
    known: Option<&Name>,
    agents: AccessList,
) -> Result<Reference, NoMemory>
    ensures { IfOk result (λ reference. (names : List (List ℕ)) → reference_view names reference ≡ needs.reference (finds.target_by (progress_view progress) known.entry name.now) (progress_view progress) (kind_view kind) (map (access_view names) agents)) }
{
    Ok(Reference {
        target: target_by(alloc, progress, known, name)?,
        progress,
        kind,
        agents,
        exclusions: Listed::new(alloc),
        tried: false,
    })
}
