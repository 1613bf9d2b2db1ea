//! A message that is passed on by a reference (X.518, sections 10.3 and 19.3).

ghost use Rattle.std.specs.Prelude.{◌≡◌, ℕ, ◌<◌, true, false, List, [], ◌∷◌, ◌++◌, length, IfOk, Some};
ghost use Rattle.std.specs.List.{list_all};
ghost use Rattle.x5_model.specs.Words.{same_octets, distinct};
ghost use Rattle.x5_model_tree.specs.Described.{is_agent_name};
ghost use Rattle.x5_model_run.specs.Journal.{same_name};
ghost use Rattle.x5_model_run.specs.Needs.{target_of};
ghost use Rattle.x5_model_run.specs.Placed as placed;
ghost use Rattle.x5_model_run.specs.Chain as chain;
ghost use Rattle.x5_model_serve.specs.Serving.{hand, carried_for};
ghost use Rattle.x5_model_limits.specs.Messages.{BoundedReference};
ghost use Rattle.x5_ops.specs.RequestViews.{body_view, request_view, subset_view};
ghost use Rattle.x5_ops.specs.ReferenceViews.{chained_view, reference_view};
ghost use Rattle.x5_serve.specs.Sendable.{MayBeSent, MayBePassedOn};

use crate::replies::{copied_rdns, own_item};
use std::alloc::Global;
use x5_know::AgentNames;
use x5_match::copied;
use x5_memory::NoMemory;
use x5_names::Name;
use x5_ops::{
    AgentId, Body, Chained, Controls, Listed, Progress, Reference, Request, Selection, Subset,
    Trace, TraceItem,
};

/// Whether the name is what the operation is to be resolved at: its object or base, or the parent of an addEntry's object.
fn is_target(alloc: Global, body: &Body, name: &Name) -> Result<bool, NoMemory>
    ensures { IfOk result (λ same. same ≡ same_name (target_of (body_view body.now)) name.now) }
{
    match body {
        Body::Add { object, .. } => Ok(object.parent(alloc)?.is_same(name)),
        Body::Read { object, .. }
        | Body::Compare { object, .. }
        | Body::List { object }
        | Body::Remove { object }
        | Body::Modify { object, .. }
        | Body::ModifyDn { object, .. } => Ok(object.is_same(name)),
        Body::Search { base, .. } => Ok(base.is_same(name)),
    }
}

/// Whether it's a list or search. No memory.
fn is_query_below(body: &Body) -> bool
    ensures { result ≡ placed.is_query_below (body_view body.now) }
{
    match body {
        Body::List { .. } | Body::Search { .. } => true,
        Body::Read { .. }
        | Body::Compare { .. }
        | Body::Add { .. }
        | Body::Remove { .. }
        | Body::Modify { .. }
        | Body::ModifyDn { .. } => false,
    }
}

/// Whether the message fits its request: its target is the request's, and only a list or search comes with a completed name.
pub fn fits(alloc: Global, message: &Chained) -> Result<bool, NoMemory>
    ensures { IfOk result (λ fit. (names : List (List ℕ)) → fit ≡ placed.fits (chained_view names message.now)) }
{
    let going = !message.progress.is_same(Progress::Completed);
    Ok(
        is_target(alloc, &message.request.body, &message.target)?
            && (going || is_query_below(&message.request.body)),
    )
}

/// Whether what goes to this target is a probe of the update.
fn is_probe(alloc: Global, body: &Body, target: &Name) -> Result<bool, NoMemory>
    ensures { IfOk result (λ probe. probe ≡ chain.is_probe (body_view body.now) target.now) }
{
    Ok(body.is_update() && !is_target(alloc, body, target)?)
}

/// A probe's request: it reads the new name, without attributes and without copies (X.518, section 19.1).
fn probe_request(alloc: Global, name: &Name) -> Result<Request, NoMemory>
    ensures { IfOk result (λ request. request_view request ≡ chain.probe_request name.now) }
{
    Ok(Request {
        controls: Controls {
            nocopy: true,
            nochain: false,
            size: None,
        },
        body: Body::Read {
            object: name.clone()?,
            selection: Selection::Only(Listed::new(alloc)),
        },
    })
}

/// Whether the reference is to a pin, or to the parts below an entry. No memory.
fn asks_part(reference: &Reference) -> bool
    ensures { (names : List (List ℕ)) → result ≡ chain.asks_part (reference_view names reference.now) }
{
    reference.progress.is_same(Progress::Completed)
        && (reference.kind.number() == 2 || reference.kind.is_wide())
}

/// Where a part of a search looks. No memory.
fn part_subset(wide: bool, subset: Subset) -> Subset
    ensures { subset_view result ≡ chain.part_subset wide (subset_view subset) }
{
    match (wide, subset) {
        (false, Subset::One) => Subset::Base,
        _ => subset,
    }
}

/// What is asked of a part: its base is the reference's target.
fn part_body(alloc: Global, wide: bool, base: &Name, body: &Body) -> Result<Body, NoMemory>
    ensures { IfOk result (λ part. body_view part ≡ chain.part_body wide base.now (body_view body.now)) }
{
    match body {
        Body::List { .. } => Ok(Body::List {
            object: base.clone()?,
        }),
        Body::Search {
            subset,
            filter,
            selection,
            ..
        } => Ok(Body::Search {
            base: base.clone()?,
            subset: part_subset(wide, *subset),
            selection: selection.clone()?,
            filter: copied(alloc, filter)?,
        }),
        Body::Read { .. }
        | Body::Compare { .. }
        | Body::Add { .. }
        | Body::Remove { .. }
        | Body::Modify { .. }
        | Body::ModifyDn { .. } => Ok(body.copy(alloc)?),
    }
}

/// The request that goes with a reference.
fn request_for(alloc: Global, asked: &Request, reference: &Reference) -> Result<Request, NoMemory>
    ensures { IfOk result (λ request. (names : List (List ℕ)) → request_view request ≡ chain.request_for false (request_view asked.now) reference.now.target (reference_view names reference.now)) }
{
    if is_probe(alloc, &asked.body, &reference.target)? {
        return probe_request(alloc, &reference.target);
    }
    if !asks_part(reference) {
        return Ok(asked.copy(alloc)?);
    }
    let wide = reference.kind.is_wide();
    Ok(Request {
        controls: Controls {
            nocopy: asked.controls.nocopy,
            nochain: false,
            size: None,
        },
        body: part_body(alloc, wide, &reference.target, &asked.body)?,
    })
}

/// The trace with one more item.
fn longer(trace: &Trace, item: TraceItem) -> Result<Trace, NoMemory>
    ensures { IfOk result (λ more. more ≡ trace.now ++ item ∷ []) }
{
    let mut more = trace.clone()?;
    more.push(item)?;
    Ok(more)
}

/// What is carried by a reference for a message that its owner received, where an agent sends it (X.518, section 10.3). It may be
/// sent as the owner's message might be, which needs to be no loop, and to have room in its trace.
pub fn passed_on(
    alloc: Global,
    names: &AgentNames,
    owner: AgentId,
    message: &Chained,
    reference: &Reference,
) -> Result<Chained, NoMemory>
    requires there { owner < length names.now }
    requires apart { distinct same_octets names.now ≡ true }
    requires plain { list_all is_agent_name names.now ≡ true }
    requires sent { MayBeSent names.now message.now }
    requires passable { MayBePassedOn (hand owner (chained_view names.now message.now)) }
    requires bounded { BoundedReference (reference_view names.now reference.now) }
    ensures sent { IfOk result (λ onward. MayBeSent names.now onward) }
    ensures carried { IfOk result (λ onward. (from : ℕ) → chained_view names.now onward ≡ carried_for (Some from) (hand owner (chained_view names.now message.now)) (reference_view names.now reference.now)) }
{
    let item = own_item(names, owner, message)?;
    Ok(Chained {
        progress: reference.progress,
        kind: reference.kind,
        trace: longer(&message.trace, item)?,
        exclusions: copied_rdns(&reference.exclusions)?,
        target: reference.target.clone()?,
        request: request_for(alloc, &message.request, reference)?,
    })
}
