//! What references for an NSSR leave out: pins just below its entry that the agent answers itself or asks for by subordinate
//! references (X.518, section 19.3).

ghost use Rattle.std.specs.Prelude.{◌≡◌, ◌++◌, [], map, IfOk, OnOk};
ghost use Rattle.std.specs.List.{filter, flat_map};
ghost use Rattle.std.specs.List.Sorted.{ties};
ghost use Rattle.x5_model.specs.Values.{Rdn, key_of, last_rdn};
ghost use Rattle.x5_model.specs.Words.{last_of, some_and, sorted};
ghost use Rattle.x5_model_run.specs.Journal.{same_spelled_rdn};
ghost use Rattle.x5_model_run.specs.Needs.{once, rdn_below};
ghost use Rattle.x5_ops.specs.KnowledgeViews.{specific_view};
ghost use Rattle.x5_ops.specs.RequestViews.{request_view};
ghost use Rattle.x5_holdings.specs.State.{copy_view, held_view, holdings_view};
ghost use Rattle.x5_eval.specs.Numbers.{counts};
ghost use Rattle.x5_eval.specs.Rest.{at_place, copy_last, last_in, other_last, others_last, own_last, pin_last, treated_pins};

use std::alloc::Global;
use x5_dse::compare_rdns;
use x5_holdings::{Copied, Held, Holdings};
use x5_memory::NoMemory;
use x5_names::{Name, Rdn};
use x5_ops::{Request, Specific};

/// Adds the last RDN of the name; the root has none.
fn add_last(name: &Name, rdns: &mut Vec<Rdn>) -> Result<(), NoMemory>
    ensures { OnOk result (rdns.new.items ≡ rdns.old.items ++ last_in name.now) }
{
    if let Some(last) = name.last() {
        rdns.push(last.clone()?)?;
    }
    Ok(())
}

/// Adds that of the context at the place.
fn add_own(state: &Holdings, place: usize, rdns: &mut Vec<Rdn>) -> Result<(), NoMemory>
    ensures { OnOk result (rdns.new.items ≡ rdns.old.items ++ at_place own_last (map held_view state.now.own) place) }
{
    match state.own().get(place) {
        Some(held) => add_last(held.prefix(), rdns),
        None => Ok(()),
    }
}

/// Whether the request may be answered from the copy: its context isn't mastered. No memory.
fn is_counted(state: &Holdings, request: &Request, copied: &Copied) -> bool
    ensures { result ≡ counts (request_view request.now) (holdings_view state.now) (copy_view copied.now) }
{
    copied.usable(request).is_some() && state.own_at(copied.prefix().rdns()).is_none()
}

/// Adds that of the copy at the place, where the request may be answered from it.
fn add_copy(
    state: &Holdings,
    request: &Request,
    place: usize,
    rdns: &mut Vec<Rdn>,
) -> Result<(), NoMemory>
    ensures { OnOk result (rdns.new.items ≡ rdns.old.items ++ at_place (copy_last (request_view request.now) (holdings_view state.now)) (map copy_view state.now.copies) place) }
{
    let Some(copied) = state.copies().get(place) else {
        return Ok(());
    };
    if !is_counted(state, request, copied) {
        return Ok(());
    }
    add_last(copied.prefix(), rdns)
}

/// Adds that of the reference at the place.
fn add_pin(references: &[Specific], place: usize, rdns: &mut Vec<Rdn>) -> Result<(), NoMemory>
    ensures { OnOk result (rdns.new.items ≡ rdns.old.items ++ at_place pin_last (map specific_view references.now) place) }
{
    match references.get(place) {
        Some(reference) => add_last(&reference.pin, rdns),
        None => Ok(()),
    }
}

/// Adds those of the contexts that it masters at the places.
fn add_owns(state: &Holdings, places: &[usize], rdns: &mut Vec<Rdn>) -> Result<(), NoMemory>
    ensures { OnOk result (rdns.new.items ≡ rdns.old.items ++ flat_map (at_place own_last (map held_view state.now.own)) places.now) }
{
    for &place in places {
        add_own(state, place, rdns)?;
    }
    Ok(())
}

/// Adds those of the copies at the places from which the request may be answered.
fn add_copies(
    state: &Holdings,
    request: &Request,
    places: &[usize],
    rdns: &mut Vec<Rdn>,
) -> Result<(), NoMemory>
    ensures { OnOk result (rdns.new.items ≡ rdns.old.items ++ flat_map (at_place (copy_last (request_view request.now) (holdings_view state.now)) (map copy_view state.now.copies)) places.now) }
{
    for &place in places {
        add_copy(state, request, place, rdns)?;
    }
    Ok(())
}

/// Adds those of the references at the places.
fn add_pins(references: &[Specific], places: &[usize], rdns: &mut Vec<Rdn>) -> Result<(), NoMemory>
    ensures { OnOk result (rdns.new.items ≡ rdns.old.items ++ flat_map (at_place pin_last (map specific_view references.now)) places.now) }
{
    for &place in places {
        add_pin(references, place, rdns)?;
    }
    Ok(())
}

/// Whether both have the same key. No memory.
pub(crate) fn is_same(a: &Rdn, b: &Rdn) -> bool
    ensures { result ≡ same_spelled_rdn a.now b.now }
{
    compare_rdns(a.pairs(), b.pairs()).is_eq()
}

/// These in the order of their keys; those of one key stay in their order.
fn in_order(rdns: Vec<Rdn>) -> Result<Vec<Rdn>, NoMemory>
    ensures { IfOk result (λ all. all.items ≡ sorted rdn_below rdns.items) }
{
    let mut rdns = rdns;
    rdns.sort_by(|a, b| compare_rdns(a.pairs(), b.pairs()))?;
    Ok(rdns)
}

/// Whether the last of these is the same. No memory.
fn is_last(kept: &[Rdn], rdn: &Rdn) -> bool
    ensures { result ≡ some_and (λ x. same_spelled_rdn x rdn.now) (last_of kept.now) }
{
    match kept.last() {
        Some(last) => is_same(last, rdn),
        None => false,
    }
}

/// Adds the RDN, if it isn't the same as the last.
fn add_other(kept: &mut Vec<Rdn>, rdn: &Rdn) -> Result<(), NoMemory>
    ensures { OnOk result (kept.new.items ≡ kept.old.items ++ other_last kept.old.items rdn.now) }
{
    if !is_last(kept, rdn) {
        kept.push(rdn.clone()?)?;
    }
    Ok(())
}

/// Of RDNs in their order those that aren't the same as the one before.
fn each_once(alloc: Global, rdns: &[Rdn]) -> Result<Vec<Rdn>, NoMemory>
    ensures { IfOk result (λ kept. kept.items ≡ others_last [] rdns.now) }
{
    let mut kept = Vec::new(alloc);
    for rdn in rdns {
        add_other(&mut kept, rdn)?;
    }
    Ok(kept)
}

/// The last RDNs of the pins just below the name that the agent answers itself, or asks for by one of these references to pins in
/// that context; in no order, and some more than once.
fn treated(
    alloc: Global,
    state: &Holdings,
    request: &Request,
    held: &Held,
    at: &Name,
) -> Result<Vec<Rdn>, NoMemory>
    ensures { IfOk result (λ rdns. (q : Rdn) → filter (ties rdn_below q) rdns.items ≡ filter (ties rdn_below q) (map last_rdn (treated_pins (request_view request.now) (holdings_view state.now) (map specific_view held.now.subordinate) (key_of at.now)))) }
{
    let name = at.rdns();
    let depth = name.len() + 1;
    let mut rdns = Vec::new(alloc);
    let own = state.own_at_depth(alloc, name, depth)?;
    add_owns(state, &own, &mut rdns)?;
    drop(own);
    let copies = state.copies_at_depth(alloc, name, depth)?;
    add_copies(state, request, &copies, &mut rdns)?;
    drop(copies);
    let pins = held.subordinate_at_depth(alloc, name, depth)?;
    add_pins(held.subordinate(), &pins, &mut rdns)?;
    Ok(rdns)
}

/// What a reference for an NSSR at the entry of the name leaves out: pins just below it that the agent answers itself, or asks for by a
/// subordinate reference of the context.
pub(crate) fn exclusions(
    alloc: Global,
    state: &Holdings,
    request: &Request,
    held: &Held,
    at: &Name,
) -> Result<Vec<Rdn>, NoMemory>
    ensures { IfOk result (λ rdns. rdns.items ≡ sorted rdn_below (once (map last_rdn (treated_pins (request_view request.now) (holdings_view state.now) (map specific_view held.now.subordinate) (key_of at.now))))) }
{
    let rdns = in_order(treated(alloc, state, request, held, at)?)?;
    each_once(alloc, &rdns)
}
