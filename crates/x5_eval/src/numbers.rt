//! The contexts that a request may be answered from, by numbers: those that the agent masters by their places, its copies behind
//! them (X.518, section 19.3). They are found by their prefixes' keys.

ghost use Rattle.std.specs.Prelude.{◌≡◌, ◌<◌, ◌+◌, ◌⊎◌, ℕ, length, map, true, IfOk};
ghost use Rattle.std.specs.Option.{option_map};
ghost use Rattle.std.specs.List.{filter};
ghost use Rattle.x5_model.specs.Keys.{Key, IsPrefix, key_cmp};
ghost use Rattle.x5_model.specs.Members.{In};
ghost use Rattle.x5_model.specs.Values.{key_of};
ghost use Rattle.x5_model.specs.Words.{sorted};
ghost use Rattle.x5_model_tree.specs.Ask.{in_subset};
ghost use Rattle.x5_model_tree.specs.Tree.{is_there};
ghost use Rattle.x5_ops.specs.RequestViews.{request_view, subset_view};
ghost use Rattle.x5_holdings.specs.State.{copy_view, holdings_view};
ghost use Rattle.x5_holdings.specs.Runs.{run_of};
ghost use Rattle.x5_eval.specs.Numbers.{copy_number, copy_pins, counts, held_number, in_reach, is_under, number_below, own_place, own_reach, pin_number, prefix_number, reaches, served_reach, stamp_number};
ghost use Rattle.x5_eval.specs.Numbers as model;
ghost use Rattle.x5_eval.specs.Spots.{IsHeldAt};

use crate::subsets::is_in_subset;
use std::alloc::Global;
use std::cmp::Ordering;
use x5_holdings::{Copied, Held, Holdings, Row};
use x5_memory::NoMemory;
use x5_names::{Name, Rdn};
use x5_ops::{Moment, Request, Subset};

/// The prefix of the context of the number, as its holder spells it; past the last the one given. No memory.
pub(crate) fn prefix_at<'a>(state: &'a Holdings, number: usize, other: &'a Name) -> &'a Name
    ensures { result.now ≡ prefix_number (holdings_view state.now) other.now number }
{
    let own = state.own();
    if number < own.len() {
        return own[number].prefix();
    }
    match state.copies().get(number - own.len()) {
        Some(copied) => copied.prefix(),
        None => other,
    }
}

/// What is held of the context of the number: nothing of a copy that was never refreshed, and past the last. No memory.
pub(crate) fn held_at(state: &Holdings, number: usize) -> Option<&Held>
    ensures { IsHeldAt (holdings_view state.now) number (option_map (λ held. held.now) result) }
{
    let own = state.own();
    if number < own.len() {
        let held = &own[number];
        let _ = held.prefix();
        return Some(held);
    }
    let copied = state.copies().get(number - own.len())?;
    let _ = copied.prefix();
    copied.held()
}

/// The stamp of the copy of the number; none of what the agent masters. No memory.
pub(crate) fn stamp_at(state: &Holdings, number: usize) -> Option<Moment>
    ensures { result ≡ stamp_number (holdings_view state.now) number }
{
    let count = state.own().len();
    if number < count {
        return None;
    }
    state.copies().get(number - count)?.stamp()
}

/// Whether the context of the number has an entry of the name. No memory.
pub(crate) fn has_entry(state: &Holdings, number: usize, name: &Name) -> bool
    ensures { result ≡ is_there (held_number (holdings_view state.now) number).entries (key_of name.now) }
{
    match held_at(state, number) {
        Some(held) => held.tree().find(name).is_some(),
        None => false,
    }
}

/// The places of these rows.
pub(crate) fn places(alloc: Global, rows: &[Row]) -> Result<Vec<usize>, NoMemory>
    ensures { IfOk result (λ places. places.items ≡ map own_place rows.now) }
{
    let mut places = Vec::new(alloc);
    for row in rows {
        places.push(row.place())?;
    }
    Ok(places)
}

/// The numbers of the contexts that it masters whose prefixes are the name of these RDNs or stand below it, with so many RDNs where
/// that is asked; in the order of their keys.
pub(crate) fn own_within(
    alloc: Global,
    state: &Holdings,
    rdns: &[Rdn],
    depth: Option<usize>,
) -> Result<Vec<usize>, NoMemory>
    ensures { IfOk result (λ numbers. numbers.items ≡ own_reach (holdings_view state.now) (key_of rdns.now) depth) }
{
    match depth {
        Some(depth) => state.own_at_depth(alloc, rdns, depth),
        None => places(alloc, state.own_under(rdns)),
    }
}

/// The same of copies, by their places among them.
fn copies_within(
    alloc: Global,
    state: &Holdings,
    rdns: &[Rdn],
    depth: Option<usize>,
) -> Result<Vec<usize>, NoMemory>
    ensures { IfOk result (λ places. places.items ≡ map own_place (filter (in_reach depth) (run_of (copy_pins (holdings_view state.now)) (key_of rdns.now)))) }
{
    match depth {
        Some(depth) => state.copies_at_depth(alloc, rdns, depth),
        None => places(alloc, state.copies_under(rdns)),
    }
}

/// Whether the request may be answered from the copy: its context isn't mastered. No memory.
fn is_counted(state: &Holdings, request: &Request, copied: &Copied) -> bool
    ensures { result ≡ counts (request_view request.now) (holdings_view state.now) (copy_view copied.now) }
{
    copied.usable(request).is_some() && state.own_at(copied.prefix().rdns()).is_none()
}

/// The same of the copy at the place, which there need not be. No memory.
fn is_counted_at(state: &Holdings, request: &Request, place: usize) -> bool
    ensures { result ≡ counts (request_view request.now) (holdings_view state.now) (copy_number (holdings_view state.now) (length state.now.own + place)) }
{
    match state.copies().get(place) {
        Some(copied) => is_counted(state, request, copied),
        None => false,
    }
}

/// The sum, where it can be told: no memory holds as much.
pub(crate) fn sum(a: usize, b: usize) -> Result<usize, NoMemory>
    ensures { IfOk result (λ sum. sum ≡ a + b) }
{
    a.checked_add(b).ok_or(NoMemory)
}

/// The numbers of those copies at the places from which the request may be answered.
fn counted(
    alloc: Global,
    state: &Holdings,
    request: &Request,
    places: &[usize],
) -> Result<Vec<usize>, NoMemory>
    ensures { IfOk result (λ numbers. numbers.items ≡ filter (λ n. counts (request_view request.now) (holdings_view state.now) (copy_number (holdings_view state.now) n)) (map (λ place. length state.now.own + place) places.now)) }
{
    let count = state.own().len();
    let mut numbers = Vec::new(alloc);
    for &place in places {
        if is_counted_at(state, request, place) {
            numbers.push(sum(count, place)?)?;
        }
    }
    Ok(numbers)
}

/// The numbers of all contexts that the request may be answered from whose prefixes are the name of these RDNs or stand below it,
/// with so many RDNs where that is asked.
pub(crate) fn served_within(
    alloc: Global,
    state: &Holdings,
    request: &Request,
    rdns: &[Rdn],
    depth: Option<usize>,
) -> Result<Vec<usize>, NoMemory>
    ensures { IfOk result (λ numbers. numbers.items ≡ served_reach (request_view request.now) (holdings_view state.now) (key_of rdns.now) depth) }
{
    let mut numbers = own_within(alloc, state, rdns, depth)?;
    let places = copies_within(alloc, state, rdns, depth)?;
    let mut copies = counted(alloc, state, request, &places)?;
    numbers.append(&mut copies)?;
    Ok(numbers)
}

/// How a context's prefix stands to another's; past the last it's the one given. No memory.
fn compare(state: &Holdings, a: usize, b: usize, other: &Name) -> Ordering
    ensures { result ≡ key_cmp (key_of (prefix_number (holdings_view state.now) other.now a)) (key_of (prefix_number (holdings_view state.now) other.now b)) }
{
    prefix_at(state, a, other).cmp_key(prefix_at(state, b, other))
}

/// These in the order of their prefixes; those of one prefix stay in their order.
pub(crate) fn in_order(
    alloc: Global,
    state: &Holdings,
    numbers: Vec<usize>,
) -> Result<Vec<usize>, NoMemory>
    ensures { IfOk result (λ all. all.items ≡ sorted (number_below (holdings_view state.now)) numbers.items) }
{
    let root = Name::root(alloc);
    let mut numbers = numbers;
    numbers.sort_by(|a, b| compare(state, *a, *b, &root))?;
    Ok(numbers)
}

/// Whether the context is in the subset, and its prefix stands just below an entry of the other one.
fn stands_under(
    alloc: Global,
    state: &Holdings,
    above: usize,
    base: &Name,
    subset: Subset,
    number: usize,
) -> Result<bool, NoMemory>
    ensures { IfOk result (λ is. is ≡ is_under (holdings_view state.now) (key_of base.now) (subset_view subset) (held_number (holdings_view state.now) above) number) }
{
    let root = Name::root(alloc);
    let prefix = prefix_at(state, number, &root);
    if !is_in_subset(subset, base.key(), prefix.key()) {
        return Ok(false);
    }
    Ok(has_entry(state, above, &prefix.parent(alloc)?))
}

/// Those of the contexts that are in the subset just below an entry of the other one.
fn those_under(
    alloc: Global,
    state: &Holdings,
    above: usize,
    base: &Name,
    subset: Subset,
    numbers: &[usize],
) -> Result<Vec<usize>, NoMemory>
    ensures { IfOk result (λ found. found.items ≡ filter (is_under (holdings_view state.now) (key_of base.now) (subset_view subset) (held_number (holdings_view state.now) above)) numbers.now) }
{
    let mut found = Vec::new(alloc);
    for &number in numbers {
        if stands_under(alloc, state, above, base, subset, number)? {
            found.push(number)?;
        }
    }
    Ok(found)
}

/// Where the prefixes of contexts in the subset stand that begin with this one: at or below a name, and with how many RDNs. No
/// memory.
fn reach<'a>(prefix: &'a Name, base: &'a Name, subset: Subset) -> (&'a [Rdn], Option<usize>)
    ensures { (pin : Key) → in_subset (subset_view subset) (key_of base.now) pin ≡ true → IsPrefix (key_of prefix.now) pin → reaches (key_of result.0.now) result.1 pin ≡ true }
{
    match subset {
        Subset::Base => (base.rdns(), Some(base.len())),
        Subset::One => (base.rdns(), Some(base.len() + 1)),
        Subset::Tree => (longer(prefix, base).rdns(), None),
    }
}

/// The first name where it has more RDNs, else the second. No memory.
fn longer<'a>(name: &'a Name, other: &'a Name) -> &'a Name
    ensures { (result.now ≡ name.now) ⊎ (result.now ≡ other.now) }
{
    if name.len() > other.len() {
        name
    } else {
        other
    }
}

/// The numbers of the contexts that the request may be answered from, in the subset just below an entry of the one of this number,
/// in the order of their prefixes. Their prefixes are longer than its own.
pub(crate) fn numbers_under(
    alloc: Global,
    state: &Holdings,
    request: &Request,
    base: &Name,
    subset: Subset,
    above: usize,
) -> Result<Vec<usize>, NoMemory>
    ensures numbers { IfOk result (λ found. found.items ≡ model.numbers_under (request_view request.now) (holdings_view state.now) (key_of base.now) (subset_view subset) above) }
    ensures rising { IfOk result (λ found. (n : ℕ) → In n found.items → length (pin_number (holdings_view state.now) above) < length (pin_number (holdings_view state.now) n)) }
{
    let Some(held) = held_at(state, above) else {
        return Ok(Vec::new(alloc));
    };
    let _ = held.tree().len();
    let (rdns, depth) = reach(held.prefix(), base, subset);
    let numbers = served_within(alloc, state, request, rdns, depth)?;
    let found = those_under(alloc, state, above, base, subset, &numbers)?;
    in_order(alloc, state, found)
}
