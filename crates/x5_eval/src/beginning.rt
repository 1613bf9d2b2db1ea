//! The contexts at which an agent's part of a list or search begins, by their numbers (X.518, section 19).

ghost use Rattle.std.specs.Prelude.{◌≡◌, ◌&&◌, ◌==◌, ℕ, List, not, length, slice_get, IfOk};
ghost use Rattle.std.specs.List.{list_any};
ghost use Rattle.x5_model.specs.Keys.{Key, is_child, is_root, same_key};
ghost use Rattle.x5_model.specs.Values.{key_of};
ghost use Rattle.x5_model_tree.specs.Ask as model;
ghost use Rattle.x5_model.specs.Words.{in_option};
ghost use Rattle.x5_model.specs.Requests as requests;
ghost use Rattle.x5_model_tree.specs.Tree.{is_there};
ghost use Rattle.x5_model_run.specs.Holdings.{is_first_level};
ghost use Rattle.x5_model_run.specs.Journal.{same_spelled_rdn};
ghost use Rattle.x5_model_run.specs.Needs as needs;
ghost use Rattle.x5_model_run.specs.Needs.{begins_at, found_at_pin, found_at_root, found_below, found_by_name, found_in};
ghost use Rattle.x5_ops.specs.ReferenceViews.{chained_view};
ghost use Rattle.x5_ops.specs.RequestViews.{request_view, subset_view};
ghost use Rattle.x5_holdings.specs.Known.{IsFirst};
ghost use Rattle.x5_holdings.specs.State.{holdings_view};
ghost use Rattle.x5_eval.specs.Numbers.{held_number, prefix_number};
ghost use Rattle.x5_eval.specs.Walks.{Begins};

use crate::exclusions::is_same;
use crate::numbers::{has_entry, in_order, own_within, prefix_at, served_within};
use crate::subsets::is_in_subset;
use std::alloc::Global;
use x5_holdings::{Holdings, Pin};
use x5_memory::NoMemory;
use x5_names::{Name, Rdn};
use x5_ops::{Chained, Progress, Subset};

/// Whether a prefix has one RDN, and is in the subset. No memory.
fn is_at_first_level(base: &Name, subset: Subset, prefix: &Name) -> bool
    ensures { result ≡ ((length prefix.now == 1) && model.in_subset (subset_view subset) (key_of base.now) (key_of prefix.now)) }
{
    prefix.len() == 1 && is_in_subset(subset, base.key(), prefix.key())
}

/// Whether the agent is first-level, and the name is the root. No memory.
fn answers_root(state: &Holdings, base: &Name) -> bool
    ensures { result ≡ (is_first_level (holdings_view state.now) && is_root (key_of base.now)) }
{
    state.superior().is_none() && base.is_root()
}

/// At a first-level agent below the root: those with one RDN.
fn at_root(
    alloc: Global,
    state: &Holdings,
    message: &Chained,
    subset: Subset,
) -> Result<Vec<usize>, NoMemory>
    ensures { IfOk result (λ numbers. (names : List (List ℕ)) → Begins (request_view message.now.request) (holdings_view state.now) (found_at_root (holdings_view state.now) (chained_view names message.now) (subset_view subset)) numbers.items) }
{
    let base = &message.target;
    if !answers_root(state, base) {
        return Ok(Vec::new(alloc));
    }
    let mut numbers = served_within(alloc, state, &message.request, base.rdns(), Some(1))?;
    let root = Name::root(alloc);
    numbers.retain(|number| is_at_first_level(base, subset, prefix_at(state, *number, &root)));
    in_order(alloc, state, numbers)
}

/// Whether the context of the number is that of the pin; past the last it's that of the other name. No memory.
fn is_at(state: &Holdings, number: usize, pin: &Name, other: &Name) -> bool
    ensures { result ≡ same_key (key_of (prefix_number (holdings_view state.now) other.now number)) (key_of pin.now) }
{
    prefix_at(state, number, other).is_same(pin)
}

/// Whether besides it has an entry of the target. No memory.
fn has_target(state: &Holdings, number: usize, pin: &Name, target: &Name, other: &Name) -> bool
    ensures { result ≡ (same_key (key_of (prefix_number (holdings_view state.now) other.now number)) (key_of pin.now) && is_there (held_number (holdings_view state.now) number).entries (key_of target.now)) }
{
    is_at(state, number, pin, other) && has_entry(state, number, target)
}

/// Those of the longest known pin on the way to the target that have the target.
fn with_target(
    alloc: Global,
    state: &Holdings,
    message: &Chained,
    pin: &Name,
) -> Result<Vec<usize>, NoMemory>
    ensures { IfOk result (λ numbers. (names : List (List ℕ)) → Begins (request_view message.now.request) (holdings_view state.now) (found_in (holdings_view state.now) (chained_view names message.now) (key_of pin.now)) numbers.items) }
{
    let target = &message.target;
    let depth = Some(pin.len());
    let mut numbers = served_within(alloc, state, &message.request, pin.rdns(), depth)?;
    let root = Name::root(alloc);
    numbers.retain(|number| has_target(state, *number, pin, target, &root));
    in_order(alloc, state, numbers)
}

/// The prefix of the context that is mastered at the place, or the other one where there is none. No memory.
fn own_name<'a>(state: &'a Holdings, place: usize, other: &'a Name) -> &'a Name
    ensures { result.now ≡ in_option other.now (λ c. c.prefix) (slice_get (holdings_view state.now).own place) }
{
    match state.own().get(place) {
        Some(held) => held.prefix(),
        None => other,
    }
}

/// The same of a copy. No memory.
fn copy_name<'a>(state: &'a Holdings, place: usize, other: &'a Name) -> &'a Name
    ensures { result.now ≡ in_option other.now (λ k. k.held.prefix) (slice_get (holdings_view state.now).copies place) }
{
    match state.copies().get(place) {
        Some(copied) => copied.prefix(),
        None => other,
    }
}

/// The name of what is known; of a place where nothing is the other one. No memory.
fn name_of<'a>(state: &'a Holdings, pin: Pin<'a>, other: &'a Name) -> &'a Name
    ensures { (r : requests.Request) (key : Key) → IsFirst r (holdings_view state.now) key pin.entry → key_of result.now ≡ key }
{
    match pin {
        Pin::Own(place) => own_name(state, place, other),
        Pin::Copy(place) => copy_name(state, place, other),
        Pin::Subordinate(reference) => &reference.pin,
        Pin::Cross(reference) => &reference.pin,
    }
}

/// Whether the target is still to be resolved, and the agent holds as much of it as was resolved so far. No memory.
fn resolves(state: &Holdings, message: &Chained) -> bool
    ensures { (names : List (List ℕ)) → result ≡ needs.resolves (holdings_view state.now) (chained_view names message.now) }
{
    match message.progress {
        Progress::NotStarted => true,
        Progress::Proceeding(k) => state.holds_within(message.target.rdns(), k as usize),
        Progress::Completed => false,
    }
}

/// Where the target is still to be resolved: in the contexts of the longest known pin on the way, or below the root.
fn by_name(
    alloc: Global,
    state: &Holdings,
    message: &Chained,
    subset: Subset,
) -> Result<Vec<usize>, NoMemory>
    ensures { IfOk result (λ numbers. (names : List (List ℕ)) → Begins (request_view message.now.request) (holdings_view state.now) (found_by_name (holdings_view state.now) (chained_view names message.now) (subset_view subset)) numbers.items) }
{
    if !resolves(state, message) {
        return Ok(Vec::new(alloc));
    }
    match state.known(&message.request, message.target.rdns()) {
        None => at_root(alloc, state, message, subset),
        Some(pin) => with_target(alloc, state, message, name_of(state, pin, &message.target)),
    }
}

/// Whether the prefix's last RDN is excluded. No memory.
fn is_excluded(exclusions: &[Rdn], last: &Rdn) -> bool
    ensures { result ≡ list_any (λ rdn. same_spelled_rdn rdn last.now) exclusions.now }
{
    exclusions.iter().any(|rdn| is_same(rdn, last))
}

/// Whether the prefix stands just below the base, and is in the subset. No memory.
fn is_just_below(base: &Name, subset: Subset, prefix: &Name) -> bool
    ensures { result ≡ (is_child (key_of base.now) (key_of prefix.now) && model.in_subset (subset_view subset) (key_of base.now) (key_of prefix.now)) }
{
    is_in_subset(Subset::One, base.key(), prefix.key())
        && is_in_subset(subset, base.key(), prefix.key())
}

/// Whether a context of this prefix is one that a nonSpecific reference asks for: just below its entry, and not excluded. No memory.
fn is_asked_below(exclusions: &[Rdn], base: &Name, subset: Subset, prefix: &Name) -> bool
    ensures { result ≡ (is_child (key_of base.now) (key_of prefix.now) && (model.in_subset (subset_view subset) (key_of base.now) (key_of prefix.now) && not (needs.is_excluded exclusions.now prefix.now))) }
{
    let Some(last) = prefix.last() else {
        return false;
    };
    if is_excluded(exclusions, last) {
        return false;
    }
    is_just_below(base, subset, prefix)
}

/// Below the entry of a nonSpecific reference: those that the agent masters just below it, but for those excluded.
fn below(
    alloc: Global,
    state: &Holdings,
    message: &Chained,
    subset: Subset,
) -> Result<Vec<usize>, NoMemory>
    ensures { IfOk result (λ numbers. (names : List (List ℕ)) → Begins (request_view message.now.request) (holdings_view state.now) (found_below (holdings_view state.now) (chained_view names message.now) (subset_view subset)) numbers.items) }
{
    let base = &message.target;
    let exclusions = message.exclusions.as_slice();
    let mut numbers = own_within(alloc, state, base.rdns(), Some(base.len() + 1))?;
    let root = Name::root(alloc);
    numbers.retain(|number| {
        is_asked_below(exclusions, base, subset, prefix_at(state, *number, &root))
    });
    in_order(alloc, state, numbers)
}

/// Those of the pin that a reference named.
fn at_pin(alloc: Global, state: &Holdings, message: &Chained) -> Result<Vec<usize>, NoMemory>
    ensures { IfOk result (λ numbers. (names : List (List ℕ)) → Begins (request_view message.now.request) (holdings_view state.now) (found_at_pin (holdings_view state.now) (chained_view names message.now)) numbers.items) }
{
    let pin = &message.target;
    let depth = Some(pin.len());
    let mut numbers = served_within(alloc, state, &message.request, pin.rdns(), depth)?;
    let root = Name::root(alloc);
    numbers.retain(|number| is_at(state, *number, pin, &root));
    in_order(alloc, state, numbers)
}

/// The contexts at which the agent's part begins, in the order of their prefixes.
pub(crate) fn begins(
    alloc: Global,
    state: &Holdings,
    message: &Chained,
    subset: Subset,
) -> Result<Vec<usize>, NoMemory>
    ensures { IfOk result (λ numbers. (names : List (List ℕ)) → Begins (request_view message.now.request) (holdings_view state.now) (begins_at (holdings_view state.now) (chained_view names message.now) (subset_view subset)) numbers.items) }
{
    match message.progress {
        Progress::Completed if message.kind.is_wide() => below(alloc, state, message, subset),
        Progress::Completed => at_pin(alloc, state, message),
        _ => by_name(alloc, state, message, subset),
    }
}
