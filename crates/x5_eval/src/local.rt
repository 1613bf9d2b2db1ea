//! An agent's own part of a list or search: what the contexts show to which its walk comes, joined; and the contexts that its walk
//! leaves, below which the rest is asked for (X.518, sections 19 and 21).

ghost use Rattle.std.specs.Prelude.{◌≡◌, ◌<◌, ◌∷◌, [], ℕ, List, Some, length, map, true, IfOk};
ghost use Rattle.x5_model.specs.Members.{In};
ghost use Rattle.x5_model.specs.Answers.{Answered};
ghost use Rattle.x5_model.specs.Words.{distinct, same_octets};
ghost use Rattle.x5_model_run.specs.Needs as needs;
ghost use Rattle.x5_model_run.specs.Needs.{begins_at};
ghost use Rattle.x5_model_run.specs.Placed.{is_query_below};
ghost use Rattle.x5_model_serve.specs.Answering.{is_in_order, local_part, rest_of_parts};
ghost use Rattle.x5_model_serve.specs.Walking as model;
ghost use Rattle.x5_merge.specs.Merging.{are_alike};
ghost use Rattle.x5_ops.specs.AnswerViews.{answer_view};
ghost use Rattle.x5_ops.specs.ReferenceViews.{chained_view, reference_view};
ghost use Rattle.x5_ops.specs.RequestViews.{body_view, request_view, subset_view};
ghost use Rattle.x5_holdings.specs.State.{held_view, holdings_view};
ghost use Rattle.x5_eval.specs.Numbers.{held_number, is_held, served_numbers};
ghost use Rattle.x5_eval.specs.Parts.{AreNumbers, part_shown};
ghost use Rattle.x5_eval.specs.Rest.{AreKnown, unnamed};
ghost use Rattle.x5_eval.specs.Shown.{nothing_by};
ghost use Rattle.x5_eval.specs.Spots.{IsHeld};
ghost use Rattle.x5_eval.specs.Walks.{Begins};

use crate::numbers::{held_at, prefix_at, stamp_at};
use crate::references::rest;
use crate::shown::{nothing, part_in};
use crate::visits::{Visits, walk};
use std::alloc::Global;
use x5_holdings::{Held, Holdings};
use x5_know::AgentNames;
use x5_memory::NoMemory;
use x5_merge::{PartList, merge};
use x5_names::Name;
use x5_ops::{Answer, Chained, Listed, ReferenceList, Subset};

/// The contexts to which the agent's walk comes, and those that it leaves, by their numbers. No two contexts that a request may be
/// answered from have one prefix, so by their prefixes too each comes once.
pub(crate) fn walked(
    alloc: Global,
    state: &Holdings,
    message: &Chained,
    subset: Subset,
    begins: &[usize],
) -> Result<Visits, NoMemory>
    requires subset { (names : List (List ℕ)) → Some (subset_view subset) ≡ needs.subset_of (chained_view names message.now) }
    requires begins { (names : List (List ℕ)) → Begins (request_view message.now.request) (holdings_view state.now) (begins_at (holdings_view state.now) (chained_view names message.now) (subset_view subset)) begins.now }
    ensures entered { IfOk result (λ visits. (names : List (List ℕ)) → AreNumbers (request_view message.now.request) (holdings_view state.now) (model.entered (holdings_view state.now) (chained_view names message.now)) visits.entered.items) }
    ensures left { IfOk result (λ visits. (names : List (List ℕ)) → AreNumbers (request_view message.now.request) (holdings_view state.now) (model.left (holdings_view state.now) (chained_view names message.now)) visits.left.items) }
{
    let _ = state.own();
    let _ = state.copies();
    walk(alloc, state, message, subset, begins)
}

/// What is held of the context of the number. No memory.
fn held_there(state: &Holdings, number: usize) -> &Held
    requires { is_held (holdings_view state.now) number ≡ true }
    ensures { IsHeld (holdings_view state.now) number result.now }
{
    let Some(held) = held_at(state, number) else {
        unreachable!()
    };
    held
}

/// What is held of the contexts of these numbers.
pub(crate) fn held_of<'a>(
    alloc: Global,
    state: &'a Holdings,
    numbers: &[usize],
) -> Result<Vec<&'a Held>, NoMemory>
    requires { (n : ℕ) → In n numbers.now → is_held (holdings_view state.now) n ≡ true }
    ensures { IfOk result (λ all. map (λ c. unnamed (held_view c.now)) all.items ≡ map (λ n. unnamed (held_number (holdings_view state.now) n)) numbers.now) }
{
    let mut all = Vec::new(alloc);
    for &number in numbers {
        all.push(held_there(state, number))?;
    }
    Ok(all)
}

/// What the context of the number shows.
fn part_at(
    alloc: Global,
    names: &AgentNames,
    state: &Holdings,
    message: &Chained,
    number: usize,
) -> Result<Answer, NoMemory>
    requires there { state.now.me < length names.now }
    requires apart { distinct same_octets names.now ≡ true }
    requires query { is_query_below (body_view message.now.request.body) ≡ true }
    requires held { is_held (holdings_view state.now) number ≡ true }
    ensures part { IfOk result (λ a. answer_view names.now a ≡ part_shown (body_view message.now.request.body) (chained_view names.now message.now) (holdings_view state.now) number) }
    ensures order { IfOk result (λ a. is_in_order (answer_view names.now a) ≡ true) }
{
    let root = Name::root(alloc);
    let prefix = prefix_at(state, number, &root);
    let held = held_there(state, number);
    let stamp = stamp_at(state, number);
    part_in(alloc, names, state.me(), message, prefix, held, stamp)
}

/// What no context shows, and what each of these does.
fn parts(
    alloc: Global,
    names: &AgentNames,
    state: &Holdings,
    message: &Chained,
    numbers: &[usize],
) -> Result<PartList, NoMemory>
    requires there { state.now.me < length names.now }
    requires apart { distinct same_octets names.now ≡ true }
    requires query { is_query_below (body_view message.now.request.body) ≡ true }
    requires held { (n : ℕ) → In n numbers.now → is_held (holdings_view state.now) n ≡ true }
    ensures parts { IfOk result (λ parts. map (answer_view names.now) parts ≡ nothing_by (body_view message.now.request.body) ∷ map (part_shown (body_view message.now.request.body) (chained_view names.now message.now) (holdings_view state.now)) numbers.now) }
    ensures order { IfOk result (λ _. (n : ℕ) → In n numbers.now → is_in_order (part_shown (body_view message.now.request.body) (chained_view names.now message.now) (holdings_view state.now) n) ≡ true) }
{
    let mut parts = Listed::new(alloc);
    parts.push(nothing(alloc, &message.request.body))?;
    for &number in numbers {
        parts.push(part_at(alloc, names, state, message, number)?)?;
    }
    Ok(parts)
}

/// The agent's own part of a list or search, without a limit: what the contexts show to which its walk comes, joined; of two entries with
/// one key that of the earlier context. The contexts are the sources. `entered` are their numbers.
pub(crate) fn local(
    alloc: Global,
    names: &AgentNames,
    state: &Holdings,
    message: &Chained,
    entered: &[usize],
) -> Result<Answer, NoMemory>
    requires there { state.now.me < length names.now }
    requires apart { distinct same_octets names.now ≡ true }
    requires query { is_query_below (body_view message.now.request.body) ≡ true }
    requires entered { AreNumbers (request_view message.now.request) (holdings_view state.now) (model.entered (holdings_view state.now) (chained_view names.now message.now)) entered.now }
    ensures part { IfOk result (λ a. local_part (holdings_view state.now) (chained_view names.now message.now) ≡ Answered (answer_view names.now a)) }
    ensures kind { IfOk result (λ a. are_alike (a ∷ []) ≡ true) }
{
    let _ = state.copies();
    merge(alloc, parts(alloc, names, state, message, entered)?)
}

/// The references that the agent asks for the rest, in that order. `left` are the numbers of the contexts that its walk leaves.
fn rest_from(
    alloc: Global,
    names: &AgentNames,
    state: &Holdings,
    message: &Chained,
    subset: Subset,
    left: &[usize],
) -> Result<ReferenceList, NoMemory>
    requires apart { distinct same_octets names.now ≡ true }
    requires subset { (names : List (List ℕ)) → Some (subset_view subset) ≡ needs.subset_of (chained_view names message.now) }
    requires left { AreNumbers (request_view message.now.request) (holdings_view state.now) (model.left (holdings_view state.now) (chained_view names.now message.now)) left.now }
    requires known { AreKnown (length names.now) (rest_of_parts (holdings_view state.now) (chained_view names.now message.now)) }
    ensures { IfOk result (λ references. map (reference_view names.now) references ≡ rest_of_parts (holdings_view state.now) (chained_view names.now message.now)) }
{
    let held = held_of(alloc, state, left)?;
    rest(alloc, names, state, message, subset, &held)
}

/// The agent's own part of a list or search, without a limit, and the references that it asks for the rest, in that order. `begins` are
/// the numbers of the contexts at which its walk begins.
pub(crate) fn part_from(
    alloc: Global,
    names: &AgentNames,
    state: &Holdings,
    message: &Chained,
    subset: Subset,
    begins: &[usize],
) -> Result<(Answer, ReferenceList), NoMemory>
    requires there { state.now.me < length names.now }
    requires apart { distinct same_octets names.now ≡ true }
    requires query { is_query_below (body_view message.now.request.body) ≡ true }
    requires subset { (names : List (List ℕ)) → Some (subset_view subset) ≡ needs.subset_of (chained_view names message.now) }
    requires begins { (names : List (List ℕ)) → Begins (request_view message.now.request) (holdings_view state.now) (begins_at (holdings_view state.now) (chained_view names message.now) (subset_view subset)) begins.now }
    requires known { AreKnown (length names.now) (rest_of_parts (holdings_view state.now) (chained_view names.now message.now)) }
    ensures part { IfOk result (λ both. local_part (holdings_view state.now) (chained_view names.now message.now) ≡ Answered (answer_view names.now both.0)) }
    ensures kind { IfOk result (λ both. are_alike (both.0 ∷ []) ≡ true) }
    ensures rest { IfOk result (λ both. map (reference_view names.now) both.1 ≡ rest_of_parts (holdings_view state.now) (chained_view names.now message.now)) }
{
    let visits = walked(alloc, state, message, subset, begins)?;
    let references = rest_from(alloc, names, state, message, subset, &visits.left)?;
    let answer = local(alloc, names, state, message, &visits.entered)?;
    Ok((answer, references))
}
