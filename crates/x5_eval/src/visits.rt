//! The walk of a list or search over contexts, by their numbers: depth first, each once (X.518, section 19.3).

ghost use Rattle.std.specs.Prelude.{◌≡◌, ◌<◌, ◌≤◌, ◌+◌, ◌++◌, ◌∷◌, [], ℕ, false, true, length, IfOk, OnOk};
ghost use Rattle.x5_model.specs.Members.{In};
ghost use Rattle.x5_model.specs.Values.{key_of};
ghost use Rattle.x5_ops.specs.RequestViews.{request_view, subset_view};
ghost use Rattle.x5_holdings.specs.State.{holdings_view};
ghost use Rattle.x5_eval.specs.Numbers as model;
ghost use Rattle.x5_eval.specs.Numbers.{served_numbers};
ghost use Rattle.x5_eval.specs.Visited.{adds, order};
ghost use Rattle.x5_eval.specs.Walks.{HasMarks, IsDescendedIn, IsVisitedIn};

use crate::numbers::{numbers_under, sum};
use std::alloc::Global;
use x5_holdings::Holdings;
use x5_memory::NoMemory;
use x5_ops::{Chained, Subset};

/// How many levels of contexts are looked at below those at which a walk begins: a name has 16 RDNs at most.
const LEVELS: usize = 16;

/// The contexts in the order in which the walk comes to them, and in the order in which it leaves them; and of each number how many
/// levels were looked at there, with the context's own.
#[derive(Drop)]
pub(crate) struct Visits {
    pub(crate) entered: Vec<usize>,
    pub(crate) left: Vec<usize>,
    seen: Vec<usize>,
}

/// Adds the number, where nothing was seen of it before.
fn push_first(numbers: &mut Vec<usize>, number: usize, before: usize) -> Result<(), NoMemory>
    ensures first { before ≡ 0 → OnOk result (numbers.new.items ≡ numbers.old.items ++ number ∷ []) }
    ensures again { 0 < before → OnOk result (numbers.new.items ≡ numbers.old.items) }
{
    if before == 0 {
        numbers.push(number)?;
    }
    Ok(())
}

impl Visits {
    /// Comes to the context, then to all so deep below it, and leaves it. A context that was seen before is passed over, unless more
    /// levels are looked at now, which is no case among names of 16 RDNs at most.
    #[cycle(walk)]
    fn visit(
        &mut self,
        alloc: Global,
        state: &Holdings,
        message: &Chained,
        subset: Subset,
        number: usize,
        deeper: usize,
    ) -> Result<(), NoMemory>
        requires marks { HasMarks (holdings_view state.now) self.old }
        requires within { number < length state.now.own + length state.now.copies }
        requires levels { deeper ≤ 16 }
        ensures marks { IfOk result (λ _. HasMarks (holdings_view state.now) self.new) }
        ensures visited { IfOk result (λ _. IsVisitedIn (request_view message.now.request) (holdings_view state.now) (key_of message.now.target) (subset_view subset) deeper (number ∷ []) self.old self.new) }
    {
        let before = self.seen[number];
        if before > deeper {
            return Ok(());
        }
        self.seen[number] = deeper + 1;
        push_first(&mut self.entered, number, before)?;
        self.descend(alloc, state, message, subset, number, deeper)?;
        push_first(&mut self.left, number, before)?;
        Ok(())
    }

    /// Comes to the contexts so deep below the one of the number.
    #[cycle(walk)]
    fn descend(
        &mut self,
        alloc: Global,
        state: &Holdings,
        message: &Chained,
        subset: Subset,
        number: usize,
        deeper: usize,
    ) -> Result<(), NoMemory>
        requires marks { HasMarks (holdings_view state.now) self.old }
        requires levels { deeper ≤ 16 }
        ensures marks { IfOk result (λ _. HasMarks (holdings_view state.now) self.new) }
        ensures descended { IfOk result (λ _. IsDescendedIn (request_view message.now.request) (holdings_view state.now) (key_of message.now.target) (subset_view subset) deeper number self.old self.new) }
    {
        if deeper == 0 {
            return Ok(());
        }
        let request = &message.request;
        let below = numbers_under(alloc, state, request, &message.target, subset, number)?;
        self.visit_all(alloc, state, message, subset, &below, deeper - 1)?;
        Ok(())
    }

    /// Comes to these contexts, each with all so deep below it.
    #[cycle(walk)]
    fn visit_all(
        &mut self,
        alloc: Global,
        state: &Holdings,
        message: &Chained,
        subset: Subset,
        numbers: &[usize],
        deeper: usize,
    ) -> Result<(), NoMemory>
        requires marks { HasMarks (holdings_view state.now) self.old }
        requires within { (n : ℕ) → In n numbers.now → n < length state.now.own + length state.now.copies }
        requires levels { deeper ≤ 16 }
        ensures marks { IfOk result (λ _. HasMarks (holdings_view state.now) self.new) }
        ensures visited { IfOk result (λ _. IsVisitedIn (request_view message.now.request) (holdings_view state.now) (key_of message.now.target) (subset_view subset) deeper numbers.now self.old self.new) }
    {
        for &number in numbers {
            self.visit(alloc, state, message, subset, number, deeper)?;
        }
        Ok(())
    }
}

/// The walk that begins at these contexts.
pub(crate) fn walk(
    alloc: Global,
    state: &Holdings,
    message: &Chained,
    subset: Subset,
    begins: &[usize],
) -> Result<Visits, NoMemory>
    requires { (n : ℕ) → In n begins.now → In n (served_numbers (request_view message.now.request) (holdings_view state.now)) }
    ensures entered { IfOk result (λ visits. visits.entered.items ≡ adds [] (order (model.numbers_under (request_view message.now.request) (holdings_view state.now) (key_of message.now.target) (subset_view subset)) false 16 begins.now)) }
    ensures left { IfOk result (λ visits. visits.left.items ≡ adds [] (order (model.numbers_under (request_view message.now.request) (holdings_view state.now) (key_of message.now.target) (subset_view subset)) true 16 begins.now)) }
{
    let count = sum(state.own().len(), state.copies().len())?;
    let mut visits = Visits {
        entered: Vec::new(alloc),
        left: Vec::new(alloc),
        seen: Vec::from_elem(alloc, 0, count)?,
    };
    visits.visit_all(alloc, state, message, subset, begins, LEVELS)?;
    Ok(visits)
}
