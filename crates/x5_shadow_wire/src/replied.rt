//! Replies to messages of shadowing, on their way back.
ghost use Rattle.std.specs.Prelude.{◌≡◌, ℕ, List, IfOk};
ghost use Rattle.x5_dispber.specs.ShadowViews.{told_shadow};
ghost use Rattle.x5_model_fitting.specs.Replies.{ProblemWithin};
ghost use Rattle.x5_model_fitting.specs.Requests.{CountWithin, IfThere};
ghost use Rattle.x5_ops.specs.RefreshViews.{operation_view};
ghost use Rattle.x5_shadow_wire.specs.Carried.{code_of, problem_of, replying};

use crate::counts;
use crate::shadows::carried_alone;
use std::alloc::Global;
use x5_dispber::Shadow;
use x5_know::{AgentNames, Start};
use x5_memory::NoMemory;
use x5_ops::{Moment, ShadowOperation};

/// A problem of a refresh by its number (X.525, section 12), with the moments that the consumer holds and that the supplier has given.
#[derive(Clone, Copy, Drop)]
pub struct Problem {
    pub number: u8,
    pub held: Option<Moment>,
    pub given: Option<Moment>,
}

/// The code of an operation (X.519, section 7). No memory.
fn code(operation: ShadowOperation) -> u8
    ensures { result ≡ code_of (operation_view operation) }
{
    match operation {
        ShadowOperation::RequestShadowUpdate => 1,
        ShadowOperation::UpdateShadow => 2,
        ShadowOperation::CoordinateShadowUpdate => 3,
    }
}

/// The message: the result of the operation, or its problem. No memory.
fn reply(operation: ShadowOperation, problem: Option<Problem>) -> Shadow
    ensures { (names : List (List ℕ)) → told_shadow names result ≡ replying (operation_view operation) problem }
{
    match problem {
        None => Shadow::Done {
            operation: code(operation),
        },
        Some(problem) => Shadow::Failed {
            problem: problem.number,
            held: problem.held,
            given: problem.given,
        },
    }
}

/// The problem that the message tells, or that it's a result; None if it's neither. No memory.
fn problem_in(message: &Shadow) -> Option<Option<Problem>>
    ensures { (names : List (List ℕ)) → result ≡ problem_of (told_shadow names message.now) }
{
    match message {
        Shadow::Done { operation: _ } => Some(None),
        Shadow::Failed {
            problem,
            held,
            given,
        } => Some(Some(Problem {
            number: *problem,
            held: *held,
            given: *given,
        })),
        _ => None,
    }
}

/// Does nothing. Its clauses are laws: four octets count the moments.
fn counted(problem: &Option<Problem>)
    ensures held { IfThere (λ p. IfThere CountWithin p.held) problem.now }
    ensures given { IfThere (λ p. IfThere CountWithin p.given) problem.now }
{
    match problem {
        Some(problem) => {
            counts::moment(problem.held);
            counts::moment(problem.given);
        }
        None => {}
    }
}

/// The reply to a message of shadowing as whoever sent that has it: what is read in the octets that it's written as. It is just what was
/// replied: the result of the operation, or its problem.
pub fn carried_problem(
    alloc: Global,
    start: &Start,
    names: &AgentNames,
    operation: ShadowOperation,
    problem: Option<Problem>,
) -> Result<Option<Problem>, NoMemory>
    requires { IfThere (λ p. ProblemWithin 11 p.number) problem }
    ensures { IfOk result (λ back. back ≡ problem) }
{
    counted(&problem);
    let message = reply(operation, problem);
    let taken = carried_alone(alloc, start, names, message)?;
    let told = problem_in(&taken);
    drop(taken);
    match told {
        Some(problem) => Ok(problem),
        None => unreachable!(),
    }
}
