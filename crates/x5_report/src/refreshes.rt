//! What is printed of what became of a refresh.

ghost use Rattle.std.specs.Prelude.{◌≡◌, ◌==◌, ◌∷◌, [], codes, if◌then◌else◌, IfOk, string_bytes};
ghost use Rattle.std.specs.Fmt.{decimal};
ghost use Rattle.std.specs.List.{concat};
ghost use Rattle.x5_know.specs.Moments.{moment_text};
ghost use Rattle.x5_model_output.specs.Output as print;
ghost use Rattle.x5_report.specs.Spelled as spelled;

use crate::words::{shadow_problem, unheard_mark};
use std::alloc::Global;
use x5_know::Start;
use x5_memory::NoMemory;
use x5_ops::{Moment, Refreshed};

/// How much was sent; an incremental refresh without steps is none.
fn extent(total: bool, count: u64) -> &'static str
    ensures { result.now ≡ print.extent_word total count }
{
    if total {
        "total"
    } else if count == 0 {
        "none"
    } else {
        "incremental"
    }
}

/// The line of a refresh that was done.
fn done(
    alloc: Global,
    start: &Start,
    number: u32,
    total: bool,
    stamp: Moment,
    count: u64,
    heard: bool,
) -> Result<String, NoMemory>
    ensures { IfOk result (λ text. string_bytes text ≡ spelled.done_text start.now number total stamp count heard) }
{
    let extent = extent(total, count);
    let moment = start.moment_text(alloc, stamp)?;
    let moment = moment.as_str();
    let unheard = unheard_mark(heard);
    Ok(format!(in alloc; "refreshed {number} {extent} {moment} {count}{unheard}\n")?)
}

/// The moment that an agent has; `-` where it has none.
fn held(alloc: Global, start: &Start, moment: Option<Moment>) -> Result<String, NoMemory>
    ensures { IfOk result (λ text. string_bytes text ≡ spelled.held_text start.now moment) }
{
    match moment {
        None => Ok(String::from_str(alloc, "-")?),
        Some(moment) => Ok(start.moment_text(alloc, moment)?.into_string()),
    }
}

/// The line of a problem; missedPrevious tells the moments of the two agents.
fn problem(
    alloc: Global,
    start: &Start,
    number: u8,
    consumer: Option<Moment>,
    supplier: Option<Moment>,
) -> Result<String, NoMemory>
    ensures { IfOk result (λ text. string_bytes text ≡ spelled.problem_text start.now number consumer supplier) }
{
    if number == 5 {
        let consumer = held(alloc, start, consumer)?;
        let supplier = held(alloc, start, supplier)?;
        Ok(format!(in alloc; "error shadow missedPrevious {consumer} {supplier}\n")?)
    } else {
        let problem = shadow_problem(number);
        Ok(format!(in alloc; "error shadow {problem}\n")?)
    }
}

/// The line of what became of a refresh; `heard` says whether the supplier knows that it was taken.
pub(crate) fn refreshed(
    alloc: Global,
    start: &Start,
    number: u32,
    outcome: &Refreshed,
    heard: bool,
) -> Result<String, NoMemory>
    ensures { IfOk result (λ text. string_bytes text ≡ spelled.refreshed_text start.now number outcome.now heard) }
{
    match outcome {
        Refreshed::Total(stamp, count) => done(alloc, start, number, true, *stamp, *count, heard),
        Refreshed::Incremental(stamp, count) => {
            done(alloc, start, number, false, *stamp, *count, heard)
        }
        Refreshed::Nothing(stamp) => done(alloc, start, number, false, *stamp, 0, heard),
        Refreshed::Lost => Ok(format!(in alloc; "unrefreshed {number}\n")?),
        Refreshed::Failed {
            problem: found,
            held,
            given,
        } => problem(alloc, start, *found, *held, *given),
    }
}
