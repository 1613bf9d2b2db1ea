//! What is printed of a reply of the one tree: nothing is a copy, and no agent is a source.

ghost use Rattle.std.specs.Prelude.{◌≡◌, flat_map, IfOk, string_bytes};
ghost use Rattle.x5_model_output.specs.Output as print;
ghost use Rattle.x5_model_output.specs.Plain.{plain_sub};
ghost use Rattle.x5_ops.specs.AnswerViews.{sub_view};
ghost use Rattle.x5_report.specs.Spelled as spelled;

use crate::replies::{entry_with, error, outcome, referral};
use crate::words::truth_word;
use std::alloc::Global;
use x5_know::Start;
use x5_memory::NoMemory;
use x5_ops::{Answer, EntryInfo, Outcome, Reply, Sub};

/// The lines of entries.
fn entries(alloc: Global, entries: &[EntryInfo]) -> Result<String, NoMemory>
    ensures { IfOk result (λ text. string_bytes text ≡ flat_map spelled.plain_entry_text entries.now) }
{
    let mut text = String::new(alloc);
    let mut last = None;
    for one in entries {
        let lines = entry_with(alloc, &mut last, "", one)?;
        text.push_str(lines.as_str())?;
    }
    Ok(text)
}

/// The lines of what a list found.
fn subs(alloc: Global, subs: &[Sub]) -> Result<String, NoMemory>
    ensures { IfOk result (λ text. string_bytes text ≡ flat_map (λ s. print.sub_line (plain_sub (sub_view s))) subs.now) }
{
    let mut text = String::new(alloc);
    for sub in subs {
        let rdn = sub.rdn.text(alloc)?;
        let rdn = rdn.as_str();
        let line = format!(in alloc; "sub {rdn}\n")?;
        text.push_str(line.as_str())?;
    }
    Ok(text)
}

/// What is printed of a list.
fn listed(alloc: Global, start: &Start, found: &[Sub], ended: &Outcome) -> Result<String, NoMemory>
    ensures { IfOk result (λ text. string_bytes text ≡ spelled.plain_listed start.now found.now ended.now) }
{
    let count = found.len();
    let subs = subs(alloc, found)?;
    let outcome = outcome(alloc, start, &[], ended)?;
    Ok(format!(in alloc; "listed {count}\n{subs}{outcome}")?)
}

/// What is printed of a search.
fn found(
    alloc: Global,
    start: &Start,
    found: &[EntryInfo],
    ended: &Outcome,
) -> Result<String, NoMemory>
    ensures { IfOk result (λ text. string_bytes text ≡ spelled.plain_found start.now found.now ended.now) }
{
    let count = found.len();
    let entries = entries(alloc, found)?;
    let outcome = outcome(alloc, start, &[], ended)?;
    Ok(format!(in alloc; "found {count}\n{entries}{outcome}")?)
}

/// What is printed of an answer.
fn answer(alloc: Global, start: &Start, answer: &Answer) -> Result<String, NoMemory>
    ensures { IfOk result (λ text. string_bytes text ≡ spelled.plain_answer_text start.now answer.now) }
{
    match answer {
        Answer::Entry { entry, .. } => entry_with(alloc, &mut None, "", entry),
        Answer::Match { matched, .. } => {
            let equal = truth_word(*matched);
            Ok(format!(in alloc; "match {equal}\n")?)
        }
        Answer::Listed { subs, outcome, .. } => listed(alloc, start, subs.as_slice(), outcome),
        Answer::Found {
            entries,
            outcome,
            ..
        } => found(alloc, start, entries.as_slice(), outcome),
        Answer::Changed => Ok(String::from_str(alloc, "changed\n")?),
    }
}

/// What is printed of a reply.
pub(crate) fn plain_reply(alloc: Global, start: &Start, reply: &Reply) -> Result<String, NoMemory>
    ensures { IfOk result (λ text. string_bytes text ≡ spelled.plain_reply_text start.now reply.now) }
{
    match reply {
        Reply::Done(done) => answer(alloc, start, done),
        Reply::Failed(failed) => error(alloc, failed),
        Reply::Refer(named) => referral(alloc, named),
    }
}
