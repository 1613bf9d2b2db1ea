//! What is printed of octets that were handed to an agent.

ghost use Rattle.std.specs.Prelude.{◌≡◌, IfOk, string_bytes};
ghost use Rattle.std.specs.Option.{option_map};
ghost use Rattle.x5_ber.specs.Views.{fault_view};
ghost use Rattle.x5_model_output.specs.Output as print;
ghost use Rattle.x5_ops.specs.JournalViews.{fate_view, protocol_view};
ghost use Rattle.x5_report.specs.Spelled as spelled;
ghost use Rattle.x5_typed.specs.Breaches.{breach_view};

use crate::lines::{accepted, messages};
use crate::replies::reply;
use crate::words::fate_word;
use std::alloc::Global;
use x5_ber::BerFault;
use x5_know::Start;
use x5_memory::NoMemory;
use x5_ops::{AgentName, Fate, Journal, Line, Reply};
use x5_typed::Breach;

/// The first message of a request among lines: whom it goes to, what became of it, and the lines behind it.
pub(crate) fn first_message(lines: &[Line]) -> Option<(&AgentName, Fate, &[Line])>
    ensures { option_map (λ first. (first.0.now, first.1, first.2.now)) result ≡ spelled.first_message lines.now }
{
    for index in 0..lines.len() {
        if let Line::Msg { to, fate, .. } = &lines[index] {
            return Some((to, *fate, &lines[index + 1..]));
        }
    }
    None
}

/// The word of a protocol.
fn protocol_word(dsp: bool) -> &'static str
    ensures { result.now ≡ print.protocol_word (protocol_view dsp) }
{
    if dsp { "dsp" } else { "dap" }
}

/// The line of octets on their way to an agent.
fn raw(alloc: Global, dsp: bool, to: &AgentName, count: u64, fate: Fate) -> Result<String, NoMemory>
    ensures { IfOk result (λ text. string_bytes text ≡ spelled.raw_text dsp to.now count fate) }
{
    let to = to.as_str();
    let protocol = protocol_word(dsp);
    let fate = fate_word(fate);
    Ok(format!(in alloc; "raw {to} {protocol} {count} {fate}\n")?)
}

/// What the user hears of the reply: nothing where a message was lost.
fn heard(alloc: Global, start: &Start, fate: Fate, answer: &Reply) -> Result<String, NoMemory>
    ensures { IfOk result (λ text. string_bytes text ≡ print.heard_by (fate_view fate) (spelled.reply_text start.now answer.now)) }
{
    match fate {
        Fate::Lost | Fate::NoReply => Ok(String::new(alloc)),
        Fate::Sent => reply(alloc, start, answer),
    }
}

/// What is printed of a message that octets brought.
pub(crate) fn handed(
    alloc: Global,
    start: &Start,
    dsp: bool,
    count: u64,
    journal: &Journal,
    answer: &Reply,
) -> Result<String, NoMemory>
    ensures { IfOk result (λ text. string_bytes text ≡ spelled.handed_text start.now dsp count journal.now answer.now) }
{
    let accepted = accepted(alloc, journal.accepted.as_slice())?;
    match first_message(journal.lines.as_slice()) {
        None => Ok(accepted),
        Some((to, fate, more)) => {
            let raw = raw(alloc, dsp, to, count, fate)?;
            let messages = messages(alloc, more)?;
            let told = heard(alloc, start, fate, answer)?;
            Ok(format!(in alloc; "{raw}{messages}{accepted}{told}")?)
        }
    }
}

/// The fault's word.
fn fault_word(fault: BerFault) -> &'static str
    ensures { result.now ≡ print.fault_word (fault_view fault) }
{
    match fault {
        BerFault::Truncated(_) => "truncated",
        BerFault::BadLength(_) => "badLength",
        BerFault::BadTag(_) => "badTag",
        BerFault::BadContent(_) => "badContent",
        BerFault::TooDeep(_) => "tooDeep",
    }
}

/// The fault's place.
fn fault_place(fault: BerFault) -> usize
    ensures { result ≡ print.fault_place (fault_view fault) }
{
    match fault {
        BerFault::Truncated(at)
        | BerFault::BadLength(at)
        | BerFault::BadTag(at)
        | BerFault::BadContent(at)
        | BerFault::TooDeep(at) => at,
    }
}

/// The line of a first breach.
fn reject(alloc: Global, breach: &Breach) -> Result<String, NoMemory>
    ensures { IfOk result (λ text. string_bytes text ≡ print.reject_line (breach_view breach.now)) }
{
    match breach {
        Breach::Ber(fault) => {
            let reason = fault_word(*fault);
            let at = fault_place(*fault);
            Ok(format!(in alloc; "reject {reason} {at}\n")?)
        }
        Breach::Unrecognised(code) => Ok(format!(in alloc; "reject unrecognised {code}\n")?),
    }
}

/// What the user hears of a first breach: nothing where a message was lost.
fn reject_heard(alloc: Global, fate: Fate, breach: &Breach) -> Result<String, NoMemory>
    ensures { IfOk result (λ text. string_bytes text ≡ print.heard_by (fate_view fate) (print.reject_line (breach_view breach.now))) }
{
    match fate {
        Fate::Lost | Fate::NoReply => Ok(String::new(alloc)),
        Fate::Sent => reject(alloc, breach),
    }
}

/// What is printed of octets that brought none.
pub(crate) fn rejected(
    alloc: Global,
    dsp: bool,
    to: &AgentName,
    count: u64,
    fate: Fate,
    breach: &Breach,
) -> Result<String, NoMemory>
    ensures { IfOk result (λ text. string_bytes text ≡ spelled.rejected_text dsp to.now count fate breach.now) }
{
    let mut text = raw(alloc, dsp, to, count, fate)?;
    let told = reject_heard(alloc, fate, breach)?;
    text.push_str(told.as_str())?;
    Ok(text)
}
