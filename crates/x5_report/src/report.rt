//! The block of a command.

ghost use Rattle.std.specs.Prelude.{◌≡◌, ◌++◌, ◌∷◌, [], List, ℕ, true, codes, flat_map, IfOk, string_bytes};
ghost use Rattle.std.specs.List.{concat};
ghost use Rattle.x5_model_output.specs.Output as print;
ghost use Rattle.x5_report.specs.Blocks as blocks;
ghost use Rattle.x5_report.specs.Spelled as spelled;
ghost use Rattle.x5_report.specs.Views.{names_with};
ghost use Rattle.x5_know.specs.Moments.{moment_text};
ghost use Rattle.x5_model_tree.specs.World.{World, names_of_agents};

use crate::lines::{accepted, messages, shadows};
use crate::octets::{handed, rejected};
use crate::plain::plain_reply;
use crate::refreshes::refreshed;
use crate::replies::reply;
use std::alloc::{AllocError, Global};
use x5_know::Start;
use x5_memory::NoMemory;
use x5_ops::{AgentName, Fate, Journal, Refreshed, Reply};
use x5_syntax::Text;
use x5_typed::Breach;

/// What came of a command: a changed network; the reply to a request, of agents or (`Plain`) of the one tree; what became of
/// the refresh of the agreement with the number, true where the supplier knows that it was taken; that knowledge doesn't
/// hold together, so that there are no refreshes; the reply to a message that so many octets brought, for which the first
/// message of the journal stands; or the first breach of octets that brought none. Octets are handed over as a user's message, or
/// as another agent's (`dsp`).
#[derive(Drop)]
pub enum LineOutcome {
    Set,
    Answered(Reply),
    Plain(Reply),
    Refreshed(u32, Refreshed, bool),
    NotConsistent,
    Handed {
        dsp: bool,
        count: u64,
        reply: Reply,
    },
    Rejected {
        dsp: bool,
        to: AgentName,
        count: u64,
        fate: Fate,
        breach: Breach,
    },
}

/// The line with the number.
fn number_line(alloc: Global, line: u32) -> Result<String, AllocError>
    ensures { IfOk result (λ text. string_bytes text ≡ print.number_line line) }
{
    format!(in alloc; "#{line}\n")
}

/// The messages of a request, and who accepted its update.
fn journal_lines(alloc: Global, journal: &Journal) -> Result<String, NoMemory>
    ensures { IfOk result (λ text. string_bytes text ≡ spelled.journal_text journal.now) }
{
    let mut text = messages(alloc, journal.lines.as_slice())?;
    let accepted = accepted(alloc, journal.accepted.as_slice())?;
    text.push_str(accepted.as_str())?;
    Ok(text)
}

/// Three parts of a block.
fn joined(
    alloc: Global,
    number: &String,
    messages: &String,
    told: &str,
) -> Result<String, AllocError>
    ensures { IfOk result (λ text. string_bytes text ≡ concat (string_bytes number.now ∷ string_bytes messages.now ∷ told.now ∷ [])) }
{
    format!(in alloc; "{number}{messages}{told}")
}

/// The number, and what is told behind it.
fn behind(mut number: String, told: &str) -> Result<String, NoMemory>
    ensures { IfOk result (λ text. string_bytes text ≡ string_bytes number ++ told.now) }
{
    number.push_str(told)?;
    Ok(number)
}

/// The number, the messages of a refresh, and what came of it.
fn refreshing(
    alloc: Global,
    number: &String,
    journal: &Journal,
    told: &str,
) -> Result<String, NoMemory>
    ensures { IfOk result (λ text. string_bytes text ≡ concat (string_bytes number.now ∷ flat_map spelled.shadow_text journal.now.lines ∷ told.now ∷ [])) }
{
    let messages = shadows(alloc, journal.lines.as_slice())?;
    Ok(joined(alloc, number, &messages, told)?)
}

/// The block, each agent by its name.
fn block_string(
    alloc: Global,
    start: &Start,
    line: u32,
    journal: &Journal,
    outcome: &LineOutcome,
) -> Result<String, NoMemory>
    ensures { IfOk result (λ text. string_bytes text ≡ blocks.block_text start.now line journal.now outcome.now) }
{
    let number = number_line(alloc, line)?;
    match outcome {
        LineOutcome::Set => behind(number, "set\n"),
        LineOutcome::Answered(answer) => {
            let messages = journal_lines(alloc, journal)?;
            let told = reply(alloc, start, answer)?;
            Ok(joined(alloc, &number, &messages, told.as_str())?)
        }
        LineOutcome::Plain(answer) => {
            let told = plain_reply(alloc, start, answer)?;
            behind(number, told.as_str())
        }
        LineOutcome::Refreshed(agreement, became, heard) => {
            let told = refreshed(alloc, start, *agreement, became, *heard)?;
            refreshing(alloc, &number, journal, told.as_str())
        }
        LineOutcome::NotConsistent => {
            refreshing(alloc, &number, journal, "error shadow inconsistent\n")
        }
        LineOutcome::Handed { dsp, count, reply } => {
            let told = handed(alloc, start, *dsp, *count, journal, reply)?;
            behind(number, told.as_str())
        }
        LineOutcome::Rejected {
            dsp,
            to,
            count,
            fate,
            breach,
        } => {
            let told = rejected(alloc, *dsp, to, *count, *fate, breach)?;
            behind(number, told.as_str())
        }
    }
}

/// What is printed of the command in the line: the line's number, the messages of its journal, and what came of it; of a reply
/// of the one tree no messages, no mark of a copy and no source; of octets that brought no request nothing of the journal.
/// Moments are counted from the start. Agents are named by the texts of their names, which are those of a world's agents if each
/// of them is the name of one.
pub fn block(
    alloc: Global,
    start: &Start,
    line: u32,
    journal: &Journal,
    outcome: &LineOutcome,
) -> Result<Text, NoMemory>
    ensures named { IfOk result (λ text. (names : List (List ℕ)) → blocks.block_known names journal.now outcome.now ≡ true
        → blocks.IsBlockText (names_with names start.now) names line journal.now outcome.now text) }
    ensures in_world { IfOk result (λ text. (w : World) → blocks.block_known (names_of_agents w) journal.now outcome.now ≡ true
        → blocks.IsBlockText (print.names_of w (moment_text start.now)) (names_of_agents w) line journal.now outcome.now text) }
{
    let text = block_string(alloc, start, line, journal, outcome)?;
    Ok(Text::from_string(text))
}
