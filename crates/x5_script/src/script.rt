//! A script: what its lines ask for, one after another.
ghost use Rattle.std.specs.Prelude.{◌≡◌, ◌<◌, true, IfOk};
ghost use Rattle.std.specs.List.{position, before_first, after_first};
ghost use Rattle.x5_model_script.specs.Script as scripts;
ghost use Rattle.x5_script.specs.Views.{ReadsScript, Says, command_view, refusal_of};
ghost use Rattle.x5_script.specs.declared.script.ScriptRefusal.TheVariants.{NoMemory as NoMemoryRefusal};

use crate::command::{Command, ScriptFault};
use crate::line::parse_line;
use std::alloc::{AllocFailed, Global};
use thiserror::Error;
use x5_know::AgentNames;

/// Lines of a script at most.
const MOST_LINES: usize = 100_000;

/// Replies that a script and its world lose at most.
const MOST_LOST_REPLIES: usize = 16;

/// Why a script is refused.
#[derive(Clone, Copy, Debug, PartialEq, Eq, Error)]
pub enum ScriptRefusal {
    /// The first line that is refused, by its number from 1, and why.
    #[error("line {number} is refused")]
    Line { number: usize, fault: ScriptFault },
    /// Memory ran out.
    #[error("out of memory")]
    NoMemory,
}

impl<T: Drop> From<AllocFailed<T>> for ScriptRefusal {
    ghost from_gives = { λ _ refusal. refusal ≡ NoMemoryRefusal };

    fn from(_: AllocFailed<T>) -> Self {
        ScriptRefusal::NoMemory
    }
}

/// The refusal by the line of this number.
fn refusal(number: usize, fault: ScriptFault) -> ScriptRefusal
    ensures { result ≡ refusal_of number fault }
{
    match fault {
        ScriptFault::NoMemory => ScriptRefusal::NoMemory,
        fault => ScriptRefusal::Line { number, fault },
    }
}

/// The place of the first line feed.
fn line_end(octets: &[u8]) -> Option<usize>
    ensures { result ≡ position scripts.is_line_feed octets.now }
{
    octets.iter().position(|octet| *octet == b'\n')
}

/// The first line, and what stands behind its line feed.
fn first_line(octets: &[u8]) -> (&[u8], &[u8])
    ensures line { result.0.now ≡ before_first scripts.is_line_feed octets.now }
    ensures behind { result.1.now ≡ after_first scripts.is_line_feed octets.now }
{
    match line_end(octets) {
        Some(end) => (&octets[..end], &octets[end + 1..]),
        None => (octets, &octets[octets.len()..]),
    }
}

/// What a line asks for that stands behind so many others.
fn line_at(
    alloc: Global,
    before: usize,
    line: &[u8],
    agents: &AgentNames,
) -> Result<Command, ScriptFault>
    ensures { Says command_view result (scripts.line_at agents.now before line.now) }
{
    if before >= MOST_LINES {
        return Err(ScriptFault::LineTooLong);
    }
    parse_line(alloc, line, agents)
}

/// Whether a reply is to be lost.
fn loses_reply(command: &Command) -> bool
    ensures { result ≡ scripts.loses_reply (command_view command.now) }
{
    match command {
        Command::Lose { reply, k: _ } => *reply,
        _ => false,
    }
}

/// The fault of one lost reply too many.
fn within_losses(lost: usize, command: &Command) -> Result<(), ScriptFault>
    ensures within { Says (λ u. command_view command.now) result (scripts.within_losses lost (command_view command.now)) }
    ensures few { IfOk result (λ u. scripts.loses_reply (command_view command.now) ≡ true → lost < 16) }
{
    if loses_reply(command) && lost >= MOST_LOST_REPLIES {
        return Err(ScriptFault::LineTooLong);
    }
    Ok(())
}

/// What a line asks for that stands behind so many others, and so many lost replies.
fn line_behind(
    alloc: Global,
    before: usize,
    lost: usize,
    line: &[u8],
    agents: &AgentNames,
) -> Result<Command, ScriptFault>
    ensures reads { Says command_view result (scripts.line_behind agents.now before lost line.now) }
    ensures few { IfOk result (λ command. scripts.loses_reply (command_view command) ≡ true → lost < 16) }
{
    let command = line_at(alloc, before, line, agents)?;
    match within_losses(lost, &command) {
        Ok(()) => Ok(command),
        Err(fault) => {
            drop(command);
            Err(fault)
        }
    }
}

/// The lost replies with that of the command.
fn lost_behind(lost: usize, command: &Command) -> usize
    requires { scripts.loses_reply (command_view command.now) ≡ true → lost < 16 }
    ensures { result ≡ scripts.lost_with lost (command_view command.now) }
{
    if loses_reply(command) { lost + 1 } else { lost }
}

/// Reads a script whole: what its lines ask for, one command a line, or the first line that is refused. A line ends at a line feed or
/// at the end of the octets, a last line feed begins no line, and line 100,001 is too long, whatever it holds; so is a line that asks
/// for the 17th lost reply, of which the world has so many by itself.
pub fn read_script(
    alloc: Global,
    octets: &[u8],
    agents: &AgentNames,
    lost_replies: usize,
) -> Result<Vec<Command>, ScriptRefusal>
    ensures { ReadsScript result agents.now lost_replies octets.now }
{
    let mut commands = Vec::new(alloc);
    let mut rest = octets;
    let mut before = 0;
    let mut lost = lost_replies;
    'lines: while !rest.is_empty() {
        let (line, behind) = first_line(rest);
        let command = match line_behind(alloc, before, lost, line, agents) {
            Ok(command) => command,
            Err(fault) => return Err(refusal(before + 1, fault)),
        };
        lost = lost_behind(lost, &command);
        commands.push(command)?;
        rest = behind;
        before += 1;
    }
    Ok(commands)
}
