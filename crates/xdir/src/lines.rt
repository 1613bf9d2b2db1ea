//! What the lines of a script do to the network, and what comes of them.
ghost use Rattle.std.specs.Prelude.{◌≡◌, ◌↔◌, ℕ, ◌<◌, ◌+◌, [], IfOk, IsTrue, Some, length};
ghost use Rattle.x5_model_fitting.specs.Requests.{RequestWithin};
ghost use Rattle.x5_model_run.specs.History.{Point};
ghost use Rattle.x5_model_run.specs.Run.{Asks, Updates};
ghost use Rattle.x5_model_script.specs.Lines.{Delivers};
ghost use Rattle.x5_model_tree.specs.Consistent.{IsConsistent};
ghost use Rattle.x5_ops.specs.RequestViews.{request_view};
ghost use Rattle.x5_report.specs.declared.report.LineOutcome.TheVariants.{NotConsistent, Set};
ghost use Rattle.x5_world.specs.Refreshes.{IsSound};
ghost use Rattle.x5_world.specs.State.{HasRoom, StandsAt};
ghost use Rattle.x5_script.specs.Views.{command_view};
ghost use Rattle.xdir.specs.Blocks.{IsCourse, IsDone};
ghost use Rattle.xdir.specs.Taken.{IsTaken};

use std::alloc::Global;
use x5_know::Start;
use x5_memory::NoMemory;
use x5_ops::{AgentId, Journal, Listed, Outage, Request};
use x5_report::LineOutcome;
use x5_script::Command;
use x5_world::{Delivered, World};

/// What came of a command, and the messages that it took.
#[derive(Drop)]
pub struct Course {
    /// The messages, and who accepted an update.
    pub journal: Journal,
    /// The reply, that the network changed, or what became of a refresh.
    pub outcome: LineOutcome,
}

/// That the network changed, which takes no message.
fn changed(alloc: Global) -> Course
    ensures { result ≡ record { journal = record { lines = []; accepted = [] }; outcome = Set } }
{
    Course {
        journal: Journal {
            lines: Listed::new(alloc),
            accepted: Listed::new(alloc),
        },
        outcome: LineOutcome::Set,
    }
}

/// That knowledge isn't consistent, so that no copy is refreshed, which takes no message.
fn unrefreshed(alloc: Global) -> Course
    ensures { result ≡ record { journal = record { lines = []; accepted = [] }; outcome = NotConsistent } }
{
    Course {
        journal: Journal {
            lines: Listed::new(alloc),
            accepted: Listed::new(alloc),
        },
        outcome: LineOutcome::NotConsistent,
    }
}

/// What an agent answers a request within the limits of messages, and who accepted it where it's an update.
fn ask(
    alloc: Global,
    network: &mut World,
    to: AgentId,
    request: &Request,
) -> Result<Course, NoMemory>
    requires there { to < length network.old.names }
    requires within { RequestWithin (request_view request.now) }
    requires room { (lines : ℕ) × (HasRoom network.old lines × (lines < 100000)) }
    ensures course { IfOk result (λ course. (p : Point) → StandsAt network.old p → IsCourse p (Asks to (request_view request.now)) network.new course) }
    ensures names { IfOk result (λ _. network.new.names ≡ network.old.names) }
    ensures room_after { IfOk result (λ _. (lines : ℕ) → HasRoom network.old lines → HasRoom network.new (lines + 1)) }
{
    let (reply, journal) = network.ask(alloc, to, request)?;
    Ok(Course {
        journal,
        outcome: LineOutcome::Answered(reply),
    })
}

/// What comes of a refresh by the agreement of this number: where knowledge is consistent its messages and what became of it, else
/// that no copy is refreshed.
fn refresh(
    alloc: Global,
    start: &Start,
    network: &mut World,
    is_consistent: bool,
    number: u32,
    push: bool,
    total: bool,
) -> Result<Course, NoMemory>
    requires room { (lines : ℕ) × (HasRoom network.old lines × (lines < 100000)) }
    requires sound { IsTrue is_consistent → IsSound network.old }
    ensures course { IfOk result (λ course. (p : Point) → StandsAt network.old p → (IsTrue is_consistent ↔ IsConsistent p.described) → IsCourse p (Updates number push total) network.new course) }
    ensures names { IfOk result (λ _. network.new.names ≡ network.old.names) }
    ensures room_after { IfOk result (λ _. (lines : ℕ) → HasRoom network.old lines → HasRoom network.new (lines + 1)) }
{
    if !is_consistent {
        network.pass();
        return Ok(unrefreshed(alloc));
    }
    let told = network.refresh(alloc, start, number, push, total)?;
    Ok(Course {
        journal: Journal {
            lines: told.lines,
            accepted: Listed::new(alloc),
        },
        outcome: LineOutcome::Refreshed(number, told.became, told.heard),
    })
}

/// What comes of octets that are handed to an agent as a user's message, or as another agent's (`dsp`): the answer to the message that
/// they spell, or their first breach.
fn deliver(
    alloc: Global,
    network: &mut World,
    dsp: bool,
    to: AgentId,
    octets: &[u8],
) -> Result<Course, NoMemory>
    requires there { to < length network.old.names }
    requires room { (lines : ℕ) × (HasRoom network.old lines × (lines < 100000)) }
    ensures course { IfOk result (λ course. (p : Point) → StandsAt network.old p → IsDone p (Delivers dsp to octets.now) network.new (Some course)) }
    ensures names { IfOk result (λ _. network.new.names ≡ network.old.names) }
    ensures room_after { IfOk result (λ _. (lines : ℕ) → HasRoom network.old lines → HasRoom network.new (lines + 1)) }
{
    let count = octets.len() as u64;
    let told = network.deliver(alloc, dsp, to, octets)?;
    match told {
        Delivered::Answered(reply, messages) => Ok(Course {
            journal: messages,
            outcome: LineOutcome::Handed { dsp, count, reply },
        }),
        Delivered::Rejected(to, fate, breach) => Ok(Course {
            journal: Journal {
                lines: Listed::new(alloc),
                accepted: Listed::new(alloc),
            },
            outcome: LineOutcome::Rejected {
                dsp,
                to,
                count,
                fate,
                breach,
            },
        }),
    }
}

/// Does what a line asks for, and tells what came of it; of a comment there is nothing to tell. Whether knowledge is consistent is
/// told before the first line. In messages moments are dates and times from the world's start on. After want of memory the network isn't
/// used again.
pub fn carry_out(
    alloc: Global,
    start: &Start,
    network: &mut World,
    is_consistent: bool,
    command: &Command,
) -> Result<Option<Course>, NoMemory>
    requires taken { IsTaken (length network.old.names) command.now }
    requires room { (lines : ℕ) × (HasRoom network.old lines × (lines < 100000)) }
    requires sound { IsTrue is_consistent → IsSound network.old }
    ensures carried { IfOk result (λ course. (p : Point) → StandsAt network.old p → (IsTrue is_consistent ↔ IsConsistent p.described) → IsDone p (command_view command.now) network.new course) }
    ensures names { IfOk result (λ _. network.new.names ≡ network.old.names) }
    ensures room_after { IfOk result (λ _. (lines : ℕ) → HasRoom network.old lines → HasRoom network.new (lines + 1)) }
{
    match command {
        Command::Ask { to, request } => Ok(Some(ask(alloc, network, *to, request)?)),
        Command::Outage(outage) => {
            network.change(*outage)?;
            Ok(Some(changed(alloc)))
        }
        Command::Lose { reply, k } => {
            network.lose(*reply, *k)?;
            Ok(Some(changed(alloc)))
        }
        Command::Refresh { id, push, total } => Ok(Some(refresh(
            alloc,
            start,
            network,
            is_consistent,
            *id,
            *push,
            *total,
        )?)),
        Command::Deliver { dsp, to, octets } => Ok(Some(deliver(
            alloc,
            network,
            *dsp,
            *to,
            octets.as_slice(),
        )?)),
        Command::Nothing => {
            network.pass();
            Ok(None)
        }
    }
}
