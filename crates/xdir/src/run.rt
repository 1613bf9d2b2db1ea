//! A run of a script's commands: the line on knowledge, and a block for each command.
ghost use Rattle.std.specs.Prelude.{◌≡◌, ◌↔◌, ℕ, ◌<◌, ◌≤◌, ◌+◌, List, All, IsTrue, length, map, string_bytes};
ghost use Rattle.x5_know.specs.WorldView.{world_view};
ghost use Rattle.x5_load.specs.Views.{file_view};
ghost use Rattle.x5_model_run.specs.History.{Did};
ghost use Rattle.x5_model_tree.specs.Consistent.{IsConsistent};
ghost use Rattle.x5_script.specs.Views.{command_view};
ghost use Rattle.x5_world.specs.Refreshes.{IsSound};
ghost use Rattle.x5_world.specs.State.{HasRoom, StandsAt};
ghost use Rattle.xdir.specs.Blocks.{WritesBlock, WritesCourse};
ghost use Rattle.xdir.specs.Checked.{knowledge_text};
ghost use Rattle.xdir.specs.Steps.{Prints, WritesRun};
ghost use Rattle.xdir.specs.Summed.{SumsRun};
ghost use Rattle.xdir.specs.Taken.{IsBegun, IsTaken, point};

use crate::check::{Told, line_of};
use crate::lines::{Course, carry_out};
use crate::summed::print_summary;
use crate::top::Status;
use std::alloc::Global;
use x5_know::Described;
use x5_memory::NoMemory;
use x5_port::{Failed, Sink, put_all};
use x5_report::block;
use x5_script::Command;
use x5_syntax::Text;
use x5_world::World;

/// What is printed of knowledge that holds together.
pub const KNOWLEDGE: &str = "knowledge consistent\n";

/// What a run prints behind the line on knowledge.
#[derive(Clone, Copy, PartialEq, Eq)]
pub enum Printed {
    /// The block of each command.
    Blocks,
    /// One line of counts: what all the blocks have.
    Summary,
}

/// Runs what a script's lines ask for.
pub fn run_commands<K: Sink>(
    alloc: Global,
    printed: Printed,
    described: &Described,
    network: &mut World,
    commands: &[Command],
    out: &mut K,
) -> Status
    requires begun { IsBegun described.now network.old }
    requires few { length commands.now ≤ 100000 }
    requires taken { All (IsTaken (length network.old.names)) commands.now }
    ensures prints { Prints result }
    ensures writes { printed ≡ Printed.Blocks → WritesRun result (file_view described.now) (map command_view commands.now) (K.octets out.old) (K.octets out.new) (K.fault_count out.old) (K.fault_count out.new) }
    ensures sums { printed ≡ Printed.Summary → SumsRun result (file_view described.now) (map command_view commands.now) (K.octets out.old) (K.octets out.new) (K.fault_count out.old) (K.fault_count out.new) }
{
    let told = match line_of(alloc, described) {
        Ok(told) => told,
        Err(NoMemory) => return Status::NoMemory,
    };
    match printed {
        Printed::Blocks => print_run(alloc, described, network, &told, commands, out),
        Printed::Summary => print_summary(alloc, described, network, &told, commands, out),
    }
}

/// Prints the line on knowledge, and the block of each command.
fn print_run<K: Sink>(
    alloc: Global,
    described: &Described,
    network: &mut World,
    told: &Told,
    commands: &[Command],
    out: &mut K,
) -> Status
    requires begun { IsBegun described.now network.old }
    requires knowledge { string_bytes told.now.line ≡ knowledge_text (world_view described.now) }
    requires consistent { IsTrue told.now.is_consistent ↔ IsConsistent (world_view described.now) }
    requires few { length commands.now ≤ 100000 }
    requires taken { All (IsTaken (length network.old.names)) commands.now }
    ensures prints { Prints result }
    ensures writes { WritesRun result (file_view described.now) (map command_view commands.now) (K.octets out.old) (K.octets out.new) (K.fault_count out.old) (K.fault_count out.new) }
{
    match put_all(out, told.line.as_bytes()) {
        Ok(()) => {}
        Err(Failed) => return Status::WriteFault,
    }
    for (place, command) in commands.iter().enumerate() {
        match print_command(
            alloc,
            described,
            network,
            told.is_consistent,
            place,
            command,
            out,
        ) {
            Status::Done => {}
            stopped => return stopped,
        }
    }
    Status::Done
}

/// Prints the block of the command after so many; a comment has none.
fn print_command<K: Sink>(
    alloc: Global,
    described: &Described,
    network: &mut World,
    is_consistent: bool,
    before: usize,
    command: &Command,
    out: &mut K,
) -> Status
    requires taken { IsTaken (length network.old.names) command.now }
    requires few { before < 100000 }
    requires room { HasRoom network.old before }
    requires sound { IsTrue is_consistent → IsSound network.old }
    ensures rising { K.fault_count out.old ≤ K.fault_count out.new }
    ensures names { result ≡ Status.Done → network.new.names ≡ network.old.names }
    ensures room_after { result ≡ Status.Done → HasRoom network.new (before + 1) }
    ensures block { (past : List Did) → StandsAt network.old (point (world_view described.now) past) → (IsTrue is_consistent ↔ IsConsistent (world_view described.now)) → WritesBlock result (file_view described.now) past (before + 1) (command_view command.now) network.new (K.octets out.old) (K.octets out.new) (K.fault_count out.old) (K.fault_count out.new) }
{
    match carry_out(alloc, &described.start, network, is_consistent, command) {
        Ok(Some(course)) => {
            let status = print_course(alloc, described, before, &course, out);
            drop(course);
            status
        }
        Ok(None) => Status::Done,
        Err(NoMemory) => Status::NoMemory,
    }
}

/// Prints the block of what came of the command after so many.
fn print_course<K: Sink>(
    alloc: Global,
    described: &Described,
    before: usize,
    course: &Course,
    out: &mut K,
) -> Status
    requires few { before < 100000 }
    ensures rising { K.fault_count out.old ≤ K.fault_count out.new }
    ensures line { WritesCourse result (file_view described.now) (before + 1) course.now (K.octets out.old) (K.octets out.new) (K.fault_count out.old) (K.fault_count out.new) }
{
    let line = before as u32 + 1;
    match block(
        alloc,
        &described.start,
        line,
        &course.journal,
        &course.outcome,
    ) {
        Ok(text) => match put_all(out, text.as_str().as_bytes()) {
            Ok(()) => Status::Done,
            Err(Failed) => Status::WriteFault,
        },
        Err(NoMemory) => Status::NoMemory,
    }
}
