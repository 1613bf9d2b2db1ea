//! The summary of a run: what the blocks of its commands have, counted.
ghost use Rattle.std.specs.Prelude.{◌≡◌, ◌↔◌, ℕ, ◌<◌, ◌≤◌, ◌+◌, ◌++◌, [], All, IfOk, IsTrue, OnOk, length, map, string_bytes};
ghost use Rattle.x5_know.specs.WorldView.{world_view};
ghost use Rattle.x5_load.specs.Views.{file_view};
ghost use Rattle.x5_model_output.specs.Summary.{summary_line};
ghost use Rattle.x5_model_run.specs.History.{Point};
ghost use Rattle.x5_model_tree.specs.Consistent.{IsConsistent};
ghost use Rattle.x5_model_world.specs.WorldFile.{File};
ghost use Rattle.x5_report.specs.Counted.{totals_view};
ghost use Rattle.x5_script.specs.Views.{command_view};
ghost use Rattle.x5_world.specs.Refreshes.{IsSound};
ghost use Rattle.x5_world.specs.State.{HasRoom, StandsAt};
ghost use Rattle.xdir.specs.Checked.{knowledge_text};
ghost use Rattle.xdir.specs.Counted.{AddsBlock, IsCounted};
ghost use Rattle.xdir.specs.Steps.{Prints};
ghost use Rattle.xdir.specs.Summed.{IsAskedSummary, SumsRun};
ghost use Rattle.xdir.specs.Taken.{IsBegun, IsTaken, point};

use crate::check::Told;
use crate::lines::carry_out;
use crate::top::Status;
use std::alloc::Global;
use x5_know::{Described, Start};
use x5_memory::NoMemory;
use x5_port::{Failed, Sink, put_all};
use x5_report::{Totals, summary};
use x5_script::Command;
use x5_world::World;

/// Prints the line on knowledge, and the counts of the commands' blocks.
pub fn print_summary<K: Sink>(
    alloc: Global,
    described: &Described,
    network: &mut World,
    told: &Told,
    commands: &[Command],
    out: &mut K,
) -> Status
    requires begun { IsBegun described.now network.old }
    requires knowledge { string_bytes told.now.line ≡ knowledge_text (world_view described.now) }
    requires consistent { IsTrue told.now.is_consistent ↔ IsConsistent (world_view described.now) }
    requires few { length commands.now ≤ 100000 }
    requires taken { All (IsTaken (length network.old.names)) commands.now }
    ensures prints { Prints result }
    ensures sums { SumsRun result (file_view described.now) (map command_view commands.now) (K.octets out.old) (K.octets out.new) (K.fault_count out.old) (K.fault_count out.new) }
{
    match summary_of(alloc, &described.start, network, told, commands) {
        Ok(text) => match put_all(out, text.as_bytes()) {
            Ok(()) => Status::Done,
            Err(Failed) => Status::WriteFault,
        },
        Err(NoMemory) => Status::NoMemory,
    }
}

/// The line on knowledge, and the counts of the commands' blocks.
fn summary_of(
    alloc: Global,
    start: &Start,
    network: &mut World,
    told: &Told,
    commands: &[Command],
) -> Result<String, NoMemory>
    requires room { HasRoom network.old 0 }
    requires few { length commands.now ≤ 100000 }
    requires taken { All (IsTaken (length network.old.names)) commands.now }
    requires begun { (f : File) × (StandsAt network.old (point f.world []) × (IsTrue told.now.is_consistent ↔ IsConsistent f.world)) }
    ensures { IfOk result (λ text. (f : File) → StandsAt network.old (point f.world []) → string_bytes told.now.line ≡ knowledge_text f.world → (IsTrue told.now.is_consistent ↔ IsConsistent f.world) → IsAskedSummary f (map command_view commands.now) (string_bytes text)) }
{
    let totals = totals_of(alloc, start, network, told.is_consistent, commands)?;
    text_of(alloc, told.line.as_str(), &totals)
}

/// The line on knowledge, and these counts.
fn text_of(alloc: Global, knowledge: &str, totals: &Totals) -> Result<String, NoMemory>
    ensures { IfOk result (λ text. string_bytes text ≡ knowledge.now ++ summary_line (totals_view totals.now)) }
{
    let line = summary(alloc, totals)?;
    let mut text = String::from_str(alloc, knowledge)?;
    text.push_str(line.as_str())?;
    Ok(text)
}

/// The counts of the commands' blocks.
fn totals_of(
    alloc: Global,
    start: &Start,
    network: &mut World,
    is_consistent: bool,
    commands: &[Command],
) -> Result<Totals, NoMemory>
    requires room { HasRoom network.old 0 }
    requires few { length commands.now ≤ 100000 }
    requires taken { All (IsTaken (length network.old.names)) commands.now }
    requires begun { (f : File) × (StandsAt network.old (point f.world []) × (IsTrue is_consistent ↔ IsConsistent f.world)) }
    ensures { IfOk result (λ totals. (f : File) → StandsAt network.old (point f.world []) → (IsTrue is_consistent ↔ IsConsistent f.world) → IsCounted f (map command_view commands.now) network.new (totals_view totals)) }
{
    let mut totals = Totals::new();
    for command in commands {
        count_command(alloc, start, network, is_consistent, command, &mut totals)?;
    }
    Ok(totals)
}

/// Adds the counts of a command's block; a comment has none.
fn count_command(
    alloc: Global,
    start: &Start,
    network: &mut World,
    is_consistent: bool,
    command: &Command,
    totals: &mut Totals,
) -> Result<(), NoMemory>
    requires taken { IsTaken (length network.old.names) command.now }
    requires room { (lines : ℕ) × (HasRoom network.old lines × (lines < 100000)) }
    requires sound { IsTrue is_consistent → IsSound network.old }
    ensures names { IfOk result (λ _. network.new.names ≡ network.old.names) }
    ensures room_after { IfOk result (λ _. (lines : ℕ) → HasRoom network.old lines → HasRoom network.new (lines + 1)) }
    ensures adds { OnOk result ((p : Point) → StandsAt network.old p → (IsTrue is_consistent ↔ IsConsistent p.described) → AddsBlock p (command_view command.now) network.new (totals_view totals.old) (totals_view totals.new)) }
{
    let carried = carry_out(alloc, start, network, is_consistent, command)?;
    match carried {
        Some(course) => {
            totals.count(&course.journal, &course.outcome);
            drop(course);
            Ok(())
        }
        None => Ok(()),
    }
}
