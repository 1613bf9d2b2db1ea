//! What the one tree of a world prints for a script, without agents (docs/FORMATS.md, output).
ghost use Rattle.std.specs.Prelude.{◌≡◌, ◌++◌, ◌+◌, ◌<◌, ◌≤◌, [], IfOk, OnOk, codes, length, map, string_bytes};
ghost use Rattle.x5_know.specs.WorldView.{world_view};
ghost use Rattle.x5_load.specs.Views.{IsNamed, file_view};
ghost use Rattle.x5_model_output.specs.Output.{Names, number_line};
ghost use Rattle.x5_model_output.specs.Plain.{plain_text, told_lines, tree_after, tree_left};
ghost use Rattle.x5_model_tree.specs.Ask.{ask};
ghost use Rattle.x5_model_tree.specs.Consistent.{IsConsistent};
ghost use Rattle.x5_model_tree.specs.Described.{IsDescribed};
ghost use Rattle.x5_model_tree.specs.Masters.{whole};
ghost use Rattle.x5_one.specs.One.{tree_in};
ghost use Rattle.x5_ops.specs.RequestViews.{request_view};
ghost use Rattle.x5_script.specs.Views.{command_view};
ghost use Rattle.xdir.specs.Asked.{AsksBoth, AsksOne};
ghost use Rattle.xdir.specs.Checked.{EndsCheck, ReadsChecked};
ghost use Rattle.xdir.specs.Tree.{IsReplied, ReadsTree, TellsFile, TellsLines, TellsScript, WritesTree, plain_view};

use crate::check::line_of;
use crate::refusals::{refuse_script, refuse_world};
use crate::run::KNOWLEDGE;
use crate::top::{MOST_FILE_OCTETS, Status};
use std::alloc::Global;
use x5_know::{Described, Start};
use x5_load::load;
use x5_memory::NoMemory;
use x5_one::OneTree;
use x5_ops::{Journal, Listed, Reply, Request};
use x5_port::{Failed, FileFault, Files, Sink, put_all};
use x5_report::{LineOutcome, block};
use x5_script::{Command, read_script};
use x5_syntax::Text;

/// Prints what the one tree of the world that a file describes answers to the script of another.
pub fn tree_files<F: Files, K: Sink>(
    alloc: Global,
    world: &str,
    script: &str,
    files: &mut F,
    out: &mut K,
) -> Status
    ensures asks { AsksBoth result (F.contents files.old) (record { world = world.now; script = script.now }) (F.names_asked files.old) (F.names_asked files.new) }
    ensures reads { ReadsTree result (record { world = world.now; script = script.now }) (F.contents files.old) (F.fault_count files.old) (F.fault_count files.new) (F.last_failed files.new) (K.octets out.old) (K.octets out.new) }
    ensures writes { WritesTree result (F.contents files.old) (record { world = world.now; script = script.now }) (K.octets out.old) (K.octets out.new) (K.fault_count out.old) (K.fault_count out.new) }
{
    match files.read_whole(alloc, world, MOST_FILE_OCTETS) {
        Ok(octets) => match load(alloc, &octets) {
            Ok(world) => tree_over(alloc, world, script, files, out),
            Err(fault) => refuse_world(alloc, &fault, out),
        },
        Err(FileFault::Failed) => Status::ReadFault,
        Err(FileFault::TooLong) => Status::TooLong,
        Err(FileFault::NoMemory) => Status::NoMemory,
    }
}

/// Answers the script of a file on the one tree of a world, which isn't used again.
fn tree_over<F: Files, K: Sink>(
    alloc: Global,
    world: Described,
    script: &str,
    files: &mut F,
    out: &mut K,
) -> Status
    requires described { IsDescribed (world_view world) }
    requires named { IsNamed world }
    requires few { length world.agents ≤ 64 }
    ensures asks { AsksOne result script.now (F.names_asked files.old) (F.names_asked files.new) }
    ensures reads { ReadsChecked result script.now (F.contents files.old) (F.fault_count files.old) (F.fault_count files.new) (F.last_failed files.new) }
    ensures writes { TellsFile result (F.contents files.old) script.now (file_view world) (K.octets out.old) (K.octets out.new) (K.fault_count out.old) (K.fault_count out.new) }
{
    let status = tree_script(alloc, &world, script, files, out);
    drop(world);
    status
}

/// Answers the script of a file on the one tree of a world.
fn tree_script<F: Files, K: Sink>(
    alloc: Global,
    world: &Described,
    script: &str,
    files: &mut F,
    out: &mut K,
) -> Status
    requires described { IsDescribed (world_view world.now) }
    requires named { IsNamed world.now }
    requires few { length world.now.agents ≤ 64 }
    ensures asks { AsksOne result script.now (F.names_asked files.old) (F.names_asked files.new) }
    ensures reads { ReadsChecked result script.now (F.contents files.old) (F.fault_count files.old) (F.fault_count files.new) (F.last_failed files.new) }
    ensures writes { TellsFile result (F.contents files.old) script.now (file_view world.now) (K.octets out.old) (K.octets out.new) (K.fault_count out.old) (K.fault_count out.new) }
{
    match files.read_whole(alloc, script, MOST_FILE_OCTETS) {
        Ok(octets) => tree_octets(alloc, world, &octets, out),
        Err(FileFault::Failed) => Status::ReadFault,
        Err(FileFault::TooLong) => Status::TooLong,
        Err(FileFault::NoMemory) => Status::NoMemory,
    }
}

/// Answers a script, or prints the line of its first line that is refused.
fn tree_octets<K: Sink>(alloc: Global, world: &Described, script: &[u8], out: &mut K) -> Status
    requires described { IsDescribed (world_view world.now) }
    requires named { IsNamed world.now }
    requires few { length world.now.agents ≤ 64 }
    ensures ends { EndsCheck result }
    ensures writes { TellsScript result (file_view world.now) script.now (K.octets out.old) (K.octets out.new) (K.fault_count out.old) (K.fault_count out.new) }
{
    let lost = world.network.lost_replies.as_slice().len();
    match read_script(alloc, script, &world.names, lost) {
        Ok(commands) => tree_commands(alloc, world, &commands, out),
        Err(refusal) => refuse_script(alloc, refusal, out),
    }
}

/// Answers what a script's lines ask for, or prints the line on knowledge that isn't consistent.
fn tree_commands<K: Sink>(
    alloc: Global,
    world: &Described,
    commands: &[Command],
    out: &mut K,
) -> Status
    requires described { IsDescribed (world_view world.now) }
    requires few_agents { length world.now.agents ≤ 64 }
    requires few { length commands.now ≤ 100000 }
    ensures ends { EndsCheck result }
    ensures writes { TellsLines result (file_view world.now) (map command_view commands.now) (K.octets out.old) (K.octets out.new) (K.fault_count out.old) (K.fault_count out.new) }
{
    let told = match line_of(alloc, world) {
        Ok(told) => told,
        Err(NoMemory) => return Status::NoMemory,
    };
    if !told.is_consistent {
        return match put_all(out, told.line.as_bytes()) {
            Ok(()) => Status::Inconsistent,
            Err(Failed) => Status::WriteFault,
        };
    }
    match OneTree::new(alloc, world) {
        Ok(tree) => print_tree(alloc, world, tree, commands, out),
        Err(NoMemory) => Status::NoMemory,
    }
}

/// Prints that the knowledge is consistent, and what the tree answers to each line.
fn print_tree<K: Sink>(
    alloc: Global,
    world: &Described,
    mut tree: OneTree,
    commands: &[Command],
    out: &mut K,
) -> Status
    requires consistent { IsConsistent (world_view world.now) }
    requires tree { tree_in tree ≡ whole (world_view world.now) }
    requires few { length commands.now ≤ 100000 }
    ensures ends { EndsCheck result }
    ensures writes { TellsLines result (file_view world.now) (map command_view commands.now) (K.octets out.old) (K.octets out.new) (K.fault_count out.old) (K.fault_count out.new) }
{
    match put_all(out, KNOWLEDGE.as_bytes()) {
        Ok(()) => {}
        Err(Failed) => return Status::WriteFault,
    }
    for (place, command) in commands.iter().enumerate() {
        match line_block(alloc, &world.start, &mut tree, place, command) {
            Ok(text) => match put_all(out, text.as_str().as_bytes()) {
                Ok(()) => {}
                Err(Failed) => return Status::WriteFault,
            },
            Err(NoMemory) => return Status::NoMemory,
        }
    }
    Status::Done
}

/// The block of the line after so many: nothing for a comment, and `set` for a line that is no request. An update that isn't
/// refused changes the tree.
fn line_block(
    alloc: Global,
    start: &Start,
    tree: &mut OneTree,
    before: usize,
    command: &Command,
) -> Result<Text, NoMemory>
    requires { before < 100000 }
    ensures text { IfOk result (λ text. (names : Names) → text ≡ plain_text names (before + 1) (tree_in tree.old) (plain_view command.now)) }
    ensures tree { OnOk result (tree_in tree.new ≡ tree_after (tree_in tree.old) (plain_view command.now)) }
{
    match command {
        Command::Nothing => Text::new(alloc, ""),
        Command::Ask { to: _, request } => {
            request_block(alloc, start, tree, before as u32 + 1, request)
        }
        Command::Outage(_)
        | Command::Refresh { .. }
        | Command::Deliver { .. }
        | Command::Lose { .. } => set_block(alloc, start, before as u32 + 1),
    }
}

/// The block of a request.
fn request_block(
    alloc: Global,
    start: &Start,
    tree: &mut OneTree,
    line: u32,
    request: &Request,
) -> Result<Text, NoMemory>
    ensures text { IfOk result (λ text. (names : Names) → text ≡ number_line line ++ told_lines names (ask (tree_in tree.old) (request_view request.now))) }
    ensures tree { OnOk result (tree_in tree.new ≡ tree_left (tree_in tree.old) (request_view request.now) (ask (tree_in tree.old) (request_view request.now))) }
{
    let reply = answer(alloc, tree, request)?;
    let outcome = LineOutcome::Plain(reply);
    let printed = block(alloc, start, line, &no_messages(alloc), &outcome);
    drop(outcome);
    printed
}

/// What the tree replies; an update that isn't refused has changed it.
fn answer(alloc: Global, tree: &mut OneTree, request: &Request) -> Result<Reply, NoMemory>
    ensures reply { IfOk result (IsReplied (tree_in tree.old) (request_view request.now)) }
    ensures tree { OnOk result (tree_in tree.new ≡ tree_left (tree_in tree.old) (request_view request.now) (ask (tree_in tree.old) (request_view request.now))) }
{
    if request.body.is_update() {
        tree.apply(alloc, request)
    } else {
        tree.ask(alloc, request)
    }
}

/// The block of a line that is no request.
fn set_block(alloc: Global, start: &Start, line: u32) -> Result<Text, NoMemory>
    ensures { IfOk result (λ text. text ≡ number_line line ++ codes "set\n") }
{
    let outcome = LineOutcome::Set;
    let printed = block(alloc, start, line, &no_messages(alloc), &outcome);
    drop(outcome);
    printed
}

/// Nothing is sent, and nobody accepts an update. No memory.
fn no_messages(alloc: Global) -> Journal
    ensures lines { result.lines ≡ [] }
    ensures accepted { result.accepted ≡ [] }
{
    Journal {
        lines: Listed::new(alloc),
        accepted: Listed::new(alloc),
    }
}
