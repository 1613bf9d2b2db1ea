//! The top call: a run of a script over a world, a file that is made of a number, or what a file shows, from files to a sink.
ghost use Rattle.std.specs.Prelude.{◌≡◌, ◌⊎◌, None, IfSome, true, map, string_bytes};
ghost use Rattle.x5_know.specs.WorldView.{world_view};
ghost use Rattle.x5_load.specs.Views.{IsNamed, file_view};
ghost use Rattle.x5_model_limits.specs.Described.{world_is_utf8};
ghost use Rattle.x5_model_shadowing.specs.Files.{nssrs_are_utf8};
ghost use Rattle.x5_model_tree.specs.Described.{IsDescribed};
ghost use Rattle.x5_words.specs.Forms.{form_in};
ghost use Rattle.xdir.specs.Asked.{AsksBoth, AsksForm, AsksOne};
ghost use Rattle.xdir.specs.Forms.{ReadsForm, WritesForm};
ghost use Rattle.xdir.specs.Run.{FilesRead, Writes};
ghost use Rattle.xdir.specs.Steps.{Prints, ReadsFile, WritesScript, WritesScriptFile};
ghost use Rattle.xdir.specs.Summed.{SumsScript, SumsScriptFile, WritesSummed};
ghost use Rattle.xdir.specs.Taken.{IsBegun};
ghost use Rattle.xdir.specs.Words.{is_made};

use crate::check::check_file;
use crate::generated::run_made;
use crate::made::{print_made_script, print_made_world};
use crate::refusals::{refuse_script, refuse_world};
use crate::run::{Printed, run_commands};
use crate::show::show_file;
use crate::tree::tree_files;
use std::alloc::Global;
use std::mem::forget;
use x5_know::Described;
use x5_load::load;
use x5_memory::NoMemory;
use x5_port::{FileFault, Files, Sink};
use x5_script::read_script;
use x5_words::{Words, read_words};
use x5_world::World;

/// The most octets of a file: 16 MiB.
pub const MOST_FILE_OCTETS: usize = 16_777_216;

/// How a run ended. The numbers are the exit statuses.
#[derive(Clone, Copy, PartialEq, Eq)]
pub enum Status {
    /// All is printed.
    Done = 0,
    /// The world, a line of the script or an octet of a shown file isn't taken; the line that says so
    /// is printed.
    Refused = 1,
    /// The words are none of the forms.
    Usage = 2,
    /// A file couldn't be read.
    ReadFault = 3,
    /// The output couldn't be written.
    WriteFault = 4,
    /// Memory ran out.
    NoMemory = 5,
    /// The knowledge doesn't hold together.
    Inconsistent = 6,
    /// A file has more than 16 MiB.
    TooLong = 7,
}

/// Does what the words ask for. Files are read whole and parsed before anything is written, but the
/// line of a refused world, after which the script isn't read.
pub fn xdir<F: Files, K: Sink>(
    alloc: Global,
    words: &[String],
    files: &mut F,
    out: &mut K,
) -> Status
    ensures usage { result ≡ Status.Usage → form_in (map string_bytes words.now) ≡ None }

    // Other words touch neither the files nor the sink.
    ensures others { form_in (map string_bytes words.now) ≡ None → (result ≡ Status.Usage) ⊎ (result ≡ Status.NoMemory) }
    ensures untouched { form_in (map string_bytes words.now) ≡ None → (files.new ≡ files.old) × (out.new ≡ out.old) }

    // A form that makes its file reads none.
    ensures made { IfSome (form_in (map string_bytes words.now)) (λ form. is_made form ≡ true → files.new ≡ files.old) }

    // Each file that the words name is asked for once at most, the world's before the script's.
    ensures asks { IfSome (form_in (map string_bytes words.now)) (λ form.
        AsksForm form result (F.contents files.old) (F.names_asked files.old) (F.names_asked files.new)) }
    ensures reads { IfSome (form_in (map string_bytes words.now)) (λ form.
        ReadsForm form result (F.contents files.old) (F.fault_count files.old) (F.fault_count files.new) (F.last_failed files.new) (K.octets out.old) (K.octets out.new)) }
    ensures writes { IfSome (form_in (map string_bytes words.now)) (λ form.
        WritesForm form result (F.contents files.old) (K.octets out.old) (K.octets out.new) (K.fault_count out.old) (K.fault_count out.new)) }
{
    match read_words(alloc, words) {
        Ok(Some(Words::Run(names, false))) => run_files(
            alloc,
            Printed::Blocks,
            names.world,
            names.script,
            files,
            out,
        ),
        Ok(Some(Words::Run(names, true))) => run_files(
            alloc,
            Printed::Summary,
            names.world,
            names.script,
            files,
            out,
        ),
        Ok(Some(Words::Check(name))) => check_file(alloc, name, files, out),
        Ok(Some(Words::GenRun(number))) => run_made(alloc, number, out),
        Ok(Some(Words::GenWorld(number))) => print_made_world(alloc, number, out),
        Ok(Some(Words::GenScript(number))) => print_made_script(alloc, number, out),
        Ok(Some(Words::Show(name))) => show_file(alloc, name, files, out),
        Ok(Some(Words::Tree(names))) => tree_files(alloc, names.world, names.script, files, out),
        Ok(None) => Status::Usage,
        Err(NoMemory) => Status::NoMemory,
    }
}

/// Runs the script of one file over the world that another describes.
fn run_files<F: Files, K: Sink>(
    alloc: Global,
    printed: Printed,
    world: &str,
    script: &str,
    files: &mut F,
    out: &mut K,
) -> Status
    ensures asks { AsksBoth result (F.contents files.old) (record { world = world.now; script = script.now }) (F.names_asked files.old) (F.names_asked files.new) }
    ensures reads { FilesRead result (record { world = world.now; script = script.now }) (F.contents files.old) (F.fault_count files.old) (F.fault_count files.new) (F.last_failed files.new) (K.octets out.old) (K.octets out.new) }
    ensures writes { printed ≡ Printed.Blocks → Writes result (F.contents files.old) (record { world = world.now; script = script.now }) (K.octets out.old) (K.octets out.new) (K.fault_count out.old) (K.fault_count out.new) }
    ensures sums { printed ≡ Printed.Summary → WritesSummed result (F.contents files.old) (record { world = world.now; script = script.now }) (K.octets out.old) (K.octets out.new) (K.fault_count out.old) (K.fault_count out.new) }
{
    match files.read_whole(alloc, world, MOST_FILE_OCTETS) {
        Ok(octets) => match load(alloc, &octets) {
            Ok(world) => run_world(alloc, printed, world, script, files, out),
            Err(fault) => refuse_world(alloc, &fault, out),
        },
        Err(FileFault::Failed) => Status::ReadFault,
        Err(FileFault::TooLong) => Status::TooLong,
        Err(FileFault::NoMemory) => Status::NoMemory,
    }
}

/// Runs the script of a file over a world whose texts are UTF-8.
fn run_world<F: Files, K: Sink>(
    alloc: Global,
    printed: Printed,
    world: Described,
    script: &str,
    files: &mut F,
    out: &mut K,
) -> Status
    requires described { IsDescribed (world_view world) }
    requires utf8 { world_is_utf8 (world_view world) ≡ true }
    requires references { nssrs_are_utf8 (world_view world) ≡ true }
    requires named { IsNamed world }
    ensures asks { AsksOne result script.now (F.names_asked files.old) (F.names_asked files.new) }
    ensures reads { ReadsFile result script.now (F.contents files.old) (F.fault_count files.old) (F.fault_count files.new) (F.last_failed files.new) }
    ensures writes { printed ≡ Printed.Blocks → WritesScriptFile result (F.contents files.old) script.now (file_view world) (K.octets out.old) (K.octets out.new) (K.fault_count out.old) (K.fault_count out.new) }
    ensures sums { printed ≡ Printed.Summary → SumsScriptFile result (F.contents files.old) script.now (file_view world) (K.octets out.old) (K.octets out.new) (K.fault_count out.old) (K.fault_count out.new) }
{
    match World::new(alloc, &world) {
        Ok(mut network) => {
            let status = run_script(alloc, printed, &world, &mut network, script, files, out);
            // The program ends here, and the system takes back its memory at once, not entry by entry.
            forget(network);
            forget(world);
            status
        }
        Err(NoMemory) => {
            drop(world);
            Status::NoMemory
        }
    }
}

/// Runs the script of a file over a described world with its network.
fn run_script<F: Files, K: Sink>(
    alloc: Global,
    printed: Printed,
    described: &Described,
    network: &mut World,
    script: &str,
    files: &mut F,
    out: &mut K,
) -> Status
    requires { IsBegun described.now network.old }
    ensures asks { AsksOne result script.now (F.names_asked files.old) (F.names_asked files.new) }
    ensures reads { ReadsFile result script.now (F.contents files.old) (F.fault_count files.old) (F.fault_count files.new) (F.last_failed files.new) }
    ensures writes { printed ≡ Printed.Blocks → WritesScriptFile result (F.contents files.old) script.now (file_view described.now) (K.octets out.old) (K.octets out.new) (K.fault_count out.old) (K.fault_count out.new) }
    ensures sums { printed ≡ Printed.Summary → SumsScriptFile result (F.contents files.old) script.now (file_view described.now) (K.octets out.old) (K.octets out.new) (K.fault_count out.old) (K.fault_count out.new) }
{
    match files.read_whole(alloc, script, MOST_FILE_OCTETS) {
        Ok(octets) => run_octets(alloc, printed, described, network, &octets, out),
        Err(FileFault::Failed) => Status::ReadFault,
        Err(FileFault::TooLong) => Status::TooLong,
        Err(FileFault::NoMemory) => Status::NoMemory,
    }
}

/// Runs a script, or prints the line of its first line that isn't taken.
pub fn run_octets<K: Sink>(
    alloc: Global,
    printed: Printed,
    described: &Described,
    network: &mut World,
    script: &[u8],
    out: &mut K,
) -> Status
    requires { IsBegun described.now network.old }
    ensures prints { Prints result }
    ensures writes { printed ≡ Printed.Blocks → WritesScript result (file_view described.now) script.now (K.octets out.old) (K.octets out.new) (K.fault_count out.old) (K.fault_count out.new) }
    ensures sums { printed ≡ Printed.Summary → SumsScript result (file_view described.now) script.now (K.octets out.old) (K.octets out.new) (K.fault_count out.old) (K.fault_count out.new) }
{
    let lost_replies = described.network.lost_replies.len();
    match read_script(alloc, script, network.names(), lost_replies) {
        Ok(commands) => run_commands(alloc, printed, described, network, &commands, out),
        Err(refusal) => refuse_script(alloc, refusal, out),
    }
}
