//! Whether the knowledge of a world holds together: its file is read, and the line on its knowledge is printed.
ghost use Rattle.std.specs.Prelude.{◌≡◌, ◌≤◌, ◌↔◌, length, IfOk, IsTrue, string_bytes};
ghost use Rattle.x5_know.specs.WorldView.{world_view};
ghost use Rattle.x5_model_tree.specs.Consistent.{IsConsistent};
ghost use Rattle.xdir.specs.Asked.{AsksOne};
ghost use Rattle.xdir.specs.Checked.{ChecksOctets, EndsCheck, ReadsChecked, WritesChecked, WritesKnowledge, knowledge_text};

use crate::knowledge::knowledge_line;
use crate::refusals::refuse_world;
use crate::top::{MOST_FILE_OCTETS, Status};
use std::alloc::Global;
use x5_check::check;
use x5_know::Described;
use x5_load::load;
use x5_port::{Failed, FileFault, Files, NoMemory, Sink, put_all};

/// Prints the line on the knowledge of the world that the file describes, or of the first thing that is wrong in it.
pub fn check_file<F: Files, K: Sink>(
    alloc: Global,
    name: &str,
    files: &mut F,
    out: &mut K,
) -> Status
    ensures asks { AsksOne result name.now (F.names_asked files.old) (F.names_asked files.new) }
    ensures reads { ReadsChecked result name.now (F.contents files.old) (F.fault_count files.old) (F.fault_count files.new) (F.last_failed files.new) }
    ensures writes { WritesChecked result (F.contents files.old) name.now (K.octets out.old) (K.octets out.new) (K.fault_count out.old) (K.fault_count out.new) }
{
    match files.read_whole(alloc, name, MOST_FILE_OCTETS) {
        Ok(octets) => check_octets(alloc, &octets, out),
        Err(FileFault::Failed) => Status::ReadFault,
        Err(FileFault::TooLong) => Status::TooLong,
        Err(FileFault::NoMemory) => Status::NoMemory,
    }
}

fn check_octets<K: Sink>(alloc: Global, octets: &[u8], out: &mut K) -> Status
    ensures ends { EndsCheck result }
    ensures checks { ChecksOctets result octets.now (K.octets out.old) (K.octets out.new) (K.fault_count out.old) (K.fault_count out.new) }
{
    match load(alloc, octets) {
        Ok(world) => check_world(alloc, world, out),
        Err(fault) => refuse_world(alloc, &fault, out),
    }
}

/// Prints the line on the knowledge of a world, which isn't used again.
fn check_world<K: Sink>(alloc: Global, world: Described, out: &mut K) -> Status
    requires { length world.agents ≤ 256 }
    ensures { WritesKnowledge result (world_view world) (K.octets out.old) (K.octets out.new) (K.fault_count out.old) (K.fault_count out.new) }
{
    let status = put_knowledge(alloc, &world, out);
    drop(world);
    status
}

/// Prints the line on the world's knowledge.
fn put_knowledge<K: Sink>(alloc: Global, world: &Described, out: &mut K) -> Status
    requires { length world.now.agents ≤ 256 }
    ensures { WritesKnowledge result (world_view world.now) (K.octets out.old) (K.octets out.new) (K.fault_count out.old) (K.fault_count out.new) }
{
    let told = match line_of(alloc, world) {
        Ok(told) => told,
        Err(NoMemory) => return Status::NoMemory,
    };
    match put_all(out, told.line.as_bytes()) {
        Ok(()) if told.is_consistent => Status::Done,
        Ok(()) => Status::Inconsistent,
        Err(Failed) => Status::WriteFault,
    }
}

/// The line on a world's knowledge, and whether it tells that this is consistent.
#[derive(Drop)]
pub struct Told {
    pub line: String,
    pub is_consistent: bool,
}

/// The line on the world's knowledge.
pub fn line_of(alloc: Global, world: &Described) -> Result<Told, NoMemory>
    requires { length world.now.agents ≤ 256 }
    ensures line { IfOk result (λ told. string_bytes told.line ≡ knowledge_text (world_view world.now)) }
    ensures consistent { IfOk result (λ told. IsTrue told.is_consistent ↔ IsConsistent (world_view world.now)) }
{
    let breach = check(alloc, world)?;
    let is_consistent = breach.is_none();
    match knowledge_line(alloc, world, &breach) {
        Ok(line) => {
            drop(breach);
            Ok(Told {
                line,
                is_consistent,
            })
        }
        Err(fault) => {
            drop(breach);
            Err(fault)
        }
    }
}
