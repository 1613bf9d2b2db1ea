// The files that are made of a number.
ghost use Rattle.x5_gen.specs.Script.{script_text};
ghost use Rattle.x5_gen.specs.World.{world_text};
ghost use Rattle.xdir.specs.Made.{WritesText};

use crate::top::Status;
use std::alloc::Global;
use x5_gen::{script_of, world_of};
use x5_memory::NoMemory;
use x5_port::{Failed, Sink, put_all};

/// Prints the world that is made of the number.
pub fn print_made_world<K: Sink>(alloc: Global, number: u32, out: &mut K) -> Status
    ensures { WritesText result (world_text number) (K.octets out.old) (K.octets out.new) (K.fault_count out.old) (K.fault_count out.new) }
{
    match world_of(alloc, number) {
        Ok(text) => put_text(text.as_slice(), out),
        Err(NoMemory) => Status::NoMemory,
    }
}

/// Prints the script that is made of the number.
pub fn print_made_script<K: Sink>(alloc: Global, number: u32, out: &mut K) -> Status
    ensures { WritesText result (script_text number) (K.octets out.old) (K.octets out.new) (K.fault_count out.old) (K.fault_count out.new) }
{
    match script_of(alloc, number) {
        Ok(text) => put_text(text.as_slice(), out),
        Err(NoMemory) => Status::NoMemory,
    }
}

fn put_text<K: Sink>(text: &[u8], out: &mut K) -> Status
    ensures { WritesText result text.now (K.octets out.old) (K.octets out.new) (K.fault_count out.old) (K.fault_count out.new) }
{
    match put_all(out, text) {
        Ok(()) => Status::Done,
        Err(Failed) => Status::WriteFault,
    }
}
