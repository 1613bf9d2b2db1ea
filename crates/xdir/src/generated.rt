//! A run of the script over the world that are made of a number.
ghost use Rattle.std.specs.Prelude.{◌≡◌, Some, true};
ghost use Rattle.x5_gen.specs.Script.{script_text};
ghost use Rattle.x5_gen.specs.World.{world_text};
ghost use Rattle.x5_know.specs.WorldView.{world_view};
ghost use Rattle.x5_load.specs.Views.{IsNamed, file_view};
ghost use Rattle.x5_model_limits.specs.Described.{world_is_utf8};
ghost use Rattle.x5_model_shadowing.specs.Files.{nssrs_are_utf8};
ghost use Rattle.x5_model_tree.specs.Described.{IsDescribed};
ghost use Rattle.xdir.specs.Generated.{WritesGenerated, made_files, made_names, script_name};
ghost use Rattle.xdir.specs.Steps.{Prints};
ghost use Rattle.xdir.specs.Summed.{SumsScript, SumsScriptFile, WritesSummed};
ghost use Rattle.xdir.specs.Taken.{IsBegun};

use crate::refusals::refuse_world;
use crate::run::Printed;
use crate::top::{Status, run_octets};
use std::alloc::Global;
use std::mem::forget;
use x5_gen::{script_of, world_of};
use x5_know::Described;
use x5_load::load;
use x5_memory::NoMemory;
use x5_port::Sink;
use x5_world::World;

/// Runs the script over the world that are made of the number, and prints a summary.
pub fn run_made<K: Sink>(alloc: Global, number: u32, out: &mut K) -> Status
    ensures { WritesGenerated result number (K.octets out.old) (K.octets out.new) (K.fault_count out.old) (K.fault_count out.new) }
{
    match world_of(alloc, number) {
        Ok(octets) => run_made_world(alloc, octets.as_slice(), number, out),
        Err(NoMemory) => Status::NoMemory,
    }
}

/// Runs the script that is made of the number over the world that these octets, made of it, describe.
fn run_made_world<K: Sink>(alloc: Global, octets: &[u8], number: u32, out: &mut K) -> Status
    requires { octets.now ≡ world_text number }
    ensures prints { Prints result }
    ensures sums { WritesSummed result (Some (made_files number)) made_names (K.octets out.old) (K.octets out.new) (K.fault_count out.old) (K.fault_count out.new) }
{
    match load(alloc, octets) {
        Ok(world) => run_made_over(alloc, world, number, out),
        Err(fault) => refuse_world(alloc, &fault, out),
    }
}

/// Runs the script that is made of the number over a world whose texts are UTF-8.
fn run_made_over<K: Sink>(alloc: Global, world: Described, number: u32, out: &mut K) -> Status
    requires described { IsDescribed (world_view world) }
    requires utf8 { world_is_utf8 (world_view world) ≡ true }
    requires references { nssrs_are_utf8 (world_view world) ≡ true }
    requires named { IsNamed world }
    ensures prints { Prints result }
    ensures sums { SumsScriptFile result (Some (made_files number)) script_name (file_view world) (K.octets out.old) (K.octets out.new) (K.fault_count out.old) (K.fault_count out.new) }
{
    match World::new(alloc, &world) {
        Ok(mut network) => {
            let status = run_made_script(alloc, &world, &mut network, number, out);
            // The program ends here, and the system takes back its memory at once, not entry by entry.
            forget(network);
            forget(world);
            status
        }
        Err(NoMemory) => {
            drop(world);
            Status::NoMemory
        }
    }
}

/// Runs the script that is made of the number over a described world with its network.
fn run_made_script<K: Sink>(
    alloc: Global,
    described: &Described,
    network: &mut World,
    number: u32,
    out: &mut K,
) -> Status
    requires { IsBegun described.now network.old }
    ensures prints { Prints result }
    ensures sums { SumsScript result (file_view described.now) (script_text number) (K.octets out.old) (K.octets out.new) (K.fault_count out.old) (K.fault_count out.new) }
{
    match script_of(alloc, number) {
        Ok(octets) => run_octets(
            alloc,
            Printed::Summary,
            described,
            network,
            octets.as_slice(),
            out,
        ),
        Err(NoMemory) => Status::NoMemory,
    }
}
