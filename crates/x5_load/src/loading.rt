//! Loading a world file.

ghost use Rattle.std.specs.Prelude.{◌≤◌, length, IfOk};
ghost use Rattle.x5_load.specs.Views.{IsNamed, Loads};

use crate::world::file_of;
use serde_json::Value;
use std::alloc::Global;
use x5_know::Described;
use x5_world_members::LoadFault;

/// Loads a world file: the world that it describes, or the first thing that is wrong in it. Members are tried in the order of the
/// format, lists by position, and names that refer to agents last.
pub fn load(alloc: Global, bytes: &[u8]) -> Result<Described, LoadFault>
    ensures loads { Loads result bytes.now }
    ensures named { IfOk result IsNamed }
    ensures most { IfOk result (λ d. length d.agents ≤ 64) }
{
    match Value::from_slice(alloc, bytes) {
        Ok(value) => file_of(alloc, &value),
        Err(error) if error.is_memory() => Err(LoadFault::NoMemory),
        Err(_) => Err(LoadFault::NotJson),
    }
}
