//! The agents' names.

ghost use Rattle.std.specs.Prelude.{◌≡◌, true, IfOk};
ghost use Rattle.x5_model.specs.Words.{distinct, same_octets};

use std::alloc::Global;
use x5_know::AgentNames;
use x5_memory::NoMemory;
use x5_ops::AgentId;

/// A copy of the names.
pub(crate) fn copied(alloc: Global, names: &AgentNames) -> Result<AgentNames, NoMemory>
    requires { distinct same_octets names.now ≡ true }
    ensures { IfOk result (λ copy. copy ≡ names.now) }
{
    let mut copy = AgentNames::new(alloc);
    for place in 0..names.len() {
        let name = names.name(AgentId(place as u8)).clone()?;
        let _ = copy.add(name)?;
    }
    Ok(copy)
}
