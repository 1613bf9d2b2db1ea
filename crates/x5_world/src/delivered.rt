//! What comes of octets that a user hands to an agent.
ghost use Rattle.std.specs.Prelude.{◌≡◌, ◌<◌, true, length, IfOk};
ghost use Rattle.x5_model.specs.Words.{distinct, same_octets};
ghost use Rattle.x5_ops.specs.AgentNames.{agent_of};
ghost use Rattle.x5_world.specs.Answered.{is_agent};
ghost use Rattle.x5_world.specs.Delivered.{breach_in};

use x5_dapber::WireFault;
use x5_know::AgentNames;
use x5_memory::NoMemory;
use x5_ops::{AgentId, AgentName, Fate, Journal, Reply};
use x5_typed::Breach;

/// What comes of octets that a user hands to an agent as his message (X.519, section 7).
#[derive(Drop)]
pub enum Delivered {
    /// They spell a request: what it is answered, the messages that it takes, the first of which stands for the octets, and who
    /// accepts the update.
    Answered(Reply, Journal),
    /// They spell none: the agent's name, what becomes of them on their way, and their first breach in the order of reading.
    Rejected(AgentName, Fate, Breach),
}

/// The breach of octets that are no message; None where memory ran out. No memory.
pub(crate) fn breach_of(fault: WireFault) -> Option<Breach>
    ensures { result ≡ breach_in fault }
{
    match fault {
        WireFault::Ber(fault) => Some(Breach::Ber(fault)),
        WireFault::Unrecognised(code) => Some(Breach::Unrecognised(code)),
        WireFault::NoMemory => None,
    }
}

/// The name of the agent.
pub(crate) fn receiver(names: &AgentNames, agent: AgentId) -> Result<AgentName, NoMemory>
    requires there { agent < length names.now }
    requires apart { distinct same_octets names.now ≡ true }
    ensures place { IfOk result (λ name. agent_of names.now name ≡ agent) }
    ensures named { IfOk result (λ name. is_agent names.now name ≡ true) }
{
    Ok(names.name(agent).clone()?)
}
