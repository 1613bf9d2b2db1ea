//! What a line of a script asks for, and why one is refused.
ghost use Rattle.std.specs.Prelude.{◌≡◌};
ghost use Rattle.x5_script.specs.declared.command.ScriptFault.TheVariants.{NoMemory as NoMemoryFault};

use std::alloc::{AllocError, AllocFailed};
use thiserror::Error;
use x5_memory::NoMemory;
use x5_ops::{AgentId, Outage, Request};
use x5_syntax::Octets;

/// What a line asks for.
#[derive(Drop)]
pub enum Command {
    /// A comment or an empty line.
    Nothing,
    /// A request to an agent.
    Ask {
        to: AgentId,
        request: Request,
    },
    /// What happens to an agent or between two.
    Outage(Outage),
    /// A refresh by the agreement of this number: pushed by the supplier or pulled by the consumer, total or incremental.
    Refresh {
        id: u32,
        push: bool,
        total: bool,
    },
    /// Octets handed to an agent, by the protocol between agents or by that of users.
    Deliver {
        dsp: bool,
        to: AgentId,
        octets: Octets,
    },
    /// Of the messages sent from now on the one of this number, from 1, is lost, or the reply to it.
    Lose {
        reply: bool,
        k: u32,
    },
}

/// Why a line is refused: the first word from the left that isn't as it should be. Columns count octets from 1.
#[derive(Clone, Copy, Debug, PartialEq, Eq, Error)]
pub enum ScriptFault {
    /// The word at this column isn't what may stand there, or is missing; or the octet there is outside UTF-8.
    #[error("no such word at column {0}")]
    BadWord(usize),
    /// The word at this column is no agent's name, no name or no RDN.
    #[error("no name at column {0}")]
    BadName(usize),
    /// The word at this column is no filter.
    #[error("no filter at column {0}")]
    BadFilter(usize),
    /// The word at this column is no octets in hexadecimal digits.
    #[error("no hexadecimal digits at column {0}")]
    BadHex(usize),
    /// The line has more than 4,096 octets.
    #[error("the line is too long")]
    LineTooLong,
    /// Memory ran out.
    #[error("out of memory")]
    NoMemory,
}

impl From<NoMemory> for ScriptFault {
    ghost from_gives = { λ _ fault. fault ≡ NoMemoryFault };

    fn from(_: NoMemory) -> Self {
        ScriptFault::NoMemory
    }
}

impl From<AllocError> for ScriptFault {
    ghost from_gives = { λ _ fault. fault ≡ NoMemoryFault };

    fn from(_: AllocError) -> Self {
        ScriptFault::NoMemory
    }
}

impl<T: Drop> From<AllocFailed<T>> for ScriptFault {
    ghost from_gives = { λ _ fault. fault ≡ NoMemoryFault };

    fn from(_: AllocFailed<T>) -> Self {
        ScriptFault::NoMemory
    }
}
