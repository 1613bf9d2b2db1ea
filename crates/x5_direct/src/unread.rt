//! Why octets aren't read directly.

use std::alloc::{AllocError, AllocFailed};
use thiserror::Error;
use x5_memory::NoMemory;
use x5_syntax::SyntaxFault;

/// Why octets aren't read directly.
#[derive(Clone, Copy, Debug, PartialEq, Eq, Error)]
pub enum Unread {
    /// They aren't spelled as usual, or aren't a value of the type. Reading by the table of types says which.
    #[error("not spelled as usual")]
    Unusual,
    /// Memory ran out. Nothing is said of the octets.
    #[error("out of memory")]
    NoMemory,
}

impl From<AllocError> for Unread {
    fn from(_: AllocError) -> Self {
        Unread::NoMemory
    }
}

impl<T: Drop> From<AllocFailed<T>> for Unread {
    fn from(_: AllocFailed<T>) -> Self {
        Unread::NoMemory
    }
}

impl From<NoMemory> for Unread {
    fn from(_: NoMemory) -> Self {
        Unread::NoMemory
    }
}

impl From<SyntaxFault> for Unread {
    fn from(fault: SyntaxFault) -> Self {
        match fault {
            SyntaxFault::NoMemory => Unread::NoMemory,
            SyntaxFault::WrongSyntax | SyntaxFault::TooLong(_) => Unread::Unusual,
        }
    }
}
