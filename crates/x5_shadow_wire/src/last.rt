//! What both ends of an agreement have of its last total refresh.
ghost use Rattle.std.specs.Prelude.{◌≡◌, None};

use std::alloc::Global;
use std::marker::Model;
use x5_dispber::{ReadEntries, WrittenEntries};

/// The entries of the last total refresh by an agreement, as its supplier wrote them and as its consumer read them: what comes again is
/// neither written nor read again (X.525, section 11.2).
#[derive(Drop)]
pub struct LastTotal {
    pub(crate) written: WrittenEntries,
    pub(crate) seen: ReadEntries,
}

impl Model for LastTotal {
    ghost use Rattle.std.specs.Prelude.{List, Option};
    ghost use Rattle.x5_model.specs.Entries as model;

    ghost Value = { Option (List model.Named) × Option (List model.Named) };

    ghost view = { λ l. (l.written, l.seen) };
}

impl LastTotal {
    /// Before the first one. No memory.
    pub fn none(alloc: Global) -> LastTotal
        ensures { result ≡ (None, None) }
    {
        LastTotal {
            written: WrittenEntries::none(),
            seen: ReadEntries::none(alloc),
        }
    }
}
