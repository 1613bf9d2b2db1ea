//! Steps, with what they need made ready.

use x5_index::Room;
use x5_match::Entry;
use x5_names::{Name, Rdn};
use x5_ops::Step;

/// What a step needs: the entry that comes with its values, and the name of the one that it changes.
#[derive(Drop)]
pub(crate) enum Ready {
    Add {
        name: Name,
        entry: Entry,
        room: Room,
    },
    Remove {
        name: Name,
    },
    Modify {
        name: Name,
        entry: Entry,
        room: Room,
    },
    Rename {
        name: Name,
        rdn: Rdn,
        entry: Entry,
        room: Room,
    },
}

/// A step, with what it needs.
#[derive(Drop)]
pub(crate) struct Prepared {
    pub(crate) ready: Ready,
    pub(crate) step: Step,
}
