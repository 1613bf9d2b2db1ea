//! Messages of shadowing (X.525, sections 9 to 12).

use x5_ops::{Content, Moment, StepList};

/// What a supplier sends: nothing, where nothing changed; the whole content of a context; or the steps of the changes.
#[derive(Drop)]
pub enum Refresh {
    Nothing,
    Total(Content),
    Steps(StepList),
}

/// A message of shadowing, with its agreement by its number.
#[derive(Drop)]
pub enum Shadow {
    /// A consumer asks (requestShadowUpdate): the moment of the last refresh that it has, and whether it wants all.
    Request {
        agreement: u32,
        last: Option<Moment>,
        total: bool,
    },
    /// A supplier tells what it will send (coordinateShadowUpdate): the moment of the last refresh that it knows of, and whether all.
    Coordinate {
        agreement: u32,
        last: Option<Moment>,
        total: bool,
    },
    /// What a supplier sends (updateShadow), with its stamp.
    Update {
        agreement: u32,
        stamp: Moment,
        refresh: Refresh,
    },
    /// The result of the operation with the code.
    Done {
        operation: u8,
    },
    /// A problem by its number (X.525, section 12), with the moments that the consumer holds and that the supplier has given.
    Failed {
        problem: u8,
        held: Option<Moment>,
        given: Option<Moment>,
    },
}
