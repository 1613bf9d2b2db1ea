//! What a refresh brings.

use x5_ops::{Content, StepList};

/// What a refresh brings (X.525, section 11.2): the whole content of a context, or the steps of the changes since a moment.
#[derive(Drop)]
pub enum Brought {
    Total(Content),
    Steps(StepList),
}
