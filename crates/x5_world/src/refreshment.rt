//! What came of a refresh.

use x5_ops::{LineList, Refreshed};

/// What came of a refresh by an agreement (X.525, sections 9 to 12): its messages in their order, what became of it, and, where the
/// consumer took it, whether the supplier knows that.
#[derive(Drop)]
pub struct Refreshment {
    pub lines: LineList,
    pub became: Refreshed,
    pub heard: bool,
}
