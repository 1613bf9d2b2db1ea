//! Entries with their names, to the letter (X.501, section 8).

use crate::alike::{Alike, are_alike};
use x5_match::Entry;
use x5_ops::Named;

impl Alike for Entry {
    fn is_alike(&self, other: &Entry) -> bool {
        are_alike(self.attributes(), other.attributes())
    }
}

impl Alike for Named {
    fn is_alike(&self, other: &Named) -> bool {
        self.name.is_alike(&other.name) && self.entry.is_alike(&other.entry)
    }
}
