//! Names, to the letter (X.501, section 9).

use crate::alike::{Alike, are_alike};
use x5_names::{Name, Pair, Rdn};
use x5_syntax::{NameValue, RdnValue, Text, TypeId};

impl Alike for Text {
    fn is_alike(&self, other: &Text) -> bool {
        self.as_str() == other.as_str()
    }
}

impl Alike for Pair {
    fn is_alike(&self, other: &Pair) -> bool {
        self.kind().number() == other.kind().number()
            && self.text().is_alike(other.text())
            && self.normal().as_slice() == other.normal().as_slice()
    }
}

impl Alike for Rdn {
    fn is_alike(&self, other: &Rdn) -> bool {
        are_alike(self.pairs(), other.pairs())
    }
}

impl Alike for Name {
    fn is_alike(&self, other: &Name) -> bool {
        are_alike(self.rdns(), other.rdns())
    }
}

impl Alike for (TypeId, Text) {
    fn is_alike(&self, other: &(TypeId, Text)) -> bool {
        self.0.number() == other.0.number() && self.1.is_alike(&other.1)
    }
}

impl Alike for RdnValue {
    fn is_alike(&self, other: &RdnValue) -> bool {
        are_alike(self.pairs(), other.pairs())
    }
}

impl Alike for NameValue {
    fn is_alike(&self, other: &NameValue) -> bool {
        are_alike(self.rdns(), other.rdns())
    }
}
