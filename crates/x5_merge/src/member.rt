//! Members of an answer, and their order by key.

ghost use Rattle.std.specs.Prelude.{◌≡◌};
ghost use Rattle.x5_model.specs.Keys.{Key, key_cmp};

use std::cmp::Ordering;
use x5_dse::compare_rdns;
use x5_ops::{EntryInfo, Sub};

/// What an answer lists, each by its key.
pub(crate) trait Member {
    ghost key: { Self → Key };

    /// How it stands to another, by their keys. No memory.
    fn compare(&self, other: &Self) -> Ordering
        ensures { result ≡ key_cmp (key self.now) (key other.now) };
}

impl Member for EntryInfo {
    ghost use Rattle.x5_model.specs.Values.{key_of};

    ghost key = { λ e. key_of e.name };

    fn compare(&self, other: &EntryInfo) -> Ordering {
        self.name.cmp_key(&other.name)
    }
}

impl Member for Sub {
    ghost use Rattle.std.specs.Prelude.{◌∷◌, []};
    ghost use Rattle.x5_model.specs.Values.{key_of};

    ghost key = { λ s. key_of (s.rdn ∷ []) };

    fn compare(&self, other: &Sub) -> Ordering {
        compare_rdns(self.rdn.pairs(), other.rdn.pairs())
    }
}
