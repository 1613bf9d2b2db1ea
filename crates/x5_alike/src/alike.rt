//! Values that can be looked at for being the same, and lists of them.

ghost use Rattle.std.specs.Prelude.{◌≡◌};
ghost use Rattle.std.specs.Bool.{MatchBool};

/// What can be looked at for being the same in all that a contract sees of it.
pub trait Alike {
    /// Whether it's the same as the other. No memory.
    fn is_alike(&self, other: &Self) -> bool
        ensures { MatchBool result (self.now ≡ other.now) (¬ (self.now ≡ other.now)) };
}

/// Whether the lists have the same members in the same order. No memory.
pub fn are_alike<T: Alike>(some: &[T], others: &[T]) -> bool
    ensures { MatchBool result (some.now ≡ others.now) (¬ (some.now ≡ others.now)) }
{
    if some.len() != others.len() {
        return false;
    }
    for (i, member) in some.iter().enumerate() {
        if !member.is_alike(&others[i]) {
            return false;
        }
    }
    true
}
