//! Truth with a third value (X.511, section 7.8.1).

ghost use Rattle.std.specs.Prelude.{◌≡◌};
ghost use Rattle.x5_model.specs.Truth as model;

/// Whether a filter is true of an entry; undefined where a type is unknown, a value isn't of its type's kind or the kind lacks the rule.
#[derive(Clone, Copy, Debug, PartialEq, Eq)]
pub enum Truth {
    False,
    Undefined,
    True,
}

impl Truth {
    ghost use Rattle.x5_match.specs.TruthView.{truth_view};

    /// False where one is false, else undefined where one is undefined, else true. No memory.
    pub fn and(self, other: Truth) -> Truth
        ensures { truth_view result ≡ model.truth_and (truth_view self) (truth_view other) }
    {
        match (self, other) {
            (Truth::False, _) => Truth::False,
            (Truth::Undefined, Truth::False) => Truth::False,
            (Truth::Undefined, _) => Truth::Undefined,
            (Truth::True, truth) => truth,
        }
    }

    /// True where one is true, else undefined where one is undefined, else false. No memory.
    pub fn or(self, other: Truth) -> Truth
        ensures { truth_view result ≡ model.truth_or (truth_view self) (truth_view other) }
    {
        match (self, other) {
            (Truth::True, _) => Truth::True,
            (Truth::Undefined, Truth::True) => Truth::True,
            (Truth::Undefined, _) => Truth::Undefined,
            (Truth::False, truth) => truth,
        }
    }

    /// Undefined stays undefined. No memory.
    pub fn negated(self) -> Truth
        ensures { truth_view result ≡ model.truth_not (truth_view self) }
    {
        match self {
            Truth::False => Truth::True,
            Truth::Undefined => Truth::Undefined,
            Truth::True => Truth::False,
        }
    }

    /// Whether it is true, and not false or undefined. No memory.
    pub fn is_true(self) -> bool
        ensures { result ≡ model.is_true (truth_view self) }
    {
        self == Truth::True
    }
}

impl From<bool> for Truth {
    ghost use Rattle.x5_match.specs.TruthView.{truth_view};
    ghost use Rattle.std.specs.Prelude.{◌≡◌};
    ghost use Rattle.x5_model.specs.Truth as model;

    ghost from_gives = { λ is truth. truth_view truth ≡ model.truth_of is };

    fn from(is: bool) -> Truth {
        if is { Truth::True } else { Truth::False }
    }
}
