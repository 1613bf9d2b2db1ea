//! Values, to the letter (X.501, section 8).

ghost use Rattle.std.specs.Prelude.{◌≡◌};
ghost use Rattle.std.specs.Bool.{MatchBool};
ghost use Rattle.x5_syntax.specs.ValueView.{value_view};

use crate::alike::{Alike, are_alike};
use x5_match::{Stored, StoredValue};
use x5_syntax::Value;

/// Whether the values are the same, in form and spelling. No memory.
fn is_same_value(value: &Value, other: &Value) -> bool
    ensures { MatchBool result (value_view value.now ≡ value_view other.now) (¬ (value_view value.now ≡ value_view other.now)) }
{
    match (value, other) {
        (Value::Text(text), Value::Text(other)) => text.is_alike(other),
        (Value::Octets(octets), Value::Octets(other)) => octets.as_slice() == other.as_slice(),
        (Value::Oid(oid), Value::Oid(other)) => oid.arcs() == other.arcs(),
        (Value::Name(name), Value::Name(other)) => name.is_alike(other),
        _ => false,
    }
}

impl Alike for StoredValue {
    fn is_alike(&self, other: &StoredValue) -> bool {
        is_same_value(&self.value, &other.value)
            && self.normal.as_slice() == other.normal.as_slice()
    }
}

impl Alike for Stored {
    fn is_alike(&self, other: &Stored) -> bool {
        self.kind.number() == other.kind.number()
            && are_alike(self.values.as_slice(), other.values.as_slice())
    }
}
