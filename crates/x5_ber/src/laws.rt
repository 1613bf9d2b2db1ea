//! Laws of spellings, each the contract of a function that does nothing.
ghost use Rattle.std.specs.Prelude.{◌≡◌, List, ℕ, ◌++◌};
ghost use Rattle.x5_model_octets.specs.Elements.{Element, Spells, HasCanonical, canonical};

/// Octets spell one element at most, and no spelling begins another.
pub fn spellings_are_apart()
    ensures { (e f : Element) (s t x y : List ℕ) → Spells 1 e s → Spells 1 f t → s ++ x ≡ t ++ y → (e ≡ f) × (s ≡ t) }
{}

/// The canonical spelling is a spelling.
pub fn canonical_spells()
    ensures { (e : Element) → HasCanonical 1 e → Spells 1 e (canonical e) }
{}
