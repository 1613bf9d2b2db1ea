//! What a list or search looks at below its base (X.511, section 10), and where NSSRs count (X.518, section 19).

ghost use Rattle.std.specs.Prelude.{◌≡◌, ℕ, List, Some, if◌then◌else◌};
ghost use Rattle.std.specs.Option.{option_map};
ghost use Rattle.x5_model.specs.Requests as requests;
ghost use Rattle.x5_model.specs.Values.{key_of};
ghost use Rattle.x5_model_tree.specs.Ask as model;
ghost use Rattle.x5_model_run.specs.Needs as needs;
ghost use Rattle.x5_ops.specs.ReferenceViews.{chained_view};
ghost use Rattle.x5_ops.specs.RequestViews.{subset_view};

use x5_names::{Key, Name};
use x5_ops::{Body, Chained, Progress, Subset};

/// Whether a reference to a pin brought the message: its name is resolved, and the reference isn't nonSpecific. No memory.
fn is_by_pin(message: &Chained) -> bool
    ensures { (names : List (List ℕ)) → result ≡ needs.by_pin (chained_view names message.now) }
{
    matches!(message.progress, Progress::Completed) && !message.kind.is_wide()
}

/// What a list looks at. No memory.
fn list_subset(by_pin: bool) -> Subset
    ensures { Some (subset_view result) ≡ (if by_pin then Some requests.Base else Some requests.OneLevel) }
{
    if by_pin { Subset::Base } else { Subset::One }
}

/// What a list or search looks at below the target; a list that came by a reference to a pin asks for that pin alone. No other
/// request has one. No memory.
pub(crate) fn subset_of(message: &Chained) -> Option<Subset>
    ensures { (names : List (List ℕ)) → option_map subset_view result ≡ needs.subset_of (chained_view names message.now) }
{
    match &message.request.body {
        Body::List { .. } => Some(list_subset(is_by_pin(message))),
        Body::Search { subset, .. } => Some(*subset),
        _ => None,
    }
}

/// Whether the key is in the subset. No memory.
pub(crate) fn is_in_subset(subset: Subset, base: &Key, key: &Key) -> bool
    ensures { result ≡ model.in_subset (subset_view subset) base.now key.now }
{
    match subset {
        Subset::Base => base == key,
        Subset::One => key.len() > 0 && key.len() - 1 == base.len() && base.is_prefix(key),
        Subset::Tree => base.is_prefix(key),
    }
}

/// Whether NSSRs at the entry of the name count. No memory.
pub(crate) fn is_in_scope(subset: Subset, base: &Name, at: &Name) -> bool
    ensures { result ≡ needs.in_scope (subset_view subset) (key_of base.now) (key_of at.now) }
{
    match subset {
        Subset::Base => false,
        Subset::One => base.is_same(at),
        Subset::Tree => base.is_prefix(at),
    }
}
