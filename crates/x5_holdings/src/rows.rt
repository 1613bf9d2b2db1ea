//! Names with their places, in the order of keys and then of places.

ghost use Rattle.std.specs.Prelude.{◌≡◌};
ghost use Rattle.std.specs.Ordering.{as_partial_cmp};
ghost use Rattle.std.proofs.Common.{refl};
ghost use Rattle.x5_model.specs.Keys.{is_prefix, key_cmp};
ghost use Rattle.x5_model.specs.Values.{key_of};
ghost use Rattle.x5_holdings.specs.Rows as rows;
ghost use Rattle.x5_holdings.specs.RowOrder.{same_row_laws, same_row_equivalence, row_partial_order, row_cmp_total, row_ties};

use std::cmp::Ordering;
use std::marker::Model;
use x5_names::{Name, Rdn};

/// A name, and its place in a list.
#[derive(Drop)]
pub struct Row {
    name: Name,
    place: usize,
}

impl Model for Row {
    ghost use Rattle.x5_model.specs.Values.{key_of};
    ghost use Rattle.x5_holdings.specs.Rows as rows;

    ghost Value = { rows.KeyRow };

    ghost view = { λ r. (key_of r.name, r.place) };
}

impl Row {
    /// The row of the two. No memory.
    pub(crate) fn new(name: Name, place: usize) -> Row
        ensures { result ≡ (key_of name, place) }
    {
        Row { name, place }
    }

    /// How its name stands to the name of these RDNs. No memory.
    pub(crate) fn compare(&self, rdns: &[Rdn]) -> Ordering
        ensures { result ≡ key_cmp self.now.0 (key_of rdns.now) }
    {
        crate::order::compare_names(self.name.rdns(), rdns)
    }

    /// Whether its name is that of these RDNs, or stands below it. No memory.
    pub(crate) fn is_under(&self, rdns: &[Rdn]) -> bool
        ensures { result ≡ is_prefix (key_of rdns.now) self.now.0 }
    {
        crate::order::begins_with(self.name.rdns(), rdns)
    }

    /// Its name. No memory.
    pub fn name(&self) -> &Name
        ensures { key_of result.now ≡ self.now.0 }
    {
        &self.name
    }

    /// Its place in the list. No memory.
    pub fn place(&self) -> usize
        ensures { result ≡ self.now.1 }
    {
        self.place
    }
}

impl PartialEq for Row {
    ghost eq = { rows.same_row };

    ghost laws = { same_row_laws };

    fn eq(&self, other: &Row) -> bool {
        self.name.is_same(&other.name) && self.place == other.place
    }
}

impl Eq for Row {
    ghost laws = { same_row_equivalence };
}

impl PartialOrd for Row {
    ghost partial_cmp = { as_partial_cmp rows.row_cmp };

    ghost laws = { row_partial_order };

    fn partial_cmp(&self, other: &Row) -> Option<Ordering> {
        Some(self.cmp(other))
    }
}

impl Ord for Row {
    ghost cmp = { rows.row_cmp };

    ghost total = { row_cmp_total };

    ghost matches_partial_cmp = { λ x y. refl };

    ghost matches_eq = { row_ties };

    fn cmp(&self, other: &Row) -> Ordering {
        self.name
            .cmp_key(&other.name)
            .then(self.place.cmp(&other.place))
    }
}
