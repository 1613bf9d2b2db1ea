//! Keys with numbers, found without a walk: a list in order, in which a key is looked for by halves.

ghost use Rattle.std.specs.Prelude.{◌≡◌, ◌≤◌, ◌<◌, ℕ, Bool, true, false, IfOk};
ghost use Rattle.std.specs.List.Sorted.{IsPermutation};
ghost use Rattle.std.specs.Ordering.{as_partial_cmp};
ghost use Rattle.std.proofs.Common.{refl};
ghost use Rattle.x5_check.specs.Rows as keyed;
ghost use Rattle.x5_check.specs.RowOrder.{same_row_laws, same_row_equivalence, row_partial_order, row_cmp_total, row_ties};

use std::cmp::Ordering;
use std::marker::Model;
use x5_names::{Key, NoMemory};

/// A key and a number.
#[derive(Drop)]
pub(crate) struct Row<'a> {
    key: &'a Key,
    number: usize,
}

impl<'a> Model for Row<'a> {
    ghost use Rattle.x5_check.specs.Rows as keyed;

    ghost Value = { keyed.KeyRow };

    ghost view = { λ r. (r.key.now, r.number) };
}

impl<'a> Row<'a> {
    /// The row of the two. No memory.
    pub(crate) fn new(key: &'a Key, number: usize) -> Row<'a>
        ensures { result ≡ (key.now, number) }
    {
        Row { key, number }
    }

    /// Its key. No memory.
    pub(crate) fn key(&self) -> &'a Key
        ensures { result.now ≡ self.now.0 }
    {
        self.key
    }

    /// Its number. No memory.
    pub(crate) fn number(&self) -> usize
        ensures { result ≡ self.now.1 }
    {
        self.number
    }
}

impl<'a> PartialEq for Row<'a> {
    ghost eq = { keyed.same_row };

    ghost laws = { same_row_laws };

    fn eq(&self, other: &Row<'a>) -> bool {
        self.key == other.key && self.number == other.number
    }
}

impl<'a> Eq for Row<'a> {
    ghost laws = { same_row_equivalence };
}

impl<'a> PartialOrd for Row<'a> {
    ghost partial_cmp = { as_partial_cmp keyed.row_cmp };

    ghost laws = { row_partial_order };

    fn partial_cmp(&self, other: &Row<'a>) -> Option<Ordering> {
        Some(self.cmp(other))
    }
}

impl<'a> Ord for Row<'a> {
    ghost cmp = { keyed.row_cmp };

    ghost total = { row_cmp_total };

    ghost matches_partial_cmp = { λ x y. refl };

    ghost matches_eq = { row_ties };

    fn cmp(&self, other: &Row<'a>) -> Ordering {
        self.key.cmp(other.key).then(self.number.cmp(&other.number))
    }
}

/// Rows in order.
#[derive(Drop)]
pub(crate) struct Table<'a> {
    rows: Vec<Row<'a>>,
}

impl<'a> Model for Table<'a> {
    ghost use Rattle.std.specs.Prelude.{List};
    ghost use Rattle.std.specs.List.Sorted.{IsSorted};
    ghost use Rattle.x5_check.specs.Rows as keyed;

    ghost Value = { List keyed.KeyRow };

    ghost view = { λ t. t.rows.items };

    ghost invariant = { λ t. IsSorted keyed.row_cmp t.rows.items };
}

impl<'a> Table<'a> {
    /// The table that has each of these rows.
    fn of(rows: Vec<Row<'a>>) -> Result<Table<'a>, NoMemory>
        ensures { IfOk result (λ table. IsPermutation rows.entry.items table) }
    {
        let mut rows = rows;
        rows.sort()?;
        Ok(Table { rows })
    }

    /// The table of these rows.
    pub(crate) fn sorted(rows: Vec<Row<'a>>) -> Result<Table<'a>, NoMemory>
        ensures { IfOk result (λ table. keyed.numbers_of table ≡ keyed.numbers_of rows.entry.items) }
    {
        Table::of(rows)
    }

    /// The least number of the key from this one on. No memory.
    pub(crate) fn next(&self, key: &Key, from: usize) -> Option<usize>
        ensures { keyed.IsNext (keyed.numbers_of self.now) key.now from result }
    {
        match self.rows.binary_search(&Row::new(key, from)) {
            Ok(_) => Some(from),
            Err(place) => match self.rows.get(place) {
                Some(row) if row.key == key => Some(row.number),
                _ => None,
            },
        }
    }

    /// Whether the key has the number. No memory.
    pub(crate) fn has(&self, key: &Key, number: usize) -> bool
        ensures { result ≡ keyed.numbers_of self.now key.now number }
    {
        self.rows.binary_search(&Row::new(key, number)).is_ok()
    }
}
