//! Keys with numbers, found by what the keys hash to. Nearly all keys have one number; the others of a key stand in a table.

ghost use Rattle.std.specs.Prelude.{◌≡◌, ◌∷◌, [], IfOk, OnOk};
ghost use Rattle.x5_check.specs.Parts.{earlier};
ghost use Rattle.x5_check.specs.Rows as keyed;
ghost use Rattle.x5_check.specs.Indexed.{either, indexed};

use crate::table::{Row, Table};
use indexmap::IndexMap;
use std::alloc::Global;
use x5_names::{Key, NoMemory};

/// Keys with their first numbers, and the rows of all other numbers.
#[derive(Drop)]
struct Indexing<'a> {
    firsts: IndexMap<Key, usize>,
    more: Vec<Row<'a>>,
}

impl<'a> Indexing<'a> {
    /// Adds the row's number.
    fn add(&mut self, row: &Row<'a>) -> Result<(), NoMemory>
        ensures { OnOk result (indexed self.new.firsts self.new.more.items ≡ either (indexed self.old.firsts self.old.more.items) (keyed.numbers_of (row.now ∷ []))) }
    {
        if self.firsts.contains_key(row.key()) {
            self.more.push(Row::new(row.key(), row.number()))?;
            return Ok(());
        }
        self.firsts.insert(row.key().clone()?, row.number())?;
        Ok(())
    }
}

/// The earlier of two places, if there are any. No memory.
pub(crate) fn earlier_of(a: Option<usize>, b: Option<usize>) -> Option<usize>
    ensures { result ≡ earlier a b }
{
    match (a, b) {
        (Some(a), Some(b)) => Some(if b < a { b } else { a }),
        (Some(a), None) => Some(a),
        (None, b) => b,
    }
}

/// Keys with numbers.
#[derive(Drop)]
pub(crate) struct Index<'a> {
    firsts: IndexMap<Key, usize>,
    more: Table<'a>,
}

impl<'a> Index<'a> {
    /// What the rows say.
    pub(crate) fn of(alloc: Global, rows: &[Row<'a>]) -> Result<Index<'a>, NoMemory>
        ensures { IfOk result (λ index. indexed index.firsts index.more ≡ keyed.numbers_of rows.now) }
    {
        let mut indexing = Indexing {
            firsts: IndexMap::new(alloc),
            more: Vec::new(alloc),
        };
        for row in rows {
            indexing.add(row)?;
        }
        let Indexing { firsts, more } = indexing;
        match Table::sorted(more) {
            Ok(more) => Ok(Index { firsts, more }),
            Err(fault) => {
                drop(firsts);
                Err(fault)
            }
        }
    }

    /// The least number of the key from this one on. No memory.
    pub(crate) fn next(&self, key: &Key, from: usize) -> Option<usize>
        ensures { keyed.IsNext (indexed self.now.firsts self.now.more) key.now from result }
    {
        let first = match self.firsts.get(key) {
            Some(first) if *first >= from => Some(*first),
            _ => None,
        };
        earlier_of(first, self.more.next(key, from))
    }
}
