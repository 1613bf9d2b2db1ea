//! Logs of changes (X.525, section 9).

ghost use Rattle.std.specs.Prelude.{◌≡◌, ◌<◌, ◌≤◌, ◌+◌, ◌∷◌, ◌++◌, [], length, drop, vec_len, vec_capacity, OnOk, Some};
ghost use Rattle.std.specs.Option.{option_map};
ghost use Rattle.x5_model.specs.Words.{first_of};
ghost use Rattle.x5_holdings.specs.Logs.{IsLogged};

use std::alloc::Global;
use std::marker::Model;
use x5_memory::NoMemory;
use x5_ops::{Moment, Step};

/// How many changes a log has at most.
const MOST: usize = 256;

/// A change of a context, with its moment.
#[derive(Drop)]
pub struct Logged {
    pub moment: Moment,
    pub step: Step,
}

/// The changes of a context since its base moment, the oldest first; 256 at most.
#[derive(Drop)]
pub struct ChangeLog {
    base: Moment,
    changes: Vec<Logged>,
}

impl Model for ChangeLog {
    ghost use Rattle.std.specs.Prelude.{◌≤◌, ◌-◌, length, vec_len, vec_capacity};
    ghost use Rattle.x5_holdings.specs.Logs as logs;

    ghost Value = { logs.Log };

    ghost view = { λ l. record { base = l.base; changes = l.changes.items; spare = vec_capacity l.changes - vec_len l.changes } };

    ghost invariant = { λ l. length l.changes.items ≤ 256 };
}

/// Drops the oldest change, and answers its moment. No memory.
fn drop_oldest(changes: &mut Vec<Logged>) -> Moment
    requires { 0 < length changes.old.items }
    ensures moment { option_map (λ x. x.moment) (first_of changes.old.items) ≡ Some result }
    ensures items { changes.new.items ≡ drop 1 changes.old.items }
    ensures len { vec_len changes.new + 1 ≡ vec_len changes.old }
    ensures capacity { vec_capacity changes.new ≡ vec_capacity changes.old }
{
    let oldest = changes.remove(0);
    let moment = oldest.moment;
    drop(oldest);
    moment
}

/// Puts a change at the end. No memory: there is room.
fn put_latest(changes: &mut Vec<Logged>, change: Logged)
    requires { vec_len changes.old < vec_capacity changes.old }
    ensures items { changes.new.items ≡ changes.old.items ++ change ∷ [] }
    ensures len { vec_len changes.new ≡ vec_len changes.old + 1 }
    ensures capacity { vec_capacity changes.old ≤ vec_capacity changes.new }
{
    changes.push_reserved(change);
}

impl ChangeLog {
    /// No changes since this moment. No memory.
    pub fn new(alloc: Global, base: Moment) -> ChangeLog
        ensures base { result.base ≡ base }
        ensures changes { result.changes ≡ [] }
    {
        ChangeLog {
            base,
            changes: Vec::new(alloc),
        }
    }

    /// The base moment. No memory.
    pub fn base(&self) -> Moment
        ensures { result ≡ self.now.base }
    {
        self.base
    }

    /// The changes, the oldest first; 256 at most. No memory.
    pub fn changes(&self) -> &[Logged]
        ensures changes { result.now ≡ self.now.changes }
        ensures few { length self.now.changes ≤ 256 }
    {
        self.changes.as_slice()
    }

    /// Makes room for so many changes. After want of memory the log is as it was.
    pub fn reserve(&mut self, count: usize) -> Result<(), NoMemory>
        ensures base { self.new.base ≡ self.old.base }
        ensures changes { self.new.changes ≡ self.old.changes }
        ensures spare { self.old.spare ≤ self.new.spare }
        ensures ok { OnOk result (count ≤ self.new.spare) }
    {
        self.changes.reserve(count)?;
        Ok(())
    }

    /// Notes a change. Where 256 are there the oldest goes, and its moment is the base then. No memory: it needs `spare`.
    pub fn note(&mut self, change: Logged)
        requires { 0 < self.old.spare }
        ensures noted { IsLogged self.old change self.new }
        ensures left { self.old.spare ≤ self.new.spare + 1 }
    {
        if self.changes.len() == MOST {
            self.base = drop_oldest(&mut self.changes);
        }
        put_latest(&mut self.changes, change);
    }
}
