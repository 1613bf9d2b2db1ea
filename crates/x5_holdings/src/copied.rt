//! Changes of one of the copies that an agent has (X.525, section 9: what a refresh brings).

ghost use Rattle.std.specs.Prelude.{◌≡◌, ◌<◌, IsSomeAnd, IsTrue, length, slice_get, OnErr, OnOk, Some};
ghost use Rattle.std.specs.Option.{is_some, option_map};
ghost use Rattle.x5_model.specs.Values.{key_of};
ghost use Rattle.x5_holdings.specs.Making.{HasRoomFor, IsChanged, IsLeft, IsReady, IsSame};
ghost use Rattle.x5_holdings.specs.Placed.{IsBroughtChanged, IsCopyChanged, IsRenewed};
ghost use Rattle.x5_holdings.specs.State.{CopyKept};

use crate::below::Below;
use crate::changing::EntryChange;
use crate::held::{Copied, Held};
use crate::holdings::Holdings;
use crate::log::{ChangeLog, Logged};
use std::alloc::Global;
use x5_memory::NoMemory;
use x5_ops::{Moment, NssrList, SpecificList};

impl Copied {
    /// Takes what a refresh brought in place of what was there, with its stamp. No memory.
    fn take(&mut self, held: Held, stamp: Moment)
        requires { key_of held.prefix ≡ key_of self.old.prefix }
        ensures { self.new ≡ record self.old { refreshed = Some (held, stamp) } }
    {
        self.refreshed = Some((held, stamp));
    }

    /// Keeps the entries that refreshes brought, with this log and these references, and a stamp. After want of memory all is as it
    /// was.
    fn renew(
        &mut self,
        alloc: Global,
        log: ChangeLog,
        subordinate: SpecificList,
        nssrs: NssrList,
        stamp: Moment,
    ) -> Result<(), NoMemory>
        requires { IsTrue (is_some self.old.refreshed) }
        ensures ok { OnOk result (IsRenewed log subordinate nssrs stamp self.old self.new) }
        ensures err { OnErr result (self.new ≡ self.old) }
    {
        match &mut self.refreshed {
            Some((held, last)) => {
                held.renew(alloc, log, subordinate, nssrs)?;
                *last = stamp;
                Ok(())
            }
            None => unreachable!(),
        }
    }

    /// Makes room for so many entries with so many values, and for so many changes in the log. After want of memory all is as it
    /// was.
    fn make_room(&mut self, entries: usize, values: usize, changes: usize) -> Result<(), NoMemory>
        requires { IsTrue (is_some self.old.refreshed) }
        ensures same { IsBroughtChanged IsSame self.old self.new }
        ensures ok { OnOk result (IsBroughtChanged (λ before after. IsSame before after × HasRoomFor after entries values changes) self.old self.new) }
    {
        match &mut self.refreshed {
            Some((held, _)) => held.make_room_for(entries, values, changes),
            None => unreachable!(),
        }
    }

    /// Makes a change that is ready, and notes it in the log. No memory.
    fn change(&mut self, change: EntryChange, logged: Logged)
        requires ready { IsSomeAnd self.old.refreshed (λ s. IsReady s.0 change) }
        requires room { IsSomeAnd self.old.refreshed (λ s. 0 < s.0.log.spare) }
        ensures { IsBroughtChanged (λ before after. IsChanged before change logged after × IsLeft before change after) self.old self.new }
    {
        match &mut self.refreshed {
            Some((held, _)) => held.change(change, logged),
            None => unreachable!(),
        }
    }

    /// Gives what refreshes brought another stamp. No memory.
    fn set_stamp(&mut self, stamp: Moment)
        ensures { self.new ≡ record self.old { refreshed = option_map (λ s. (s.0, stamp)) self.old.refreshed } }
    {
        if let Some((_, last)) = &mut self.refreshed {
            *last = stamp;
        }
    }
}

impl Holdings {
    /// Puts what a total refresh brought, with its stamp, in place of what its copy of this place had (X.525, section 9). After
    /// want of memory all is as it was.
    pub fn refresh_copy(&mut self, copy: usize, held: Held, stamp: Moment) -> Result<(), NoMemory>
        requires there { copy < length self.old.copies }
        requires prefix { (c : CopyKept) → slice_get self.old.copies copy ≡ Some c → key_of held.prefix ≡ key_of c.prefix }
        ensures ok { OnOk result (IsCopyChanged self.old copy (λ before after. after ≡ record before { refreshed = Some (held, stamp) }) self.new) }
        ensures err { OnErr result (self.new ≡ self.old) }
    {
        let alloc = *self.copies.allocator();
        match Below::with_copy(alloc, &self.copies, copy, held.subordinate()) {
            Ok(below) => {
                self.copies[copy].take(held, stamp);
                self.tables.below_copies = below;
                Ok(())
            }
            Err(fault) => {
                drop(held);
                Err(fault)
            }
        }
    }

    /// Keeps the entries that refreshes brought of its copy of this place, and has this log, these references and this stamp for it: so
    /// it takes a total refresh that brings the same entries again (X.525, section 11.3). After want of memory all is as it was.
    pub fn renew_copy(
        &mut self,
        alloc: Global,
        copy: usize,
        log: ChangeLog,
        subordinate: SpecificList,
        nssrs: NssrList,
        stamp: Moment,
    ) -> Result<(), NoMemory>
        requires there { copy < length self.old.copies }
        requires refreshed { (c : CopyKept) → slice_get self.old.copies copy ≡ Some c → IsTrue (is_some c.refreshed) }
        ensures ok { OnOk result (IsCopyChanged self.old copy (IsRenewed log subordinate nssrs stamp) self.new) }
        ensures err { OnErr result (self.new ≡ self.old) }
    {
        let references = Below::with_copy(alloc, &self.copies, copy, subordinate.as_slice())?;
        self.copies[copy].renew(alloc, log, subordinate, nssrs, stamp)?;
        self.tables.below_copies = references;
        Ok(())
    }

    /// Makes room at its copy of this place, for so many entries with so many values and so many changes in the copy's log. After
    /// want of memory all is as it was.
    pub fn make_room_at_copy(
        &mut self,
        copy: usize,
        entries: usize,
        values: usize,
        changes: usize,
    ) -> Result<(), NoMemory>
        requires there { copy < length self.old.copies }
        requires refreshed { (c : CopyKept) → slice_get self.old.copies copy ≡ Some c → IsTrue (is_some c.refreshed) }
        ensures same { IsCopyChanged self.old copy (IsBroughtChanged IsSame) self.new }
        ensures ok { OnOk result (IsCopyChanged self.old copy (IsBroughtChanged (λ before after. IsSame before after × HasRoomFor after entries values changes)) self.new) }
    {
        self.copies[copy].make_room(entries, values, changes)
    }

    /// Makes a change that is ready in its copy of this place, and notes it in the copy's log (X.511, section 11; X.525, section
    /// 9). No memory.
    pub fn change_copy(&mut self, copy: usize, change: EntryChange, logged: Logged)
        requires there { copy < length self.old.copies }
        requires ready { (c : CopyKept) → slice_get self.old.copies copy ≡ Some c → IsSomeAnd c.refreshed (λ s. IsReady s.0 change) }
        requires room { (c : CopyKept) → slice_get self.old.copies copy ≡ Some c → IsSomeAnd c.refreshed (λ s. 0 < s.0.log.spare) }
        ensures { IsCopyChanged self.old copy (IsBroughtChanged (λ before after. IsChanged before change logged after × IsLeft before change after)) self.new }
    {
        self.copies[copy].change(change, logged);
    }

    /// Gives what refreshes brought of its copy of this place another stamp (X.525, section 9). No memory.
    pub fn set_stamp(&mut self, copy: usize, stamp: Moment)
        requires { copy < length self.old.copies }
        ensures { IsCopyChanged self.old copy (λ before after. after ≡ record before { refreshed = option_map (λ s. (s.0, stamp)) before.refreshed }) self.new }
    {
        self.copies[copy].set_stamp(stamp);
    }
}
