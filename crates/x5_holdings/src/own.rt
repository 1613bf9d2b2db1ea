//! Changes of one of the contexts that an agent masters.

ghost use Rattle.std.specs.Prelude.{◌≡◌, ◌<◌, length, slice_get, OnOk, Some};
ghost use Rattle.x5_dse.specs.Linked.{entries_of};
ghost use Rattle.x5_holdings.specs.Making.{HasRoom, IsChanged, IsReady, IsSame};
ghost use Rattle.x5_holdings.specs.Placed.{IsOwnChanged};
ghost use Rattle.x5_holdings.specs.State.{Kept};

use crate::changing::EntryChange;
use crate::holdings::Holdings;
use crate::log::Logged;
use x5_memory::NoMemory;
use x5_ops::NamedList;

impl Holdings {
    /// These are the entries of the context of this place that it masters, in the order of their names' keys: they are listed from now
    /// on, until they change. No memory.
    pub fn list_own(&mut self, own: usize, entries: NamedList)
        requires there { own < length self.old.own }
        requires listed { (c : Kept) → slice_get self.old.own own ≡ Some c → entries ≡ entries_of c.nodes.nodes }
        ensures { self.new ≡ self.old }
    {
        self.own[own].list(entries);
    }

    /// Makes room at the context of this place that it masters, for so many entries with so many values and a change in the
    /// context's log. After want of memory all is as it was.
    pub fn make_room(&mut self, own: usize, entries: usize, values: usize) -> Result<(), NoMemory>
        requires { own < length self.old.own }
        ensures same { IsOwnChanged self.old own IsSame self.new }
        ensures ok { OnOk result (IsOwnChanged self.old own (λ before after. HasRoom after entries values) self.new) }
    {
        self.own[own].make_room(entries, values)
    }

    /// Makes a change that is ready in the context of this place that it masters, and notes it in the context's log (X.511,
    /// section 11; X.525, section 9). No memory.
    pub fn change(&mut self, own: usize, change: EntryChange, logged: Logged)
        requires there { own < length self.old.own }
        requires ready { (c : Kept) → slice_get self.old.own own ≡ Some c → IsReady c change }
        requires room { (c : Kept) → slice_get self.old.own own ≡ Some c → 0 < c.log.spare }
        ensures { IsOwnChanged self.old own (λ before after. IsChanged before change logged after) self.new }
    {
        self.own[own].change(change, logged);
    }
}
