//! All that an agent holds.

ghost use Rattle.std.specs.Prelude.{◌≡◌, [], true, None, IfOk, map};
ghost use Rattle.std.specs.Option.{option_map};
ghost use Rattle.x5_model.specs.Keys.{same_key};
ghost use Rattle.x5_model.specs.Values.{key_of};
ghost use Rattle.x5_model.specs.Words.{has};
ghost use Rattle.x5_model_run.specs.Holdings.{held_at, copy_at, holds_within, known_pins, subordinates};
ghost use Rattle.x5_model_run.specs.Needs.{specific_at};
ghost use Rattle.x5_ops.specs.KnowledgeViews.{specific_view, cross_view};
ghost use Rattle.x5_ops.specs.RequestViews.{request_view};
ghost use Rattle.x5_holdings.specs.Known.{IsPlaceOf, IsKnown, IsKnownAt};
ghost use Rattle.x5_holdings.specs.Spots.{first_to, joined};
ghost use Rattle.x5_holdings.specs.State.{are_apart, are_once, copy_view, held_view, holdings_view};
ghost use Rattle.x5_holdings.specs.Tables.{AreTables, below_copies, below_own};

use crate::below::Below;
use crate::held::{Copied, Held, may_use_copies};
use crate::pins::Pins;
use crate::tables::Tables;
use std::alloc::Global;
use std::marker::Model;
use x5_memory::NoMemory;
use x5_names::{Name, Rdn};
use x5_ops::{AgentId, Cross, CrossList, Listed, Moment, Request, Specific, SpecificList};

/// What is known of a pin: the place of a context that is mastered, or of a copy, or a subordinate reference, or a cross reference.
#[derive(Clone, Copy)]
pub enum Pin<'a> {
    Own(usize),
    Copy(usize),
    Subordinate(&'a Specific),
    Cross(&'a Cross),
}

/// What an agent holds at a moment: the contexts that it masters, one of each prefix, copies of others, one of each context, and
/// references: its superior, the subordinate references of one RDN at a first-level agent, and cross references (X.501, section 22).
#[derive(Drop)]
pub struct Holdings {
    me: AgentId,
    moment: Moment,
    superior: Option<AgentId>,
    pub(crate) own: Vec<Held>,
    pub(crate) copies: Vec<Copied>,
    root: SpecificList,
    cross: CrossList,
    pub(crate) tables: Tables,
}

impl Model for Holdings {
    ghost use Rattle.x5_holdings.specs.State.{State};

    ghost Value = { State };

    ghost use Rattle.x5_holdings.specs.Inside as inside;

    ghost view = { inside.state_of };

    ghost invariant = { inside.AreHoldings };
}

impl Holdings {
    /// What an agent holds that holds and knows nothing. No memory.
    pub fn empty(alloc: Global, me: AgentId) -> Holdings
        ensures { result ≡ record { me = me; moment = 0; superior = None; own = []; copies = []; root = []; cross = [] } }
    {
        Holdings {
            me,
            moment: Moment(0),
            superior: None,
            own: Vec::new(alloc),
            copies: Vec::new(alloc),
            root: Listed::new(alloc),
            cross: Listed::new(alloc),
            tables: Tables {
                own: Pins::none(alloc),
                copies: Pins::none(alloc),
                below_own: Below::none(alloc),
                below_copies: Below::none(alloc),
                root: Pins::none(alloc),
                cross: Pins::none(alloc),
            },
        }
    }

    /// What an agent holds with these contexts, copies and references, at moment 0. No two of the contexts have one prefix, and no
    /// two of the copies are of one context.
    pub fn new(
        alloc: Global,
        me: AgentId,
        superior: Option<AgentId>,
        own: Vec<Held>,
        copies: Vec<Copied>,
        root: SpecificList,
        cross: CrossList,
    ) -> Result<Holdings, NoMemory>
        requires apart { are_apart own.items ≡ true }
        requires once { are_once copies.items ≡ true }
        ensures { IfOk result (λ h. h ≡ record { me = me; moment = 0; superior = superior; own = own.items; copies = copies.items; root = root; cross = cross }) }
    {
        let tables = Tables::of(alloc, &own, &copies, root.as_slice(), cross.as_slice())?;
        Ok(Holdings {
            me,
            moment: Moment(0),
            superior,
            own,
            copies,
            root,
            cross,
            tables,
        })
    }

    /// The agent. No memory.
    pub fn me(&self) -> AgentId
        ensures { result ≡ self.now.me }
    {
        self.me
    }

    /// The moment of the current line. No memory.
    pub fn moment(&self) -> Moment
        ensures { result ≡ self.now.moment }
    {
        self.moment
    }

    /// Sets the moment. No memory.
    pub fn set_moment(&mut self, moment: Moment)
        ensures { self.new ≡ record self.old { moment = moment } }
    {
        self.moment = moment;
    }

    /// The agent's superior; a first-level agent has none. No memory.
    pub fn superior(&self) -> Option<AgentId>
        ensures { result ≡ self.now.superior }
    {
        self.superior
    }

    /// What is kept beside the lists. No memory.
    pub(crate) fn tables(&self) -> &Tables
        ensures { AreTables self.now result.now }
    {
        &self.tables
    }

    /// The contexts that it masters, in their order, no two of one prefix. No memory.
    pub fn own(&self) -> &[Held]
        ensures own { result.now ≡ self.now.own }
        ensures apart { are_apart self.now.own ≡ true }
    {
        self.own.as_slice()
    }

    /// Its copies, in their order, no two of one context. No memory.
    pub fn copies(&self) -> &[Copied]
        ensures copies { result.now ≡ self.now.copies }
        ensures once { are_once self.now.copies ≡ true }
    {
        self.copies.as_slice()
    }

    /// The subordinate references of one RDN at a first-level agent, in their order. No memory.
    pub fn root(&self) -> &[Specific]
        ensures { result.now ≡ self.now.root }
    {
        self.root.as_slice()
    }

    /// The cross references, in their order. No memory.
    pub fn cross(&self) -> &[Cross]
        ensures { result.now ≡ self.now.cross }
    {
        self.cross.as_slice()
    }

    /// The place of the context that it masters with this prefix; the first of several. No memory.
    pub fn own_at(&self, prefix: &[Rdn]) -> Option<usize>
        ensures { IsPlaceOf held_view self.now.own (held_at (holdings_view self.now).own (key_of prefix.now)) result }
    {
        self.tables.own.first(prefix)
    }

    /// The place of its copy of the context with this prefix. No memory.
    pub fn copy_at(&self, prefix: &[Rdn]) -> Option<usize>
        ensures { IsPlaceOf copy_view self.now.copies (copy_at (holdings_view self.now) (key_of prefix.now)) result }
    {
        self.tables.copies.first(prefix)
    }

    /// The first subordinate reference to the pin among those that the request may use: those of contexts that are mastered come
    /// first, then those of copies, then those of the root. No memory.
    pub fn subordinate_at(&self, request: &Request, pin: &[Rdn]) -> Option<&Specific>
        ensures { option_map (λ k. specific_view k.now) result ≡ specific_at (subordinates (request_view request.now) (holdings_view self.now)) (key_of pin.now) }
    {
        if let Some(reference) = self.below_own(pin) {
            return Some(reference);
        }
        if may_use_copies(request) {
            if let Some(reference) = self.below_copies(pin) {
                return Some(reference);
            }
        }
        self.below_root(pin)
    }

    /// The first subordinate reference to the pin among those of contexts that are mastered. No memory.
    fn below_own(&self, pin: &[Rdn]) -> Option<&Specific>
        ensures { option_map (λ k. k.now) result ≡ first_to (joined (below_own self.now)) (key_of pin.now) }
    {
        let spot = self.tables.below_own.first(pin)?;
        let held = self.own.get(spot.list)?;
        held.subordinate().get(spot.member)
    }

    /// The first subordinate reference to the pin among those of copies. No memory.
    fn below_copies(&self, pin: &[Rdn]) -> Option<&Specific>
        ensures { option_map (λ k. k.now) result ≡ first_to (joined (below_copies self.now)) (key_of pin.now) }
    {
        let spot = self.tables.below_copies.first(pin)?;
        let copy = self.copies.get(spot.list)?;
        copy.subordinate().get(spot.member)
    }

    /// The first subordinate reference to the pin among those of the root. No memory.
    fn below_root(&self, pin: &[Rdn]) -> Option<&Specific>
        ensures { option_map (λ k. specific_view k.now) result ≡ specific_at (holdings_view self.now).root (key_of pin.now) }
    {
        let place = self.tables.root.first(pin)?;
        self.root.as_slice().get(place)
    }

    /// The first cross reference to the pin. No memory.
    pub fn cross_at(&self, pin: &[Rdn]) -> Option<&Cross>
        ensures { option_map (λ k. cross_view k.now) result ≡ specific_at (holdings_view self.now).cross (key_of pin.now) }
    {
        let place = self.tables.cross.first(pin)?;
        self.cross.as_slice().get(place)
    }

    /// The first of what is known of the pin. No memory.
    fn known_at(&self, request: &Request, pin: &[Rdn]) -> Option<Pin<'_>>
        ensures { IsKnownAt (request_view request.now) (holdings_view self.now) (key_of pin.now) result }
    {
        if let Some(place) = self.own_at(pin) {
            return Some(Pin::Own(place));
        }
        if let Some(place) = self.copy_at(pin) {
            return Some(Pin::Copy(place));
        }
        if let Some(reference) = self.subordinate_at(request, pin) {
            return Some(Pin::Subordinate(reference));
        }
        Some(Pin::Cross(self.cross_at(pin)?))
    }

    /// Whether the pin is known: a context that is mastered or a copy has it as its prefix, or a reference that the request may use
    /// leads to it. No memory.
    pub fn knows(&self, request: &Request, pin: &[Rdn]) -> bool
        ensures { result ≡ has same_key (map key_of (known_pins (request_view request.now) (holdings_view self.now))) (key_of pin.now) }
    {
        self.known_at(request, pin).is_some()
    }

    /// The first of what is known of the longest known prefix of the name: a context that is mastered comes before a copy, a copy
    /// before a subordinate reference, and that before a cross reference. References of copies count where the request may use
    /// them. No memory.
    pub fn known(&self, request: &Request, name: &[Rdn]) -> Option<Pin<'_>>
        ensures { IsKnown (request_view request.now) (holdings_view self.now) (key_of name.now) result }
    {
        let found = self.known_at(request, name);
        if found.is_some() {
            return found;
        }
        if name.is_empty() {
            return None;
        }
        self.known(request, &name[..name.len() - 1])
    }

    /// Whether it masters or has a copy of a context whose prefix is a prefix of the name with at least so many RDNs. No memory.
    pub fn holds_within(&self, name: &[Rdn], least: usize) -> bool
        ensures { result ≡ holds_within (holdings_view self.now) (key_of name.now) least }
    {
        if name.len() < least {
            return false;
        }
        if self.own_at(name).is_some() || self.copy_at(name).is_some() {
            return true;
        }
        if name.is_empty() {
            return false;
        }
        self.holds_within(&name[..name.len() - 1], least)
    }
}
