//! Nodes of a tree: their numbers and what they hold, and why changes are refused.

ghost use Rattle.std.specs.Prelude.{◌≡◌, map, IfOk};
ghost use Rattle.x5_model.specs.Values.{key_of_pair};

use std::alloc::Global;
use std::marker::Model;
use thiserror::Error;
use x5_match::Entry;
use x5_memory::NoMemory;
use x5_names::{Name, Pair, Rdn};

/// The number of a node. A node keeps it while it's there; afterwards another may get it.
#[derive(Clone, Copy, PartialEq, Eq)]
pub struct NodeId(pub usize);

/// Why a change of a tree is refused.
#[derive(Clone, Copy, Debug, PartialEq, Eq, Error)]
pub enum DseFault {
    /// The name is there.
    #[error("the entry exists")]
    Exists,
    /// What stands just above the name isn't there.
    #[error("no parent")]
    NoParent,
    /// Something stands below the entry.
    #[error("not a leaf")]
    NotLeaf,
}

/// Where an entry's own RDN stands.
#[derive(Drop)]
pub(crate) enum Own {
    /// The last RDN of the name that it was added with; the others aren't looked at.
    Last(Name),
    /// The RDN that it was renamed to.
    Renamed(Rdn),
}

/// An entry of an agent (X.501: a DSA-specific entry): the node just above it, how many RDNs it stands below the prefix,
/// and its own RDN.
#[derive(Drop)]
pub(crate) struct Dse {
    pub(crate) parent: NodeId,
    pub(crate) depth: usize,
    pub(crate) own: Own,
    pub(crate) entry: Entry,
}

impl Model for Dse {
    ghost use Rattle.x5_dse.specs.Slot as slot;

    ghost Value = { slot.Slot };

    ghost view = { λ d. record { parent = d.parent; depth = d.depth; rdn = slot.own_rdn d.own; entry = d.entry } };
}

impl Dse {
    /// The pairs of its own RDN.
    pub(crate) fn pairs(&self) -> &[Pair]
        ensures { result.now ≡ self.now.rdn }
    {
        match &self.own {
            Own::Last(name) => match name.rdns() {
                [] => &[],
                [.., last] => last.pairs(),
            },
            Own::Renamed(rdn) => rdn.pairs(),
        }
    }

    /// Its own RDN.
    pub(crate) fn rdn(&self, alloc: Global) -> Result<Rdn, NoMemory>
        ensures { IfOk result (λ rdn. rdn ≡ self.now.rdn) }
    {
        match &self.own {
            Own::Last(name) => match name.rdns() {
                [] => Rdn::new(alloc, Vec::new(alloc)),
                [.., last] => Ok(last.clone()?),
            },
            Own::Renamed(rdn) => Ok(rdn.clone()?),
        }
    }
}
