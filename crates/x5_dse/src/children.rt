//! What stands just below a node.

ghost use Rattle.std.specs.Prelude.{◌≡◌};
ghost use Rattle.std.specs.Iterator.{YieldsFirst, item_count};
ghost use Rattle.x5_dse.specs.Inside.{IsRow};
ghost use Rattle.x5_dse.specs.Run.{run_from};

use crate::node::{Dse, NodeId};
use crate::place::is_below_at;
use std::marker::Model;

/// The nodes just below a node, in the order of their keys. Contracts see those that are left.
#[derive(Drop)]
pub struct Children<'a> {
    slots: &'a [Option<Dse>],
    order: &'a [NodeId],
    above: NodeId,
    at: usize,
}

impl<'a> Model for Children<'a> {
    ghost use Rattle.std.specs.Prelude.{List};
    ghost use Rattle.x5_dse.specs.declared.node.NodeId.{NodeId};

    ghost Value = { List NodeId };

    ghost use Rattle.x5_dse.specs.Run as run;

    ghost view = { run.left };

    ghost invariant = { run.Invariant };
}

impl<'a> Children<'a> {
    /// What stands just below the node, from the place on.
    pub(crate) fn new(
        slots: &'a [Option<Dse>],
        order: &'a [NodeId],
        above: NodeId,
        at: usize,
    ) -> Children<'a>
        requires { IsRow slots.now order.now }
        ensures { result ≡ run_from slots.now order.now above at }
    {
        Children {
            slots,
            order,
            above,
            at,
        }
    }
}

impl<'a> Iterator for Children<'a> {
    type Item = NodeId;

    ghost next_gives = { YieldsFirst (λ nodes. nodes) };

    ghost remaining = { item_count (λ nodes. nodes) };

    fn next(&mut self) -> Option<NodeId> {
        if !is_below_at(self.slots, self.order, self.above, self.at) {
            return None;
        }
        let node = self.order[self.at];
        self.at += 1;
        Some(node)
    }
}
