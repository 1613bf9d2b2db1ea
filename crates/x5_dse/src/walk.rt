//! A node and all that stands below it.

ghost use Rattle.std.specs.Iterator.{YieldsFirst, item_count};

use crate::node::NodeId;
use crate::place::Reached;
use crate::tree::DseTree;
use std::marker::Model;

/// A node and all nodes below it, in the order of their keys. Contracts see those that are left.
#[derive(Drop)]
pub struct Walk<'a> {
    pub(crate) tree: &'a DseTree,
    pub(crate) from: NodeId,
    pub(crate) at: Option<NodeId>,
    pub(crate) reached: Reached,
}

impl<'a> Model for Walk<'a> {
    ghost use Rattle.std.specs.Prelude.{List};
    ghost use Rattle.x5_dse.specs.declared.node.NodeId.{NodeId};

    ghost Value = { List NodeId };

    ghost use Rattle.x5_dse.specs.Walks as walks;

    ghost view = { walks.left };

    ghost invariant = { walks.Invariant };
}

impl<'a> Iterator for Walk<'a> {
    type Item = NodeId;

    ghost next_gives = { YieldsFirst (λ nodes. nodes) };

    ghost remaining = { item_count (λ nodes. nodes) };

    fn next(&mut self) -> Option<NodeId> {
        let Some(node) = self.at else {
            return None;
        };
        self.at = self.tree.after(self.from, node, &mut self.reached);
        Some(node)
    }
}
