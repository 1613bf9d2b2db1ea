//! The network as it is before the first line: which agents are down or refuse to chain, which pairs are cut, and which messages
//! and replies are lost.

use std::marker::Model;
use x5_ops::{AgentId, AgentList, Listed};

/// Two different agents, in either order.
#[derive(Clone, Copy)]
pub struct Pair {
    pub a: AgentId,
    pub b: AgentId,
}

impl Model for Pair {
    ghost use Rattle.std.specs.Prelude.{ℕ};

    ghost Value = { ℕ × ℕ };

    ghost view = { λ p. (p.a, p.b) };

    ghost inverse = { λ p. record { a = p.0; b = p.1 } };
}

/// Pairs of agents in the order of the file.
pub type PairList = Listed<Pair>;

/// Numbers of messages, from 1, in the order of the file.
pub type NumberList = Listed<u32>;

/// The network of a world. Of each list no member stands there twice, and no pair in either order.
#[derive(Drop)]
pub struct NetworkState {
    pub down: AgentList,
    pub refusing: AgentList,
    pub cut: PairList,
    pub lost_messages: NumberList,
    pub lost_replies: NumberList,
}

impl Model for NetworkState {
    ghost use Rattle.x5_model_tree.specs.World as world;

    ghost Value = { world.Network };

    ghost view = { λ n. record { down = n.down; refusing = n.refusing; cut = n.cut; lost_messages = n.lost_messages; lost_replies = n.lost_replies } };
}
