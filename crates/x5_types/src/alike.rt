//! Whether two values of types are the same.
ghost use Rattle.std.specs.Prelude.{◌≡◌};
ghost use Rattle.x5_model_typed.specs.Nodes as nodes;
ghost use Rattle.x5_types.specs.NodeView.{node_view};

use crate::node::Node;

/// Whether the nodes are the same: of one sort, and alike in each part. No memory.
pub fn same(node: &Node<'_>, other: &Node<'_>) -> bool
    ensures { result ≡ nodes.same (node_view node.now) (node_view other.now) }
{
    match (node, other) {
        (Node::Vacant, Node::Vacant) => true,
        (Node::Flag(flag), Node::Flag(other)) => flag == other,
        (Node::Number(number), Node::Number(other)) => number == other,
        (Node::Oid(arcs), Node::Oid(other)) => arcs == other,
        (Node::Bits(bits), Node::Bits(other)) => bits == other,
        (Node::Octets(octets), Node::Octets(other)) => octets.as_slice() == other.as_slice(),
        (Node::Text(text), Node::Text(other)) => text.as_str() == other.as_str(),
        (Node::Chosen(tag, chosen), Node::Chosen(other_tag, other)) => {
            tag == other_tag && same(chosen, other)
        }
        (Node::Many(members), Node::Many(others)) => {
            if members.len() != others.len() {
                return false;
            }
            for (i, member) in members.iter().enumerate() {
                if !same(member, &others[i]) {
                    return false;
                }
            }
            true
        }
        _ => false,
    }
}
