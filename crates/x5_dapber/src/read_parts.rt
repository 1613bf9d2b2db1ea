//! Numbers, marks and RDNs that values of types of messages say.
ghost use Rattle.std.specs.Prelude.{◌≡◌, IfOk};
ghost use Rattle.x5_dapber.specs.Sayable.{IsCount};
ghost use Rattle.x5_model.specs.Words.{in_option};
ghost use Rattle.x5_model_messages.specs.Terms as terms;
ghost use Rattle.x5_model_typed.specs.Nodes as nodes;
ghost use Rattle.x5_types.specs.NodeView.{node_view};

use std::alloc::Global;
use x5_memory::NoMemory;
use x5_names::Rdn;
use x5_types::Node;

/// The number that the node says, if it says one that isn't negative.
pub fn count_in(node: &Node<'_>) -> Option<u32>
    requires { IsCount (node_view node.now) }
    ensures { result ≡ terms.number_in (node_view node.now) }
{
    match node {
        Node::Number(number) => u32::try_from(*number).ok(),
        _ => None,
    }
}

/// The number that the node says, or else 0.
pub fn code_in(node: &Node<'_>) -> u32
    requires { IsCount (node_view node.now) }
    ensures { result ≡ in_option 0 (λ k. k) (terms.number_in (node_view node.now)) }
{
    count_in(node).unwrap_or(0)
}

/// Whether the node says so.
pub fn flag_in(node: &Node<'_>) -> bool
    ensures { result ≡ terms.flag_in (node_view node.now) }
{
    match node {
        Node::Flag(flag) => *flag,
        _ => false,
    }
}

/// Whether there is nothing.
pub fn is_vacant(node: &Node<'_>) -> bool
    ensures { result ≡ nodes.is_vacant (node_view node.now) }
{
    matches!(node, Node::Vacant)
}

/// The RDN that the node says.
pub fn rdn_of(alloc: Global, node: &Node<'_>) -> Result<Rdn, NoMemory>
    ensures { IfOk result (λ rdn. rdn ≡ terms.rdn_of (node_view node.now)) }
{
    x5_rules::rdn_of(alloc, node)
}
