//! Agents of references in refreshes (X.525, section 10): a master and then copies, or masters alone.
ghost use Rattle.std.specs.Prelude.{◌≡◌, map, not};
ghost use Rattle.std.specs.List.{list_all};
ghost use Rattle.x5_model_typed.specs.Leaves.{where_so};
ghost use Rattle.x5_model_typed.specs.Rules as rules;
ghost use Rattle.x5_types.specs.NodeView.{node_view};

use x5_types::Node;

/// Whether the agent has a copy.
#[tactic(auto, using(crate::proofs::TwoParts::no_copy))]
fn is_copy(node: &Node<'_>) -> bool
    ensures { result ≡ rules.is_copy (node_view node.now) }
{
    match node.two_parts() {
        Some((_, Node::Flag(copy))) => *copy,
        _ => false,
    }
}

fn are_copies(nodes: &[Node<'_>]) -> bool
    ensures { result ≡ list_all rules.is_copy (map node_view nodes.now) }
{
    for node in nodes {
        if !is_copy(node) {
            return false;
        }
    }
    true
}

fn are_masters(nodes: &[Node<'_>]) -> bool
    ensures { result ≡ list_all (λ a. not (rules.is_copy a)) (map node_view nodes.now) }
{
    for node in nodes {
        if is_copy(node) {
            return false;
        }
    }
    true
}

/// Whether the first of the agents is the master, and the others have copies.
fn is_master_first(agents: &[Node<'_>]) -> bool
    ensures { result ≡ rules.master_first (map node_view agents.now) }
{
    match agents {
        [first, others @ ..] => !is_copy(first) && are_copies(others),
        [] => false,
    }
}

/// Whether the first agent of the reference is the master, and the others have copies.
#[tactic(auto, using(crate::proofs::TwoParts::no_agents))]
pub(crate) fn is_known(node: &Node<'_>) -> bool
    ensures { where_so result (node_view node.now) ≡ rules.known_rule (node_view node.now) }
{
    match node.two_parts() {
        Some((_, agents)) => is_master_first(agents.parts()),
        None => false,
    }
}

/// Whether all agents of the reference are masters.
#[tactic(auto, using(crate::proofs::TwoParts::no_agents))]
pub(crate) fn has_masters(node: &Node<'_>) -> bool
    ensures { where_so result (node_view node.now) ≡ rules.masters_rule (node_view node.now) }
{
    match node.two_parts() {
        Some((_, agents)) => are_masters(agents.parts()),
        None => true,
    }
}
