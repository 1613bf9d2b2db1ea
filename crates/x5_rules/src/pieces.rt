//! Parts of LDAP's substrings items, each with the number of its place before it (RFC 4511, 4.5.1.7.2): 0 for the initial one, 1 for
//! any, 2 for the final one.
ghost use Rattle.std.specs.Prelude.{◌≡◌, ◌==◌, ◌&&◌, map, not};
ghost use Rattle.x5_model_typed.specs.Rules as rules;
ghost use Rattle.x5_rules.specs.Pieces.{place_of};
ghost use Rattle.x5_types.specs.NodeView.{node_view};
ghost use Rattle.x5_model_typed.specs.Nodes as nodes;

use x5_types::Node;

/// The place that the number says.
fn place_of_number(number: i64) -> u64
    ensures { result ≡ place_of (nodes.Number number) }
{
    match u64::try_from(number) {
        Ok(place) => place,
        Err(_) => 1,
    }
}

/// The place that the node says.
fn place(node: &Node<'_>) -> u64
    ensures { result ≡ place_of (node_view node.now) }
{
    match node {
        Node::Number(number) => place_of_number(*number),
        _ => 1,
    }
}

/// The place of a part.
#[tactic(auto, using(crate::proofs::InLine::placed, crate::proofs::InLine::no_place))]
fn place_in(part: &Node<'_>) -> u64
    ensures { result ≡ rules.place_in (node_view part.now) }
{
    match part.two_parts() {
        Some((number, _)) => place(number),
        None => 1,
    }
}

/// Whether one part may stand behind the other.
fn may_follow(part: &Node<'_>, next: &Node<'_>) -> bool
    ensures { result ≡ (not (rules.place_in (node_view part.now) == 2) && not (rules.place_in (node_view next.now) == 0)) }
{
    place_in(part) != 2 && place_in(next) != 0
}

/// Whether no initial part stands behind another, and no final one before.
pub(crate) fn in_line(parts: &[Node<'_>]) -> bool
    ensures { result ≡ rules.in_line (map node_view parts.now) }
{
    for i in 1..parts.len() {
        if !may_follow(&parts[i - 1], &parts[i]) {
            return false;
        }
    }
    true
}
