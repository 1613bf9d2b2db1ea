//! What values of types have to be as wholes, and as what they are kept.
ghost use Rattle.std.specs.Prelude.{◌≡◌, ◌&&◌, ◌||◌, IfOk, map, not};
ghost use Rattle.x5_model.specs.Words.{is_empty};
ghost use Rattle.x5_model_typed.specs.Leaves.{where_so};
ghost use Rattle.x5_model_typed.specs.Nodes as nodes;
ghost use Rattle.x5_model_typed.specs.Rules as rules;
ghost use Rattle.x5_types.specs.FormView.{rule_view};
ghost use Rattle.x5_types.specs.NodeView.{node_view, option_view};

use crate::entry::entry;
use crate::known::{has_masters, is_known};
use crate::pair::{is_pair, rdn};
use crate::pieces::in_line;
use crate::trace::is_trace;
use std::alloc::Global;
use x5_memory::NoMemory;
use x5_syntax::MOST_RDNS;
use x5_types::{Node, Rule};

/// The value, where it is right.
fn kept<'a>(right: bool, node: Node<'a>) -> Option<Node<'a>>
    ensures { option_view result ≡ where_so right (node_view node.entry) }
{
    if right {
        Some(node)
    } else {
        drop(node);
        None
    }
}

/// The value as it is kept, by the rule; None where it breaks it. Most types have no rule, so that is asked first.
#[inline(always)]
pub fn settle<'a>(alloc: Global, rule: Rule, node: Node<'a>) -> Result<Option<Node<'a>>, NoMemory>
    ensures { IfOk result (λ n. option_view n ≡ rule_view rule (node_view node.entry)) }
{
    match rule {
        Rule::Any => Ok(Some(node)),
        _ => settle_by(alloc, rule, node),
    }
}

fn settle_by<'a>(alloc: Global, rule: Rule, node: Node<'a>) -> Result<Option<Node<'a>>, NoMemory>
    ensures { IfOk result (λ n. option_view n ≡ rule_view rule (node_view node.entry)) }
{
    match rule {
        Rule::Any => Ok(Some(node)),
        Rule::Name => Ok(kept(has_few_rdns(&node), node)),
        Rule::Rdn => rdn(alloc, node),
        Rule::Pair => Ok(kept(is_pair(&node), node)),
        Rule::Some => Ok(kept(has_parts(&node), node)),
        Rule::Controls => Ok(controls(node)),
        Rule::Text => Ok(kept(is_text(&node), node)),
        Rule::Parts => Ok(kept(are_parts(&node), node)),
        Rule::Progress => Ok(kept(is_progress(&node), node)),
        Rule::Trace => trace(alloc, node),
        Rule::Entry => entry(alloc, node),
        Rule::Known => Ok(kept(is_known(&node), node)),
        Rule::Masters => Ok(kept(has_masters(&node), node)),
        Rule::Pieces => Ok(kept(are_pieces(&node), node)),
    }
}

/// Trace information, whose items are all different.
fn trace<'a>(alloc: Global, node: Node<'a>) -> Result<Option<Node<'a>>, NoMemory>
    ensures { IfOk result (λ n. option_view n ≡ rules.trace_rule (node_view node.entry)) }
{
    match is_trace(alloc, &node) {
        Ok(right) => Ok(kept(right, node)),
        Err(fault) => {
            drop(node);
            Err(fault)
        }
    }
}

/// Not too many RDNs.
fn has_few_rdns(node: &Node<'_>) -> bool
    ensures { where_so result (node_view node.now) ≡ rules.name_rule (node_view node.now) }
{
    node.parts().len() <= MOST_RDNS
}

fn has_parts(node: &Node<'_>) -> bool
    ensures { result ≡ not (is_empty (nodes.parts (node_view node.now))) }
{
    !node.parts().is_empty()
}

fn is_text(node: &Node<'_>) -> bool
    ensures { result ≡ rules.is_text (node_view node.now) }
{
    matches!(node, Node::Text(_))
}

fn is_initial(node: &Node<'_>) -> bool
    ensures { result ≡ rules.is_initial (node_view node.now) }
{
    matches!(node, Node::Chosen(0, _))
}

fn is_final(node: &Node<'_>) -> bool
    ensures { result ≡ rules.is_final (node_view node.now) }
{
    matches!(node, Node::Chosen(2, _))
}

/// Whether no initial part stands behind another, and no final one before.
fn in_their_places(parts: &[Node<'_>]) -> bool
    ensures { result ≡ rules.in_their_places (map node_view parts.now) }
{
    for i in 1..parts.len() {
        if !may_follow(&parts[i - 1], &parts[i]) {
            return false;
        }
    }
    true
}

/// Whether one part may stand behind the other.
fn may_follow(part: &Node<'_>, next: &Node<'_>) -> bool
    ensures { result ≡ (not (rules.is_final (node_view part.now)) && not (rules.is_initial (node_view next.now))) }
{
    !is_final(part) && !is_initial(next)
}

/// Parts of a substrings item (X.511, 7.8.2): one or more, each in its place.
fn are_parts(node: &Node<'_>) -> bool
    ensures { where_so result (node_view node.now) ≡ rules.parts_rule (node_view node.now) }
{
    has_parts(node) && in_their_places(node.parts())
}

/// Parts of LDAP's substrings item (RFC 4511, 4.5.1.7.2): one or more, each in its place.
fn are_pieces(node: &Node<'_>) -> bool
    ensures { where_so result (node_view node.now) ≡ rules.pieces_rule (node_view node.now) }
{
    has_parts(node) && in_line(node.parts())
}

fn is_proceeding(node: &Node<'_>) -> bool
    ensures { result ≡ rules.is_proceeding (node_view node.now) }
{
    matches!(node, Node::Number(2))
}

fn is_vacant(node: &Node<'_>) -> bool
    ensures { result ≡ nodes.is_vacant (node_view node.now) }
{
    matches!(node, Node::Vacant)
}

fn is_next(proceeding: bool, vacant: bool) -> bool
    ensures { result ≡ ((proceeding && not vacant) || (not proceeding && vacant)) }
{
    proceeding != vacant
}

/// The next RDN is there exactly where name resolution is proceeding (X.518, 10.5).
#[tactic(auto, using(crate::proofs::TwoParts::progress_wrong))]
fn is_progress(node: &Node<'_>) -> bool
    ensures { where_so result (node_view node.now) ≡ rules.progress_rule (node_view node.now) }
{
    match node.two_parts() {
        Some((phase, next)) => is_next(is_proceeding(phase), is_vacant(next)),
        None => false,
    }
}

/// Controls without their priority and time limit.
fn controls<'a>(node: Node<'a>) -> Option<Node<'a>>
    ensures { option_view result ≡ rules.controls_rule (node_view node.entry) }
{
    let Node::Many(mut parts) = node else {
        drop(node);
        return None;
    };
    if parts.len() != 4 {
        return None;
    }
    parts[1] = Node::Vacant;
    parts[2] = Node::Vacant;
    Some(Node::Many(parts))
}
