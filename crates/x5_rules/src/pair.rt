//! Pairs of a type and a value, and RDNs of them (X.501, section 8).
ghost use Rattle.std.specs.Prelude.{◌≡◌, ◌≤◌, ◌&&◌, nat_lt, nat_le, IfOk, OnOk, map, not, length};
ghost use Rattle.std.specs.List.{list_all, list_any, position_or_len};
ghost use Rattle.std.specs.Char.{is_ascii_digit};
ghost use Rattle.x5_model.specs.Normal as normal;
ghost use Rattle.x5_model.specs.Types as types;
ghost use Rattle.x5_model.specs.Words.{distinct, has, insert_sorted, sorted};
ghost use Rattle.x5_model_typed.specs.Leaves.{where_so};
ghost use Rattle.x5_model_text.specs.TypeText as text_of;
ghost use Rattle.x5_model_typed.specs.Rules as rules;
ghost use Rattle.x5_syntax.specs.Views.{kind_view};
ghost use Rattle.x5_types.specs.NodeView.{node_view, option_view};

use std::alloc::Global;
use x5_memory::NoMemory;
use x5_syntax::{Kind, MOST_PAIRS, TypeId};
use x5_types::{Node, is_numeric, is_printable};

/// The type of the table that the node says.
pub(crate) fn known_type(node: &Node<'_>) -> Option<TypeId>
    ensures { result ≡ rules.known_type (node_view node.now) }
{
    match node {
        Node::Oid(arcs) => known_below(arcs),
        _ => None,
    }
}

fn known_below(arcs: &[u32]) -> Option<TypeId>
    ensures { result ≡ text_of.known_below arcs.now }
{
    match arcs {
        [2, 5, 4, number] if *number < 256 => TypeId::new(*number as u8),
        _ => None,
    }
}

/// Whether the octet may stand in a text of the kind.
fn may_stand(kind: Kind, octet: u8) -> bool
    ensures { result ≡ normal.may_stand (kind_view kind) octet }
{
    match kind {
        Kind::Text => octet >= 32 && octet != 127,
        Kind::Printable | Kind::Telephone => is_printable(octet),
        Kind::Country => octet.is_ascii_alphabetic(),
        Kind::Numeric => is_numeric(octet),
        Kind::Oid | Kind::Name | Kind::Octets => false,
    }
}

fn has_digit(text: &[u8]) -> bool
    ensures { result ≡ list_any is_ascii_digit text.now }
{
    text.iter().any(|octet| octet.is_ascii_digit())
}

/// Whether the characters are as many as the kind asks.
fn is_enough(kind: Kind, text: &[u8]) -> bool
    ensures { result ≡ normal.is_enough (kind_view kind) text.now }
{
    match kind {
        Kind::Text | Kind::Printable | Kind::Telephone => !text.is_empty(),
        Kind::Country => text.len() == 2,
        Kind::Numeric => has_digit(text),
        Kind::Oid | Kind::Name | Kind::Octets => false,
    }
}

fn is_part_of_kind(kind: Kind, text: &[u8]) -> bool
    ensures { result ≡ normal.is_part_of_kind (kind_view kind) text.now }
{
    text.iter().all(|octet| may_stand(kind, *octet))
}

/// Whether the text is a value of the kind.
pub(crate) fn is_text_of_kind(kind: Kind, text: &[u8]) -> bool
    ensures { result ≡ normal.is_text_of_kind (kind_view kind) text.now }
{
    is_part_of_kind(kind, text) && is_enough(kind, text)
}

/// Whether the type may name, and the value is one of its kind: all types that may name have texts.
fn names(kind: TypeId, value: &Node<'_>) -> bool
    ensures { result ≡ (types.may_name kind && normal.is_of_kind (types.kind_of kind) (rules.value_in (node_view value.now))) }
{
    match value {
        Node::Text(text) => kind.may_name()
            && is_text_of_kind(kind.kind(), text.as_str().as_bytes()),
        _ => false,
    }
}

/// A type that may name, and a value of its kind.
#[tactic(auto, using(crate::proofs::TwoParts::pair_wrong))]
pub(crate) fn is_pair(node: &Node<'_>) -> bool
    ensures { result ≡ rules.is_pair (node_view node.now) }
{
    match node.two_parts() {
        Some((kind, value)) => match known_type(kind) {
            Some(kind) => names(kind, value),
            None => false,
        },
        None => false,
    }
}

/// The number of a pair's type.
#[tactic(auto, using(crate::proofs::TwoParts::pair_missing))]
fn number_in(node: &Node<'_>) -> u8
    ensures { result ≡ (rules.pair_in (node_view node.now)).0 }
{
    match node.two_parts() {
        Some((kind, _)) => type_number(kind),
        None => 0,
    }
}

/// The number of the type that the node says.
pub(crate) fn type_number(node: &Node<'_>) -> u8
    ensures { result ≡ rules.type_number (node_view node.now) }
{
    match known_type(node) {
        Some(kind) => kind.number(),
        None => 0,
    }
}

fn has_type(nodes: &[Node<'_>], first: &Node<'_>) -> bool
    ensures { result ≡ has rules.same_type (map node_view nodes.now) (node_view first.now) }
{
    for node in nodes {
        if number_in(node) == number_in(first) {
            return true;
        }
    }
    false
}

fn are_distinct(nodes: &[Node<'_>]) -> bool
    ensures { result ≡ distinct rules.same_type (map node_view nodes.now) }
{
    for i in 0..nodes.len() {
        if has_type(&nodes[i + 1..], &nodes[i]) {
            return false;
        }
    }
    true
}

/// The place of the first pair whose type's number isn't smaller.
fn place_of(nodes: &[Node<'_>], node: &Node<'_>) -> usize
    ensures place { result ≡ position_or_len (λ y. not (rules.pair_below y (node_view node.now))) (map node_view nodes.now) }
    ensures inside { result ≤ length nodes.now }
{
    for (i, other) in nodes.iter().enumerate() {
        if number_in(other) >= number_in(node) {
            return i;
        }
    }
    nodes.len()
}

/// Puts the pair where the order of type numbers has it.
fn put_in_order<'a>(nodes: &mut Vec<Node<'a>>, node: Node<'a>) -> Result<(), NoMemory>
    ensures { OnOk result (map node_view nodes.new.items ≡ insert_sorted rules.pair_below (node_view node.entry) (map node_view nodes.old.items)) }
{
    let place = place_of(nodes, &node);
    nodes.insert(place, node)?;
    Ok(())
}

/// The pairs in the order of type numbers.
#[tactic(auto, using(crate::proofs::InOrder::few_in_order))]
fn in_order<'a>(alloc: Global, mut nodes: Vec<Node<'a>>) -> Result<Vec<Node<'a>>, NoMemory>
    ensures { IfOk result (λ v. map node_view v.items ≡ sorted rules.pair_below (map node_view nodes.entry.items)) }
{
    if nodes.len() < 2 {
        return Ok(nodes);
    }
    let mut done = Vec::new(alloc);
    while let Some(node) = nodes.pop() {
        put_in_order(&mut done, node)?;
    }
    Ok(done)
}

/// One to four pairs of different types, kept in the order of the types' numbers.
pub(crate) fn rdn<'a>(alloc: Global, node: Node<'a>) -> Result<Option<Node<'a>>, NoMemory>
    ensures { IfOk result (λ n. option_view n ≡ rules.rdn_rule (node_view node.entry)) }
{
    let Node::Many(pairs) = node else {
        drop(node);
        return Ok(None);
    };
    if !are_pairs(&pairs) {
        return Ok(None);
    }
    Ok(Some(Node::Many(in_order(alloc, pairs)?)))
}

/// One to four of different types.
fn are_pairs(pairs: &[Node<'_>]) -> bool
    ensures { result
        ≡ (nat_lt 0 (length pairs.now) && nat_le (length pairs.now) normal.most_pairs && distinct rules.same_type (map node_view pairs.now)) }
{
    !pairs.is_empty() && pairs.len() <= MOST_PAIRS && are_distinct(pairs)
}
