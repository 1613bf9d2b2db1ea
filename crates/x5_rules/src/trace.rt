//! Trace information (X.518, section 10.6): its items, all different.
ghost use Rattle.std.specs.Prelude.{◌≡◌, IfOk, MatchOption, map};
ghost use Rattle.x5_model.specs.Words.{distinct, has};
ghost use Rattle.x5_model_typed.specs.Leaves.{where_so};
ghost use Rattle.x5_model_typed.specs.Nodes.{parts};
ghost use Rattle.x5_model_typed.specs.Rules as rules;
ghost use Rattle.x5_rules.specs.Items.{are_same, item_parts, target_in, IsNotFour};
ghost use Rattle.x5_types.specs.NodeView.{node_view};

use crate::name::name_of;
use std::alloc::Global;
use x5_memory::NoMemory;
use x5_names::Name;
use x5_types::{Node, same};

/// Items of a trace at most; this project's limit.
const MOST_ITEMS: usize = 128;

/// The name that an item is about.
fn target_of(alloc: Global, item: &Node<'_>) -> Result<Name, NoMemory>
    ensures { IfOk result (λ name. name ≡ target_in (node_view item.now)) }
{
    match item.parts() {
        [_, target, _, _] => name_of(alloc, target),
        _ => Ok(Name::root(alloc)),
    }
}

/// The names that items are about.
fn targets_of(alloc: Global, items: &[Node<'_>]) -> Result<Vec<Name>, NoMemory>
    ensures { IfOk result (λ targets. targets.items ≡ map target_in (map node_view items.now)) }
{
    let mut targets = Vec::new(alloc);
    for item in items {
        targets.push(target_of(alloc, item)?)?;
    }
    Ok(targets)
}

/// The parts of an item.
#[derive(Clone, Copy)]
struct Item<'n, 'a> {
    agent: &'n Node<'a>,
    target: &'n Node<'a>,
    progress: &'n Node<'a>,
    wide: &'n Node<'a>,
}

fn item_of<'n, 'a>(node: &'n Node<'a>) -> Option<Item<'n, 'a>>
    ensures { MatchOption result
        (IsNotFour (parts (node_view node.now)))
        (λ item. parts (node_view node.now) ≡ item_parts item) }
{
    let parts = node.parts();
    if parts.len() != 4 {
        return None;
    }
    Some(Item {
        agent: &parts[0],
        target: &parts[1],
        progress: &parts[2],
        wide: &parts[3],
    })
}

/// Whether the items have the same agent, progress and mark, and are about the same name.
fn are_same(item: Item<'_, '_>, target: &Name, other: Item<'_, '_>, other_target: &Name) -> bool
    ensures { result ≡ are_same item.entry target.now other.entry other_target.now }
{
    same(item.agent, other.agent)
        && target.is_same(other_target)
        && same(item.progress, other.progress)
        && same(item.wide, other.wide)
}

/// Whether the items are the same, which are about these names.
fn is_same_item(item: &Node<'_>, target: &Name, other: &Node<'_>, other_target: &Name) -> bool
    requires target { target.now ≡ target_in (node_view item.now) }
    requires other { other_target.now ≡ target_in (node_view other.now) }
    ensures { result ≡ rules.same_item (node_view item.now) (node_view other.now) }
{
    let Some(item) = item_of(item) else {
        return false;
    };
    let Some(other) = item_of(other) else {
        return false;
    };
    are_same(item, target, other, other_target)
}

/// Whether the item, which is about the name, is among the items, which are about these names.
fn is_among(items: &[Node<'_>], targets: &[Name], item: &Node<'_>, target: &Name) -> bool
    requires targets { targets.now ≡ map target_in (map node_view items.now) }
    requires target { target.now ≡ target_in (node_view item.now) }
    ensures { result ≡ has rules.same_item (map node_view items.now) (node_view item.now) }
{
    for i in 0..items.len() {
        if is_same_item(&items[i], &targets[i], item, target) {
            return true;
        }
    }
    false
}

/// Whether the items are different, each from all others.
fn are_distinct(items: &[Node<'_>], targets: &[Name]) -> bool
    requires { targets.now ≡ map target_in (map node_view items.now) }
    ensures { result ≡ distinct rules.same_item (map node_view items.now) }
{
    for i in 0..items.len() {
        if is_among(&items[i + 1..], &targets[i + 1..], &items[i], &targets[i]) {
            return false;
        }
    }
    true
}

/// Not too many items, all different.
pub(crate) fn is_trace(alloc: Global, node: &Node<'_>) -> Result<bool, NoMemory>
    ensures { IfOk result (λ right. where_so right (node_view node.now) ≡ rules.trace_rule (node_view node.now)) }
{
    let items = node.parts();
    if items.len() > MOST_ITEMS {
        return Ok(false);
    }
    let targets = targets_of(alloc, items)?;
    Ok(are_distinct(items, &targets))
}
