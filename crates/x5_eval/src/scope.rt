//! The entries of one context that a list or search asks for (X.511, section 10), in the order of their keys.

ghost use Rattle.std.specs.Prelude.{◌≡◌, ℕ, true, map, None, IfOk, IsTrue};
ghost use Rattle.std.specs.Option.{option_map};
ghost use Rattle.std.specs.List.{filter};
ghost use Rattle.x5_model.specs.Members.{In};
ghost use Rattle.x5_model.specs.Values.{key_of};
ghost use Rattle.x5_match.specs.FilterView.{filter_view};
ghost use Rattle.x5_ops.specs.RequestViews.{subset_view};
ghost use Rattle.x5_dse.specs.Linked.{IsLinked, children_of, id_of, is_live, key_with, node_at, subtree_of};
ghost use Rattle.x5_dse.specs.declared.node.NodeId.{NodeId};
ghost use Rattle.x5_eval.specs.Scopes.{AreFound, as_id, asked_nodes, is_found_at};
ghost use Rattle.x5_eval.specs.Scopes as scopes;

use crate::subsets::is_in_subset;
use std::alloc::Global;
use x5_dse::{DseTree, NodeId};
use x5_holdings::Held;
use x5_match::{Filter, holds};
use x5_memory::NoMemory;
use x5_names::Name;
use x5_ops::Subset;

/// The node, with what is in the subset below it.
fn nodes_from(
    alloc: Global,
    tree: &DseTree,
    node: NodeId,
    subset: Subset,
) -> Result<Vec<NodeId>, NoMemory>
    requires live { IsTrue (is_live tree.now.nodes node) }
    requires linked { IsLinked tree.now.nodes }
    ensures { IfOk result (λ found. found.items ≡ map id_of (asked_nodes tree.now.nodes (subset_view subset) (key_with tree.now.nodes node))) }
{
    match subset {
        Subset::Base => Ok(vec![in alloc; node]?),
        Subset::One => Ok(tree.children(node).collect(alloc)?),
        Subset::Tree => Ok(tree.walk(node).collect(alloc)?),
    }
}

/// The same where the base stands above the context or nowhere: the prefix's entry, or all of them.
fn nodes_above(
    alloc: Global,
    held: &Held,
    base: &Name,
    subset: Subset,
) -> Result<Vec<NodeId>, NoMemory>
    requires linked { IsLinked held.now.nodes.nodes }
    requires absent { option_map id_of (node_at held.now.nodes.nodes (key_of base.now)) ≡ None }
    ensures { IfOk result (λ found. found.items ≡ map id_of (asked_nodes held.now.nodes.nodes (subset_view subset) (key_of base.now))) }
{
    if !is_in_subset(subset, base.key(), held.prefix().key()) {
        return Ok(Vec::new(alloc));
    }
    let tree = held.tree();
    match subset {
        Subset::Tree => nodes_from(alloc, tree, tree.top(), Subset::Tree),
        Subset::One => nodes_from(alloc, tree, tree.top(), Subset::Base),
        Subset::Base => nodes_from(alloc, tree, tree.top(), Subset::Base),
    }
}

/// The nodes of the context's entries in the subset below the base, in the order of their keys. Links lead to them: no other
/// entry is looked at.
pub(crate) fn nodes_in(
    alloc: Global,
    held: &Held,
    base: &Name,
    subset: Subset,
) -> Result<Vec<NodeId>, NoMemory>
    ensures { IfOk result (λ found. found.items ≡ map id_of (asked_nodes held.now.nodes.nodes (subset_view subset) (key_of base.now))) }
{
    let tree = held.tree();
    match tree.find(base) {
        Some(node) => {
            let _ = tree.entry(node);
            nodes_from(alloc, tree, node, subset)
        }
        None => {
            let _ = tree.len();
            nodes_above(alloc, held, base, subset)
        }
    }
}

/// Whether the filter is true of the node's entry. No memory.
fn is_selected(tree: &DseTree, node: NodeId, wanted: &Filter) -> bool
    requires { IsTrue (is_live tree.now.nodes node) }
    ensures { result ≡ scopes.is_selected tree.now.nodes (filter_view wanted.now) node }
{
    holds(wanted, tree.entry(node)).is_true()
}

/// Whether besides the entry is in the subset.
fn is_found(
    alloc: Global,
    tree: &DseTree,
    node: NodeId,
    base: &Name,
    subset: Subset,
    wanted: &Filter,
) -> Result<bool, NoMemory>
    requires { IsTrue (is_live tree.now.nodes node) }
    ensures { IfOk result (λ found. found ≡ is_found_at tree.now.nodes (subset_view subset) (key_of base.now) (filter_view wanted.now) node) }
{
    if !is_selected(tree, node, wanted) {
        return Ok(false);
    }
    let name = tree.name(alloc, node)?;
    Ok(is_in_subset(subset, base.key(), name.key()))
}

/// Those of the nodes of whose entries the filter is true.
fn selected(
    alloc: Global,
    tree: &DseTree,
    nodes: &[NodeId],
    wanted: &Filter,
) -> Result<Vec<NodeId>, NoMemory>
    requires { (id : NodeId) → In id nodes.now → is_live tree.now.nodes id ≡ true }
    ensures { IfOk result (λ found. found.items ≡ filter (scopes.is_selected tree.now.nodes (filter_view wanted.now)) nodes.now) }
{
    let mut found = Vec::new(alloc);
    for &node in nodes {
        if is_selected(tree, node, wanted) {
            found.push(node)?;
        }
    }
    Ok(found)
}

/// Those of the nodes of these numbers that a search finds.
fn found_among(
    alloc: Global,
    tree: &DseTree,
    numbers: &[usize],
    base: &Name,
    subset: Subset,
    wanted: &Filter,
) -> Result<Vec<NodeId>, NoMemory>
    requires { (number : ℕ) → In number numbers.now → is_live tree.now.nodes (as_id number) ≡ true }
    ensures { IfOk result (λ found. found.items ≡ filter (is_found_at tree.now.nodes (subset_view subset) (key_of base.now) (filter_view wanted.now)) (map as_id numbers.now)) }
{
    let mut found = Vec::new(alloc);
    for &number in numbers {
        let node = NodeId(number);
        if is_found(alloc, tree, node, base, subset, wanted)? {
            found.push(node)?;
        }
    }
    Ok(found)
}

/// The nodes of the context's entries that a search finds, in any order: by the index where the filter has an equality to look up,
/// and else by links from the base.
pub(crate) fn nodes_found(
    alloc: Global,
    held: &Held,
    base: &Name,
    subset: Subset,
    wanted: &Filter,
) -> Result<Vec<NodeId>, NoMemory>
    ensures { IfOk result (λ found. AreFound held.now.nodes.nodes (subset_view subset) (key_of base.now) (filter_view wanted.now) found.items) }
{
    let tree = held.tree();
    let _ = tree.entry(tree.top());
    match held.postings().candidates(alloc, wanted)? {
        Some(numbers) => found_among(alloc, tree, numbers.as_slice(), base, subset, wanted),
        None => {
            let nodes = nodes_in(alloc, held, base, subset)?;
            selected(alloc, tree, &nodes, wanted)
        }
    }
}
