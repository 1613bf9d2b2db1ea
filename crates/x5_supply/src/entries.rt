//! The entries of a context, with their names.

ghost use Rattle.std.specs.Prelude.{◌≡◌, map, IfOk, IfSome, IsTrue, Some};
ghost use Rattle.std.specs.Option.{option_map};
ghost use Rattle.x5_model.specs.Members.{In};
ghost use Rattle.x5_dse.specs.declared.node.NodeId.{NodeId};
ghost use Rattle.x5_dse.specs.Linked.{entries_of, id_of, is_live, named_of, node_with};

use std::alloc::Global;
use x5_dse::{DseTree, NodeId};
use x5_holdings::{Held, Holdings};
use x5_memory::NoMemory;
use x5_names::Name;
use x5_ops::{Listed, Named, NamedList};

/// The entry of the node, with its name.
fn named_at(alloc: Global, tree: &DseTree, node: NodeId) -> Result<Named, NoMemory>
    requires { IsTrue (is_live tree.now.nodes node) }
    ensures { IfOk result (λ named. option_map named_of (node_with tree.now.nodes node) ≡ Some named) }
{
    Ok(Named {
        name: tree.name(alloc, node)?,
        entry: tree.entry(node).clone()?,
    })
}

/// Those of the nodes.
fn named_at_all(alloc: Global, tree: &DseTree, nodes: &[NodeId]) -> Result<Vec<Named>, NoMemory>
    requires { (id : NodeId) → In id nodes.now → IsTrue (is_live tree.now.nodes id) }
    ensures { IfOk result (λ all. map Some all.items ≡ map (λ id. option_map named_of (node_with tree.now.nodes id)) nodes.now) }
{
    let mut all = Vec::with_capacity(alloc, nodes.len())?;
    for &node in nodes {
        all.push(named_at(alloc, tree, node)?)?;
    }
    Ok(all)
}

/// All nodes, in the order of their keys.
fn nodes_of(alloc: Global, tree: &DseTree) -> Result<Vec<NodeId>, NoMemory>
    ensures { IfOk result (λ nodes. nodes.items ≡ map id_of tree.now.nodes) }
{
    let _ = tree.len();
    Ok(tree.walk(tree.top()).collect(alloc)?)
}

/// The entries of a tree, in the order of their names' keys.
fn entries_in(alloc: Global, tree: &DseTree) -> Result<NamedList, NoMemory>
    ensures { IfOk result (λ all. all ≡ entries_of tree.now.nodes) }
{
    let _ = tree.entry(tree.top());
    let nodes = nodes_of(alloc, tree)?;
    let all = named_at_all(alloc, tree, &nodes)?;
    Ok(Listed::from_vec(all))
}

/// The entries of a context, in the order of their names' keys: as they are listed, or else as they stand in its tree.
pub(crate) fn entries(alloc: Global, held: &Held) -> Result<NamedList, NoMemory>
    ensures { IfOk result (λ all. all ≡ entries_of held.now.nodes.nodes) }
{
    match held.listing() {
        Some(listing) => Ok(Listed::from_vec(Vec::from_clones(alloc, listing)?)),
        None => entries_in(alloc, held.tree()),
    }
}

/// The entries of a context that aren't listed yet.
fn unlisted(alloc: Global, held: &Held) -> Result<Option<NamedList>, NoMemory>
    ensures { IfOk result (λ o. IfSome o (λ all. all ≡ entries_of held.now.nodes.nodes)) }
{
    if held.listing().is_some() {
        return Ok(None);
    }
    Ok(Some(entries_in(alloc, held.tree())?))
}

/// Lists the entries of the context, if the agent masters it, so that a total refresh which comes before they change needs not go
/// through its tree. What the agent holds stays.
pub fn list_entries(alloc: Global, state: &mut Holdings, context: &Name) -> Result<(), NoMemory>
    ensures { state.new ≡ state.old }
{
    let Some(place) = state.own_at(context.rdns()) else {
        return Ok(());
    };
    if let Some(entries) = unlisted(alloc, &state.own()[place])? {
        state.list_own(place, entries);
    }
    Ok(())
}
