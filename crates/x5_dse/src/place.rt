//! The places of nodes: by halves among those in order, and from RDN to RDN down from the prefix.

ghost use Rattle.std.specs.Prelude.{ℕ, ◌≡◌, ◌↔◌, ◌<◌, true, false, length, IsTrue, IfSome, MatchOption, MatchResult, map, [], slice_index_or, slice_set, vec_len, None, Some, IfOk, OnOk, ◌++◌, ◌≤◌};
ghost use Rattle.std.specs.Bool.{MatchBool};
ghost use Rattle.x5_model.specs.Members.{In};
ghost use Rattle.x5_dse.specs.declared.node.NodeId.{NodeId};
ghost use Rattle.x5_model.specs.Keys.{is_prefix};
ghost use Rattle.x5_model.specs.Values.{Name, key_of_pair, key_of};
ghost use Rattle.x5_dse.specs.Step.{IsStep, IsUnder};
ghost use Rattle.x5_dse.specs.Changes.{NotInserted};
ghost use Rattle.x5_dse.specs.Inside.{Spot, slot_at, is_used, held, spot_at, spots_of, spot_cmp, spot_below, nodes_of, GoesNext, IsPlace, IsRow, IsDown, IsSite, IsStart, IsMove, IsOther, name_at, parent_at, path_of, top};
ghost use Rattle.std.specs.Option.{option_map};
ghost use Rattle.x5_dse.specs.Linked.{IsLowest, id_of, length_in, node_at, node_with, prefix_of};

use crate::node::{Dse, DseFault, NodeId};
use crate::order::compare_rdns;
use std::alloc::Global;
use std::cmp::Ordering;
use x5_memory::NoMemory;
use x5_names::{Name, Pair, Rdn};

/// What the used slot holds.
pub(crate) fn held_at(slots: &[Option<Dse>], node: NodeId) -> &Dse
    requires { is_used slots.now node ≡ true }
    ensures { result.now ≡ held (slot_at slots.now node) }
{
    match &slots[node.0] {
        Some(dse) => dse,
        None => unreachable!(),
    }
}

/// How the node stands to one with this node above and these pairs.
fn compare_at(slots: &[Option<Dse>], node: NodeId, above: NodeId, pairs: &[Pair]) -> Ordering
    requires { is_used slots.now node ≡ true }
    ensures { result ≡ spot_cmp (spot_at slots.now node) (above.0, map key_of_pair pairs.now) }
{
    let dse = held_at(slots, node);
    dse.parent
        .0
        .cmp(&above.0)
        .then(compare_rdns(dse.pairs(), pairs))
}

/// Where a search among so many tries next between the two places: at first the last one, since entries are mostly added in the
/// order of their keys, then the middle.
fn next_try(low: usize, high: usize, count: usize) -> usize
    requires { low < high }
    ensures low { low ≤ result }
    ensures high { result < high }
{
    if high == count {
        high - 1
    } else {
        low + (high - low) / 2
    }
}

/// The place of what has this node above and these pairs, or where it would go.
pub(crate) fn place_of(
    slots: &[Option<Dse>],
    order: &[NodeId],
    above: NodeId,
    pairs: &[Pair],
) -> Result<usize, usize>
    requires { IsRow slots.now order.now }
    ensures { IsPlace (spots_of slots.now order.now) (above.0, map key_of_pair pairs.now) result }
{
    let mut low = 0;
    let mut high = order.len();
    while low < high {
        let middle = next_try(low, high, order.len());
        match compare_at(slots, order[middle], above, pairs) {
            Ordering::Less => low = middle + 1,
            Ordering::Greater => high = middle,
            Ordering::Equal => return Ok(middle),
        }
    }
    Err(low)
}

/// A way down from the prefix to a name: the lowest node on it, how many of the RDNs lead there, and the place at which the node
/// of the next RDN would go, if there is a next one.
#[derive(Clone, Copy)]
pub(crate) struct Way {
    node: NodeId,
    count: usize,
    next: usize,
}

/// How far down from the prefix the RDNs lead.
fn descend(slots: &[Option<Dse>], order: &[NodeId], rdns: &[Rdn]) -> Way
    requires { IsRow slots.now order.now }
    ensures down { IsDown [] slots.now order.now (key_of rdns.now) result.node result.count }
    ensures next { GoesNext slots.now order.now (key_of rdns.now) result.node result.count result.next }
{
    let mut node = NodeId(0);
    for (count, rdn) in rdns.iter().enumerate() {
        match place_of(slots, order, node, rdn.pairs()) {
            Ok(at) => node = order[at],
            Err(next) => return Way { node, count, next },
        }
    }
    Way {
        node,
        count: rdns.len(),
        next: 0,
    }
}

/// The way to the name; none where the name isn't below the prefix.
fn way_to(prefix: &Name, slots: &[Option<Dse>], order: &[NodeId], name: &Name) -> Option<Way>
    requires { IsRow slots.now order.now }
    ensures down { MatchOption result (is_prefix (key_of prefix.now) (key_of name.now) ≡ false) (λ w. IsDown prefix.now slots.now order.now (key_of name.now) w.node w.count) }
    ensures next { IfSome result (λ w. GoesNext slots.now order.now (key_of name.now) w.node w.count w.next) }
{
    if !prefix.is_prefix(name) {
        return None;
    }
    let above = prefix.len();
    let Way { node, count, next } = descend(slots, order, &name.rdns()[above..]);
    Some(Way {
        node,
        count: above + count,
        next,
    })
}

/// The node of the name.
pub(crate) fn find_node(
    prefix: &Name,
    slots: &[Option<Dse>],
    order: &[NodeId],
    name: &Name,
) -> Option<NodeId>
    requires { IsRow slots.now order.now }
    ensures { result ≡ option_map id_of (node_at (nodes_of prefix.now slots.now order.now) (key_of name.now)) }
{
    match way_to(prefix, slots, order, name) {
        Some(way) => {
            if way.count == name.len() {
                Some(way.node)
            } else {
                None
            }
        }
        None => None,
    }
}

/// The lowest node on the way to the name, and how many RDNs its name has.
pub(crate) fn lowest_node(
    prefix: &Name,
    slots: &[Option<Dse>],
    order: &[NodeId],
    name: &Name,
) -> (NodeId, usize)
    requires row { IsRow slots.now order.now }
    requires below { is_prefix (prefix_of (nodes_of prefix.now slots.now order.now)) (key_of name.now) ≡ true }
    ensures lowest { IsLowest (nodes_of prefix.now slots.now order.now) (key_of name.now) result.0 }
    ensures long { option_map length_in (node_with (nodes_of prefix.now slots.now order.now) result.0) ≡ Some result.1 }
{
    match way_to(prefix, slots, order, name) {
        Some(way) => (way.node, way.count),
        None => unreachable!(),
    }
}

/// The node just above the name, and the place at which the name's node would go.
pub(crate) fn site_of(
    prefix: &Name,
    slots: &[Option<Dse>],
    order: &[NodeId],
    name: &Name,
) -> Result<(NodeId, usize), DseFault>
    requires { IsRow slots.now order.now }
    ensures { MatchResult result (λ s. IsSite prefix.now slots.now order.now name.now s.0 s.1) (λ fault. NotInserted (nodes_of prefix.now slots.now order.now) (key_of name.now) fault) }
{
    let Some(way) = way_to(prefix, slots, order, name) else {
        return Err(DseFault::NoParent);
    };
    if way.count == name.len() {
        return Err(DseFault::Exists);
    }
    if way.count + 1 < name.len() {
        return Err(DseFault::NoParent);
    }
    Ok((way.node, way.next))
}

/// Where the run of what stands just below the node begins.
pub(crate) fn run_of(slots: &[Option<Dse>], order: &[NodeId], node: NodeId) -> usize
    requires { IsRow slots.now order.now }
    ensures { IsStart (spots_of slots.now order.now) node result }
{
    match place_of(slots, order, node, &[]) {
        Ok(at) => at,
        Err(at) => at,
    }
}

/// Whether the node at the place stands just below the node.
pub(crate) fn is_below_at(slots: &[Option<Dse>], order: &[NodeId], node: NodeId, at: usize) -> bool
    requires { IsRow slots.now order.now }
    ensures { IsTrue result ↔ ((at < length order.now) × (parent_at slots.now (slice_index_or order.now at top) ≡ node)) }
{
    at < order.len() && held_at(slots, order[at]).parent == node
}

/// Whether all before the place stand below nodes of lower numbers.
fn ends_before(slots: &[Option<Dse>], order: &[NodeId], node: NodeId, at: usize) -> bool
    requires row { IsRow slots.now order.now }
    requires within { at ≤ length order.now }
    ensures { IsTrue result → (k : ℕ) (d : Spot) → k < at → (slice_index_or (spots_of slots.now order.now) k d).0 < node.0 }
{
    at == 0 || held_at(slots, order[at - 1]).parent.0 < node.0
}

/// Whether all from the place on stand below the node, or nodes of higher numbers.
fn begins_at(slots: &[Option<Dse>], order: &[NodeId], node: NodeId, at: usize) -> bool
    requires row { IsRow slots.now order.now }
    requires within { at ≤ length order.now }
    ensures { IsTrue result → (k : ℕ) (d : Spot) → at ≤ k → k < length (spots_of slots.now order.now) → node.0 ≤ (slice_index_or (spots_of slots.now order.now) k d).0 }
{
    at == order.len() || node.0 <= held_at(slots, order[at]).parent.0
}

/// Where the run of what stands just below the node begins: the place that is tried first, or where a search finds it.
fn run_near(slots: &[Option<Dse>], order: &[NodeId], node: NodeId, tried: usize) -> usize
    requires { IsRow slots.now order.now }
    ensures { IsStart (spots_of slots.now order.now) node result }
{
    if tried <= order.len()
        && ends_before(slots, order, node, tried)
        && begins_at(slots, order, node, tried)
    {
        return tried;
    }
    run_of(slots, order, node)
}

/// Whether anything stands just below the node.
pub(crate) fn has_children(slots: &[Option<Dse>], order: &[NodeId], node: NodeId) -> bool
    requires { IsRow slots.now order.now }
    ensures { MatchBool result ((c : NodeId) × In c order.now × (parent_at slots.now c ≡ node)) ((c : NodeId) → In c order.now → parent_at slots.now c ≡ node → ⊥) }
{
    is_below_at(slots, order, node, run_of(slots, order, node))
}

/// The place of the node.
pub(crate) fn place_of_node(slots: &[Option<Dse>], order: &[NodeId], node: NodeId) -> usize
    requires row { IsRow slots.now order.now }
    requires ordered { In node order.now }
    ensures { (result < length order.now) × ((d : NodeId) → slice_index_or order.now result d ≡ node) }
{
    let dse = held_at(slots, node);
    match place_of(slots, order, dse.parent, dse.pairs()) {
        Ok(at) => at,
        Err(_) => unreachable!(),
    }
}

/// The place of the node: the one that is tried first, or where a search finds it.
fn place_near(slots: &[Option<Dse>], order: &[NodeId], node: NodeId, tried: usize) -> usize
    requires row { IsRow slots.now order.now }
    requires ordered { In node order.now }
    ensures { (result < length order.now) × ((d : NodeId) → slice_index_or order.now result d ≡ node) }
{
    if tried < order.len() && order[tried] == node {
        tried
    } else {
        place_of_node(slots, order, node)
    }
}

/// What the slot held, which is free afterwards.
pub(crate) fn take_out(slots: &mut Vec<Option<Dse>>, node: NodeId) -> Dse
    requires { is_used slots.old.items node ≡ true }
    ensures held { result ≡ held (slot_at slots.old.items node) }
    ensures slots { slots.new.items ≡ slice_set slots.old.items node.0 None }
    ensures len { vec_len slots.new ≡ vec_len slots.old }
{
    match slots[node.0].take() {
        Some(dse) => dse,
        None => unreachable!(),
    }
}

/// Adds the RDNs from below the prefix down to the node.
fn add_path(
    alloc: Global,
    slots: &[Option<Dse>],
    order: &[NodeId],
    node: NodeId,
    rdns: &mut Vec<Rdn>,
) -> Result<(), NoMemory>
    requires row { IsRow slots.now order.now }
    requires used { is_used slots.now node ≡ true }
    ensures { OnOk result (rdns.new.items ≡ rdns.old.items ++ path_of slots.now node) }
{
    let dse = held_at(slots, node);
    if dse.depth > 0 {
        add_path(alloc, slots, order, dse.parent, rdns)?;
        rdns.push(dse.rdn(alloc)?)?;
    }
    Ok(())
}

/// The node's name: the prefix's, and the RDNs from there down.
pub(crate) fn name_of(
    alloc: Global,
    prefix: &Name,
    slots: &[Option<Dse>],
    order: &[NodeId],
    node: NodeId,
) -> Result<Name, NoMemory>
    requires row { IsRow slots.now order.now }
    requires used { is_used slots.now node ≡ true }
    ensures { IfOk result (λ name. name ≡ name_at prefix.now slots.now node) }
{
    let count = prefix.len().saturating_add(held_at(slots, node).depth);
    let mut rdns: Vec<Rdn> = Vec::with_capacity(alloc, count)?;
    rdns.extend_from_slice(prefix.rdns())?;
    add_path(alloc, slots, order, node, &mut rdns)?;
    Name::new(alloc, rdns)
}

/// Where the node stands, and where it would go with these pairs once it's taken from there; none where another has them.
pub(crate) fn move_of(
    slots: &[Option<Dse>],
    order: &[NodeId],
    node: NodeId,
    pairs: &[Pair],
) -> Option<(usize, usize)>
    requires row { IsRow slots.now order.now }
    requires ordered { In node order.now }
    ensures { MatchOption result (IsOther slots.now order.now node (map key_of_pair pairs.now)) (λ w. IsMove slots.now order.now node (map key_of_pair pairs.now) w.0 w.1) }
{
    let from = place_of_node(slots, order, node);
    let above = held_at(slots, node).parent;
    match place_of(slots, order, above, pairs) {
        Ok(at) => { if at == from { Some((from, from)) } else { None } }
        Err(at) => {
            if from < at {
                Some((from, at - 1))
            } else {
                Some((from, at))
            }
        }
    }
}

/// The places in order to which a walk has come: its node's, and where the run of what stands just below a node began that it left
/// last. It goes on nearby, so these are tried first.
#[derive(Clone, Copy, Drop)]
pub(crate) struct Reached {
    pub(crate) place: usize,
    pub(crate) run: usize,
}

/// The next node in the order of keys after a node without any below it, among those at or below another.
fn past(
    slots: &[Option<Dse>],
    order: &[NodeId],
    from: NodeId,
    node: NodeId,
    reached: &mut Reached,
) -> Option<NodeId>
    requires row { IsRow slots.now order.now }
    requires from_used { is_used slots.now from ≡ true }
    requires used { is_used slots.now node ≡ true }
    requires under { IsUnder slots.now from node }
    requires leaf { (c : NodeId) → In c order.now → parent_at slots.now c ≡ node → ⊥ }
    ensures { (prefix : Name) → IsStep prefix slots.now from node result }
{
    let mut at = node;
    while at.0 != from.0 {
        let place = place_near(slots, order, at, reached.place);
        let next = place + 1;
        let above = held_at(slots, at).parent;
        if is_below_at(slots, order, above, next) {
            reached.place = next;
            return Some(order[next]);
        }
        at = above;
    }
    None
}

/// The next node in the order of keys, among those at or below another.
pub(crate) fn after(
    slots: &[Option<Dse>],
    order: &[NodeId],
    from: NodeId,
    node: NodeId,
    reached: &mut Reached,
) -> Option<NodeId>
    requires row { IsRow slots.now order.now }
    requires from_used { is_used slots.now from ≡ true }
    requires used { is_used slots.now node ≡ true }
    requires under { IsUnder slots.now from node }
    ensures { (prefix : Name) → IsStep prefix slots.now from node result }
{
    let run = run_near(slots, order, node, reached.run);
    reached.run = run;
    if is_below_at(slots, order, node, run) {
        reached.place = run;
        return Some(order[run]);
    }
    past(slots, order, from, node, reached)
}
