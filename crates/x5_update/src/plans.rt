//! Updates as changes of the target's context (X.511, section 11): what the master's ground passes is made ready, and what it
//! refuses is refused with the first error.

ghost use Rattle.std.specs.Prelude.{◌≡◌, ◌<◌, ◌++◌, ◌∷◌, [], true, false, None, Some, length, map, IfOk, IsTrue};
ghost use Rattle.x5_model.specs.Keys.{parent};
ghost use Rattle.x5_model.specs.Requests.{AddEntry, RemoveEntry, ModifyEntry, ModifyDn};
ghost use Rattle.x5_model.specs.Statics.{attribute_repeats, fault_of};
ghost use Rattle.x5_model.specs.Attributes.{is_ordered};
ghost use Rattle.x5_model.specs.Values.{key_of, name_above};
ghost use Rattle.x5_model.specs.Words.{first_of};
ghost use Rattle.x5_model_tree.specs.Apply as model;
ghost use Rattle.x5_model_tree.specs.Ask.{is_update};
ghost use Rattle.x5_model_tree.specs.Tree.{has_below};
ghost use Rattle.x5_model_run.specs.Holdings.{may_copy};
ghost use Rattle.x5_model_run.specs.Needs.{target_of};
ghost use Rattle.x5_dse.specs.Linked.{IsLinked, Node, entries_of, is_live, node_key, node_with};
ghost use Rattle.x5_index.specs.Index.{terms_of};
ghost use Rattle.x5_ops.specs.RequestViews.{attribute_view, body_view, change_view, request_view};
ghost use Rattle.x5_holdings.specs.State.{holdings_view};
ghost use Rattle.x5_update.specs.Judging.{ground_in, judged};
ghost use Rattle.x5_update.specs.Plans.{IsAddition, IsMove, IsPlanned, IsReplacement, is_clash};
ghost use Rattle.x5_update.specs.Seats.{IsSeat};

use crate::place::{Place, is_above_pin, is_taken, tree_at};
use crate::values::{copied, copied_name, copied_rdn, last_of, new_name, refused, renamed};
use std::alloc::Global;
use x5_dse::{DseTree, NodeId};
use x5_holdings::{EntryChange, Holdings};
use x5_index::Room;
use x5_match::Entry;
use x5_memory::NoMemory;
use x5_names::{Name, Rdn};
use x5_ops::{
    AttributeList, Body, ChangeFault, ChangeList, Named, Request, Step, added_entry, change,
    update_problem,
};

/// A change of the target's context, made ready, and the step that tells it.
#[derive(Drop)]
pub(crate) struct Plan {
    pub(crate) change: EntryChange,
    pub(crate) step: Step,
}

/// What comes with an entry that comes below another: its values made ready, its name, and itself as the step tells it.
fn addition(
    alloc: Global,
    object: &Name,
    above: &Name,
    rdn: &Rdn,
    entry: &Entry,
) -> Result<(Room, Name, Named), NoMemory>
    ensures room { IfOk result (λ parts. parts.0 ≡ terms_of entry.now) }
    ensures ordered { IfOk result (λ _. IsTrue (is_ordered entry.now)) }
    ensures name { IfOk result (λ parts. parts.1 ≡ object.now) }
    ensures named { IfOk result (λ parts. parts.2 ≡ record { name = above.now ++ rdn.now ∷ []; entry = entry.now }) }
{
    let room = Room::new(alloc, entry)?;
    let name = copied_name(object)?;
    let spelled = above.below(alloc, rdn)?;
    let copy = copied(entry)?;
    let named = Named {
        name: spelled,
        entry: copy,
    };
    Ok((room, name, named))
}

/// The entry that comes below another, with the step that tells it: its name there is spelled as that one's and then by its RDN.
fn added_plan(
    alloc: Global,
    object: &Name,
    above: Name,
    rdn: Rdn,
    entry: Entry,
) -> Result<Plan, NoMemory>
    ensures { IfOk result (λ plan. IsAddition object.now (above ++ rdn ∷ []) entry plan) }
{
    let parts = addition(alloc, object, &above, &rdn, &entry);
    drop(above);
    drop(rdn);
    match parts {
        Ok((room, name, named)) => Ok(Plan {
            change: EntryChange::Add { name, entry, room },
            step: Step::Add(named),
        }),
        Err(fault) => {
            drop(entry);
            Err(fault)
        }
    }
}

/// addEntry (X.511, section 11.1), at the node of the entry above.
fn add(
    alloc: Global,
    state: &Holdings,
    request: &Request,
    place: Place,
    object: &Name,
    attributes: &AttributeList,
) -> Result<Plan, ChangeFault>
    requires seat { IsSeat state.now (request_view request.now) (parent (key_of object.now)) place.own place.node }
    requires apart { first_of (attribute_repeats [] (map attribute_view attributes.now)) ≡ None }
    ensures { IsPlanned result state.now place.own (AddEntry object.now (map attribute_view attributes.now)) (model.add (ground_in state.now (request_view request.now)) object.now (map attribute_view attributes.now)) }
{
    if is_taken(state, request, object) {
        return Err(refused(update_problem::ENTRY_ALREADY_EXISTS));
    }
    let rdn = last_of(alloc, object)?;
    let entry = added_entry(alloc, &rdn, attributes)?;
    let above = tree_at(state, place).name(alloc, place.node)?;
    Ok(added_plan(alloc, object, above, rdn, entry)?)
}

/// Whether something stands below the node. No memory.
fn has_children(tree: &DseTree, node: NodeId) -> bool
    requires live { IsTrue (is_live tree.now.nodes node) }
    ensures { (n : Node) → IsLinked tree.now.nodes → node_with tree.now.nodes node ≡ Some n → result ≡ has_below (entries_of tree.now.nodes) (node_key n) }
{
    let mut below = tree.walk(node);
    let _ = below.next();
    below.next().is_some()
}

/// removeEntry (X.511, section 11.2), at the node of the entry.
fn remove(
    alloc: Global,
    state: &Holdings,
    request: &Request,
    place: Place,
    object: &Name,
) -> Result<Plan, ChangeFault>
    requires seat { IsSeat state.now (request_view request.now) (key_of object.now) place.own place.node }
    requires update { may_copy (request_view request.now) ≡ false }
    ensures { IsPlanned result state.now place.own (RemoveEntry object.now) (model.remove (ground_in state.now (request_view request.now)) object.now) }
{
    let _ = request;
    if is_above_pin(state, place, object) {
        return Err(refused(update_problem::AFFECTS_MULTIPLE_DSAS));
    }
    let tree = tree_at(state, place);
    if has_children(tree, place.node) {
        return Err(refused(update_problem::NOT_ALLOWED_ON_NON_LEAF));
    }
    let name = tree.name(alloc, place.node)?;
    Ok(Plan {
        change: EntryChange::Remove { node: place.node },
        step: Step::Remove(name),
    })
}

/// The entry that a node has from then on, with the step that tells it.
fn modified_plan(alloc: Global, node: NodeId, name: Name, entry: Entry) -> Result<Plan, NoMemory>
    ensures { IfOk result (λ plan. IsReplacement node name entry plan) }
{
    let room = Room::new(alloc, &entry)?;
    let named = Named {
        name,
        entry: copied(&entry)?,
    };
    Ok(Plan {
        change: EntryChange::Replace { node, entry, room },
        step: Step::Modify(named),
    })
}

/// modifyEntry (X.511, section 11.3), at the node of the entry.
fn modify(
    alloc: Global,
    state: &Holdings,
    request: &Request,
    place: Place,
    object: &Name,
    changes: &ChangeList,
) -> Result<Plan, ChangeFault>
    requires seat { IsSeat state.now (request_view request.now) (key_of object.now) place.own place.node }
    ensures { IsPlanned result state.now place.own (ModifyEntry object.now (map change_view changes.now)) (model.modify (ground_in state.now (request_view request.now)) object.now (map change_view changes.now)) }
{
    let _ = request;
    let rdn = last_of(alloc, object)?;
    let tree = tree_at(state, place);
    let entry = change(alloc, &rdn, tree.entry(place.node), changes)?;
    drop(rdn);
    let name = tree.name(alloc, place.node)?;
    Ok(modified_plan(alloc, place.node, name, entry)?)
}

/// Whether a modifyDN would give the entry the name of another, or of a pin that the agent knows.
fn clashes(
    alloc: Global,
    state: &Holdings,
    request: &Request,
    object: &Name,
    rdn: &Rdn,
) -> Result<bool, NoMemory>
    ensures { IfOk result (λ taken. taken ≡ is_clash (ground_in state.now (request_view request.now)) object.now rdn.now) }
{
    let name = new_name(alloc, object, rdn)?;
    Ok(!name.is_same(object) && is_taken(state, request, &name))
}

/// What comes with the RDN and the entry that a node of the name has from then on: the entry's values made ready, the RDN, and the entry
/// as the step tells it.
fn moved(
    alloc: Global,
    before: &Name,
    rdn: &Rdn,
    entry: &Entry,
) -> Result<(Room, Rdn, Named), NoMemory>
    ensures room { IfOk result (λ parts. parts.0 ≡ terms_of entry.now) }
    ensures ordered { IfOk result (λ _. IsTrue (is_ordered entry.now)) }
    ensures rdn { IfOk result (λ parts. parts.1 ≡ rdn.now) }
    ensures named { IfOk result (λ parts. parts.2 ≡ record { name = name_above before.now ++ rdn.now ∷ []; entry = entry.now }) }
{
    let room = Room::new(alloc, entry)?;
    let last = copied_rdn(rdn)?;
    let name = new_name(alloc, before, rdn)?;
    let copy = copied(entry)?;
    let named = Named { name, entry: copy };
    Ok((room, last, named))
}

/// The name and the entry that a node has from then on, with the step that tells it.
fn renamed_plan(
    alloc: Global,
    node: NodeId,
    before: Name,
    rdn: &Rdn,
    entry: Entry,
) -> Result<Plan, NoMemory>
    ensures { IfOk result (λ plan. IsMove node before rdn.now entry plan) }
{
    match moved(alloc, &before, rdn, &entry) {
        Ok((room, rdn, named)) => Ok(Plan {
            change: EntryChange::Rename {
                node,
                rdn,
                entry,
                room,
            },
            step: Step::Rename(before, named),
        }),
        Err(fault) => {
            drop(entry);
            drop(before);
            Err(fault)
        }
    }
}

/// modifyDN (X.511, section 11.4), at the node of the entry.
fn rename(
    alloc: Global,
    state: &Holdings,
    request: &Request,
    place: Place,
    object: &Name,
    rdn: &Rdn,
    drop_old: bool,
) -> Result<Plan, ChangeFault>
    requires seat { IsSeat state.now (request_view request.now) (key_of object.now) place.own place.node }
    requires update { may_copy (request_view request.now) ≡ false }
    requires named { 0 < length object.now }
    ensures { IsPlanned result state.now place.own (ModifyDn object.now rdn.now drop_old) (model.rename (ground_in state.now (request_view request.now)) object.now rdn.now drop_old) }
{
    if is_above_pin(state, place, object) {
        return Err(refused(update_problem::AFFECTS_MULTIPLE_DSAS));
    }
    let old = last_of(alloc, object)?;
    let tree = tree_at(state, place);
    let entry = renamed(alloc, tree.entry(place.node), &old, rdn, drop_old)?;
    drop(old);
    if clashes(alloc, state, request, object, rdn)? {
        drop(entry);
        return Err(refused(update_problem::ENTRY_ALREADY_EXISTS));
    }
    let before = tree.name(alloc, place.node)?;
    Ok(renamed_plan(alloc, place.node, before, rdn, entry)?)
}

/// An update at the node of its target (X.511, section 11). It isn't refused by its request alone.
pub(crate) fn planned(
    alloc: Global,
    state: &Holdings,
    request: &Request,
    place: Place,
) -> Result<Plan, ChangeFault>
    requires seat { IsSeat state.now (request_view request.now) (key_of (target_of (body_view request.now.body))) place.own place.node }
    requires update { is_update (body_view request.now.body) ≡ true }
    requires passed { fault_of (body_view request.now.body) ≡ None }
    ensures { IsPlanned result state.now place.own (body_view request.now.body) (judged (holdings_view state.now) (request_view request.now)) }
{
    match &request.body {
        Body::Add { object, attributes } => add(alloc, state, request, place, object, attributes),
        Body::Remove { object } => remove(alloc, state, request, place, object),
        Body::Modify { object, changes } => modify(alloc, state, request, place, object, changes),
        Body::ModifyDn {
            object,
            rdn,
            drop_old,
        } => rename(alloc, state, request, place, object, rdn, *drop_old),
        _ => unreachable!(),
    }
}
