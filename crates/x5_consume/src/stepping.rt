//! Steps are done on a copy, without memory.

ghost use Rattle.std.specs.Prelude.{◌≡◌, true, ⊤};
ghost use Rattle.x5_model.specs.Values.{key_of};
ghost use Rattle.x5_model_tree.specs.Tree.{is_there};
ghost use Rattle.x5_dse.specs.Linked.{entries_of};
ghost use Rattle.x5_holdings.specs.Placed.{IsBroughtChanged, IsCopyChanged};
ghost use Rattle.x5_consume.specs.Ready.{CanGo, CanGoOn, IsChangeFor, IsDone, IsDue, IsFindable, IsNodeOf, CopyStands, steps_in};
ghost use Rattle.x5_consume.specs.Taken.{AreDone};

use crate::ready::{Prepared, Ready};
use x5_dse::{DseTree, NodeId};
use x5_holdings::{EntryChange, Held, Holdings, Logged};
use x5_names::Name;
use x5_ops::Moment;

/// The node of the name's entry, which is there. No memory.
fn node_of(tree: &DseTree, name: &Name) -> NodeId
    requires { is_there (entries_of tree.now.nodes) (key_of name.now) ≡ true }
    ensures { IsNodeOf tree.now.nodes (key_of name.now) result }
{
    let _ = tree.entry(tree.top());
    match tree.find(name) {
        Some(node) => node,
        None => unreachable!(),
    }
}

/// The change that the step makes of the entries. No memory.
fn change_of(tree: &DseTree, ready: Ready) -> EntryChange
    requires { IsFindable (entries_of tree.now.nodes) ready }
    ensures { IsChangeFor tree.now.nodes ready result }
{
    match ready {
        Ready::Add { name, entry, room } => EntryChange::Add { name, entry, room },
        Ready::Remove { name } => EntryChange::Remove {
            node: node_of(tree, &name),
        },
        Ready::Modify { name, entry, room } => EntryChange::Replace {
            node: node_of(tree, &name),
            entry,
            room,
        },
        Ready::Rename {
            name,
            rdn,
            entry,
            room,
        } => EntryChange::Rename {
            node: node_of(tree, &name),
            rdn,
            entry,
            room,
        },
    }
}

/// What refreshes brought of the copy of this place. No memory.
fn brought_at(state: &Holdings, place: usize) -> &Held
    requires { CopyStands state.now place (λ copy kept. ⊤) }
    ensures { CopyStands state.now place (λ copy kept. (result.now ≡ kept) × (key_of kept.prefix ≡ key_of copy.prefix)) }
{
    let copy = &state.copies()[place];
    let _ = copy.prefix();
    match copy.held() {
        Some(held) => held,
        None => unreachable!(),
    }
}

/// The change that the step makes of the entries of the copy of this place. No memory.
fn change_at(state: &Holdings, place: usize, ready: Ready) -> EntryChange
    requires { CopyStands state.now place (λ copy kept. IsFindable (entries_of kept.nodes.nodes) ready) }
    ensures { CopyStands state.now place (IsDue ready result) }
{
    let held = brought_at(state, place);
    let tree = held.tree();
    let _ = tree.entry(tree.top());
    change_of(tree, ready)
}

/// Does a step on the copy of this place, and notes it at the stamp. No memory.
fn do_one(state: &mut Holdings, place: usize, one: Prepared, stamp: Moment)
    requires { CopyStands state.old place (CanGo one) }
    ensures { IsCopyChanged state.old place (IsBroughtChanged (IsDone one stamp)) state.new }
{
    let Prepared { ready, step } = one;
    let change = change_at(state, place, ready);
    let moment = stamp;
    state.change_copy(place, change, Logged { moment, step });
}

/// Does the steps on the copy of this place one after another, and notes them at the stamp. No memory.
pub(crate) fn do_all(state: &mut Holdings, place: usize, all: Vec<Prepared>, stamp: Moment)
    requires { CopyStands state.old place (CanGoOn all.items) }
    ensures { IsCopyChanged state.old place (IsBroughtChanged (AreDone (steps_in all.items) stamp)) state.new }
{
    for one in all {
        do_one(state, place, one, stamp);
    }
}
