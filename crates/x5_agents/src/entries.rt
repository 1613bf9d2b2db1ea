//! The entries of a naming context, as its agent keeps them.

ghost use Rattle.std.specs.Prelude.{◌≡◌, ◌∷◌, [], true, IfOk};
ghost use Rattle.std.specs.List.{list_all};
ghost use Rattle.x5_model.specs.Words.{ascending};
ghost use Rattle.x5_model_tree.specs.Tree.{named_below};
ghost use Rattle.x5_model_tree.specs.Described.{is_grown, is_kept};
ghost use Rattle.x5_dse.specs.Linked.{entries_of};
ghost use Rattle.x5_agents.specs.Growing.{Grown};

use std::alloc::Global;
use x5_holdings::{Filling, Held};
use x5_index::Room;
use x5_memory::NoMemory;
use x5_ops::Named;

/// Puts this entry into the context. The one above it is there, and it isn't.
fn put_entry(alloc: Global, filling: &mut Filling, named: &Named) -> Result<(), NoMemory>
    requires order { ascending named_below (entries_of filling.old.nodes.nodes) ≡ true }
    requires grown { is_grown (entries_of filling.old.nodes.nodes) (named.now ∷ []) ≡ true }
    requires kept { is_kept named.now ≡ true }
    ensures { IfOk result (λ _. Grown filling.old (named.now ∷ []) filling.new) }
{
    let room = Room::new(alloc, &named.entry)?;
    filling.reserve(1, room.len())?;
    let name = named.name.clone()?;
    let entry = named.entry.clone()?;
    let Ok(_node) = filling.insert(name, entry, room) else {
        unreachable!()
    };
    Ok(())
}

/// The context with this entry more. The one above it is there, and it isn't.
fn with_entry(alloc: Global, filling: Filling, named: &Named) -> Result<Filling, NoMemory>
    requires order { ascending named_below (entries_of filling.nodes.nodes) ≡ true }
    requires grown { is_grown (entries_of filling.nodes.nodes) (named.now ∷ []) ≡ true }
    requires kept { is_kept named.now ≡ true }
    ensures { IfOk result (λ after. Grown filling (named.now ∷ []) after) }
{
    let mut filling = filling;
    match put_entry(alloc, &mut filling, named) {
        Ok(()) => Ok(filling),
        Err(fault) => {
            drop(filling);
            Err(fault)
        }
    }
}

/// The context with these entries more, each behind the one above it. Its index is put into order once, when all are there.
pub(crate) fn with_entries(alloc: Global, held: Held, entries: &[Named]) -> Result<Held, NoMemory>
    requires order { ascending named_below (entries_of held.nodes.nodes) ≡ true }
    requires grown { is_grown (entries_of held.nodes.nodes) entries.now ≡ true }
    requires kept { list_all is_kept entries.now ≡ true }
    ensures { IfOk result (λ after. Grown held entries.now after) }
{
    let mut filling = held.filling();
    for named in entries {
        filling = with_entry(alloc, filling, named)?;
    }
    Ok(filling.finish())
}
