//! A copy, made of the content of a total refresh.

ghost use Rattle.std.specs.Prelude.{◌≡◌, ◌++◌, ◌∷◌, [], true, IfOk, MatchOption, Some, option_map};
ghost use Rattle.x5_model.specs.Keys.{Key};
ghost use Rattle.x5_model.specs.Values.{key_of};
ghost use Rattle.x5_model.specs.Words.{ascending, first_of};
ghost use Rattle.x5_model_tree.specs.Tree.{key_at, named_below};
ghost use Rattle.x5_dse.specs.Linked.{entries_of};
ghost use Rattle.x5_holdings.specs.State.{OnlyEntries};
ghost use Rattle.x5_model_refreshed.specs.Doable.{AreWhole, CanAdd};
ghost use Rattle.x5_consume.specs.Taken.{IsContent};
ghost use Rattle.x5_consume.specs.Building.{IsExtended};

use std::alloc::Global;
use x5_holdings::{ChangeLog, Filling, Held};
use x5_index::Room;
use x5_memory::NoMemory;
use x5_ops::{Content, Listed, Moment, Named, NamedList};

/// The context with this entry more, behind all others.
fn with_entry(alloc: Global, filling: Filling, named: Named) -> Result<Filling, NoMemory>
    requires order { ascending named_below (entries_of filling.nodes.nodes ++ named ∷ []) ≡ true }
    requires can { CanAdd (entries_of filling.nodes.nodes) named }
    ensures { IfOk result (λ after. IsExtended filling (named ∷ []) after) }
{
    let mut filling = filling;
    match put_entry(alloc, &mut filling, named) {
        Ok(()) => Ok(filling),
        Err(fault) => {
            drop(filling);
            Err(fault)
        }
    }
}

/// Puts this entry behind all others of the context.
fn put_entry(alloc: Global, filling: &mut Filling, named: Named) -> Result<(), NoMemory>
    requires order { ascending named_below (entries_of filling.old.nodes.nodes ++ named ∷ []) ≡ true }
    requires can { CanAdd (entries_of filling.old.nodes.nodes) named }
    ensures { IfOk result (λ _. IsExtended filling.old (named ∷ []) filling.new) }
{
    let room = Room::new(alloc, &named.entry)?;
    filling.reserve(1, room.len())?;
    let Named { name, entry } = named;
    let Ok(_node) = filling.insert(name, entry, room) else {
        unreachable!()
    };
    Ok(())
}

/// The context, to which so many entries are to be added, with room for them and for a value of each.
fn with_room(held: Held, count: usize) -> Result<Filling, NoMemory>
    ensures nodes { IfOk result (λ filling. filling.nodes.nodes ≡ held.nodes.nodes) }
    ensures others { IfOk result (λ filling. OnlyEntries held filling) }
{
    let mut filling = held.filling();
    match filling.reserve(count, count) {
        Ok(()) => Ok(filling),
        Err(fault) => {
            drop(filling);
            Err(fault)
        }
    }
}

/// The context with these entries more. They are in the order of their keys, each behind the one above it. There is room for all
/// of them from the start, and for a value of each; its index is put into order once, when all are there.
fn with_entries(alloc: Global, held: Held, entries: Vec<Named>) -> Result<Held, NoMemory>
    requires { (pin : Key) × AreWhole pin (entries_of held.nodes.nodes ++ entries.items) × (option_map key_at (first_of (entries_of held.nodes.nodes)) ≡ Some pin) }
    ensures { IfOk result (λ after. IsExtended held entries.items after) }
{
    let roomy = with_room(held, entries.len())?;
    let mut filling = roomy;
    for named in entries {
        filling = with_entry(alloc, filling, named)?;
    }
    Ok(filling.finish())
}

/// The first of these entries, and the others; None where there is none. No memory.
#[tactic(auto, using(crate::proofs::Whole::first_and_others))]
fn parted(entries: NamedList) -> Option<(Named, Vec<Named>)>
    ensures { MatchOption result (entries ≡ []) (λ p. entries ≡ p.0 ∷ p.1.items) }
{
    let mut others = entries.into_vec();
    if others.is_empty() {
        return None;
    }
    let first = others.remove(0);
    Some((first, others))
}

/// What the content is as a context that is held, with no changes since the stamp. Its entries aren't listed.
fn unlisted(alloc: Global, content: Content, stamp: Moment) -> Result<Held, NoMemory>
    requires { (pin : Key) × AreWhole pin content.entries }
    ensures content { IfOk result (λ held. IsContent content stamp held) }
    ensures prefix { IfOk result (λ held. (pin : Key) → AreWhole pin content.entries → key_of held.prefix ≡ pin) }
{
    let Content {
        entries,
        specific,
        nssr,
    } = content;
    let Some((first, rest)) = parted(entries) else {
        unreachable!()
    };
    let log = ChangeLog::new(alloc, stamp);
    let Named { name, entry } = first;
    let held = Held::new(alloc, name, entry, log, specific, nssr)?;
    with_entries(alloc, held, rest)
}

/// What the content is as a context that is held, with no changes since the stamp. Its entries are listed, so that the next total
/// refresh is seen to bring the same, if it does.
pub(crate) fn held_of(alloc: Global, content: Content, stamp: Moment) -> Result<Held, NoMemory>
    requires { (pin : Key) × AreWhole pin content.entries }
    ensures content { IfOk result (λ held. IsContent content stamp held) }
    ensures prefix { IfOk result (λ held. (pin : Key) → AreWhole pin content.entries → key_of held.prefix ≡ pin) }
{
    let listing = Listed::from_vec(Vec::from_clones(alloc, content.entries.as_slice())?);
    let mut held = unlisted(alloc, content, stamp)?;
    held.list(listing);
    Ok(held)
}
