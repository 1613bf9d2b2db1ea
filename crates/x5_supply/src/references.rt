//! The references that are sent along with a context's entries.

ghost use Rattle.std.specs.Prelude.{◌≡◌, ◌++◌, ◌<◌, true, length, map, IfOk, OnOk};
ghost use Rattle.x5_model.specs.Keys.{is_prefix, parent};
ghost use Rattle.x5_model.specs.Values.{key_of};
ghost use Rattle.x5_model_tree.specs.Tree.{is_there};
ghost use Rattle.x5_dse.specs.Linked.{entries_of, prefix_of};
ghost use Rattle.x5_supply.specs.Supplied as sent;

use crate::sources::mastered;
use std::alloc::Global;
use x5_dse::DseTree;
use x5_holdings::{Held, Holdings};
use x5_memory::NoMemory;
use x5_names::Name;
use x5_ops::{Access, AgentId, Listed, Nssr, NssrList, Specific, SpecificList};

/// A subordinate reference to this agent alone.
fn reference_to(alloc: Global, me: AgentId, pin: &Name) -> Result<Specific, NoMemory>
    ensures { IfOk result (λ reference. reference ≡ sent.reference_to me pin.now) }
{
    Ok(Specific {
        context: Name::root(alloc),
        pin: pin.clone()?,
        access: Access {
            master: me,
            shadows: Listed::new(alloc),
        },
    })
}

/// A subordinate reference as it is sent.
fn reference(alloc: Global, reference: &Specific) -> Result<Specific, NoMemory>
    ensures { IfOk result (λ same. same ≡ sent.reference reference.now) }
{
    Ok(Specific {
        context: Name::root(alloc),
        pin: reference.pin.clone()?,
        access: reference.access.clone()?,
    })
}

/// An NSSR as it is sent.
fn nssr(alloc: Global, nssr: &Nssr) -> Result<Nssr, NoMemory>
    ensures { IfOk result (λ same. same ≡ sent.nssr nssr.now) }
{
    Ok(Nssr {
        context: Name::root(alloc),
        at: nssr.at.clone()?,
        agents: nssr.agents.clone()?,
    })
}

/// Whether the tree has the entry just above the name, which stands below its prefix. No memory.
fn has_parent(tree: &DseTree, name: &Name) -> bool
    requires prefixed { is_prefix (prefix_of tree.now.nodes) (key_of name.now) ≡ true }
    requires below { length (prefix_of tree.now.nodes) < length (key_of name.now) }
    ensures { result ≡ is_there (entries_of tree.now.nodes) (parent (key_of name.now)) }
{
    name.len() - 1 <= tree.way(name).1
}

/// Whether the context has the entry just above the name. No memory.
fn has_above(held: &Held, name: &Name) -> bool
    ensures { result ≡ is_there (entries_of held.now.nodes.nodes) (parent (key_of name.now)) }
{
    let prefix = held.prefix();
    let _ = held.tree().len();
    if name.len() <= prefix.len() || !prefix.is_prefix(name) {
        return false;
    }
    has_parent(held.tree(), name)
}

/// References to the contexts that the agent masters just below an entry of this one.
fn mastered_below(alloc: Global, state: &Holdings, held: &Held) -> Result<Vec<Specific>, NoMemory>
    ensures { IfOk result (λ references. references.items ≡ sent.mastered_below state.now (entries_of held.now.nodes.nodes)) }
{
    let mut references = Vec::new(alloc);
    for context in state.own() {
        if has_above(held, context.prefix()) {
            references.push(reference_to(alloc, state.me(), context.prefix())?)?;
        }
    }
    Ok(references)
}

/// Adds those of these references to whose pins the agent has no context, as they are sent.
fn add_others(
    alloc: Global,
    state: &Holdings,
    given: &[Specific],
    references: &mut Vec<Specific>,
) -> Result<(), NoMemory>
    ensures { OnOk result (references.new.items ≡ references.old.items ++ sent.others state.now given.now) }
{
    for other in given {
        if mastered(state, &other.pin).is_none() {
            references.push(reference(alloc, other)?)?;
        }
    }
    Ok(())
}

/// The subordinate references that go with a context that the agent masters: each pin that it masters too is sent once, as a
/// reference to it alone.
pub(crate) fn of_master(
    alloc: Global,
    state: &Holdings,
    held: &Held,
) -> Result<SpecificList, NoMemory>
    ensures { IfOk result (λ references. references ≡ sent.of_master state.now held.now) }
{
    let mut references = mastered_below(alloc, state, held)?;
    add_others(alloc, state, held.subordinate(), &mut references)?;
    Ok(Listed::from_vec(references))
}

/// These subordinate references, as they are sent.
pub(crate) fn all(alloc: Global, given: &[Specific]) -> Result<SpecificList, NoMemory>
    ensures { IfOk result (λ references. references ≡ map sent.reference given.now) }
{
    let mut references = Vec::with_capacity(alloc, given.len())?;
    for one in given {
        references.push(reference(alloc, one)?)?;
    }
    Ok(Listed::from_vec(references))
}

/// These NSSRs, as they are sent.
pub(crate) fn nssrs(alloc: Global, given: &[Nssr]) -> Result<NssrList, NoMemory>
    ensures { IfOk result (λ nssrs. nssrs ≡ map sent.nssr given.now) }
{
    let mut nssrs = Vec::with_capacity(alloc, given.len())?;
    for one in given {
        nssrs.push(nssr(alloc, one)?)?;
    }
    Ok(Listed::from_vec(nssrs))
}
