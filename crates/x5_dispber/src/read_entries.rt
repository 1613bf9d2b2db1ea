//! Entries of refreshes (X.525, section 10) that values of types of messages say.
ghost use Rattle.std.specs.Prelude.{◌≡◌, IfOk, All, map};
ghost use Rattle.x5_dispber.specs.Sayable.{IsEntry, IsStored, IsStoredValue};
ghost use Rattle.x5_model_messages.specs.Shadows as shadows;
ghost use Rattle.x5_model_typed.specs.Rules as rules;
ghost use Rattle.x5_types.specs.NodeView.{node_view};

use std::alloc::Global;
use x5_dapber::read_values::value_in;
use x5_match::{Entry, Stored, StoredList, StoredValue, StoredValueList};
use x5_memory::NoMemory;
use x5_ops::{Named, NamedList};
use x5_rules::{name_of, normal_in, type_in};
use x5_syntax::TypeId;
use x5_types::Node;

/// The value of the type that the node says.
fn stored_value_in(alloc: Global, kind: TypeId, node: &Node<'_>) -> Result<StoredValue, NoMemory>
    requires { IsStoredValue kind (node_view node.now) }
    ensures { IfOk result (λ v. v ≡ shadows.stored_value kind (rules.value_in (node_view node.now))) }
{
    let value = value_in(alloc, node)?;
    let Some(normal) = normal_in(alloc, kind, node)? else {
        unreachable!()
    };
    Ok(StoredValue { value, normal })
}

fn stored_values_in(
    alloc: Global,
    kind: TypeId,
    nodes: &[Node<'_>],
) -> Result<StoredValueList, NoMemory>
    requires { All (λ n. IsStoredValue kind (node_view n)) nodes.now }
    ensures { IfOk result (λ l. l ≡ map (λ v. shadows.stored_value kind (rules.value_in v)) (map node_view nodes.now)) }
{
    let mut values = Vec::with_capacity(alloc, nodes.len())?;
    for node in nodes {
        values.push(stored_value_in(alloc, kind, node)?)?;
    }
    Ok(StoredValueList::from_vec(values))
}

/// The attribute that the node says.
fn stored_in(alloc: Global, node: &Node<'_>) -> Result<Stored, NoMemory>
    requires { IsStored (node_view node.now) }
    ensures { IfOk result (λ a. a ≡ shadows.stored_in (node_view node.now)) }
{
    let [kind, values] = node.parts() else {
        unreachable!()
    };
    let kind = type_in(kind);
    let values = stored_values_in(alloc, kind, values.parts())?;
    Ok(Stored { kind, values })
}

fn all_stored_in(alloc: Global, nodes: &[Node<'_>]) -> Result<StoredList, NoMemory>
    requires { All (λ n. IsStored (node_view n)) nodes.now }
    ensures { IfOk result (λ l. l ≡ map shadows.stored_in (map node_view nodes.now)) }
{
    let mut attributes = Vec::with_capacity(alloc, nodes.len())?;
    for node in nodes {
        attributes.push(stored_in(alloc, node)?)?;
    }
    Ok(StoredList::from_vec(attributes))
}

/// The entry that the node says, with its name.
pub(crate) fn entry_in(alloc: Global, node: &Node<'_>) -> Result<Named, NoMemory>
    requires { IsEntry (node_view node.now) }
    ensures { IfOk result (λ e. e ≡ shadows.entry_in (node_view node.now)) }
{
    let [name, _, attributes] = node.parts() else {
        unreachable!()
    };
    let name = name_of(alloc, name)?;
    let attributes = all_stored_in(alloc, attributes.parts())?;
    Ok(Named {
        name,
        entry: Entry::from_list(attributes),
    })
}

/// The entries that the nodes say.
pub(crate) fn entries_in(alloc: Global, nodes: &[Node<'_>]) -> Result<NamedList, NoMemory>
    requires { All (λ n. IsEntry (node_view n)) nodes.now }
    ensures { IfOk result (λ l. l ≡ map shadows.entry_in (map node_view nodes.now)) }
{
    let mut entries = Vec::with_capacity(alloc, nodes.len())?;
    for node in nodes {
        entries.push(entry_in(alloc, node)?)?;
    }
    Ok(NamedList::from_vec(entries))
}
