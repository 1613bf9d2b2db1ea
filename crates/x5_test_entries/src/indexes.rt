//! What no clause says: that ample memory suffices, on each public call's way.

use std::alloc::Global;
use std::test::Fail;
use x5_index::{NodeList, Postings, Room};
use x5_match::{Entry, Filter, Stored, StoredList, StoredValue, StoredValueList};
use x5_syntax::{Normal, TypeId, TypeRef, Value, normal};

/// The value that a text spells for the type.
fn value_of(alloc: Global, kind: TypeId, text: &str) -> Result<Value, Fail> {
    let kind = TypeRef::Known(kind);
    let value = Value::from_text(alloc, &kind, text);
    drop(kind);
    Ok(value?)
}

fn normal_of(alloc: Global, kind: TypeId, value: &Value) -> Result<Normal, Fail> {
    Ok(normal(alloc, kind, value)?)
}

/// A value of the type, as it is stored.
fn stored(alloc: Global, kind: TypeId, text: &str) -> Result<StoredValue, Fail> {
    let value = value_of(alloc, kind, text)?;
    match normal_of(alloc, kind, &value) {
        Ok(normal) => Ok(StoredValue { value, normal }),
        Err(fault) => {
            drop(value);
            Err(fault)
        }
    }
}

/// An entry with one value.
fn entry_of(alloc: Global, kind: TypeId, value: StoredValue) -> Result<Entry, Fail> {
    let values = StoredValueList::from_vec(vec![in alloc; value]?);
    let attributes = vec![in alloc; Stored { kind, values }]?;
    Ok(Entry::from_list(StoredList::from_vec(attributes)))
}

/// A common name's entry, with this text as its value.
fn entry_with(alloc: Global, text: &str) -> Result<Entry, Fail> {
    let kind = TypeId::new(3).ok_or("no type")?;
    entry_of(alloc, kind, stored(alloc, kind, text)?)
}

/// Three nodes with one entry, of which the first is dropped again.
fn some_nodes(alloc: Global, entry: &Entry) -> Result<Postings, Fail> {
    let mut postings = Postings::new(alloc);
    postings.add(7, entry)?;
    postings.add(9, entry)?;
    let room = Room::new(alloc, entry)?;
    postings.reserve(room.len())?;
    postings.put(5, room);
    postings.drop_node(7, entry);
    Ok(postings)
}

/// The candidates for the filter with the text.
fn candidates(alloc: Global, postings: &Postings, filter: &str) -> Result<Option<NodeList>, Fail> {
    let filter = Filter::parse(alloc, filter)?;
    let found = postings.candidates(alloc, &filter);
    drop(filter);
    Ok(found?)
}

/// Whether the candidates for the filter are these.
fn are_found(
    alloc: Global,
    postings: &Postings,
    filter: &str,
    expected: Option<&[usize]>,
) -> Result<bool, Fail> {
    let found = candidates(alloc, postings, filter)?;
    let nodes = found.as_ref().map(|nodes| nodes.as_slice());
    Ok(nodes == expected)
}

/// Three nodes with Ada's entry, of which one is dropped again.
fn nodes_of_ada(alloc: Global) -> Result<Postings, Fail> {
    let entry = entry_with(alloc, "Ada")?;
    let postings = some_nodes(alloc, &entry);
    drop(entry);
    postings
}

#[test]
fn nodes_are_found_by_the_first_equality(rt: HostRuntime) -> Result<(), Fail> {
    let alloc = rt.alloc();
    let postings = nodes_of_ada(alloc)?;
    let both: &[usize] = &[5, 9];
    let nobody: &[usize] = &[];
    for (filter, expected) in [
        ("(CN=aDa)", Some(both)),
        ("(CN=ad)", Some(nobody)),
        ("(OU=ada)", Some(nobody)),
        ("(C=Nederland)", Some(nobody)),
        ("(1.2.3=x)", None),
        ("(CN=ad*)", None),
        ("(CN~=ada)", None),
        ("(|(CN=ada))", None),
        ("(!(CN=ada))", None),
        ("(&(1.2.3=x)(CN=*)(CN=ada)(OU=shop))", Some(both)),
        ("(&(OU=shop)(CN=ada))", Some(nobody)),
        ("(&(&(CN=ada)))", None),
        ("(&)", None),
    ] {
        assert!(rt; are_found(alloc, &postings, filter, expected)?, "{filter}");
    }
    Ok(())
}

/// One node, whose entry has another name than before.
fn renamed(alloc: Global, before: &Entry, after: &Entry) -> Result<Postings, Fail> {
    let mut postings = Postings::new(alloc);
    postings.add(7, before)?;
    postings.drop_node(7, before);
    postings.add(7, after)?;
    Ok(postings)
}

/// The same, of the entry that it had before.
fn renamed_from(alloc: Global, before: &Entry) -> Result<Postings, Fail> {
    let after = entry_with(alloc, "Grace")?;
    let postings = renamed(alloc, before, &after);
    drop(after);
    postings
}

/// One node, which was Ada's and is Grace's.
fn renamed_from_ada(alloc: Global) -> Result<Postings, Fail> {
    let before = entry_with(alloc, "Ada")?;
    let postings = renamed_from(alloc, &before);
    drop(before);
    postings
}

#[test]
fn a_renamed_node_is_found_by_its_new_name(rt: HostRuntime) -> Result<(), Fail> {
    let alloc = rt.alloc();
    let postings = renamed_from_ada(alloc)?;
    let one: &[usize] = &[7];
    let nobody: &[usize] = &[];
    for (filter, expected) in [
        ("(CN=ada)", Some(nobody)),
        ("(CN=grace)", Some(one)),
        ("(&(CN=ada)(CN=grace))", Some(nobody)),
    ] {
        assert!(rt; are_found(alloc, &postings, filter, expected)?, "{filter}");
    }
    Ok(())
}
