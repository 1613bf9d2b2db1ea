//! An index of entries with one value each, which a hundred share: filled, and then asked for the nodes with a value.

use crate::tell;
use anyhow::{Result, anyhow};
use std::alloc::Global;
use std::time::CpuClock;
use x5_index::Postings;
use x5_match::{Entry, Filter, Stored, StoredList, StoredValue, StoredValueList};
use x5_syntax::{Normal, TypeId, TypeRef, Value, normal};

/// The value that a text spells for the type.
fn value_of(alloc: Global, kind: TypeId, text: &str) -> Result<Value> {
    let kind = TypeRef::Known(kind);
    let value = Value::from_text(alloc, &kind, text);
    drop(kind);
    Ok(value?)
}

fn normal_of(alloc: Global, kind: TypeId, value: &Value) -> Result<Normal> {
    Ok(normal(alloc, kind, value)?)
}

/// A value of the type, as it is stored.
fn stored(alloc: Global, kind: TypeId, text: &str) -> Result<StoredValue> {
    let value = value_of(alloc, kind, text)?;
    match normal_of(alloc, kind, &value) {
        Ok(normal) => Ok(StoredValue { value, normal }),
        Err(fault) => {
            drop(value);
            Err(fault)
        }
    }
}

/// An entry with one value.
fn entry_of(alloc: Global, kind: TypeId, value: StoredValue) -> Result<Entry> {
    let values = StoredValueList::from_vec(vec![in alloc; value]?);
    let attributes = vec![in alloc; Stored { kind, values }]?;
    Ok(Entry::from_list(StoredList::from_vec(attributes)))
}

/// An entry with the value that a hundred places share.
fn entry(alloc: Global, place: u32) -> Result<Entry> {
    let kind = TypeId::new(4).ok_or_else(|| anyhow!("no such type"))?;
    let text = format!(in alloc; "Family{}", place / 100)?;
    entry_of(alloc, kind, stored(alloc, kind, text.as_str())?)
}

fn entries(alloc: Global, places: &[u32]) -> Result<Vec<Entry>> {
    let mut entries = Vec::new(alloc);
    for place in places {
        entries.push(entry(alloc, *place)?)?;
    }
    Ok(entries)
}

fn index(alloc: Global, entries: &[Entry]) -> Result<Postings> {
    let mut postings = Postings::new(alloc);
    for (node, entry) in entries.iter().enumerate() {
        postings.add(node, entry)?;
    }
    Ok(postings)
}

/// How many nodes have the value.
fn matches(alloc: Global, postings: &Postings, filter: &Filter) -> Result<usize> {
    let found = postings.candidates(alloc, filter)?;
    Ok(found.map_or(0, |nodes| nodes.as_slice().len()))
}

/// The same question a thousand times: how many nodes were found at last.
fn matches_at_last(alloc: Global, postings: &Postings, filter: &Filter) -> Result<usize> {
    let mut count = 0;
    for _ in 0..1000 {
        count = matches(alloc, postings, filter)?;
    }
    Ok(count)
}

fn search(alloc: Global, postings: &Postings) -> Result<usize> {
    let filter = Filter::parse(alloc, "(SN=family7)")?;
    let count = matches_at_last(alloc, postings, &filter);
    drop(filter);
    count
}

pub(crate) fn measure(rt: &HostRuntime, places: &[u32]) -> Result<()> {
    let alloc = rt.alloc();
    let entries = entries(alloc, places)?;
    let began = rt.process_cpu_time()?;
    let postings = index(alloc, &entries)?;
    tell(rt, "add each entry to the index", began)?;
    let began = rt.process_cpu_time()?;
    let count = search(alloc, &postings)?;
    tell(rt, "1000 searches by equality", began)?;
    println!(rt; "{count} entries have the value")?;
    Ok(())
}
