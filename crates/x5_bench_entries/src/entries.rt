//! A tree of entries, each of two RDNs: filled in an order that jumps about, and then each entry found by its name.

use crate::tell;
use anyhow::Result;
use std::alloc::Global;
use std::time::CpuClock;
use x5_dse::DseTree;
use x5_match::Entry;
use x5_names::Name;

fn name(alloc: Global, place: u32) -> Result<Name> {
    let text = format!(in alloc; "/C=NL/CN=Person {place}")?;
    Ok(Name::parse(alloc, text.as_str())?)
}

fn names(alloc: Global, places: &[u32]) -> Result<Vec<Name>> {
    let mut names = Vec::new(alloc);
    for place in places {
        names.push(name(alloc, *place)?)?;
    }
    Ok(names)
}

fn tree_of_one(alloc: Global) -> Result<DseTree> {
    let prefix = Name::parse(alloc, "/C=NL")?;
    Ok(DseTree::new(alloc, prefix, Entry::new(alloc))?)
}

fn insert(tree: &mut DseTree, name: Name, alloc: Global) -> Result<()> {
    tree.reserve(1)?;
    let _node = tree.insert(name, Entry::new(alloc))?;
    Ok(())
}

fn fill(tree: &mut DseTree, names: Vec<Name>, alloc: Global) -> Result<()> {
    for name in names {
        insert(tree, name, alloc)?;
    }
    Ok(())
}

fn found(tree: &DseTree, names: &[Name]) -> usize {
    names
        .iter()
        .filter(|name| tree.find(name).is_some())
        .count()
}

fn measure_insert(rt: &HostRuntime, tree: &mut DseTree, places: &[u32]) -> Result<()> {
    let alloc = rt.alloc();
    let named = names(alloc, places)?;
    let began = rt.process_cpu_time()?;
    fill(tree, named, alloc)?;
    tell(rt, "insert each entry", began)
}

fn measure_find(rt: &HostRuntime, tree: &DseTree, places: &[u32]) -> Result<()> {
    let named = names(rt.alloc(), places)?;
    let began = rt.process_cpu_time()?;
    let found = found(tree, &named);
    tell(rt, "find each entry", began)?;
    println!(rt; "{found} entries found")?;
    Ok(())
}

fn measure_both(rt: &HostRuntime, tree: &mut DseTree, places: &[u32]) -> Result<()> {
    measure_insert(rt, tree, places)?;
    measure_find(rt, tree, places)
}

pub(crate) fn measure(rt: &HostRuntime, places: &[u32]) -> Result<()> {
    let mut tree = tree_of_one(rt.alloc())?;
    let measured = measure_both(rt, &mut tree, places);
    drop(tree);
    measured
}
