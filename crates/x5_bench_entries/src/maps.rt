//! The same work by ordered maps of std: from names as texts to places, and from values to the places that have them.

use crate::tell;
use anyhow::Result;
use std::alloc::Global;
use std::collections::BTreeMap;
use std::time::CpuClock;

fn names(alloc: Global, places: &[u32]) -> Result<Vec<String>> {
    let mut names = Vec::new(alloc);
    for place in places {
        names.push(format!(in alloc; "/C=NL/CN=Person {place}")?)?;
    }
    Ok(names)
}

fn fill(map: &mut BTreeMap<String, usize>, names: Vec<String>) -> Result<()> {
    for (place, name) in names.into_iter().enumerate() {
        let _before = map.insert(name, place)?;
    }
    Ok(())
}

fn found(map: &BTreeMap<String, usize>, names: &[String]) -> usize {
    names
        .iter()
        .filter(|name| map.contains_key(name.as_str()))
        .count()
}

fn measure_names(rt: &HostRuntime, places: &[u32]) -> Result<()> {
    let alloc = rt.alloc();
    let named = names(alloc, places)?;
    let mut map = BTreeMap::new(alloc);
    let began = rt.process_cpu_time()?;
    fill(&mut map, named)?;
    tell(rt, "insert each name into a map", began)?;
    let named = names(alloc, places)?;
    let began = rt.process_cpu_time()?;
    let found = found(&map, &named);
    tell(rt, "find each name in the map", began)?;
    println!(rt; "{found} names found in the map")?;
    Ok(())
}

fn add(map: &mut BTreeMap<u32, Vec<usize>>, value: u32, node: usize, alloc: Global) -> Result<()> {
    if let Some(nodes) = map.get_mut(&value) {
        nodes.push(node)?;
        return Ok(());
    }
    let _before = map.insert(value, vec![in alloc; node]?)?;
    Ok(())
}

fn fill_values(map: &mut BTreeMap<u32, Vec<usize>>, places: &[u32], alloc: Global) -> Result<()> {
    for (node, place) in places.iter().enumerate() {
        add(map, *place / 100, node, alloc)?;
    }
    Ok(())
}

fn matches(alloc: Global, map: &BTreeMap<u32, Vec<usize>>) -> Result<usize> {
    match map.get(&7) {
        Some(nodes) => Ok(nodes.as_slice().to_vec(alloc)?.len()),
        None => Ok(0),
    }
}

fn search(alloc: Global, map: &BTreeMap<u32, Vec<usize>>) -> Result<usize> {
    let mut count = 0;
    for _ in 0..1000 {
        count = matches(alloc, map)?;
    }
    Ok(count)
}

fn measure_values(rt: &HostRuntime, places: &[u32]) -> Result<()> {
    let alloc = rt.alloc();
    let mut map = BTreeMap::new(alloc);
    let began = rt.process_cpu_time()?;
    fill_values(&mut map, places, alloc)?;
    tell(rt, "add each value to a map", began)?;
    let began = rt.process_cpu_time()?;
    let count = search(alloc, &map)?;
    tell(rt, "1000 searches of the map", began)?;
    println!(rt; "{count} places have the value in the map")?;
    Ok(())
}

pub(crate) fn measure(rt: &HostRuntime, places: &[u32]) -> Result<()> {
    measure_names(rt, places)?;
    measure_values(rt, places)
}
