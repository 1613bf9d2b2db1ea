//! The order of sources, of unexplored references and of exclusions in the output.

ghost use Rattle.std.specs.Prelude.{◌≡◌, IfOk, OnOk, map};
ghost use Rattle.x5_model.specs.Words.{sorted};
ghost use Rattle.x5_model_output.specs.Output as print;
ghost use Rattle.x5_report.specs.Order as order;
ghost use Rattle.x5_report.specs.Spelled as spelled;

use std::alloc::Global;
use std::cmp::Ordering;
use x5_memory::NoMemory;
use x5_names::{KeyRdn, Rdn};
use x5_ops::{AccessPoint, Reference, Source};

/// The sources in their order, by their contexts; of two of one context the earlier stays the earlier.
pub(crate) fn sorted_sources(alloc: Global, sources: &[Source]) -> Result<Vec<Source>, NoMemory>
    ensures { IfOk result (λ v. v.items ≡ sorted spelled.source_below sources.now) }
{
    let mut ordered = sources.to_vec(alloc)?;
    ordered.sort_by(|a, b| a.context.cmp_key(&b.context))?;
    Ok(ordered)
}

/// The name of the first agent; nothing where there is none.
fn first_agent(agents: &[AccessPoint]) -> &str
    ensures { result.now ≡ spelled.first_agent agents.now }
{
    match agents {
        [first, ..] => first.agent.as_str(),
        [] => "",
    }
}

/// How a reference stands to another: by target; of one target the specific ones first, then by their first agents.
fn compare_references(a: &Reference, b: &Reference) -> Ordering
    ensures { result ≡ order.reference_cmp a.now b.now }
{
    let first = first_agent(a.agents.as_slice());
    let second = first_agent(b.agents.as_slice());
    a.target
        .cmp_key(&b.target)
        .then(a.kind.is_wide().cmp(&b.kind.is_wide()))
        .then(first.as_bytes().cmp(second.as_bytes()))
}

/// The references in their order; of two that tie the earlier stays the earlier.
pub(crate) fn sorted_references(
    alloc: Global,
    references: &[Reference],
) -> Result<Vec<Reference>, NoMemory>
    ensures { IfOk result (λ v. v.items ≡ sorted spelled.reference_below references.now) }
{
    let mut ordered = references.to_vec(alloc)?;
    ordered.sort_by(|a, b| compare_references(a, b))?;
    Ok(ordered)
}

/// RDNs, each behind what it's compared by.
pub(crate) type Keyed = Vec<(KeyRdn, Rdn)>;

/// The RDNs with their keys.
fn keyed(alloc: Global, rdns: &[Rdn]) -> Result<Keyed, NoMemory>
    ensures { IfOk result (λ v. v.items ≡ map order.keyed rdns.now) }
{
    let mut keyed = Vec::new(alloc);
    for rdn in rdns {
        keyed.push((rdn.key(alloc)?, rdn.clone()?))?;
    }
    Ok(keyed)
}

/// Puts RDNs in the order of their keys.
fn put_in_order(keyed: &mut Keyed) -> Result<(), NoMemory>
    ensures { OnOk result (keyed.new.items ≡ sorted order.keyed_below keyed.old.items) }
{
    keyed.sort_by(|a, b| a.0.cmp(&b.0))?;
    Ok(())
}

/// The RDNs in the order of their keys, with these.
pub(crate) fn sorted_rdns(alloc: Global, rdns: &[Rdn]) -> Result<Keyed, NoMemory>
    ensures { IfOk result (λ v. v.items ≡ map order.keyed (sorted print.rdn_below rdns.now)) }
{
    let mut keyed = keyed(alloc, rdns)?;
    put_in_order(&mut keyed)?;
    Ok(keyed)
}
