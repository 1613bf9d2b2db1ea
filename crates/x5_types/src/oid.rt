//! OBJECT IDENTIFIER: numbers in base 128, the first two arcs in one (X.690, 8.19).
ghost use Rattle.std.specs.Prelude.{◌≡◌, ◌^◌, ◌++◌, IfOk, MatchOption, None, Some, true, nat_lt, nat_le, map, sum};
ghost use Rattle.std.specs.List.{list_all};
ghost use Rattle.std.specs.Option.{option_map};
ghost use Rattle.x5_model.specs.Normal as normal;
ghost use Rattle.x5_model_typed.specs.Leaves as leaves;
ghost use Rattle.x5_types.specs.NodeView.{option_view};

use crate::node::Node;
use std::alloc::Global;
use x5_memory::NoMemory;
use x5_syntax::MOST_VALUE_OCTETS;

/// Numbers from here on are no arc's, also where two arcs are in one.
const LARGE: u64 = 0x2_0000_0000;

/// The numbers that the content says, all of them below 2^33. Without them the content is no object identifier.
fn subidentifiers(alloc: Global, octets: &[u8]) -> Result<Option<Vec<u64>>, NoMemory>
    ensures { IfOk result (λ found.
        MatchOption found
        (leaves.oid_of octets.now ≡ None)
        (λ v. (leaves.subidentifiers true 0 octets.now ≡ Some v.items) × (list_all (λ n. nat_lt n (2 ^ 33)) v.items ≡ true))) }
{
    let mut numbers = Vec::new(alloc);
    let mut fresh = true;
    let mut before: u64 = 0;
    for octet in octets {
        if fresh && *octet == 128 {
            return Ok(None);
        }
        before = before * 128 + u64::from(*octet % 128);
        if before >= LARGE {
            return Ok(None);
        }
        fresh = *octet < 128;
        if fresh {
            numbers.push(before)?;
            before = 0;
        }
    }
    Ok(if fresh { Some(numbers) } else { None })
}

fn first_arc(number: u64) -> u32
    ensures { result ≡ leaves.first_arc number }
{
    if number < 40 {
        0
    } else if number < 80 {
        1
    } else {
        2
    }
}

/// Puts the numbers behind the arcs, if all are arcs.
fn with_others(mut arcs: Vec<u32>, others: &[u64]) -> Result<Option<Vec<u32>>, NoMemory>
    ensures { IfOk result (λ found.
        option_map (λ v. v.items) found
        ≡ leaves.where_so (list_all (λ n. nat_lt n (2 ^ 32)) others.now) (arcs.items ++ others.now)) }
{
    for number in others {
        let Ok(arc) = u32::try_from(*number) else {
            return Ok(None);
        };
        arcs.push(arc)?;
    }
    Ok(Some(arcs))
}

/// The arcs that the numbers are, if they are an object identifier's.
fn arcs_of(alloc: Global, numbers: &[u64]) -> Result<Option<Vec<u32>>, NoMemory>
    ensures { IfOk result (λ found.
        option_map (λ v. v.items) found
        ≡ leaves.where_so (normal.is_oid (leaves.arcs_of numbers.now)) (leaves.arcs_of numbers.now)) }
{
    let Some((head, others)) = numbers.split_first() else {
        return Ok(None);
    };
    let first = first_arc(*head);
    let Ok(second) = u32::try_from(*head - 40 * u64::from(first)) else {
        return Ok(None);
    };
    let mut arcs = Vec::new(alloc);
    arcs.push(first)?;
    arcs.push(second)?;
    with_others(arcs, others)
}

/// Whether each octet is the last one of a number, so a number itself.
fn are_single(octets: &[u8]) -> bool
    ensures { result ≡ list_all (λ o. nat_lt o 128) octets.now }
{
    octets.iter().all(|octet| *octet < 128)
}

/// Puts the octets behind the arcs. All of them are arcs.
fn with_octets(mut arcs: Vec<u32>, others: &[u8]) -> Result<Vec<u32>, NoMemory>
    ensures { IfOk result (λ v.
        Some v.items ≡ leaves.where_so (list_all (λ n. nat_lt n (2 ^ 32)) others.now) (arcs.items ++ others.now)) }
{
    for octet in others {
        arcs.push(u32::from(*octet))?;
    }
    Ok(arcs)
}

/// The arcs that the octets are as numbers, if they are an object identifier's.
fn single_arcs(alloc: Global, octets: &[u8]) -> Result<Option<Vec<u32>>, NoMemory>
    ensures { IfOk result (λ found.
        option_map (λ v. v.items) found
        ≡ leaves.where_so (normal.is_oid (leaves.arcs_of octets.now)) (leaves.arcs_of octets.now)) }
{
    let Some((head, others)) = octets.split_first() else {
        return Ok(None);
    };
    let first = first_arc(u64::from(*head));
    let mut arcs = Vec::with_capacity(alloc, octets.len() + 1)?;
    arcs.push(first)?;
    arcs.push(u32::from(*head) - 40 * first)?;
    Ok(Some(with_octets(arcs, others)?))
}

/// The arcs of the object identifier that the content says.
fn oid_of(alloc: Global, octets: &[u8]) -> Result<Option<Vec<u32>>, NoMemory>
    ensures { IfOk result (λ found. option_map (λ v. v.items) found ≡ leaves.oid_of octets.now) }
{
    if are_single(octets) {
        return single_arcs(alloc, octets);
    }
    match subidentifiers(alloc, octets)? {
        Some(numbers) => arcs_of(alloc, &numbers),
        None => Ok(None),
    }
}

/// How many octets a number takes.
fn subidentifier_len(number: u64) -> usize
    ensures { result ≡ normal.subidentifier_len number }
{
    if number < 0x80 {
        1
    } else if number < 0x4000 {
        2
    } else if number < 0x20_0000 {
        3
    } else if number < 0x1000_0000 {
        4
    } else {
        5
    }
}

/// Whether so few octets are enough for the numbers.
fn has_room(arcs: &[u32], mut room: usize) -> bool
    ensures { result ≡ nat_le (sum (map normal.subidentifier_len arcs.now)) room }
{
    for arc in arcs {
        let taken = subidentifier_len(u64::from(*arc));
        if room < taken {
            return false;
        }
        room -= taken;
    }
    true
}

/// Whether the content has 1,024 octets at most.
pub fn is_short(arcs: &[u32]) -> bool
    ensures { result ≡ leaves.short_oid arcs.now }
{
    match arcs {
        [first, second, others @ ..] => {
            let front = subidentifier_len(40 * u64::from(*first) + u64::from(*second));
            has_room(others, MOST_VALUE_OCTETS - front)
        }
        _ => true,
    }
}

/// An object identifier.
pub(crate) fn oid<'a>(alloc: Global, octets: &[u8]) -> Result<Option<Node<'a>>, NoMemory>
    ensures { IfOk result (λ n. option_view n ≡ (leaves.oid leaves.any_oid).reads octets.now) }
{
    match oid_of(alloc, octets)? {
        Some(arcs) => Ok(Some(Node::Oid(arcs))),
        None => Ok(None),
    }
}

/// An object identifier whose content has 1,024 octets at most.
pub(crate) fn short_oid<'a>(alloc: Global, octets: &[u8]) -> Result<Option<Node<'a>>, NoMemory>
    ensures { IfOk result (λ n. option_view n ≡ (leaves.oid leaves.short_oid).reads octets.now) }
{
    match oid_of(alloc, octets)? {
        Some(arcs) if is_short(&arcs) => Ok(Some(Node::Oid(arcs))),
        _ => Ok(None),
    }
}
