//! Contents of numbers and object identifiers (X.690, 8.3 and 8.19).
ghost use Rattle.std.specs.Prelude.{◌≡◌, ◌-◌, ◌++◌, OnOk, IsTrue, map, pos, negsuc, ◌<ℤ◌};
ghost use Rattle.x5_model.specs.Normal as normal;
ghost use Rattle.x5_model_octets.specs.Elements.{groups};
ghost use Rattle.x5_model_typed.specs.Leaves as leaves;
ghost use Rattle.std.specs.List.{flat_map};

use crate::backwards::{Backwards, significant};
use x5_memory::NoMemory;

/// Octets of which the first one's first bit isn't set.
fn put_unsigned(out: &mut Backwards, digits: &[u8]) -> Result<(), NoMemory>
    ensures { OnOk result (out.new ≡ leaves.unsigned digits.now ++ out.old) }
{
    out.put_all(digits)?;
    match digits {
        [first, ..] if *first < 128 => Ok(()),
        _ => out.put(0),
    }
}

/// The same, each of them subtracted from 255.
fn put_complement(out: &mut Backwards, digits: &[u8]) -> Result<(), NoMemory>
    ensures { OnOk result (out.new ≡ map (λ o. 255 - o) (leaves.unsigned digits.now) ++ out.old) }
{
    let mut i = digits.len();
    while i > 0 {
        i -= 1;
        out.put(255 - digits[i])?;
    }
    match digits {
        [first, ..] if *first < 128 => Ok(()),
        _ => out.put(255),
    }
}

/// The content of an INTEGER or ENUMERATED.
pub(crate) fn put_number(out: &mut Backwards, number: i64) -> Result<(), NoMemory>
    ensures { OnOk result (out.new ≡ leaves.number_octets number ++ out.old) }
{
    if number >= 0 {
        let octets = (number as u64).to_be_bytes();
        put_unsigned(out, significant(&octets))
    } else {
        let octets = below_zero(number).to_be_bytes();
        put_complement(out, significant(&octets))
    }
}

/// How much less than -1 the number is.
#[tactic(auto, using(crate::proofs::Numbers::abs_less))]
fn below_zero(number: i64) -> u64
    requires { number <ℤ pos 0 }
    ensures { number ≡ negsuc result }
{
    number.unsigned_abs() - 1
}

/// Whether the arcs are those of an object identifier.
pub(crate) fn is_oid(arcs: &[u32]) -> bool
    ensures { result ≡ normal.is_oid arcs.now }
{
    match arcs {
        [first, second, ..] => *first < 3 && (*first > 1 || *second < 40),
        _ => false,
    }
}

/// Puts the content of an OBJECT IDENTIFIER.
///
/// # Errors
/// That memory ran out.
pub fn put_oid(out: &mut Backwards, arcs: &[u32]) -> Result<(), NoMemory>
    requires { IsTrue (normal.is_oid arcs.now) }
    ensures { OnOk result (out.new ≡ leaves.oid_octets arcs.now ++ out.old) }
{
    let [first, second, others @ ..] = arcs else {
        return Ok(());
    };
    put_arcs(out, others)?;
    out.put_groups(40 * u64::from(*first) + u64::from(*second))
}

fn put_arcs(out: &mut Backwards, arcs: &[u32]) -> Result<(), NoMemory>
    ensures { OnOk result (out.new ≡ flat_map groups arcs.now ++ out.old) }
{
    let mut i = arcs.len();
    while i > 0 {
        i -= 1;
        out.put_groups(u64::from(arcs[i]))?;
    }
    Ok(())
}
