//! BIT STRING (X.690, 8.6), and the options of service controls (X.511, 7.5).
ghost use Rattle.std.specs.Prelude.{◌≡◌, ◌<◌, ◌++◌, OnOk, IfOk, flat_map};
ghost use Rattle.std.specs.Option.{option_map};
ghost use Rattle.x5_model_typed.specs.Judged as judged;
ghost use Rattle.x5_model_typed.specs.Leaves as leaves;
ghost use Rattle.x5_types.specs.FormView.{bit_leaf_view};
ghost use Rattle.x5_types.specs.NodeView.{node_view, option_view};

use crate::form::BitLeaf;
use crate::node::Node;
use std::alloc::Global;
use x5_memory::NoMemory;

/// One bit of an octet.
fn bit(octet: u8, weight: u8) -> bool
    requires { 0 < weight }
    ensures { result ≡ judged.bit octet weight }
{
    octet / weight % 2 == 1
}

/// Adds the bits of an octet, the highest first.
fn add_octet(bits: &mut Vec<bool>, octet: u8) -> Result<(), NoMemory>
    ensures { OnOk result (bits.new.items ≡ bits.old.items ++ judged.bits_of_octet octet) }
{
    bits.push(bit(octet, 128))?;
    bits.push(bit(octet, 64))?;
    bits.push(bit(octet, 32))?;
    bits.push(bit(octet, 16))?;
    bits.push(bit(octet, 8))?;
    bits.push(bit(octet, 4))?;
    bits.push(bit(octet, 2))?;
    bits.push(bit(octet, 1))?;
    Ok(())
}

/// The bits of whole octets.
fn whole_octets(alloc: Global, octets: &[u8]) -> Result<Vec<bool>, NoMemory>
    ensures { IfOk result (λ bits. bits.items ≡ flat_map judged.bits_of_octet octets.now) }
{
    let mut bits = Vec::new(alloc);
    for octet in octets {
        add_octet(&mut bits, *octet)?;
    }
    Ok(bits)
}

/// The bits of octets, of which the last one has so many unused.
fn bits_of_octets(alloc: Global, unused: u8, octets: &[u8]) -> Result<Vec<bool>, NoMemory>
    requires { unused < 8 }
    ensures { IfOk result (λ bits. bits.items ≡ judged.bits_of_octets unused octets.now) }
{
    let mut bits = whole_octets(alloc, octets)?;
    let count = bits.len().saturating_sub(usize::from(unused));
    bits.truncate(count);
    Ok(bits)
}

/// The bits that a content says.
pub(crate) fn bits_of_content(alloc: Global, octets: &[u8]) -> Result<Option<Vec<bool>>, NoMemory>
    ensures { IfOk result (λ bits. option_map (λ v. v.items) bits ≡ judged.bits_of_content octets.now) }
{
    match octets {
        [] => Ok(None),
        [unused] => Ok(if *unused == 0 {
            Some(Vec::new(alloc))
        } else {
            None
        }),
        [unused, others @ ..] => {
            if *unused < 8 {
                Ok(Some(bits_of_octets(alloc, *unused, others)?))
            } else {
                Ok(None)
            }
        }
    }
}

/// Whether no option is set that may not be: the third, and those from the sixth on.
fn may_be_set(bits: &[bool]) -> bool
    ensures { result ≡ leaves.may_be_set bits.now }
{
    match bits {
        [_, _, third, _, _, others @ ..] => !*third && none_set(others),
        [_, _, third] | [_, _, third, _] => !*third,
        _ => true,
    }
}

fn none_set(bits: &[bool]) -> bool
    ensures { result ≡ leaves.none_set bits.now }
{
    bits.iter().all(|bit| !*bit)
}

fn second(bits: &[bool]) -> bool
    ensures { result ≡ leaves.second bits.now }
{
    match bits {
        [_, bit, ..] => *bit,
        _ => false,
    }
}

fn fourth(bits: &[bool]) -> bool
    ensures { result ≡ leaves.fourth bits.now }
{
    match bits {
        [_, _, _, bit, ..] => *bit,
        _ => false,
    }
}

/// The node of the options dontUseCopy and chainingProhibited.
pub(crate) fn options_node<'a>(
    alloc: Global,
    nocopy: bool,
    nochain: bool,
) -> Result<Node<'a>, NoMemory>
    ensures { IfOk result (λ n. node_view n ≡ leaves.options_node nocopy nochain) }
{
    let mut parts = Vec::new(alloc);
    parts.push(Node::Flag(nocopy))?;
    parts.push(Node::Flag(nochain))?;
    Ok(Node::Many(parts))
}

fn options<'a>(alloc: Global, bits: &[bool]) -> Result<Option<Node<'a>>, NoMemory>
    ensures { IfOk result (λ n. option_view n ≡ leaves.options.reads bits.now) }
{
    if !may_be_set(bits) {
        return Ok(None);
    }
    Ok(Some(options_node(alloc, fourth(bits), second(bits))?))
}

/// What the bits say. None if one is set that may not be.
pub fn read_bits<'a>(
    alloc: Global,
    leaf: BitLeaf,
    bits: Vec<bool>,
) -> Result<Option<Node<'a>>, NoMemory>
    ensures { IfOk result (λ n. option_view n ≡ (bit_leaf_view leaf).reads bits.items) }
{
    match leaf {
        BitLeaf::Options => options(alloc, &bits),
        BitLeaf::Segment => Ok(Some(Node::Bits(bits))),
    }
}
