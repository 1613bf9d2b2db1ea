//! Contents of primitive elements, and of strings that were joined.
ghost use Rattle.std.specs.Prelude.{◌≡◌, IfOk};
ghost use Rattle.x5_model_typed.specs.Forms as forms;
ghost use Rattle.x5_model_typed.specs.Judged as judged;
ghost use Rattle.x5_model_typed.specs.Layouts as layouts;
ghost use Rattle.x5_model_typed.specs.Leaves as leaves;
ghost use Rattle.x5_types.specs.FormView.{around, bit_leaf_view, content_view, leaf_view};
ghost use Rattle.x5_types.specs.NodeView.{bytes_view, option_view};

use crate::bits::{bits_of_content, read_bits};
use crate::form::{BitLeaf, Content, Leaf};
use crate::given::two;
use crate::node::{Bytes, Node};
use crate::number::number;
use crate::oid::{oid, short_oid};
use crate::surroundings::Surroundings;
use crate::text::{text, universal};
use std::alloc::Global;
use x5_memory::NoMemory;
use x5_syntax::MOST_VALUE_OCTETS;

fn boolean<'a>(octets: &[u8]) -> Option<Node<'a>>
    ensures { option_view result ≡ leaves.boolean.reads octets.now }
{
    match octets {
        [octet] => Some(Node::Flag(*octet != 0)),
        _ => None,
    }
}

fn null<'a>(octets: &[u8]) -> Option<Node<'a>>
    ensures { option_view result ≡ leaves.null.reads octets.now }
{
    match octets {
        [] => Some(Node::Vacant),
        _ => None,
    }
}

fn octet_string<'a>(octets: Bytes<'a>) -> Option<Node<'a>>
    ensures { option_view result ≡ leaves.octet_string.reads (bytes_view octets.entry) }
{
    if octets.as_slice().len() <= MOST_VALUE_OCTETS {
        Some(Node::Octets(octets))
    } else {
        None
    }
}

/// The moment of a date and time.
fn time<'a>(
    alloc: Global,
    surroundings: Surroundings<'_>,
    octets: &[u8],
) -> Result<Option<Node<'a>>, NoMemory>
    ensures { IfOk result (λ n. option_view n ≡ (layouts.time_leaf (around surroundings.entry)).reads octets.now) }
{
    match surroundings.moment(alloc, octets)? {
        Some(moment) => Ok(Some(Node::Number(i64::from(moment.0)))),
        None => Ok(None),
    }
}

/// Octets, with a number before them.
fn placed<'a>(alloc: Global, place: u32, octets: Bytes<'a>) -> Result<Option<Node<'a>>, NoMemory>
    ensures { IfOk result (λ n. option_view n ≡ (leaves.placed place).reads (bytes_view octets.entry)) }
{
    let node = two(alloc, Node::Number(i64::from(place)), Node::Octets(octets))?;
    Ok(Some(node))
}

/// What the octets of a content say, which may have been joined from segments. None if they are outside the type
/// (X.690, section 8).
pub fn read_leaf<'a>(
    alloc: Global,
    surroundings: Surroundings<'_>,
    leaf: Leaf,
    octets: Bytes<'a>,
) -> Result<Option<Node<'a>>, NoMemory>
    ensures { IfOk result (λ n. option_view n ≡ (leaf_view (around surroundings.entry) leaf).reads (bytes_view octets.entry)) }
{
    match leaf {
        Leaf::Boolean => Ok(boolean(octets.as_slice())),
        Leaf::Null => Ok(null(octets.as_slice())),
        Leaf::Number(numbers) => Ok(number(numbers, octets.as_slice())),
        Leaf::Oid => oid(alloc, octets.as_slice()),
        Leaf::ShortOid => short_oid(alloc, octets.as_slice()),
        Leaf::Octets => Ok(octet_string(octets)),
        Leaf::Text(letters) => Ok(text(surroundings, letters, octets)),
        Leaf::Universal => universal(alloc, octets.as_slice()),
        Leaf::Time => time(alloc, surroundings, octets.as_slice()),
        Leaf::Segment | Leaf::AnyOctets => Ok(Some(Node::Octets(octets))),
        Leaf::Placed(place) => placed(alloc, place, octets),
    }
}

fn read_bit_content<'a>(
    alloc: Global,
    leaf: BitLeaf,
    octets: &[u8],
) -> Result<Option<Node<'a>>, NoMemory>
    ensures { IfOk result (λ n. option_view n ≡ judged.leaf_node (forms.JoinedBits (bit_leaf_view leaf)) octets.now) }
{
    match bits_of_content(alloc, octets)? {
        Some(bits) => read_bits(alloc, leaf, bits),
        None => Ok(None),
    }
}

/// What a primitive content says. None if it is outside the type, or the type has no primitive contents.
pub fn leaf_node<'a>(
    alloc: Global,
    surroundings: Surroundings<'_>,
    content: Content,
    octets: &'a [u8],
) -> Result<Option<Node<'a>>, NoMemory>
    ensures { IfOk result (λ n. option_view n ≡ judged.leaf_node (content_view (around surroundings.entry) content) octets.now) }
{
    match content {
        Content::Primitive(leaf) | Content::Joined(leaf) => read_leaf(
            alloc,
            surroundings,
            leaf,
            Bytes::Lent(octets),
        ),
        Content::JoinedBits(leaf) => read_bit_content(alloc, leaf, octets),
        Content::Explicit(_)
        | Content::Sequence(_)
        | Content::Set(_)
        | Content::Members(_)
        | Content::Never => Ok(None),
    }
}
