//! Contents of octets (X.690, section 8).
ghost use Rattle.std.specs.Prelude.{◌≡◌, ◌++◌, OnOk, IsTrue};
ghost use Rattle.std.specs.Option.{is_some, option_map};
ghost use Rattle.x5_model_typed.specs.Written as written;
ghost use Rattle.x5_types.specs.FormView.{around, bit_leaf_view, content_view, leaf_view};
ghost use Rattle.x5_types.specs.NodeView.{node_view};
ghost use Rattle.x5_model_typed.specs.Forms as forms;
ghost use Rattle.x5_model_typed.specs.Layouts as layouts;
ghost use Rattle.x5_model_typed.specs.Leaves as leaves;
ghost use Rattle.x5_model_typed.specs.Nodes as nodes;
ghost use Rattle.x5_writer.specs.Contents.{flag_of, octets_in, option_bits};

use crate::backwards::Backwards;
use crate::number::{is_oid, put_number, put_oid};
use crate::string::{put_characters, put_options};
use std::alloc::Global;
use x5_memory::NoMemory;
use x5_syntax::MOST_VALUE_OCTETS;
use x5_types::{
    BitLeaf, Content, Leaf, Node, Surroundings, is_among, is_length, is_short, is_text,
};

/// Whether octets of the content say the value.
pub(crate) fn holds(surroundings: Surroundings<'_>, content: Content, node: &Node<'_>) -> bool
    ensures { result ≡ is_some (written.leaf_octets (content_view (around surroundings.entry) content) (node_view node.now)) }
{
    match content {
        Content::Primitive(leaf) | Content::Joined(leaf) => leaf_holds(surroundings, leaf, node),
        Content::JoinedBits(leaf) => options_in(leaf, node).is_some(),
        Content::Explicit(_)
        | Content::Sequence(_)
        | Content::Set(_)
        | Content::Members(_)
        | Content::Never => false,
    }
}

fn leaf_holds(surroundings: Surroundings<'_>, leaf: Leaf, node: &Node<'_>) -> bool
    ensures { result ≡ is_some ((leaf_view (around surroundings.entry) leaf).writes (node_view node.now)) }
{
    match (leaf, node) {
        (Leaf::Boolean, Node::Flag(_)) | (Leaf::Null, Node::Vacant) => true,
        (Leaf::Number(numbers), Node::Number(number)) => is_among(numbers, *number),
        (Leaf::Oid, Node::Oid(arcs)) => is_oid(arcs),
        (Leaf::ShortOid, Node::Oid(arcs)) => is_oid(arcs) && is_short(arcs),
        (Leaf::Octets, Node::Octets(octets)) => octets.as_slice().len() <= MOST_VALUE_OCTETS,
        (Leaf::Text(letters), Node::Text(text)) => {
            is_text(surroundings, letters, text.as_str().as_bytes())
        }
        (Leaf::Universal, Node::Text(text)) => is_length(text.as_str().as_bytes()),
        (Leaf::Time, Node::Number(number)) => has_time(surroundings, *number),
        (Leaf::AnyOctets, Node::Octets(_)) => true,
        (Leaf::Placed(place), Node::Many(_)) => placed_octets(place, node).is_some(),
        _ => false,
    }
}

/// Whether the moment has a date and time.
fn has_time(surroundings: Surroundings<'_>, moment: i64) -> bool
    ensures { result ≡ is_some ((layouts.time_leaf (around surroundings.entry)).writes (nodes.Number moment)) }
{
    match u64::try_from(moment) {
        Ok(moment) => surroundings.has_time(moment),
        Err(_) => false,
    }
}

/// Whether it's the number of the place.
fn is_number(place: u32, number: i64) -> bool
    ensures { result ≡ leaves.is_place place (nodes.Number number) }
{
    match u64::try_from(number) {
        Ok(number) => number == u64::from(place),
        Err(_) => false,
    }
}

/// Whether the value is the number of the place.
fn is_place(place: u32, node: &Node<'_>) -> bool
    ensures { result ≡ leaves.is_place place (node_view node.now) }
{
    match node {
        Node::Number(number) => is_number(place, *number),
        _ => false,
    }
}

/// The octets, if the value is octets.
fn plain_octets<'n>(node: &'n Node<'_>) -> Option<&'n [u8]>
    ensures { option_map (λ octets. octets.now) result ≡ leaves.octets_in (node_view node.now) }
{
    match node {
        Node::Octets(octets) => Some(octets.as_slice()),
        _ => None,
    }
}

/// The octets behind the number of the place, if the value is both.
fn placed_octets<'n>(place: u32, node: &'n Node<'_>) -> Option<&'n [u8]>
    ensures { option_map (λ octets. octets.now) result ≡ (leaves.placed place).writes (node_view node.now) }
{
    let (number, octets) = node.two_parts()?;
    if is_place(place, number) {
        plain_octets(octets)
    } else {
        None
    }
}

/// The options dontUseCopy and chainingProhibited, if the value is options.
fn options_in(leaf: BitLeaf, node: &Node<'_>) -> Option<(bool, bool)>
    ensures { option_map (λ p. option_bits p.0 p.1) result ≡ (bit_leaf_view leaf).writes (node_view node.now) }
{
    match leaf {
        BitLeaf::Options => {
            let (nocopy, nochain) = node.two_parts()?;
            Some((flag_in(nocopy)?, flag_in(nochain)?))
        }
        BitLeaf::Segment => None,
    }
}

fn flag_in(node: &Node<'_>) -> Option<bool>
    ensures { result ≡ flag_of (node_view node.now) }
{
    match node {
        Node::Flag(flag) => Some(*flag),
        _ => None,
    }
}

/// The octets of the content that say the value.
pub(crate) fn put_content(
    alloc: Global,
    out: &mut Backwards,
    surroundings: Surroundings<'_>,
    content: Content,
    node: &Node<'_>,
) -> Result<(), NoMemory>
    requires { IsTrue (is_some (written.leaf_octets (content_view (around surroundings) content) (node_view node.now))) }
    ensures { OnOk result (out.new ≡ octets_in (written.leaf_octets (content_view (around surroundings.entry) content) (node_view node.now)) ++ out.old) }
{
    match content {
        Content::Primitive(leaf) | Content::Joined(leaf) => put_leaf(
            alloc,
            out,
            surroundings,
            leaf,
            node,
        ),
        Content::JoinedBits(leaf) => put_bits(out, leaf, node),
        Content::Explicit(_)
        | Content::Sequence(_)
        | Content::Set(_)
        | Content::Members(_)
        | Content::Never => Ok(()),
    }
}

fn put_leaf(
    alloc: Global,
    out: &mut Backwards,
    surroundings: Surroundings<'_>,
    leaf: Leaf,
    node: &Node<'_>,
) -> Result<(), NoMemory>
    requires { IsTrue (is_some ((leaf_view (around surroundings) leaf).writes (node_view node.now))) }
    ensures { OnOk result (out.new ≡ octets_in ((leaf_view (around surroundings.entry) leaf).writes (node_view node.now)) ++ out.old) }
{
    match (leaf, node) {
        (Leaf::Boolean, Node::Flag(flag)) => out.put(if *flag { 255 } else { 0 }),
        (Leaf::Number(_), Node::Number(number)) => put_number(out, *number),
        (Leaf::Oid, Node::Oid(arcs)) | (Leaf::ShortOid, Node::Oid(arcs)) => put_oid(out, arcs),
        (Leaf::Octets, Node::Octets(octets)) => out.put_all(octets.as_slice()),
        (Leaf::Text(_), Node::Text(text)) => out.put_all(text.as_str().as_bytes()),
        (Leaf::Universal, Node::Text(text)) => put_characters(alloc, out, text.as_str()),
        (Leaf::Time, Node::Number(number)) => put_time(alloc, out, surroundings, *number),
        (Leaf::AnyOctets, Node::Octets(octets)) => out.put_all(octets.as_slice()),
        (Leaf::Placed(place), Node::Many(_)) => put_placed(out, place, node),
        _ => Ok(()),
    }
}

/// The date and time of a moment.
fn put_time(
    alloc: Global,
    out: &mut Backwards,
    surroundings: Surroundings<'_>,
    moment: i64,
) -> Result<(), NoMemory>
    requires { IsTrue (is_some ((layouts.time_leaf (around surroundings)).writes (nodes.Number moment))) }
    ensures { OnOk result (out.new ≡ octets_in ((layouts.time_leaf (around surroundings.entry)).writes (nodes.Number moment)) ++ out.old) }
{
    let Ok(moment) = u64::try_from(moment) else {
        return Ok(());
    };
    match surroundings.time(alloc, moment)? {
        Some(text) => out.put_all(text.as_str().as_bytes()),
        None => Ok(()),
    }
}

/// The octets behind the number of the place.
fn put_placed(out: &mut Backwards, place: u32, node: &Node<'_>) -> Result<(), NoMemory>
    ensures { OnOk result (out.new ≡ octets_in ((leaves.placed place).writes (node_view node.now)) ++ out.old) }
{
    match placed_octets(place, node) {
        Some(octets) => out.put_all(octets),
        None => Ok(()),
    }
}

fn put_bits(out: &mut Backwards, leaf: BitLeaf, node: &Node<'_>) -> Result<(), NoMemory>
    requires { IsTrue (is_some (written.leaf_octets (forms.JoinedBits (bit_leaf_view leaf)) (node_view node.now))) }
    ensures { OnOk result (out.new ≡ octets_in (written.leaf_octets (forms.JoinedBits (bit_leaf_view leaf)) (node_view node.now)) ++ out.old) }
{
    match options_in(leaf, node) {
        Some((nocopy, nochain)) => put_options(out, nocopy, nochain),
        None => Ok(()),
    }
}
