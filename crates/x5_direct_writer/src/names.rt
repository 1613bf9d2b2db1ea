//! Types, texts and names of entries (X.501, section 9).
ghost use Rattle.std.specs.Prelude.{◌≡◌, IfOk, map};
ghost use Rattle.x5_direct_writer.specs.PutsOf.{PutsOf, PutsEach};
ghost use Rattle.x5_model.specs.Values as values;
ghost use Rattle.x5_model_messages.specs.Terms as terms;
ghost use Rattle.x5_model_typed.specs.Named as named;
ghost use Rattle.x5_model_typed.specs.Nodes as nodes;
ghost use Rattle.x5_syntax.specs.TypeView.{type_view};
ghost use Rattle.x5_types.specs.NodeView.{node_view};

use crate::header::enclose;
use std::alloc::Global;
use x5_memory::NoMemory;
use x5_names::{Name, Pair, Rdn};
use x5_syntax::{NameValue, RdnValue, Text, TypeId, TypeRef};
use x5_types::{Characters, Letters, Named, Node, Surroundings, is_text};
use x5_writer::{Backwards, WriteFault, write_node};

/// A type of the table: the object identifier 2.5.4 and its number (X.520, section 5), one octet an arc but for the first two, which
/// are one.
pub fn put_known_type(out: &mut Backwards, kind: TypeId) -> Result<(), WriteFault>
    ensures { PutsOf named.AnyOid (terms.type_node (values.Known kind)) out.old out.new result }
{
    out.put_all(&[6, 3, 0x55, 4, kind.number()])?;
    Ok(())
}

fn arcs_node<'a>(alloc: Global, arcs: &[u32]) -> Result<Node<'a>, NoMemory>
    ensures { IfOk result (λ n. node_view n ≡ nodes.Oid arcs.now) }
{
    Ok(Node::Oid(Vec::from_clones(alloc, arcs)?))
}

/// An attribute type, by its object identifier.
pub fn put_type(alloc: Global, out: &mut Backwards, kind: &TypeRef) -> Result<(), WriteFault>
    ensures { PutsOf named.AnyOid (terms.type_node (type_view kind.now)) out.old out.new result }
{
    match kind {
        TypeRef::Known(known) => put_known_type(out, *known),
        TypeRef::Unknown(oid) => {
            let node = arcs_node(alloc, oid.arcs())?;
            write_node(alloc, out, Surroundings::Nowhere, Named::AnyOid, &node)
        }
    }
}

/// A text: a PrintableString where it may be one.
pub fn put_text(alloc: Global, out: &mut Backwards, text: &Text) -> Result<(), WriteFault>
    ensures { PutsOf named.Value (nodes.Text text.now) out.old out.new result }
{
    let octets = text.as_str().as_bytes();
    if is_text(Surroundings::Nowhere, Letters::Printable, octets) {
        out.put_all(octets)?;
        out.put_header(0, false, 19, octets.len())?;
        return Ok(());
    }
    put_other_text(alloc, out, text)
}

/// A text of any characters, by the table of types. It stands apart, so that the usual text takes few steps.
#[inline(never)]
fn put_other_text(alloc: Global, out: &mut Backwards, text: &Text) -> Result<(), WriteFault>
    ensures { PutsOf named.Value (nodes.Text text.now) out.old out.new result }
{
    let node = Node::Text(Characters::Lent(text.as_str()));
    write_node(alloc, out, Surroundings::Nowhere, Named::Value, &node)
}

/// A pair of a type and a text, of which names are made.
fn put_pair_of(
    alloc: Global,
    out: &mut Backwards,
    kind: TypeId,
    text: &Text,
) -> Result<(), WriteFault>
    ensures { PutsOf named.Pair (terms.pair_node (kind, text.now)) out.old out.new result }
{
    let behind = out.len();
    put_text(alloc, out, text)?;
    put_known_type(out, kind)?;
    enclose(out, 0, 16, behind)?;
    Ok(())
}

fn put_pair(alloc: Global, out: &mut Backwards, pair: &Pair) -> Result<(), WriteFault>
    ensures { PutsOf named.Pair (terms.pair_node (values.written_pair pair.now)) out.old out.new result }
{
    put_pair_of(alloc, out, pair.kind(), pair.text())
}

fn put_written_pair(
    alloc: Global,
    out: &mut Backwards,
    pair: &(TypeId, Text),
) -> Result<(), WriteFault>
    ensures { PutsOf named.Pair (terms.pair_node pair.now) out.old out.new result }
{
    put_pair_of(alloc, out, pair.0, &pair.1)
}

fn put_pairs(alloc: Global, out: &mut Backwards, pairs: &[Pair]) -> Result<(), WriteFault>
    ensures { PutsEach named.Pair (map (λ p. terms.pair_node (values.written_pair p)) pairs.now) out.old out.new result }
{
    let mut i = pairs.len();
    while i > 0 {
        i -= 1;
        put_pair(alloc, out, &pairs[i])?;
    }
    Ok(())
}

fn put_written_pairs(
    alloc: Global,
    out: &mut Backwards,
    pairs: &[(TypeId, Text)],
) -> Result<(), WriteFault>
    ensures { PutsEach named.Pair (map terms.pair_node pairs.now) out.old out.new result }
{
    let mut i = pairs.len();
    while i > 0 {
        i -= 1;
        put_written_pair(alloc, out, &pairs[i])?;
    }
    Ok(())
}

/// An RDN: a SET OF its pairs.
pub fn put_rdn(alloc: Global, out: &mut Backwards, rdn: &Rdn) -> Result<(), WriteFault>
    ensures { PutsOf named.Rdn (terms.rdn_node rdn.now) out.old out.new result }
{
    let behind = out.len();
    put_pairs(alloc, out, rdn.pairs())?;
    enclose(out, 0, 17, behind)?;
    Ok(())
}

fn put_written_rdn(alloc: Global, out: &mut Backwards, rdn: &RdnValue) -> Result<(), WriteFault>
    ensures { PutsOf named.Rdn (terms.pairs_node rdn.now) out.old out.new result }
{
    let behind = out.len();
    put_written_pairs(alloc, out, rdn.pairs())?;
    enclose(out, 0, 17, behind)?;
    Ok(())
}

fn put_rdns(alloc: Global, out: &mut Backwards, rdns: &[Rdn]) -> Result<(), WriteFault>
    ensures { PutsEach named.Rdn (map terms.rdn_node rdns.now) out.old out.new result }
{
    let mut i = rdns.len();
    while i > 0 {
        i -= 1;
        put_rdn(alloc, out, &rdns[i])?;
    }
    Ok(())
}

fn put_written_rdns(alloc: Global, out: &mut Backwards, rdns: &[RdnValue]) -> Result<(), WriteFault>
    ensures { PutsEach named.Rdn (map terms.pairs_node rdns.now) out.old out.new result }
{
    let mut i = rdns.len();
    while i > 0 {
        i -= 1;
        put_written_rdn(alloc, out, &rdns[i])?;
    }
    Ok(())
}

/// A name: a SEQUENCE OF its RDNs from the root.
pub fn put_name(alloc: Global, out: &mut Backwards, name: &Name) -> Result<(), WriteFault>
    ensures { PutsOf named.Name (terms.name_node name.now) out.old out.new result }
{
    let behind = out.len();
    put_rdns(alloc, out, name.rdns())?;
    enclose(out, 0, 16, behind)?;
    Ok(())
}

/// A value that is a name.
pub(crate) fn put_name_value(
    alloc: Global,
    out: &mut Backwards,
    name: &NameValue,
) -> Result<(), WriteFault>
    ensures { PutsOf named.Value (terms.name_value_node name.now) out.old out.new result }
{
    let behind = out.len();
    put_written_rdns(alloc, out, name.rdns())?;
    enclose(out, 0, 16, behind)?;
    Ok(())
}
