//! Values, and attributes with them (X.501, section 8).
ghost use Rattle.std.specs.Prelude.{◌≡◌, map};
ghost use Rattle.x5_direct_writer.specs.PutsOf.{PutsOf, PutsEach};
ghost use Rattle.x5_model_messages.specs.Replies as replies;
ghost use Rattle.x5_model_messages.specs.Shadows as shadows;
ghost use Rattle.x5_model_messages.specs.Terms as terms;
ghost use Rattle.x5_model_messages.specs.Terms.{node_of};
ghost use Rattle.x5_model_typed.specs.Named as named;
ghost use Rattle.x5_model_typed.specs.Nodes as nodes;
ghost use Rattle.x5_ops.specs.AnswerViews.{shown_view};
ghost use Rattle.x5_syntax.specs.ValueView.{value_view};

use crate::header::enclose;
use crate::names::{put_known_type, put_name_value, put_text, put_type};
use std::alloc::Global;
use x5_match::{Stored, StoredValue};
use x5_ops::Attribute;
use x5_syntax::{Oid, Value};
use x5_types::{Bytes, Named, Node, Surroundings, is_short};
use x5_writer::{Backwards, WriteFault, put_oid, write_node};

/// A value, by its form.
pub fn put_value(alloc: Global, out: &mut Backwards, value: &Value) -> Result<(), WriteFault>
    ensures { PutsOf named.Value (terms.value_node (value_view value.now)) out.old out.new result }
{
    match value {
        Value::Text(text) => put_text(alloc, out, text),
        Value::Octets(octets) => {
            let node = Node::Octets(Bytes::Lent(octets.as_slice()));
            write_node(alloc, out, Surroundings::Nowhere, Named::Value, &node)
        }
        Value::Oid(oid) => put_oid_value(out, oid),
        Value::Name(name) => put_name_value(alloc, out, name),
    }
}

/// A value that is an object identifier: one of not too many octets.
fn put_oid_value(out: &mut Backwards, oid: &Oid) -> Result<(), WriteFault>
    ensures { PutsOf named.Value (nodes.Oid oid.now) out.old out.new result }
{
    let arcs = oid.arcs();
    if !is_short(arcs) {
        return Err(WriteFault::Misfit);
    }
    let behind = out.len();
    put_oid(out, arcs)?;
    out.put_header(0, false, 6, out.len().saturating_sub(behind))?;
    Ok(())
}

fn put_stored_value(
    alloc: Global,
    out: &mut Backwards,
    stored: &StoredValue,
) -> Result<(), WriteFault>
    ensures { PutsOf named.Value (terms.value_node stored.now.value) out.old out.new result }
{
    put_value(alloc, out, &stored.value)
}

fn put_values(alloc: Global, out: &mut Backwards, values: &[Value]) -> Result<(), WriteFault>
    ensures { PutsEach named.Value (map (λ v. terms.value_node (value_view v)) values.now) out.old out.new result }
{
    let mut i = values.len();
    while i > 0 {
        i -= 1;
        put_value(alloc, out, &values[i])?;
    }
    Ok(())
}

fn put_stored_values(
    alloc: Global,
    out: &mut Backwards,
    values: &[StoredValue],
) -> Result<(), WriteFault>
    ensures { PutsEach named.Value (map (λ v. terms.value_node v.value) values.now) out.old out.new result }
{
    let mut i = values.len();
    while i > 0 {
        i -= 1;
        put_stored_value(alloc, out, &values[i])?;
    }
    Ok(())
}

/// Values: a SET OF them.
fn put_value_set(alloc: Global, out: &mut Backwards, values: &[Value]) -> Result<(), WriteFault>
    ensures { PutsOf named.Values (node_of (map (λ v. terms.value_node (value_view v)) values.now)) out.old out.new result }
{
    let behind = out.len();
    put_values(alloc, out, values)?;
    enclose(out, 0, 17, behind)?;
    Ok(())
}

fn put_stored_value_set(
    alloc: Global,
    out: &mut Backwards,
    values: &[StoredValue],
) -> Result<(), WriteFault>
    ensures { PutsOf named.Values (node_of (map (λ v. terms.value_node v.value) values.now)) out.old out.new result }
{
    let behind = out.len();
    put_stored_values(alloc, out, values)?;
    enclose(out, 0, 17, behind)?;
    Ok(())
}

/// What is shown of an attribute: its type and values.
fn put_attribute(
    alloc: Global,
    out: &mut Backwards,
    attribute: &Attribute,
) -> Result<(), WriteFault>
    ensures { PutsOf named.Attribute (replies.shown_node (shown_view attribute.now)) out.old out.new result }
{
    let behind = out.len();
    put_value_set(alloc, out, attribute.values.as_slice())?;
    put_type(alloc, out, &attribute.kind)?;
    enclose(out, 0, 16, behind)?;
    Ok(())
}

fn put_stored(alloc: Global, out: &mut Backwards, attribute: &Stored) -> Result<(), WriteFault>
    ensures { PutsOf named.Attribute (shadows.stored_node attribute.now) out.old out.new result }
{
    let behind = out.len();
    put_stored_value_set(alloc, out, attribute.values.as_slice())?;
    put_known_type(out, attribute.kind)?;
    enclose(out, 0, 16, behind)?;
    Ok(())
}

fn put_attributes(
    alloc: Global,
    out: &mut Backwards,
    attributes: &[Attribute],
) -> Result<(), WriteFault>
    ensures { PutsEach named.Attribute (map (λ a. replies.shown_node (shown_view a)) attributes.now) out.old out.new result }
{
    let mut i = attributes.len();
    while i > 0 {
        i -= 1;
        put_attribute(alloc, out, &attributes[i])?;
    }
    Ok(())
}

fn put_all_stored(
    alloc: Global,
    out: &mut Backwards,
    attributes: &[Stored],
) -> Result<(), WriteFault>
    ensures { PutsEach named.Attribute (map shadows.stored_node attributes.now) out.old out.new result }
{
    let mut i = attributes.len();
    while i > 0 {
        i -= 1;
        put_stored(alloc, out, &attributes[i])?;
    }
    Ok(())
}

/// What is shown of attributes: a SET OF them.
pub(crate) fn put_attribute_set(
    alloc: Global,
    out: &mut Backwards,
    attributes: &[Attribute],
) -> Result<(), WriteFault>
    ensures { PutsOf named.Attributes (node_of (map (λ a. replies.shown_node (shown_view a)) attributes.now)) out.old out.new result }
{
    let behind = out.len();
    put_attributes(alloc, out, attributes)?;
    enclose(out, 0, 17, behind)?;
    Ok(())
}

/// The attributes of an entry: a SET OF them.
pub(crate) fn put_stored_set(
    alloc: Global,
    out: &mut Backwards,
    attributes: &[Stored],
) -> Result<(), WriteFault>
    ensures { PutsOf named.Attributes (node_of (map shadows.stored_node attributes.now)) out.old out.new result }
{
    let behind = out.len();
    put_all_stored(alloc, out, attributes)?;
    enclose(out, 0, 17, behind)?;
    Ok(())
}
