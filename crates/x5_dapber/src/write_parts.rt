//! Components of types, written as their canonical octets (X.690, section 10) before the octets that are there.
ghost use Rattle.x5_dapber.specs.PutsPart.{PutsPart, PutsValue};
ghost use Rattle.x5_model_messages.specs.Terms.{name_node as name_node_of};
ghost use Rattle.x5_model_typed.specs.Forms as forms;
ghost use Rattle.x5_model_typed.specs.Named as named;
ghost use Rattle.x5_model_typed.specs.Nodes as nodes;
ghost use Rattle.x5_ops.specs.JournalViews.{code_view};
ghost use Rattle.x5_types.specs.FormView.{named_view};
ghost use Rattle.x5_types.specs.NodeView.{node_view};

use crate::parts::number;
use std::alloc::Global;
use x5_direct_writer::enclose;
use x5_direct_writer::names::put_name;
use x5_names::Name;
use x5_ops::Operation;
use x5_types::{Named, Node, Surroundings};
use x5_writer::{Backwards, WriteFault, write_node};

/// A number of the type.
pub fn put_number(
    alloc: Global,
    out: &mut Backwards,
    form: Named,
    value: u32,
) -> Result<(), WriteFault>
    ensures { PutsValue (named_view form) (nodes.whole value) out.old out.new result }
{
    let node = number(value);
    write_node(alloc, out, Surroundings::Nowhere, form, &node)
}

/// The code of an operation (X.519, section 7), one octet.
pub fn put_code(out: &mut Backwards, operation: Operation) -> Result<(), WriteFault>
    ensures { PutsValue named.AnyNumber (nodes.whole (code_view operation)) out.old out.new result }
{
    out.put_all(&[2, 1, operation.code()])?;
    Ok(())
}

/// A value of the type, in its context tag.
pub fn put_tagged(
    alloc: Global,
    out: &mut Backwards,
    tag: u32,
    form: Named,
    node: &Node<'_>,
) -> Result<(), WriteFault>
    ensures { PutsPart (forms.at tag (named_view form)) (node_view node.now) out.old out.new result }
{
    let behind = out.len();
    write_node(alloc, out, Surroundings::Nowhere, form, node)?;
    enclose(out, 2, tag, behind)?;
    Ok(())
}

/// The name of the object that an operation is about, in the context tag 0.
pub fn put_object(alloc: Global, out: &mut Backwards, name: &Name) -> Result<(), WriteFault>
    ensures { PutsPart (forms.at 0 named.Name) (name_node_of name.now) out.old out.new result }
{
    let behind = out.len();
    put_name(alloc, out, name)?;
    enclose(out, 2, 0, behind)?;
    Ok(())
}
