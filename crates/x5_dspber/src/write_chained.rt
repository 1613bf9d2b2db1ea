//! Messages between agents (X.518, sections 10 and 12; X.519, section 7), written as their canonical octets (X.690, section 10).
ghost use Rattle.std.specs.Prelude.{map};
ghost use Rattle.x5_dapber.specs.PutsPart.{PutsPart, PutsValue, asked_by};
ghost use Rattle.x5_dapreply.specs.ReplyViews.{told_item};
ghost use Rattle.x5_direct_writer.specs.PutsOf.{PutsEach};
ghost use Rattle.x5_dspber.specs.ChainedViews.{told_chained};
ghost use Rattle.x5_model_messages.specs.Chained as chains;
ghost use Rattle.x5_model_messages.specs.Replies as replies;
ghost use Rattle.x5_model_messages.specs.Terms.{node_of, rdn_node as rdn_node_of};
ghost use Rattle.x5_model_run.specs.Journal.{kind_number};
ghost use Rattle.x5_model_typed.specs.Forms as forms;
ghost use Rattle.x5_model_typed.specs.Layouts.{or_nothing};
ghost use Rattle.x5_model_typed.specs.Named as named;
ghost use Rattle.x5_model_typed.specs.Nodes as nodes;
ghost use Rattle.x5_model_typed.specs.Written.{canonical_octets};
ghost use Rattle.x5_ops.specs.ReferenceViews.{kind_view, progress_view};
ghost use Rattle.x5_ops.specs.RequestViews.{body_view};
ghost use Rattle.x5_types.specs.FormView.{table};
ghost use Rattle.x5_writer.specs.Puts.{Writes};

use crate::write_trace::{put_items, put_progress};
use std::alloc::Global;
use x5_dapber::write_arguments::put_argument;
use x5_dapber::write_parts::{put_code, put_number, put_object};
use x5_direct_writer::enclose;
use x5_direct_writer::names::put_rdn;
use x5_names::Rdn;
use x5_ops::{Chained, Progress, RefType, TraceItem};
use x5_types::Named;
use x5_writer::{Backwards, WriteFault};

/// How far the target is resolved, in its tag.
fn put_resolved(alloc: Global, out: &mut Backwards, progress: Progress) -> Result<(), WriteFault>
    ensures { PutsPart (forms.at 1 named.Progress) (replies.progress_node (progress_view progress)) out.old out.new result }
{
    let behind = out.len();
    put_progress(alloc, out, progress)?;
    enclose(out, 2, 1, behind)?;
    Ok(())
}

/// Trace information, in its tag.
fn put_trace(alloc: Global, out: &mut Backwards, items: &[TraceItem]) -> Result<(), WriteFault>
    ensures { PutsPart (forms.at 2 named.Trace) (node_of (map replies.item_node (map told_item items.now))) out.old out.new result }
{
    let behind = out.len();
    put_items(alloc, out, items)?;
    enclose(out, 0, 16, behind)?;
    enclose(out, 2, 2, behind)?;
    Ok(())
}

/// The kind of reference that led to the agent, in its tag: its number, one octet.
fn put_kind(out: &mut Backwards, kind: RefType) -> Result<(), WriteFault>
    ensures { PutsPart (forms.at 3 named.RefType) (nodes.whole (kind_number (kind_view kind))) out.old out.new result }
{
    out.put_all(&[0xA3, 3, 2, 1, kind.number()])?;
    Ok(())
}

fn put_each_rdn(alloc: Global, out: &mut Backwards, rdns: &[Rdn]) -> Result<(), WriteFault>
    ensures { PutsEach named.Rdn (map rdn_node_of rdns.now) out.old out.new result }
{
    let mut i = rdns.len();
    while i > 0 {
        i -= 1;
        put_rdn(alloc, out, &rdns[i])?;
    }
    Ok(())
}

/// The RDNs that are left out, in their tag; nothing where there are none.
fn put_exclusions(alloc: Global, out: &mut Backwards, rdns: &[Rdn]) -> Result<(), WriteFault>
    ensures { PutsPart (or_nothing (forms.at 4 named.Rdns)) (node_of (map rdn_node_of rdns.now)) out.old out.new result }
{
    if rdns.is_empty() {
        return Ok(());
    }
    let behind = out.len();
    put_each_rdn(alloc, out, rdns)?;
    enclose(out, 0, 16, behind)?;
    enclose(out, 2, 4, behind)?;
    Ok(())
}

/// Chaining arguments (X.518, section 10.3).
fn put_chaining(alloc: Global, out: &mut Backwards, message: &Chained) -> Result<(), WriteFault>
    ensures { PutsValue named.Chaining (chains.chaining_node (told_chained message.now)) out.old out.new result }
{
    let behind = out.len();
    put_exclusions(alloc, out, message.exclusions.as_slice())?;
    put_kind(out, message.kind)?;
    put_trace(alloc, out, message.trace.as_slice())?;
    put_resolved(alloc, out, message.progress)?;
    put_object(alloc, out, &message.target)?;
    enclose(out, 0, 17, behind)?;
    Ok(())
}

/// The chaining arguments, and the argument of the operation as a user gives it.
fn put_carried(alloc: Global, out: &mut Backwards, message: &Chained) -> Result<(), WriteFault>
    ensures { PutsValue (named.Chained (asked_by (body_view message.now.request.body))) (chains.carried_node (told_chained message.now)) out.old out.new result }
{
    let behind = out.len();
    put_argument(alloc, out, &message.request)?;
    put_chaining(alloc, out, message)?;
    enclose(out, 0, 16, behind)?;
    Ok(())
}

/// An agent's message: an invoke with its id, the operation's code, and what it carries.
fn put_chained(
    alloc: Global,
    out: &mut Backwards,
    id: u32,
    message: &Chained,
) -> Result<(), WriteFault>
    ensures { PutsValue named.DspRequest (chains.chained_node id (told_chained message.now)) out.old out.new result }
{
    let behind = out.len();
    put_carried(alloc, out, message)?;
    put_code(out, message.request.body.operation())?;
    put_number(alloc, out, Named::NumberBelow(0, 4_294_967_295), id)?;
    enclose(out, 2, 1, behind)?;
    Ok(())
}

/// The octets of an agent's message.
pub(crate) fn write_chained(
    alloc: Global,
    id: u32,
    message: &Chained,
) -> Result<Vec<u8>, WriteFault>
    ensures { Writes (canonical_octets table named.DspRequest (chains.chained_node id (told_chained message.now))) result }
{
    let mut out = Backwards::new(alloc);
    put_chained(alloc, &mut out, id, message)?;
    Ok(out.into_octets())
}
