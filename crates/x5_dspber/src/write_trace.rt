//! How far names are resolved, and trace information (X.518, sections 10.5 and 10.6), written as their canonical octets (X.690, section
//! 10) before the octets that are there.
ghost use Rattle.std.specs.Prelude.{◌≡◌, ◌∷◌, [], ◌++◌, OnOk, if◌then◌else◌, map};
ghost use Rattle.x5_dapreply.specs.ReplyViews.{told_item};
ghost use Rattle.x5_direct_writer.specs.PutsOf.{PutsEach, PutsOf};
ghost use Rattle.x5_model_messages.specs.Replies as replies;
ghost use Rattle.x5_model_messages.specs.Terms.{node_of};
ghost use Rattle.x5_model_typed.specs.Named as named;
ghost use Rattle.x5_model_typed.specs.Nodes as nodes;
ghost use Rattle.x5_ops.specs.ReferenceViews.{progress_view};

use std::alloc::Global;
use x5_dapber::parts::number;
use x5_direct_writer::answers::put_agent;
use x5_direct_writer::enclose;
use x5_direct_writer::names::put_name;
use x5_memory::NoMemory;
use x5_ops::{Progress, TraceItem};
use x5_types::{Named, Surroundings};
use x5_writer::{Backwards, WriteFault, write_node};

/// That the RDN with the number is to be resolved next.
fn put_proceeding(alloc: Global, out: &mut Backwards, next: u8) -> Result<(), WriteFault>
    ensures { PutsOf named.Progress (node_of (nodes.whole 2 ∷ nodes.whole next ∷ [])) out.old out.new result }
{
    let behind = out.len();
    let node = number(u32::from(next));
    write_node(
        alloc,
        out,
        Surroundings::Nowhere,
        Named::NumberBelow(1, 16),
        &node,
    )?;
    out.put_all(&[10, 1, 2])?;
    enclose(out, 0, 16, behind)?;
    Ok(())
}

/// How far a name is resolved.
pub(crate) fn put_progress(
    alloc: Global,
    out: &mut Backwards,
    progress: Progress,
) -> Result<(), WriteFault>
    ensures { PutsOf named.Progress (replies.progress_node (progress_view progress)) out.old out.new result }
{
    match progress {
        Progress::NotStarted => Ok(out.put_all(&[48, 3, 10, 1, 1])?),
        Progress::Proceeding(next) => put_proceeding(alloc, out, next),
        Progress::Completed => Ok(out.put_all(&[48, 3, 10, 1, 3])?),
    }
}

/// That a message of the type nonSpecific was received: it's false where it isn't there.
fn put_wide(out: &mut Backwards, wide: bool) -> Result<(), NoMemory>
    ensures { OnOk result (out.new ≡ (if wide then 1 ∷ 1 ∷ 255 ∷ [] else []) ++ out.old) }
{
    if wide {
        out.put_all(&[1, 1, 255])?;
    }
    Ok(())
}

/// An item of trace information.
fn put_item(alloc: Global, out: &mut Backwards, item: &TraceItem) -> Result<(), WriteFault>
    ensures { PutsOf named.TraceItem (replies.item_node (told_item item.now)) out.old out.new result }
{
    let behind = out.len();
    put_wide(out, item.wide)?;
    put_progress(alloc, out, item.progress)?;
    put_name(alloc, out, &item.target)?;
    put_agent(out, &item.agent)?;
    enclose(out, 0, 16, behind)?;
    Ok(())
}

/// Items of trace information, one after the other.
pub(crate) fn put_items(
    alloc: Global,
    out: &mut Backwards,
    items: &[TraceItem],
) -> Result<(), WriteFault>
    ensures { PutsEach named.TraceItem (map (λ i. replies.item_node (told_item i)) items.now) out.old out.new result }
{
    let mut i = items.len();
    while i > 0 {
        i -= 1;
        put_item(alloc, out, &items[i])?;
    }
    Ok(())
}
