//! Sources (X.518, section 10) written straight as their canonical octets (X.690, section 10).
ghost use Rattle.std.specs.Prelude.{map};
ghost use Rattle.x5_dapreply.specs.Found.{count, moment_elements};
ghost use Rattle.x5_dapreply.specs.ReplyViews.{told_source};
ghost use Rattle.x5_direct_writer.specs.PutsOf.{PutsEach, PutsOf};
ghost use Rattle.x5_model_messages.specs.Replies as replies;
ghost use Rattle.x5_model_messages.specs.Terms.{node_of};
ghost use Rattle.x5_model_octets.specs.Elements.{canonical_all};
ghost use Rattle.x5_model_typed.specs.Layouts as layouts;
ghost use Rattle.x5_model_typed.specs.Named as named;
ghost use Rattle.x5_model_typed.specs.Nodes as nodes;
ghost use Rattle.x5_writer.specs.Puts.{Puts};

use std::alloc::Global;
use x5_dapber::parts::number;
use x5_direct_writer::answers::put_agent;
use x5_direct_writer::enclose;
use x5_direct_writer::names::put_name;
use x5_ops::{Moment, Source};
use x5_types::{Named, Surroundings};
use x5_writer::{Backwards, WriteFault, write_node};

/// An id, or the seconds of a moment.
pub(crate) fn put_count(alloc: Global, out: &mut Backwards, value: u32) -> Result<(), WriteFault>
    ensures { PutsOf count (nodes.whole value) out.old out.new result }
{
    let node = number(value);
    write_node(
        alloc,
        out,
        Surroundings::Nowhere,
        Named::NumberBelow(0, 4_294_967_295),
        &node,
    )
}

/// The moment of a copy, which is missing at a master.
fn put_moment(alloc: Global, out: &mut Backwards, moment: Option<Moment>) -> Result<(), WriteFault>
    ensures { (w : layouts.Surroundings) → Puts canonical_all (moment_elements w moment) out.old out.new result }
{
    match moment {
        None => Ok(()),
        Some(Moment(seconds)) => put_count(alloc, out, seconds),
    }
}

/// A naming context that an answer was computed from, its agent, and the moment of a copy.
pub(crate) fn put_source(
    alloc: Global,
    out: &mut Backwards,
    source: &Source,
) -> Result<(), WriteFault>
    ensures { PutsOf named.Source (replies.source_node (told_source source.now)) out.old out.new result }
{
    let behind = out.len();
    put_moment(alloc, out, source.moment)?;
    put_agent(out, &source.agent)?;
    put_name(alloc, out, &source.context)?;
    enclose(out, 0, 16, behind)?;
    Ok(())
}

fn put_each_source(alloc: Global, out: &mut Backwards, sources: &[Source]) -> Result<(), WriteFault>
    ensures { PutsEach named.Source (map (λ s. replies.source_node (told_source s)) sources.now) out.old out.new result }
{
    let mut i = sources.len();
    while i > 0 {
        i -= 1;
        put_source(alloc, out, &sources[i])?;
    }
    Ok(())
}

/// Sources: a SEQUENCE OF them.
pub(crate) fn put_source_list(
    alloc: Global,
    out: &mut Backwards,
    sources: &[Source],
) -> Result<(), WriteFault>
    ensures { PutsOf named.Sources (node_of (map (λ s. replies.source_node (told_source s)) sources.now)) out.old out.new result }
{
    let behind = out.len();
    put_each_source(alloc, out, sources)?;
    enclose(out, 0, 16, behind)?;
    Ok(())
}
