//! Total refreshes (X.525, section 10) and whole messages of shadowing, written as their canonical octets (X.690, section 10): entries
//! straight, the others by the writer over the table of types.
ghost use Rattle.std.specs.Prelude.{◌≡◌, ◌∷◌, [], map};
ghost use Rattle.x5_dispber.specs.ShadowViews.{told_known, told_other, told_shadow};
ghost use Rattle.x5_dispber.specs.Totals.{sent_total, total_node};
ghost use Rattle.x5_model_messages.specs.Shadows as shadows;
ghost use Rattle.x5_model_messages.specs.Terms.{node_of};
ghost use Rattle.x5_model_octets.specs.Elements.{canonical};
ghost use Rattle.x5_model_typed.specs.Named as named;
ghost use Rattle.x5_model_typed.specs.Nodes as nodes;
ghost use Rattle.x5_model_typed.specs.Written as written;
ghost use Rattle.x5_types.specs.FormView.{named_view, world_table};
ghost use Rattle.x5_writer.specs.Puts.{Puts, Writes};

use crate::messages::shadow_node;
use crate::refreshes::{all_known_node, others_node};
use crate::shadow::{Refresh, Shadow};
use crate::written::WrittenEntries;
use std::alloc::Global;
use x5_dapber::parts::number;
use x5_direct_writer::enclose;
use x5_know::{AgentNames, Start};
use x5_ops::{Content, Moment, Nssr, Specific};
use x5_types::{Named, Surroundings};
use x5_writer::{Backwards, WriteFault, write_in, write_node};

fn put_others(
    alloc: Global,
    out: &mut Backwards,
    start: &Start,
    names: &AgentNames,
    nssrs: &[Nssr],
) -> Result<(), WriteFault>
    ensures { Puts canonical (written.written (world_table start.now names.now) (world_table start.now names.now named.NonSpecifics) (node_of (map shadows.non_specific_node (map (told_other names.now) nssrs.now)))) out.old out.new result }
{
    let node = others_node(alloc, names, nssrs)?;
    let surroundings = Surroundings::World(start, names);
    write_node(alloc, out, surroundings, Named::NonSpecifics, &node)
}

fn put_known(
    alloc: Global,
    out: &mut Backwards,
    start: &Start,
    names: &AgentNames,
    known: &[Specific],
) -> Result<(), WriteFault>
    ensures { Puts canonical (written.written (world_table start.now names.now) (world_table start.now names.now named.Knowns) (node_of (map shadows.known_node (map (told_known names.now) known.now)))) out.old out.new result }
{
    let node = all_known_node(alloc, names, known)?;
    let surroundings = Surroundings::World(start, names);
    write_node(alloc, out, surroundings, Named::Knowns, &node)
}

/// All of a context: entries, subordinate references and non-specific ones.
fn put_total(
    alloc: Global,
    out: &mut Backwards,
    start: &Start,
    names: &AgentNames,
    last: &mut WrittenEntries,
    content: &Content,
) -> Result<(), WriteFault>
    ensures { Puts canonical (written.written (world_table start.now names.now) (world_table start.now names.now named.Total) (total_node names.now content.now)) out.old out.new result }
{
    let behind = out.len();
    put_others(alloc, out, start, names, content.nssr.as_slice())?;
    put_known(alloc, out, start, names, content.specific.as_slice())?;
    last.put(alloc, out, content.entries.as_slice())?;
    enclose(out, 0, 16, behind)?;
    Ok(())
}

/// The same as a refresh, by its tag.
fn put_refresh(
    alloc: Global,
    out: &mut Backwards,
    start: &Start,
    names: &AgentNames,
    last: &mut WrittenEntries,
    content: &Content,
) -> Result<(), WriteFault>
    ensures { Puts canonical (written.written (world_table start.now names.now) (world_table start.now names.now named.Refresh) (nodes.Chosen 0 (total_node names.now content.now))) out.old out.new result }
{
    let behind = out.len();
    put_total(alloc, out, start, names, last, content)?;
    enclose(out, 2, 0, behind)?;
    Ok(())
}

/// What a number of a form says, in a world.
fn put_number(
    alloc: Global,
    out: &mut Backwards,
    start: &Start,
    names: &AgentNames,
    form: Named,
    value: u32,
) -> Result<(), WriteFault>
    ensures { Puts canonical (written.written (world_table start.now names.now) (world_table start.now names.now (named_view form)) (nodes.whole value)) out.old out.new result }
{
    let node = number(value);
    let surroundings = Surroundings::World(start, names);
    write_node(alloc, out, surroundings, form, &node)
}

/// What a supplier sends of an agreement, with its stamp.
fn put_sent(
    alloc: Global,
    out: &mut Backwards,
    start: &Start,
    names: &AgentNames,
    last: &mut WrittenEntries,
    agreement: u32,
    stamp: Moment,
    content: &Content,
) -> Result<(), WriteFault>
    ensures { Puts canonical (written.written (world_table start.now names.now) (world_table start.now names.now named.UpdateArgument) (sent_total names.now agreement stamp content.now)) out.old out.new result }
{
    let behind = out.len();
    put_refresh(alloc, out, start, names, last, content)?;
    put_number(alloc, out, start, names, Named::Time, stamp.0)?;
    put_number(alloc, out, start, names, Named::Agreement, agreement)?;
    enclose(out, 0, 16, behind)?;
    Ok(())
}

/// The whole message: the id, the code of updateShadow and what is sent.
fn put_update(
    alloc: Global,
    out: &mut Backwards,
    start: &Start,
    names: &AgentNames,
    last: &mut WrittenEntries,
    id: u32,
    agreement: u32,
    stamp: Moment,
    content: &Content,
) -> Result<(), WriteFault>
    ensures { Puts canonical (written.written (world_table start.now names.now) (world_table start.now names.now named.DispMessage) (shadows.invoke_node id 2 (sent_total names.now agreement stamp content.now))) out.old out.new result }
{
    let behind = out.len();
    put_sent(alloc, out, start, names, last, agreement, stamp, content)?;
    out.put_all(&[2, 1, 2])?;
    put_number(
        alloc,
        out,
        start,
        names,
        Named::NumberBelow(0, 4_294_967_295),
        id,
    )?;
    enclose(out, 2, 1, behind)?;
    Ok(())
}

fn write_update(
    alloc: Global,
    start: &Start,
    names: &AgentNames,
    last: &mut WrittenEntries,
    id: u32,
    agreement: u32,
    stamp: Moment,
    content: &Content,
) -> Result<Vec<u8>, WriteFault>
    ensures { Writes (written.canonical_octets (world_table start.now names.now) named.DispMessage (shadows.invoke_node id 2 (sent_total names.now agreement stamp content.now))) result }
{
    let mut out = Backwards::new(alloc);
    put_update(
        alloc, &mut out, start, names, last, id, agreement, stamp, content,
    )?;
    Ok(out.into_octets())
}

fn write_other(
    alloc: Global,
    start: &Start,
    names: &AgentNames,
    id: u32,
    message: &Shadow,
) -> Result<Vec<u8>, WriteFault>
    ensures { Writes (written.canonical_octets (world_table start.now names.now) named.DispMessage (shadows.shadow_node id (told_shadow names.now message.now))) result }
{
    let node = shadow_node(alloc, names, id, message)?;
    let surroundings = Surroundings::World(start, names);
    write_in(alloc, surroundings, Named::DispMessage, &node)
}

/// The octets of a message of shadowing.
pub(crate) fn write_shadow(
    alloc: Global,
    start: &Start,
    names: &AgentNames,
    last: &mut WrittenEntries,
    id: u32,
    message: &Shadow,
) -> Result<Vec<u8>, WriteFault>
    ensures { Writes (written.canonical_octets (world_table start.now names.now) named.DispMessage (shadows.shadow_node id (told_shadow names.now message.now))) result }
{
    match message {
        Shadow::Update {
            agreement,
            stamp,
            refresh: Refresh::Total(content),
        } => write_update(alloc, start, names, last, id, *agreement, *stamp, content),
        _ => write_other(alloc, start, names, id, message),
    }
}
