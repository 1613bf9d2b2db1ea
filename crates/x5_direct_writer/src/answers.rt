//! Agents' names, and what a list says of entries below (X.511, section 10.1).
ghost use Rattle.std.specs.Prelude.{map};
ghost use Rattle.x5_direct_writer.specs.PutsOf.{PutsOf, PutsEach};
ghost use Rattle.x5_model_messages.specs.Replies as replies;
ghost use Rattle.x5_model_messages.specs.Terms.{node_of};
ghost use Rattle.x5_model_typed.specs.Named as named;
ghost use Rattle.x5_model_typed.specs.Nodes as nodes;
ghost use Rattle.x5_ops.specs.AnswerViews.{sub_view};

use crate::entries::put_origin;
use crate::header::enclose;
use crate::names::put_rdn;
use std::alloc::Global;
use x5_ops::{AgentName, Sub};
use x5_types::{Letters, Surroundings, is_text};
use x5_writer::{Backwards, WriteFault};

/// The name of an agent: a PrintableString.
///
/// # Errors
/// `Misfit` where the text is no name of an agent. Or that memory ran out.
pub fn put_agent(out: &mut Backwards, agent: &AgentName) -> Result<(), WriteFault>
    ensures { PutsOf named.AgentName (nodes.Text agent.now) out.old out.new result }
{
    let octets = agent.as_str().as_bytes();
    if !is_text(Surroundings::Nowhere, Letters::Agent, octets) {
        return Err(WriteFault::Misfit);
    }
    out.put_all(octets)?;
    out.put_header(0, false, 19, octets.len())?;
    Ok(())
}

/// What a list says of an entry below: its RDN, and whether it comes from a shadow.
fn put_sub(alloc: Global, out: &mut Backwards, sub: &Sub) -> Result<(), WriteFault>
    ensures { PutsOf named.Sub (replies.sub_node (sub_view sub.now)) out.old out.new result }
{
    let behind = out.len();
    put_origin(out, sub.copy)?;
    put_rdn(alloc, out, &sub.rdn)?;
    enclose(out, 0, 16, behind)?;
    Ok(())
}

fn put_subs(alloc: Global, out: &mut Backwards, subs: &[Sub]) -> Result<(), WriteFault>
    ensures { PutsEach named.Sub (map (λ s. replies.sub_node (sub_view s)) subs.now) out.old out.new result }
{
    let mut i = subs.len();
    while i > 0 {
        i -= 1;
        put_sub(alloc, out, &subs[i])?;
    }
    Ok(())
}

/// What a list says of entries below: a SEQUENCE OF it.
pub fn put_sub_list(alloc: Global, out: &mut Backwards, subs: &[Sub]) -> Result<(), WriteFault>
    ensures { PutsOf named.Subs (node_of (map (λ s. replies.sub_node (sub_view s)) subs.now)) out.old out.new result }
{
    let behind = out.len();
    put_subs(alloc, out, subs)?;
    enclose(out, 0, 16, behind)?;
    Ok(())
}
