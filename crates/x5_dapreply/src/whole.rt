//! Whole replies to users and agents (X.519, section 7) as their canonical octets (X.690, section 10): results, and that a name has no
//! entry, straight; the others by the writer over the table of types.
ghost use Rattle.std.specs.Prelude.{◌≡◌, ◌∷◌, []};
ghost use Rattle.x5_dapreply.specs.Found.{PutsPart, PutsReply, WritesReply, answer_form, referral_of};
ghost use Rattle.x5_dapreply.specs.ReplyViews.{told_answer, told_reply};
ghost use Rattle.x5_model_messages.specs.Replies as replies;
ghost use Rattle.x5_model_messages.specs.Terms.{name_node, node_of};
ghost use Rattle.x5_model_typed.specs.Named as named;
ghost use Rattle.x5_model_typed.specs.Nodes as nodes;
ghost use Rattle.x5_model_typed.specs.Written.{canonical_octets};
ghost use Rattle.x5_ops.specs.JournalViews.{code_view};
ghost use Rattle.x5_types.specs.FormView.{named_view, table};
ghost use Rattle.x5_writer.specs.Puts.{Writes};

use crate::found::put_answer;
use crate::replies::reply_node;
use crate::sources::put_count;
use std::alloc::Global;
use x5_direct_writer::enclose;
use x5_direct_writer::names::put_name;
use x5_names::Name;
use x5_ops::{Answer, DirError, Operation, Reply};
use x5_types::Named;
use x5_writer::{Backwards, WriteFault, write};

/// The protocol by which a reply goes: to a user, or to another agent.
#[derive(Clone, Copy)]
pub enum Protocol {
    Dap,
    Dsp,
}

impl Protocol {
    /// The type of its answers.
    fn form(self) -> Named
        ensures { named_view result ≡ answer_form self }
    {
        match self {
            Protocol::Dap => Named::DapAnswer,
            Protocol::Dsp => Named::DspAnswer,
        }
    }

    /// The code of a referral (X.511, section 12.6; X.518, section 13.2).
    fn referral(self) -> u32
        ensures { result ≡ referral_of self }
    {
        match self {
            Protocol::Dap => 4,
            Protocol::Dsp => 9,
        }
    }
}

/// The result with the code of the operation.
fn put_coded(
    alloc: Global,
    out: &mut Backwards,
    operation: Operation,
    answer: &Answer,
) -> Result<(), WriteFault>
    ensures { PutsPart named.DapResult (node_of (nodes.whole (code_view operation) ∷ replies.answer_node (told_answer answer.now) ∷ [])) out.old out.new result }
{
    let behind = out.len();
    put_answer(alloc, out, operation, answer)?;
    out.put_all(&[2, 1, operation.code()])?;
    enclose(out, 0, 16, behind)?;
    Ok(())
}

/// A returned result: the id, and the result with its code.
fn put_done(
    alloc: Global,
    out: &mut Backwards,
    id: u32,
    operation: Operation,
    answer: &Answer,
) -> Result<(), WriteFault>
    ensures { PutsReply (replies.result_node id (code_view operation) (replies.answer_node (told_answer answer.now))) out.old out.new result }
{
    let behind = out.len();
    put_coded(alloc, out, operation, answer)?;
    put_count(alloc, out, id)?;
    enclose(out, 2, 2, behind)?;
    Ok(())
}

/// The octets of a returned result.
fn write_done(
    alloc: Global,
    id: u32,
    operation: Operation,
    answer: &Answer,
) -> Result<Vec<u8>, WriteFault>
    ensures { WritesReply (replies.result_node id (code_view operation) (replies.answer_node (told_answer answer.now))) result }
{
    let mut out = Backwards::new(alloc);
    put_done(alloc, &mut out, id, operation, answer)?;
    Ok(out.into_octets())
}

/// That there is no such object, and the longest part of the name that is an entry (X.511, section 12.5).
fn put_matched(alloc: Global, out: &mut Backwards, matched: &Name) -> Result<(), WriteFault>
    ensures { PutsPart named.NameError (node_of (nodes.whole 1 ∷ name_node matched.now ∷ [])) out.old out.new result }
{
    let behind = out.len();
    put_name(alloc, out, matched)?;
    out.put_all(&[2, 1, 1])?;
    enclose(out, 0, 16, behind)?;
    Ok(())
}

/// A returned name error: the id, its code, and what it says.
fn put_missing(
    alloc: Global,
    out: &mut Backwards,
    id: u32,
    matched: &Name,
) -> Result<(), WriteFault>
    ensures { PutsReply (replies.reply_node 0 id (replies.NoSuchObject matched.now)) out.old out.new result }
{
    let behind = out.len();
    put_matched(alloc, out, matched)?;
    out.put_all(&[2, 1, 2])?;
    put_count(alloc, out, id)?;
    enclose(out, 2, 3, behind)?;
    Ok(())
}

/// The octets of a returned name error.
fn write_missing(alloc: Global, id: u32, matched: &Name) -> Result<Vec<u8>, WriteFault>
    ensures { WritesReply (replies.reply_node 0 id (replies.NoSuchObject matched.now)) result }
{
    let mut out = Backwards::new(alloc);
    put_missing(alloc, &mut out, id, matched)?;
    Ok(out.into_octets())
}

/// The octets of any reply, by the writer over the table of types.
fn write_other(
    alloc: Global,
    protocol: Protocol,
    id: u32,
    operation: Operation,
    reply: &Reply,
) -> Result<Vec<u8>, WriteFault>
    ensures { Writes (canonical_octets table (answer_form protocol) (replies.reply_node (referral_of protocol) id (told_reply (code_view operation) reply.now))) result }
{
    let node = reply_node(alloc, protocol.referral(), id, operation.code(), reply)?;
    write(alloc, protocol.form(), &node)
}

/// The canonical octets of a reply by that protocol, with the id of the request: a result of this operation, an error or a referral.
///
/// # Errors
/// `Misfit` exactly where there are none: the reply isn't one of that operation, or a part of it passes a limit of messages. Or
/// that memory ran out.
pub fn write_reply(
    alloc: Global,
    protocol: Protocol,
    id: u32,
    operation: Operation,
    reply: &Reply,
) -> Result<Vec<u8>, WriteFault>
    ensures { Writes (canonical_octets table (answer_form protocol) (replies.reply_node (referral_of protocol) id (told_reply (code_view operation) reply.now))) result }
{
    match reply {
        Reply::Done(answer) => write_done(alloc, id, operation, answer),
        Reply::Failed(DirError::Name { matched }) => write_missing(alloc, id, matched),
        _ => write_other(alloc, protocol, id, operation, reply),
    }
}
