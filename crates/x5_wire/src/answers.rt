//! Answers to a user on their way back.
ghost use Rattle.std.specs.Prelude.{◌≡◌, ℕ, List, IfOk};
ghost use Rattle.x5_dapreply.specs.ReplyViews.{told_reply, heard, unnumbered};
ghost use Rattle.x5_model_fitting.specs.Replies.{ReplyWithin};
ghost use Rattle.x5_model_messages.specs.Replies as replies;
ghost use Rattle.x5_model_typed.specs.Named as named;
ghost use Rattle.x5_model_typed.specs.Typed.{Spells};
ghost use Rattle.x5_ops.specs.AnswerViews.{reply_view};
ghost use Rattle.x5_ops.specs.JournalViews.{code_view};
ghost use Rattle.x5_types.specs.FormView.{table};

use crate::fault::want;
use std::alloc::Global;
use x5_dapreply::{WriteFault, decode_answer, encode_answer};
use x5_memory::NoMemory;
use x5_ops::{Operation, Reply};
use x5_syntax::Octets;

/// The octets of an answer to a request of this operation.
fn octets_of(
    alloc: Global,
    id: u32,
    operation: Operation,
    reply: &Reply,
) -> Result<Octets, NoMemory>
    requires { ReplyWithin (told_reply (code_view operation) reply.now) }
    ensures { IfOk result (λ octets. Spells table named.DapAnswer octets (replies.reply_node replies.to_user id (told_reply (code_view operation) reply.now))) }
{
    match encode_answer(alloc, id, operation, reply) {
        Ok(octets) => Ok(octets),
        Err(WriteFault::NoMemory) => Err(NoMemory),
        Err(WriteFault::Misfit) => unreachable!(),
    }
}

/// The reply that octets spell.
fn read(alloc: Global, octets: &[u8]) -> Result<Reply, NoMemory>
    requires spelled { (id : ℕ) × (r : replies.Reply) × ReplyWithin r × Spells table named.DapAnswer octets.now (replies.reply_node replies.to_user id r) }
    ensures read { (id : ℕ) (r : replies.Reply) → ReplyWithin r → Spells table named.DapAnswer octets.now (replies.reply_node replies.to_user id r)
        → IfOk result (λ reply. heard reply ≡ unnumbered r) }
{
    match decode_answer(alloc, octets) {
        Ok((_, reply)) => Ok(reply),
        Err(fault) => Err(want(fault)),
    }
}

/// An answer as the user has it: what is read in the octets that it's written as, a result of the operation that was asked for, an
/// error or a referral, with the id of the request (X.519, section 7: DAP). It is just what was replied.
pub fn carried_answer(
    alloc: Global,
    id: u32,
    operation: Operation,
    reply: &Reply,
) -> Result<Reply, NoMemory>
    requires { ReplyWithin (told_reply (code_view operation) reply.now) }
    ensures told { IfOk result (λ back. heard back ≡ unnumbered (told_reply (code_view operation) reply.now)) }
    ensures seen { IfOk result (λ back. (names : List (List ℕ)) → reply_view names back ≡ reply_view names reply.now) }
{
    let octets = octets_of(alloc, id, operation, reply)?;
    read(alloc, octets.as_slice())
}
