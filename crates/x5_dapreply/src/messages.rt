//! Whole answers to a user (X.519, section 7), as octets.
ghost use Rattle.std.specs.Prelude.{◌≡◌, ℕ, IfOk, Result, Ok};
ghost use Rattle.x5_dapber.specs.Results.{IsWritten, Decodes, IsRead};
ghost use Rattle.x5_dapreply.specs.ReplyViews.{told_reply, heard, heard_in, unnumbered};
ghost use Rattle.x5_dapreply.specs.Told.{IsTold};
ghost use Rattle.x5_model_messages.specs.Replies as replies;
ghost use Rattle.x5_model_octets.specs.Breaches as octet_breaches;
ghost use Rattle.x5_model_typed.specs.Named as named;
ghost use Rattle.x5_model_typed.specs.Nodes as nodes;
ghost use Rattle.x5_model_typed.specs.Typed.{Spells};
ghost use Rattle.x5_model_typed.specs.Written.{canonical_octets};
ghost use Rattle.x5_model_typed_laws.specs.Fits.{Fits};
ghost use Rattle.x5_typed.specs.Comes.{ComesTo};
ghost use Rattle.x5_ops.specs.JournalViews.{code_view};
ghost use Rattle.x5_types.specs.FormView.{table};
ghost use Rattle.x5_types.specs.NodeView.{node_view};

use crate::direct::usual_reply;
use crate::read_replies::reply_in;
use crate::whole::{Protocol, write_reply};
use std::alloc::Global;
use x5_dapber::WireFault;
use x5_memory::NoMemory;
use x5_ops::{Operation, Reply};
use x5_syntax::Octets;
use x5_typed::read;
use x5_types::Named;
use x5_writer::WriteFault;

/// The canonical octets of what is answered to a user: a result of this operation, an error or a referral, with
/// the id of the request (X.519, section 7; X.690, section 10).
///
/// # Errors
/// `Misfit` exactly where there are none: the answer isn't one of that operation, or a part of it passes a limit of messages. Or
/// that memory ran out.
pub fn encode_answer(
    alloc: Global,
    id: u32,
    operation: Operation,
    reply: &Reply,
) -> Result<Octets, WriteFault>
    ensures written { IsWritten (canonical_octets table named.DapAnswer (replies.reply_node replies.to_user id (told_reply (code_view operation) reply.now))) result }
    // They spell the answer that they are written of, where it is a value of the type by all rules. Then they are read back, by `back` below.
    ensures spelled { Fits table (table named.DapAnswer) (replies.reply_node replies.to_user id (told_reply (code_view operation) reply.now))
        → IfOk result (λ octets. Spells table named.DapAnswer octets (replies.reply_node replies.to_user id (told_reply (code_view operation) reply.now))) }
{
    Ok(Octets::new(write_reply(alloc, Protocol::Dap, id, operation, reply)?))
}

/// The id and the reply of an answer to a user (X.519, section 7): of octets that are one spelling of it and nothing else. The code of
/// the operation, which a result has beside it, isn't kept.
///
/// # Errors
/// The first breach in the order of reading, with its place: the whole first reading, whatever the type, before the
/// second. `Unrecognised` exactly where that is the code of an operation or error that users don't have. Or that memory ran out.
pub fn decode_answer(alloc: Global, octets: &[u8]) -> Result<(u32, Reply), WireFault>
    // What the value says, or the breach, that reading comes to; and it comes to exactly one.
    ensures decodes { (e : Result nodes.Node octet_breaches.Breach) → ComesTo named.DapAnswer octets.now e
        → Decodes (λ p. (p.0, heard p.1)) heard_in e result }
    ensures comes { (e : Result nodes.Node octet_breaches.Breach) × ComesTo named.DapAnswer octets.now e }
    // Of octets that spell a value of the type it's what that says, and no other octets give a reply.
    ensures exact { (n : nodes.Node) → Spells table named.DapAnswer octets.now n
        → Decodes (λ p. (p.0, heard p.1)) heard_in (Ok n) result }
    ensures spelled { IfOk result (λ p. (n : nodes.Node) × Spells table named.DapAnswer octets.now n
        × ((p.0, heard p.1) ≡ heard_in n)) }
    // Octets that spell what is written of a reply whose parts are as they are spelled give it back, with the id of its request.
    ensures back { (id : ℕ) (r : replies.Reply) → IsTold r → Spells table named.DapAnswer octets.now (replies.reply_node replies.to_user id r)
        → IsRead {Y = ℕ × replies.Reply} (λ p. (p.0, heard p.1)) (id, unnumbered r) result }
{
    match usual_reply(alloc, octets) {
        Ok(reply) => Ok(reply),
        // Spelled otherwise than usual, or memory ran out: the reader over the table of types says what, and where.
        Err(_) => read_answer(alloc, octets),
    }
}

/// The same, by the reader over the table of types.
fn read_answer(alloc: Global, octets: &[u8]) -> Result<(u32, Reply), WireFault>
    // What the value says, or the breach, that reading comes to; and it comes to exactly one.
    ensures decodes { (e : Result nodes.Node octet_breaches.Breach) → ComesTo named.DapAnswer octets.now e
        → Decodes (λ p. (p.0, heard p.1)) heard_in e result }
    ensures comes { (e : Result nodes.Node octet_breaches.Breach) × ComesTo named.DapAnswer octets.now e }
    // Of octets that spell a value of the type it's what that says, and no other octets give a reply.
    ensures exact { (n : nodes.Node) → Spells table named.DapAnswer octets.now n
        → Decodes (λ p. (p.0, heard p.1)) heard_in (Ok n) result }
    ensures spelled { IfOk result (λ p. (n : nodes.Node) × Spells table named.DapAnswer octets.now n
        × ((p.0, heard p.1) ≡ heard_in n)) }
    // Octets that spell what is written of a reply whose parts are as they are spelled give it back, with the id of its request.
    ensures back { (id : ℕ) (r : replies.Reply) → IsTold r → Spells table named.DapAnswer octets.now (replies.reply_node replies.to_user id r)
        → IsRead {Y = ℕ × replies.Reply} (λ p. (p.0, heard p.1)) (id, unnumbered r) result }
{
    let node = read(alloc, Named::DapAnswer, octets)?;
    Ok(reply_in(alloc, &node)?)
}
