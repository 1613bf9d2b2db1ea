//! Whole messages between agents (X.519, section 7), as octets.
ghost use Rattle.std.specs.Prelude.{◌≡◌, ℕ, IfOk, Result, Ok};
ghost use Rattle.x5_dapber.specs.Results.{IsWritten, Decodes, IsRead};
ghost use Rattle.x5_dapber.specs.ShortNames.{HasShortNames};
ghost use Rattle.x5_dapreply.specs.ReplyViews.{told_reply, heard, heard_in, unnumbered};
ghost use Rattle.x5_dapreply.specs.Told.{IsTold};
ghost use Rattle.x5_dspber.specs.ChainedViews.{told_chained};
ghost use Rattle.x5_model_messages.specs.Chained as chains;
ghost use Rattle.x5_model_messages.specs.ChainedLaws.{IsChained};
ghost use Rattle.x5_model_messages.specs.Replies as replies;
ghost use Rattle.x5_model_octets.specs.Breaches as octet_breaches;
ghost use Rattle.x5_model_typed.specs.Named as named;
ghost use Rattle.x5_model_typed.specs.Nodes as nodes;
ghost use Rattle.x5_model_typed.specs.Typed.{Spells};
ghost use Rattle.x5_model_typed.specs.Written.{canonical_octets};
ghost use Rattle.x5_model_typed_laws.specs.Fits.{Fits};
ghost use Rattle.x5_ops.specs.JournalViews.{code_view};
ghost use Rattle.x5_ops.specs.RequestViews.{request_view};
ghost use Rattle.x5_typed.specs.Comes.{ComesTo};
ghost use Rattle.x5_types.specs.FormView.{table};

use crate::direct::message_in;
use crate::read_chained::chained_in;
use crate::write_chained::write_chained;
use std::alloc::Global;
use x5_dapber::WireFault;
use x5_dapreply::direct::usual_reply;
use x5_dapreply::read_replies::reply_in;
use x5_dapreply::{Protocol, write_reply};
use x5_ops::{Chained, Operation, Reply};
use x5_syntax::Octets;
use x5_typed::read;
use x5_types::Named;
use x5_writer::WriteFault;

/// The canonical octets of an agent's message with the id: what it asks, where that stands, who passed it on, and the argument of
/// the operation as a user gives it (X.519, section 7; X.690, section 10).
///
/// # Errors
/// `Misfit` exactly where there are none, since a part of the message passes a limit of messages, as a trace of more than 128 items
/// does. Or that memory ran out.
pub fn encode_chained(alloc: Global, id: u32, message: &Chained) -> Result<Octets, WriteFault>
    ensures written { IsWritten (canonical_octets table named.DspRequest (chains.chained_node id (told_chained message.now))) result }
    // They spell the message that they are written of, where it is a value of the type by all rules: so the items of its trace are
    // different, and attributes have values. Then they are read back, by `back` below.
    ensures spelled { Fits table (table named.DspRequest) (chains.chained_node id (told_chained message.now))
        → IfOk result (λ octets. Spells table named.DspRequest octets (chains.chained_node id (told_chained message.now))) }
{
    Ok(Octets::new(write_chained(alloc, id, message)?))
}

/// What an agent's message says, read by the table of types, in whatever spelling.
fn chained_by_table(alloc: Global, octets: &[u8]) -> Result<(u32, Chained), WireFault>
    ensures decodes { (e : Result nodes.Node octet_breaches.Breach) → ComesTo named.DspRequest octets.now e
        → Decodes (λ p. (p.0, told_chained p.1)) chains.chained_in e result }
    ensures comes { (e : Result nodes.Node octet_breaches.Breach) × ComesTo named.DspRequest octets.now e }
    ensures spelled { IfOk result (λ p. (n : nodes.Node) × Spells table named.DspRequest octets.now n
        × ((p.0, told_chained p.1) ≡ chains.chained_in n)) }
{
    let node = read(alloc, Named::DspRequest, octets)?;
    Ok(chained_in(alloc, &node)?)
}

/// The id of an agent's message, and what it asks (X.519, section 7): of octets that are one spelling of it and nothing else.
///
/// # Errors
/// The first breach in the order of reading, with its place: the whole first reading, whatever the type, before the
/// second. `Unrecognised` exactly where that is the code of an operation that agents don't have. Or that memory ran out.
pub fn decode_chained(alloc: Global, octets: &[u8]) -> Result<(u32, Chained), WireFault>
    // What the value says, or the breach, that reading comes to; and it comes to exactly one.
    ensures decodes { (e : Result nodes.Node octet_breaches.Breach) → ComesTo named.DspRequest octets.now e
        → Decodes (λ p. (p.0, told_chained p.1)) chains.chained_in e result }
    ensures comes { (e : Result nodes.Node octet_breaches.Breach) × ComesTo named.DspRequest octets.now e }
    // Of octets that spell a value of the type it's what that says, and no other octets give a message.
    ensures exact { (n : nodes.Node) → Spells table named.DspRequest octets.now n
        → Decodes (λ p. (p.0, told_chained p.1)) chains.chained_in (Ok n) result }
    ensures spelled { IfOk result (λ p. (n : nodes.Node) × Spells table named.DspRequest octets.now n
        × ((p.0, told_chained p.1) ≡ chains.chained_in n)) }
    // Octets that spell what is written of a message whose parts are as they are spelled give it back, with its id.
    ensures back { (id : ℕ) (m : chains.Chained) → IsChained m → Spells table named.DspRequest octets.now (chains.chained_node id m)
        → IsRead {Y = ℕ × chains.Chained} (λ p. (p.0, told_chained p.1)) (id, m) result }
    // The names that its request leads agents to have no more RDNs than names may have.
    ensures short { IfOk result (λ p. HasShortNames (request_view p.1.request).body) }
{
    let Ok(message) = message_in(alloc, octets) else {
        return chained_by_table(alloc, octets);
    };
    Ok(message)
}

/// The canonical octets of what is answered to an agent: a result of this operation, an error or a referral, with
/// the id of the message (X.519, section 7; X.690, section 10).
///
/// # Errors
/// `Misfit` exactly where there are none: the reply isn't one of that operation, or a part of it passes a limit of messages. Or
/// that memory ran out.
pub fn encode_result(
    alloc: Global,
    id: u32,
    operation: Operation,
    reply: &Reply,
) -> Result<Octets, WriteFault>
    ensures written { IsWritten (canonical_octets table named.DspAnswer (replies.reply_node replies.to_agent id (told_reply (code_view operation) reply.now))) result }
    // They spell the answer that they are written of, where it is a value of the type by all rules. Then they are read back, by `back` below.
    ensures spelled { Fits table (table named.DspAnswer) (replies.reply_node replies.to_agent id (told_reply (code_view operation) reply.now))
        → IfOk result (λ octets. Spells table named.DspAnswer octets (replies.reply_node replies.to_agent id (told_reply (code_view operation) reply.now))) }
{
    Ok(Octets::new(write_reply(alloc, Protocol::Dsp, id, operation, reply)?))
}

/// The id and the reply of an answer to an agent (X.519, section 7): of octets that are one spelling of it and nothing else. The code
/// of the operation, which a result has beside it, isn't kept.
///
/// # Errors
/// The first breach in the order of reading, with its place: the whole first reading, whatever the type, before the
/// second. `Unrecognised` exactly where that is the code of an operation or error that agents don't have. Or that memory ran out.
pub fn decode_result(alloc: Global, octets: &[u8]) -> Result<(u32, Reply), WireFault>
    // What the value says, or the breach, that reading comes to; and it comes to exactly one.
    ensures decodes { (e : Result nodes.Node octet_breaches.Breach) → ComesTo named.DspAnswer octets.now e
        → Decodes (λ p. (p.0, heard p.1)) heard_in e result }
    ensures comes { (e : Result nodes.Node octet_breaches.Breach) × ComesTo named.DspAnswer octets.now e }
    // Of octets that spell a value of the type it's what that says, and no other octets give a reply.
    ensures exact { (n : nodes.Node) → Spells table named.DspAnswer octets.now n
        → Decodes (λ p. (p.0, heard p.1)) heard_in (Ok n) result }
    ensures spelled { IfOk result (λ p. (n : nodes.Node) × Spells table named.DspAnswer octets.now n
        × ((p.0, heard p.1) ≡ heard_in n)) }
    // Octets that spell what is written of a reply whose parts are as they are spelled give it back, with the id of its message.
    ensures back { (id : ℕ) (r : replies.Reply) → IsTold r → Spells table named.DspAnswer octets.now (replies.reply_node replies.to_agent id r)
        → IsRead {Y = ℕ × replies.Reply} (λ p. (p.0, heard p.1)) (id, unnumbered r) result }
{
    match usual_reply(alloc, octets) {
        Ok(reply) => Ok(reply),
        // Spelled otherwise than usual, or memory ran out: the reader over the table of types says what, and where.
        Err(_) => read_result(alloc, octets),
    }
}

/// The same, by the reader over the table of types.
fn read_result(alloc: Global, octets: &[u8]) -> Result<(u32, Reply), WireFault>
    // What the value says, or the breach, that reading comes to; and it comes to exactly one.
    ensures decodes { (e : Result nodes.Node octet_breaches.Breach) → ComesTo named.DspAnswer octets.now e
        → Decodes (λ p. (p.0, heard p.1)) heard_in e result }
    ensures comes { (e : Result nodes.Node octet_breaches.Breach) × ComesTo named.DspAnswer octets.now e }
    // Of octets that spell a value of the type it's what that says, and no other octets give a reply.
    ensures exact { (n : nodes.Node) → Spells table named.DspAnswer octets.now n
        → Decodes (λ p. (p.0, heard p.1)) heard_in (Ok n) result }
    ensures spelled { IfOk result (λ p. (n : nodes.Node) × Spells table named.DspAnswer octets.now n
        × ((p.0, heard p.1) ≡ heard_in n)) }
    // Octets that spell what is written of a reply whose parts are as they are spelled give it back, with the id of its message.
    ensures back { (id : ℕ) (r : replies.Reply) → IsTold r → Spells table named.DspAnswer octets.now (replies.reply_node replies.to_agent id r)
        → IsRead {Y = ℕ × replies.Reply} (λ p. (p.0, heard p.1)) (id, unnumbered r) result }
{
    let node = read(alloc, Named::DspAnswer, octets)?;
    Ok(reply_in(alloc, &node)?)
}
