//! Whole messages of a user (X.519, section 7), as octets.
ghost use Rattle.std.specs.Prelude.{◌≡◌, ℕ, IfOk, Result, Ok};
ghost use Rattle.x5_dapber.specs.PutsPart.{PutsValue};
ghost use Rattle.x5_dapber.specs.Results.{IsWritten, Decodes, IsRead};
ghost use Rattle.x5_dapber.specs.ShortNames.{HasShortNames};
ghost use Rattle.x5_model.specs.Requests as model;
ghost use Rattle.x5_model_messages.specs.Laws.{IsBody};
ghost use Rattle.x5_model_messages.specs.Requests as requests;
ghost use Rattle.x5_model_octets.specs.Breaches as octet_breaches;
ghost use Rattle.x5_model_typed.specs.Named as named;
ghost use Rattle.x5_model_typed.specs.Nodes as nodes;
ghost use Rattle.x5_model_typed.specs.Typed.{Spells};
ghost use Rattle.x5_model_typed.specs.Written.{canonical_octets};
ghost use Rattle.x5_model_typed_laws.specs.Fits.{Fits};
ghost use Rattle.x5_ops.specs.RequestViews.{request_view};
ghost use Rattle.x5_typed.specs.Comes.{ComesTo};
ghost use Rattle.x5_types.specs.FormView.{table};
ghost use Rattle.x5_writer.specs.Puts.{Writes};

use crate::direct::message_in;
use crate::fault::WireFault;
use crate::read_arguments::request_in;
use crate::write_arguments::put_argument;
use crate::write_parts::{put_code, put_number};
use std::alloc::Global;
use x5_direct_writer::enclose;
use x5_ops::Request;
use x5_syntax::Octets;
use x5_typed::read;
use x5_types::Named;
use x5_writer::{Backwards, WriteFault};

/// A user's message: an invoke with its id, the operation's code and the argument.
fn put_request(
    alloc: Global,
    out: &mut Backwards,
    id: u32,
    request: &Request,
) -> Result<(), WriteFault>
    ensures { PutsValue named.DapRequest (requests.request_node id (request_view request.now)) out.old out.new result }
{
    let behind = out.len();
    put_argument(alloc, out, request)?;
    put_code(out, request.body.operation())?;
    put_number(alloc, out, Named::NumberBelow(0, 4_294_967_295), id)?;
    enclose(out, 2, 1, behind)?;
    Ok(())
}

fn write_request(alloc: Global, id: u32, request: &Request) -> Result<Vec<u8>, WriteFault>
    ensures { Writes (canonical_octets table named.DapRequest (requests.request_node id (request_view request.now))) result }
{
    let mut out = Backwards::new(alloc);
    put_request(alloc, &mut out, id, request)?;
    Ok(out.into_octets())
}

/// The canonical octets of a user's message with the id and the request (X.519, section 7; X.690, section 10).
///
/// # Errors
/// `Misfit` exactly where there are none, since a part of the request passes a limit of messages, as a text of more than
/// 1,024 octets or a filter of more than 16 levels does. Or that memory ran out.
pub fn encode_request(alloc: Global, id: u32, request: &Request) -> Result<Octets, WriteFault>
    ensures written { IsWritten (canonical_octets table named.DapRequest (requests.request_node id (request_view request.now))) result }
    // They spell the request that they are written of, where it is a value of the type by all rules: so an attribute has values, and parts
    // of substrings stand in their places. Then they are read back, by `back` below.
    ensures spelled { Fits table (table named.DapRequest) (requests.request_node id (request_view request.now))
        → IfOk result (λ octets. Spells table named.DapRequest octets (requests.request_node id (request_view request.now))) }
{
    Ok(Octets::new(write_request(alloc, id, request)?))
}

/// What a user's message says, read by the table of types, in whatever spelling.
fn request_by_table(alloc: Global, octets: &[u8]) -> Result<(u32, Request), WireFault>
    ensures decodes { (e : Result nodes.Node octet_breaches.Breach) → ComesTo named.DapRequest octets.now e
        → Decodes (λ p. (p.0, request_view p.1)) requests.request_in e result }
    ensures comes { (e : Result nodes.Node octet_breaches.Breach) × ComesTo named.DapRequest octets.now e }
    ensures spelled { IfOk result (λ p. (n : nodes.Node) × Spells table named.DapRequest octets.now n
        × ((p.0, request_view p.1) ≡ requests.request_in n)) }
{
    let node = read(alloc, Named::DapRequest, octets)?;
    Ok(request_in(alloc, &node)?)
}

/// The id and the request of a user's message (X.519, section 7): of octets that are one spelling of it and nothing else.
///
/// # Errors
/// The first breach in the order of reading, with its place: the whole first reading, whatever the type, before the
/// second. `Unrecognised` exactly where that is the code of an operation that users don't have. Or that memory ran out.
pub fn decode_request(alloc: Global, octets: &[u8]) -> Result<(u32, Request), WireFault>
    // What the value says, or the breach, that reading comes to; and it comes to exactly one.
    ensures decodes { (e : Result nodes.Node octet_breaches.Breach) → ComesTo named.DapRequest octets.now e
        → Decodes (λ p. (p.0, request_view p.1)) requests.request_in e result }
    ensures comes { (e : Result nodes.Node octet_breaches.Breach) × ComesTo named.DapRequest octets.now e }
    // Of octets that spell a value of the type it's what that says, and no other octets give a request.
    ensures exact { (n : nodes.Node) → Spells table named.DapRequest octets.now n
        → Decodes (λ p. (p.0, request_view p.1)) requests.request_in (Ok n) result }
    ensures spelled { IfOk result (λ p. (n : nodes.Node) × Spells table named.DapRequest octets.now n
        × ((p.0, request_view p.1) ≡ requests.request_in n)) }
    // Its names have no more RDNs than names may have.
    ensures short { IfOk result (λ p. HasShortNames (request_view p.1).body) }
    // Octets that spell what is written of a request whose parts are as they are spelled give it back, with its id.
    ensures back { (id : ℕ) (r : model.Request) → IsBody r.body → Spells table named.DapRequest octets.now (requests.request_node id r)
        → IsRead {Y = ℕ × model.Request} (λ p. (p.0, request_view p.1)) (id, r) result }
{
    let Ok(request) = message_in(alloc, octets) else {
        return request_by_table(alloc, octets);
    };
    Ok(request)
}
