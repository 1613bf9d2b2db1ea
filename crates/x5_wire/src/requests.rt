//! A user's requests on their way.
ghost use Rattle.std.specs.Prelude.{◌≡◌, ℕ, IfOk};
ghost use Rattle.x5_model.specs.Requests as model;
ghost use Rattle.x5_model_fitting.specs.Requests.{RequestWithin};
ghost use Rattle.x5_model_messages.specs.Requests as requests;
ghost use Rattle.x5_model_typed.specs.Named as named;
ghost use Rattle.x5_model_typed.specs.Typed.{Spells};
ghost use Rattle.x5_ops.specs.RequestViews.{request_view};
ghost use Rattle.x5_types.specs.FormView.{table};

use crate::fault::want;
use std::alloc::Global;
use x5_dapber::{WriteFault, decode_request, encode_request};
use x5_memory::NoMemory;
use x5_ops::Request;
use x5_syntax::Octets;

/// The octets of a request.
fn octets_of(alloc: Global, id: u32, request: &Request) -> Result<Octets, NoMemory>
    requires { RequestWithin (request_view request.now) }
    ensures { IfOk result (λ octets. Spells table named.DapRequest octets (requests.request_node id (request_view request.now))) }
{
    match encode_request(alloc, id, request) {
        Ok(octets) => Ok(octets),
        Err(WriteFault::NoMemory) => Err(NoMemory),
        Err(WriteFault::Misfit) => unreachable!(),
    }
}

/// The request that octets spell.
fn read(alloc: Global, octets: &[u8]) -> Result<Request, NoMemory>
    requires spelled { (id : ℕ) × (r : model.Request) × RequestWithin r × Spells table named.DapRequest octets.now (requests.request_node id r) }
    ensures read { (id : ℕ) (r : model.Request) → RequestWithin r → Spells table named.DapRequest octets.now (requests.request_node id r)
        → IfOk result (λ request. request_view request ≡ r) }
{
    match decode_request(alloc, octets) {
        Ok((_, request)) => Ok(request),
        Err(fault) => Err(want(fault)),
    }
}

/// A user's request as the agent has it: what is read in the octets that it's written as, with this id (X.519, section 7: DAP). It is
/// just what was asked.
pub fn carried_request(alloc: Global, id: u32, request: &Request) -> Result<Request, NoMemory>
    requires { RequestWithin (request_view request.now) }
    ensures { IfOk result (λ heard. request_view heard ≡ request_view request.now) }
{
    let octets = octets_of(alloc, id, request)?;
    read(alloc, octets.as_slice())
}
