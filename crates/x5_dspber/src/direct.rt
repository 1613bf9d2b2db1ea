//! Messages between agents (X.518, sections 10 and 12), read straight from octets in their usual spelling.
ghost use Rattle.std.specs.Prelude.{◌≡◌, [], IfOk, map};
ghost use Rattle.x5_dapber.specs.Direct.{code_of};
ghost use Rattle.x5_dapreply.specs.ReplyViews.{told_item};
ghost use Rattle.x5_direct.specs.Spelled.{Reads};
ghost use Rattle.x5_dspber.specs.ChainedViews.{told_chained};
ghost use Rattle.x5_dspber.specs.Direct.{AreFour, ReadsChaining};
ghost use Rattle.x5_model_messages.specs.Chained as chains;
ghost use Rattle.x5_model_typed.specs.Named as named;
ghost use Rattle.x5_model_typed.specs.Nodes as nodes;
ghost use Rattle.x5_model_typed.specs.Typed.{Spells};
ghost use Rattle.x5_ops.specs.ReferenceViews.{kind_view, progress_view};
ghost use Rattle.x5_types.specs.FormView.{operation_view, table};

use crate::direct_parts::{exclusions_in, trace_in};
use std::alloc::Global;
use x5_dapber::direct::{argument_of, invoke_in};
use x5_dapreply::direct_parts::{kind_in, name_in, progress_in};
use x5_direct::Unread;
use x5_direct::element::{opened, whole};
use x5_names::Name;
use x5_ops::{Chained, Progress, RdnList, RefType, Trace};
use x5_types::Operation;

/// What chaining arguments say.
#[derive(Drop)]
struct Chaining {
    target: Name,
    progress: Progress,
    kind: RefType,
    exclusions: RdnList,
    trace: Trace,
}

/// The contents of the components that always stand there: the target, how far it's resolved, the trace and the kind of reference; and
/// the octets behind them.
fn four_in(octets: &[u8]) -> Result<(&[u8], &[u8], &[u8], &[u8], &[u8]), Unread>
    ensures { IfOk result (λ r. AreFour r.0.now r.1.now r.2.now r.3.now octets.now r.4.now) }
{
    let (target, first) = opened(0xA0, octets)?;
    let (progress, second) = opened(0xA1, first)?;
    let (trace, third) = opened(0xA2, second)?;
    let (kind, rest) = opened(0xA3, third)?;
    Ok((target, progress, trace, kind, rest))
}

/// The chaining arguments whose components are all of the octets.
fn chaining_in(alloc: Global, octets: &[u8]) -> Result<Chaining, Unread>
    ensures { IfOk result (λ c. ReadsChaining c.target (progress_view c.progress) (kind_view c.kind) c.exclusions (map told_item c.trace) octets.now) }
{
    let (target_part, progress_part, trace_part, kind_part, rest) = four_in(octets)?;
    let progress = progress_in(progress_part)?;
    let kind = kind_in(kind_part)?;
    let exclusions = exclusions_in(alloc, rest)?;
    let target = name_in(alloc, target_part)?;
    let trace = trace_in(alloc, &target, target_part, trace_part)?;
    Ok(Chaining {
        target,
        progress,
        kind,
        exclusions,
        trace,
    })
}

/// The message of the operation that is all of the octets.
fn carried_in(
    alloc: Global,
    code: u8,
    operation: Operation,
    octets: &[u8],
) -> Result<Chained, Unread>
    requires { code ≡ code_of (operation_view operation) }
    ensures { IfOk result (λ m. Reads 51 (named.Chained (operation_view operation)) (chains.carried_in code) (told_chained m) octets.now []) }
{
    let content = whole(0x30, octets)?;
    let (arguments, behind) = opened(0x31, content)?;
    let chaining = chaining_in(alloc, arguments)?;
    match argument_of(alloc, code, operation, behind) {
        Ok(request) => Ok(Chained {
            target: chaining.target,
            progress: chaining.progress,
            kind: chaining.kind,
            exclusions: chaining.exclusions,
            trace: chaining.trace,
            request,
        }),
        Err(fault) => {
            drop(chaining);
            Err(fault)
        }
    }
}

/// The id of the agent's message that is all of the octets, and what it asks.
pub(crate) fn message_in(alloc: Global, octets: &[u8]) -> Result<(u32, Chained), Unread>
    ensures { IfOk result (λ p. (n : nodes.Node) × Spells table named.DspRequest octets.now n
        × ((p.0, told_chained p.1) ≡ chains.chained_in n)) }
{
    let (id, code, operation, carried) = invoke_in(alloc, octets)?;
    Ok((id, carried_in(alloc, code, operation, carried)?))
}
