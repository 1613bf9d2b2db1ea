//! Messages between agents (X.518, sections 10 and 12) that values of types of messages say.
ghost use Rattle.std.specs.Prelude.{◌≡◌, IfOk, All, map};
ghost use Rattle.x5_dapreply.specs.ReplyViews.{told_item};
ghost use Rattle.x5_dapreply.specs.Sayable.{IsItem};
ghost use Rattle.x5_dspber.specs.ChainedViews.{told_chained};
ghost use Rattle.x5_dspber.specs.Sayable as sayable;
ghost use Rattle.x5_model_messages.specs.Chained as chains;
ghost use Rattle.x5_model_messages.specs.Replies as replies;
ghost use Rattle.x5_model_messages.specs.Terms as terms;
ghost use Rattle.x5_model_typed.specs.Nodes as nodes;
ghost use Rattle.x5_ops.specs.RequestViews.{request_view};
ghost use Rattle.x5_types.specs.NodeView.{node_view};

use std::alloc::Global;
use x5_dapber::read_arguments::argument_in;
use x5_dapber::read_parts::code_in;
use x5_dapreply::read_references::{item_in, kind_in, progress_in, rdns_in};
use x5_memory::NoMemory;
use x5_names::Name;
use x5_ops::{Chained, RdnList, Request, Trace};
use x5_rules::name_of;
use x5_types::Node;

fn trace_in(alloc: Global, nodes: &[Node<'_>]) -> Result<Trace, NoMemory>
    requires { All (λ n. IsItem (node_view n)) nodes.now }
    ensures { IfOk result (λ l. map told_item l ≡ map replies.item_in (map node_view nodes.now)) }
{
    let mut trace = Trace::new(alloc);
    for node in nodes {
        trace.push(item_in(alloc, node)?)?;
    }
    Ok(trace)
}

/// The target, the exclusions and the trace that the nodes say.
fn places_in(
    alloc: Global,
    target: &Node<'_>,
    exclusions: &Node<'_>,
    trace: &Node<'_>,
) -> Result<(Name, RdnList, Trace), NoMemory>
    requires { All IsItem (nodes.parts (node_view trace.now)) }
    ensures { IfOk result (λ p. (p.0 ≡ terms.name_of (node_view target.now))
        × (p.1 ≡ map terms.rdn_of (nodes.parts (node_view exclusions.now)))
        × (map told_item p.2 ≡ map replies.item_in (nodes.parts (node_view trace.now)))) }
{
    let name = name_of(alloc, target)?;
    let rdns = rdns_in(alloc, exclusions.parts())?;
    let items = trace_in(alloc, trace.parts())?;
    Ok((name, rdns, items))
}

/// The message of the request with the chaining arguments that the node says.
fn chaining_in(alloc: Global, node: &Node<'_>, request: Request) -> Result<Chained, NoMemory>
    requires { sayable.IsChaining (node_view node.now) }
    ensures { IfOk result (λ m. told_chained m ≡ chains.chaining_in (request_view request) (node_view node.now)) }
{
    let [target, progress, trace, kind, exclusions] = node.parts() else {
        unreachable!()
    };
    match places_in(alloc, target, exclusions, trace) {
        Ok((name, rdns, items)) => Ok(Chained {
            target: name,
            progress: progress_in(progress),
            kind: kind_in(kind),
            exclusions: rdns,
            trace: items,
            request,
        }),
        Err(fault) => {
            drop(request);
            Err(fault)
        }
    }
}

/// The message of the operation with the code that the node says: chaining arguments, and an argument as a user gives it.
fn carried_in(alloc: Global, code: u32, node: &Node<'_>) -> Result<Chained, NoMemory>
    requires { sayable.IsCarried code (node_view node.now) }
    ensures { IfOk result (λ m. told_chained m ≡ chains.carried_in code (node_view node.now)) }
{
    let parts = node.parts();
    if parts.len() != 2 {
        unreachable!()
    }
    let request = argument_in(alloc, code, &parts[1])?;
    chaining_in(alloc, &parts[0], request)
}

/// The id and what is asked of the agent's message that the node says.
pub(crate) fn chained_in(alloc: Global, node: &Node<'_>) -> Result<(u32, Chained), NoMemory>
    requires { sayable.IsChained (node_view node.now) }
    ensures { IfOk result (λ p. (p.0, told_chained p.1) ≡ chains.chained_in (node_view node.now)) }
{
    let Node::Chosen(_, message) = node else {
        unreachable!()
    };
    let parts = message.parts();
    if parts.len() != 3 {
        unreachable!()
    }
    let code = code_in(&parts[1]);
    let chained = carried_in(alloc, code, &parts[2])?;
    Ok((code_in(&parts[0]), chained))
}
