//! Condition 10: an agreement's consumer doesn't master the context and consumes it in this agreement alone; its supplier masters it
//! or consumes it; the suppliers' chain ends at the master within four hops.

ghost use Rattle.std.specs.Prelude.{◌≡◌, length, Some};
ghost use Rattle.std.specs.List.{filter};
ghost use Rattle.x5_model.specs.Values.{key_of};
ghost use Rattle.x5_model_tree.specs.Masters as masters;
ghost use Rattle.x5_model_tree.specs.Consistent as model;
ghost use Rattle.x5_check.specs.Views.{Tells};
ghost use Rattle.x5_check.specs.Parts.{unsupplied_part};

use crate::inconsistency::{Inconsistency, Shown};
use crate::known::Known;
use x5_know::Agreement;
use x5_memory::NoMemory;
use x5_names::Key;
use x5_ops::AgentId;

/// Hops of a chain of suppliers at most.
const MOST_HOPS: u8 = 4;

/// Whether the agent consumes the context by this agreement. No memory.
fn consumes_by(agreement: &Agreement, agent: AgentId, context: &Key) -> bool
    ensures { result ≡ masters.is_consumer agent context.now agreement.now }
{
    agreement.consumer == agent && agreement.context.key() == context
}

/// From which agent the agent's copy of the context comes: the supplier of the first agreement that gives it one. No memory.
fn supplier_of_copy(known: &Known<'_, '_, '_>, agent: AgentId, context: &Key) -> Option<AgentId>
    ensures { result ≡ masters.supplier_of known.now agent context.now }
{
    let agreements = known.agreements();
    for agreement in agreements {
        if consumes_by(agreement, agent, context) {
            return Some(agreement.supplier);
        }
    }
    None
}

/// By how many agreements the agent consumes the context. No memory.
fn times_consumed(known: &Known<'_, '_, '_>, agent: AgentId, context: &Key) -> usize
    ensures { result ≡ length (filter (masters.is_consumer agent context.now) known.now.agreements) }
{
    let agreements = known.agreements();
    let mut times = 0;
    for agreement in agreements {
        if consumes_by(agreement, agent, context) {
            times += 1;
        }
    }
    times
}

/// Whether the chain of suppliers from the agent on leads to the context's master within so many hops. No memory.
fn is_supplied_within(
    known: &Known<'_, '_, '_>,
    hops: u8,
    context: &Key,
    agent: Option<AgentId>,
) -> bool
    ensures { result ≡ model.supplied_within known.now hops context.now agent }
{
    match agent {
        None => false,
        Some(agent) => {
            hops != 0
                && (known.masters(agent, context)
                    || is_supplied_within(
                        known,
                        hops - 1,
                        context,
                        supplier_of_copy(known, agent, context),
                    ))
        }
    }
}

/// Whether the agreement supplies its consumer. No memory.
fn supplies(known: &Known<'_, '_, '_>, agreement: &Agreement) -> bool
    ensures { result ≡ model.is_supplied known.now agreement.now }
{
    let context = agreement.context.key();
    !known.masters(agreement.consumer, context)
        && times_consumed(known, agreement.consumer, context) == 1
        && is_supplied_within(known, MOST_HOPS, context, Some(agreement.supplier))
}

/// What is told of the agreement.
fn false_agreement_of(
    known: &Known<'_, '_, '_>,
    agreement: &Agreement,
) -> Result<Option<Inconsistency>, NoMemory>
    ensures { Tells result (unsupplied_part known.now agreement.now) }
{
    if supplies(known, agreement) {
        return Ok(None);
    }
    Ok(Some(Inconsistency {
        condition: 10,
        first: Shown::Agreement(agreement.id),
        second: Shown::Name(agreement.context.clone()?),
    }))
}

/// The first agreement that is false: its number, and its context.
pub(crate) fn false_agreement(known: &Known<'_, '_, '_>) -> Result<Option<Inconsistency>, NoMemory>
    ensures { Tells result (model.breaches_10 known.now) }
{
    let agreements = known.agreements();
    for agreement in agreements {
        let told = false_agreement_of(known, agreement)?;
        if told.is_some() {
            return Ok(told);
        }
    }
    Ok(None)
}
