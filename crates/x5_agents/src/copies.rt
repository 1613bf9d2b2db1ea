//! The copies that an agent is to have.

ghost use Rattle.std.specs.Prelude.{◌≡◌, ◌==◌, ◌&&◌, not, [], true, map, IfOk};
ghost use Rattle.std.specs.List.{filter, list_any};
ghost use Rattle.x5_model.specs.Keys.{same_key};
ghost use Rattle.x5_model.specs.Values.{key_of};
ghost use Rattle.x5_model_run.specs.History.{first_agreements};
ghost use Rattle.x5_model_held.specs.Beginning.{described_copy};
ghost use Rattle.x5_holdings.specs.State.{are_once, copy_view};

use std::alloc::Global;
use x5_holdings::Copied;
use x5_know::Agreement;
use x5_memory::NoMemory;
use x5_names::Key;
use x5_ops::AgentId;

/// Whether one of the copies is of the context of this key. No memory.
fn is_copied(copies: &[Copied], key: &Key) -> bool
    ensures { result ≡ list_any (λ c. same_key (key_of c.prefix) key.now) copies.now }
{
    copies.iter().any(|copied| copied.prefix().key() == key)
}

/// Whether the agreement brings the agent a copy of a context of which it has none yet. No memory.
fn is_new(copies: &[Copied], me: AgentId, agreement: &Agreement) -> bool
    ensures { result ≡ ((agreement.now.consumer == me) && not (list_any (λ c. same_key (key_of c.prefix) (key_of agreement.now.context)) copies.now)) }
{
    agreement.consumer == me && !is_copied(copies, agreement.context.key())
}

/// Copies of the contexts that the agreements bring to the agent, of which nothing was sent yet; where several bring one context,
/// a copy by the first of them.
pub(crate) fn copies_of(
    alloc: Global,
    me: AgentId,
    agreements: &[Agreement],
) -> Result<Vec<Copied>, NoMemory>
    ensures copies { IfOk result (λ v. map copy_view v.items ≡ map described_copy (first_agreements [] (filter (λ g. g.consumer == me) agreements.now))) }
    ensures once { IfOk result (λ v. are_once v.items ≡ true) }
{
    let mut copies = Vec::new(alloc);
    for agreement in agreements {
        if is_new(&copies, me, agreement) {
            let prefix = agreement.context.clone()?;
            copies.push(Copied::new(prefix, agreement.supplier))?;
        }
    }
    Ok(copies)
}
