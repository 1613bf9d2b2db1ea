//! Total refreshes.

ghost use Rattle.std.specs.Prelude.{◌≡◌, IfOk};
ghost use Rattle.x5_model.specs.Values.{key_of};
ghost use Rattle.x5_supply.specs.Answers.{Answers};
ghost use Rattle.x5_supply.specs.Supplied.{content_of_copy, content_of_master, total_of};

use crate::entries::entries;
use crate::fault::{INACTIVE_AGREEMENT, SupplyFault};
use crate::references::{all, nssrs, of_master};
use crate::sources::{brought, mastered};
use std::alloc::Global;
use x5_holdings::{Held, Holdings};
use x5_memory::NoMemory;
use x5_names::Name;
use x5_ops::Content;

/// What is sent of a context that the agent masters.
fn master_content(alloc: Global, state: &Holdings, held: &Held) -> Result<Content, NoMemory>
    ensures { IfOk result (λ content. content ≡ content_of_master state.now held.now) }
{
    Ok(Content {
        entries: entries(alloc, held)?,
        specific: of_master(alloc, state, held)?,
        nssr: nssrs(alloc, held.nssrs())?,
    })
}

/// What is sent of what refreshes brought of a copy.
fn copy_content(alloc: Global, held: &Held) -> Result<Content, NoMemory>
    ensures { IfOk result (λ content. content ≡ content_of_copy held.now) }
{
    Ok(Content {
        entries: entries(alloc, held)?,
        specific: all(alloc, held.subordinate())?,
        nssr: nssrs(alloc, held.nssrs())?,
    })
}

/// What a total refresh of the context brings (X.525, section 11.2): its entries in the order of their keys, its subordinate
/// references and its NSSRs; it's stamped with `stamp`. A context that the agent masters comes before a copy of it. Of a pin that
/// the agent masters too a master sends one reference, to itself alone. `INACTIVE_AGREEMENT` exactly where there is nothing to
/// send: its copy was never refreshed, or it holds no such context.
pub fn total(alloc: Global, state: &Holdings, context: &Name) -> Result<Content, SupplyFault>
    ensures { Answers (total_of state.now (key_of context.now)) result }
{
    if let Some(held) = mastered(state, context) {
        return Ok(master_content(alloc, state, held)?);
    }
    match brought(state, context) {
        Some(held) => Ok(copy_content(alloc, held)?),
        None => Err(SupplyFault::Shadow(INACTIVE_AGREEMENT)),
    }
}
