//! Messages between agents on their way.
ghost use Rattle.std.specs.Prelude.{◌≡◌, ℕ, List, IfOk};
ghost use Rattle.x5_dspber.specs.ChainedViews.{told_chained};
ghost use Rattle.x5_model_fitting.specs.Chained.{ChainedWithin};
ghost use Rattle.x5_model_messages.specs.Chained as chains;
ghost use Rattle.x5_model_typed.specs.Named as named;
ghost use Rattle.x5_model_typed.specs.Typed.{Spells};
ghost use Rattle.x5_ops.specs.ReferenceViews.{chained_view};
ghost use Rattle.x5_types.specs.FormView.{table};

use crate::fault::want;
use std::alloc::Global;
use x5_dspber::{WriteFault, decode_chained, encode_chained};
use x5_memory::NoMemory;
use x5_ops::Chained;
use x5_syntax::Octets;

/// The octets of a message.
fn octets_of(alloc: Global, id: u32, message: &Chained) -> Result<Octets, NoMemory>
    requires { ChainedWithin (told_chained message.now) }
    ensures { IfOk result (λ octets. Spells table named.DspRequest octets (chains.chained_node id (told_chained message.now))) }
{
    match encode_chained(alloc, id, message) {
        Ok(octets) => Ok(octets),
        Err(WriteFault::NoMemory) => Err(NoMemory),
        Err(WriteFault::Misfit) => unreachable!(),
    }
}

/// The message that octets spell.
fn read(alloc: Global, octets: &[u8]) -> Result<Chained, NoMemory>
    requires spelled { (id : ℕ) × (m : chains.Chained) × ChainedWithin m × Spells table named.DspRequest octets.now (chains.chained_node id m) }
    ensures read { (id : ℕ) (m : chains.Chained) → ChainedWithin m → Spells table named.DspRequest octets.now (chains.chained_node id m)
        → IfOk result (λ message. told_chained message ≡ m) }
{
    match decode_chained(alloc, octets) {
        Ok((_, message)) => Ok(message),
        Err(fault) => Err(want(fault)),
    }
}

/// A message between agents as its receiver has it: what is read in the octets that it's written as, with this id (X.519, section 7:
/// DSP). It is just what was sent, so its agents stand for whom they stood, whatever the names of the world's agents.
pub fn carried_message(alloc: Global, id: u32, message: &Chained) -> Result<Chained, NoMemory>
    requires { ChainedWithin (told_chained message.now) }
    ensures told { IfOk result (λ taken. told_chained taken ≡ told_chained message.now) }
    ensures seen { IfOk result (λ taken. (names : List (List ℕ)) → chained_view names taken ≡ chained_view names message.now) }
{
    let octets = octets_of(alloc, id, message)?;
    read(alloc, octets.as_slice())
}
