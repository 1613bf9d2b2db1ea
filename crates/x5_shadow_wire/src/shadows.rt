//! Messages of shadowing on their way.
ghost use Rattle.std.specs.Prelude.{◌≡◌, ℕ, IfOk};
ghost use Rattle.x5_dispber.specs.ShadowViews.{told_shadow};
ghost use Rattle.x5_model_messages.specs.Shadows as shadows;
ghost use Rattle.x5_model_shadowed.specs.Within.{ShadowWithin};
ghost use Rattle.x5_model_typed.specs.Named as named;
ghost use Rattle.x5_model_typed.specs.Typed.{Spells};
ghost use Rattle.x5_types.specs.FormView.{world, world_table};

use crate::last::LastTotal;
use std::alloc::Global;
use x5_dispber::{
    ReadEntries, Shadow, WireFault, WriteFault, WrittenEntries, decode_shadow, encode_shadow,
};
use x5_know::{AgentNames, Start};
use x5_memory::NoMemory;
use x5_syntax::Octets;

/// The id of a message, and of the reply to it: each message goes by an association of its own (X.519, section 7).
const ID: u32 = 1;

/// The octets of a message of shadowing.
fn octets_of(
    alloc: Global,
    start: &Start,
    names: &AgentNames,
    last: &mut WrittenEntries,
    message: &Shadow,
) -> Result<Octets, NoMemory>
    requires { ShadowWithin (world start.now names.now) (told_shadow names.now message.now) }
    ensures { IfOk result (λ octets. Spells (world_table start.now names.now) named.DispMessage octets (shadows.shadow_node 1 (told_shadow names.now message.now))) }
{
    start.reads_back();
    match encode_shadow(alloc, start, names, last, ID, message) {
        Ok(octets) => Ok(octets),
        Err(WriteFault::NoMemory) => Err(NoMemory),
        Err(WriteFault::Misfit) => unreachable!(),
    }
}

/// The message of shadowing that octets spell.
fn read(
    alloc: Global,
    start: &Start,
    names: &AgentNames,
    seen: &mut ReadEntries,
    octets: &[u8],
) -> Result<Shadow, NoMemory>
    requires spelled { (id : ℕ) × (m : shadows.Shadow) × ShadowWithin (world start.now names.now) m × Spells (world_table start.now names.now) named.DispMessage octets.now (shadows.shadow_node id m) }
    ensures read { (id : ℕ) (m : shadows.Shadow) → ShadowWithin (world start.now names.now) m → Spells (world_table start.now names.now) named.DispMessage octets.now (shadows.shadow_node id m)
        → IfOk result (λ message. told_shadow names.now message ≡ m) }
{
    match decode_shadow(alloc, start, names, seen, octets) {
        Ok((_, message)) => Ok(message),
        Err(WireFault::NoMemory) => Err(NoMemory),
        Err(WireFault::Ber(_)) => unreachable!(),
        Err(WireFault::Unrecognised(_)) => unreachable!(),
    }
}

/// A message of shadowing as its receiver has it, in a world whose start and agents both ends share: what is read in the octets that
/// it's written as (X.519, section 7: DISP). It tells just what was sent, whatever entries of refreshes were written and seen before.
pub fn carried_shadow(
    alloc: Global,
    start: &Start,
    names: &AgentNames,
    last: &mut LastTotal,
    message: &Shadow,
) -> Result<Shadow, NoMemory>
    requires { ShadowWithin (world start.now names.now) (told_shadow names.now message.now) }
    ensures { IfOk result (λ taken. told_shadow names.now taken ≡ told_shadow names.now message.now) }
{
    let octets = octets_of(alloc, start, names, &mut last.written, message)?;
    read(alloc, start, names, &mut last.seen, octets.as_slice())
}

/// A message that is no update as its receiver has it: no entries of refreshes are written or seen for it.
pub(crate) fn carried_alone(
    alloc: Global,
    start: &Start,
    names: &AgentNames,
    message: Shadow,
) -> Result<Shadow, NoMemory>
    requires { ShadowWithin (world start.now names.now) (told_shadow names.now message) }
    ensures { IfOk result (λ taken. told_shadow names.now taken ≡ told_shadow names.now message) }
{
    let mut last = LastTotal::none(alloc);
    let taken = carried_shadow(alloc, start, names, &mut last, &message);
    drop(message);
    taken
}
