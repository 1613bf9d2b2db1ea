//! What asks for a refresh, or tells of one, on its way.
ghost use Rattle.std.specs.Prelude.{◌≡◌, ℕ, List, IfOk};
ghost use Rattle.x5_dispber.specs.ShadowViews.{told_shadow};
ghost use Rattle.x5_shadow_wire.specs.Carried.{asked_of, asking};

use crate::counts;
use crate::shadows::carried_alone;
use std::alloc::Global;
use x5_dispber::Shadow;
use x5_know::{AgentNames, Start};
use x5_memory::NoMemory;
use x5_ops::Moment;

/// What asks for a refresh, or tells of one (X.525, section 11.1): the agreement by its number, the moment of the last refresh that
/// whoever sends it knows of, and whether all is to be sent.
#[derive(Clone, Copy, Drop)]
pub struct Asked {
    pub agreement: u32,
    pub last: Option<Moment>,
    pub total: bool,
}

/// The message: in a push the supplier tells the consumer (coordinateShadowUpdate), in a pull the consumer asks (requestShadowUpdate).
/// No memory.
fn opening(push: bool, asked: Asked) -> Shadow
    ensures { (names : List (List ℕ)) → told_shadow names result ≡ asking push asked }
{
    if push {
        Shadow::Coordinate {
            agreement: asked.agreement,
            last: asked.last,
            total: asked.total,
        }
    } else {
        Shadow::Request {
            agreement: asked.agreement,
            last: asked.last,
            total: asked.total,
        }
    }
}

/// What the message asks or tells, if it does. No memory.
fn asked_in(message: &Shadow) -> Option<Asked>
    ensures { (names : List (List ℕ)) → result ≡ asked_of (told_shadow names message.now) }
{
    match message {
        Shadow::Request {
            agreement,
            last,
            total,
        } => Some(Asked {
            agreement: *agreement,
            last: *last,
            total: *total,
        }),
        Shadow::Coordinate {
            agreement,
            last,
            total,
        } => Some(Asked {
            agreement: *agreement,
            last: *last,
            total: *total,
        }),
        _ => None,
    }
}

/// What tells of a refresh (`push`), or asks for one, as its receiver has it: what is read in the octets that it's written as. It is just
/// what was sent.
pub fn carried_asked(
    alloc: Global,
    start: &Start,
    names: &AgentNames,
    push: bool,
    asked: Asked,
) -> Result<Asked, NoMemory>
    ensures { IfOk result (λ taken. taken ≡ asked) }
{
    counts::number(asked.agreement);
    counts::moment(asked.last);
    let message = opening(push, asked);
    let taken = carried_alone(alloc, start, names, message)?;
    let told = asked_in(&taken);
    drop(taken);
    match told {
        Some(asked) => Ok(asked),
        None => unreachable!(),
    }
}
