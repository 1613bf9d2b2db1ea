//! What refreshes bring, on its way.
ghost use Rattle.std.specs.Prelude.{◌≡◌, ℕ, List, IfOk};
ghost use Rattle.x5_dispber.specs.ShadowViews.{told_refresh, told_shadow};
ghost use Rattle.x5_model_messages.specs.Shadows as shadows;
ghost use Rattle.x5_model_shadowed.specs.Agents.{AreAgents};
ghost use Rattle.x5_model_shadowed.specs.Within.{RefreshWithin};
ghost use Rattle.x5_refresh.specs.declared.brought.Brought.{Brought};
ghost use Rattle.x5_refresh.specs.declared.brought.Brought.TheVariants.{Steps};
ghost use Rattle.x5_shadow_wire.specs.Carried.{IsSame, IsUpdate, bringing};
ghost use Rattle.x5_types.specs.FormView.{world};

use crate::counts;
use crate::last::LastTotal;
use crate::shadows::carried_shadow;
use std::alloc::Global;
use x5_dispber::{Refresh, Shadow};
use x5_know::{AgentNames, Start};
use x5_memory::NoMemory;
use x5_ops::{Moment, StepList};
use x5_refresh::Brought;

/// What a supplier sends (updateShadow; X.525, section 11.3): by which agreement, the moment as of which it has the context, and what it
/// brings.
#[derive(Drop)]
pub struct Update {
    pub agreement: u32,
    pub stamp: Moment,
    pub brought: Brought,
}

/// Changes as messages have them: nothing, where nothing changed. No memory.
fn changes(steps: StepList) -> Refresh
    ensures { (names : List (List ℕ)) → told_refresh names result ≡ bringing names (Steps steps) }
{
    if steps.len() == 0 {
        Refresh::Nothing
    } else {
        Refresh::Steps(steps)
    }
}

/// What is brought, as messages have it. No memory.
fn refresh_of(brought: Brought) -> Refresh
    ensures { (names : List (List ℕ)) → told_refresh names result ≡ bringing names brought }
{
    match brought {
        Brought::Total(content) => Refresh::Total(content),
        Brought::Steps(steps) => changes(steps),
    }
}

/// What the message brings. No memory.
fn brought_by(alloc: Global, refresh: Refresh) -> Brought
    ensures { (names : List (List ℕ)) (sent : Brought) → told_refresh names refresh ≡ bringing names sent → bringing names result ≡ bringing names sent }
{
    match refresh {
        Refresh::Nothing => Brought::Steps(StepList::new(alloc)),
        Refresh::Total(content) => Brought::Total(content),
        Refresh::Steps(steps) => Brought::Steps(steps),
    }
}

/// The message. No memory.
fn message_of(update: Update) -> Shadow
    ensures { (names : List (List ℕ)) → told_shadow names result ≡ shadows.Update update.agreement update.stamp (bringing names update.brought) }
{
    Shadow::Update {
        agreement: update.agreement,
        stamp: update.stamp,
        refresh: refresh_of(update.brought),
    }
}

/// What the message sends, if it does. No memory.
fn update_in(alloc: Global, message: Shadow) -> Option<Update>
    ensures { (names : List (List ℕ)) (agreement stamp : ℕ) (sent : Brought) → told_shadow names message ≡ shadows.Update agreement stamp (bringing names sent)
        → IsUpdate names agreement stamp sent result }
{
    match message {
        Shadow::Update {
            agreement,
            stamp,
            refresh,
        } => Some(Update {
            agreement,
            stamp,
            brought: brought_by(alloc, refresh),
        }),
        _ => None,
    }
}

/// What a supplier sends as the consumer has it: what is read in the octets that it's written as. It is just what was sent, but for the
/// contexts to which references belong. What it brings is within the limits of messages, and the names are those of the
/// world's agents. Entries that come again are neither written nor read again.
pub fn carried_update(
    alloc: Global,
    start: &Start,
    names: &AgentNames,
    last: &mut LastTotal,
    update: Update,
) -> Result<Update, NoMemory>
    requires within { RefreshWithin (world start.now names.now) (bringing names.now update.brought) }
    requires agents { AreAgents (world start.now names.now) names.now }
    ensures { IfOk result (λ taken. (taken.agreement ≡ update.agreement) × (taken.stamp ≡ update.stamp) × IsSame taken.brought update.brought) }
{
    counts::number(update.agreement);
    counts::moment(Some(update.stamp));
    let message = message_of(update);
    let taken = carried_shadow(alloc, start, names, last, &message)?;
    match update_in(alloc, taken) {
        Some(update) => Ok(update),
        None => unreachable!(),
    }
}
