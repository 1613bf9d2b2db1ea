//! The messages of a refresh on their way (X.525, sections 11.1 to 11.3; X.519, section 7: DISP): what their receivers have is what is
//! read in the octets that they go by, and that is what is used from then on.

ghost use Rattle.std.specs.Prelude.{◌≡◌, ◌<◌, ◌==◌, ℕ, Bool, IfOk, OnOk, Some, length, true};
ghost use Rattle.std.specs.List.{find};
ghost use Rattle.x5_model_tree.specs.World as agreements;
ghost use Rattle.x5_model_fitting.specs.Replies.{ProblemWithin};
ghost use Rattle.x5_model_fitting.specs.Requests.{IfThere};
ghost use Rattle.x5_ops.specs.JournalViews.{fate_view};
ghost use Rattle.x5_refresh.specs.Course.{stopped};
ghost use Rattle.x5_refresh.specs.Joined.{is_of_supplier};
ghost use Rattle.x5_refresh.specs.Outcomes.{start_view};
ghost use Rattle.x5_world.specs.Shadows.{IsArrived, IsProblem, IsSendable, heard_by, start_of};
ghost use Rattle.x5_world.specs.Refreshes.{IsSound};
ghost use Rattle.x5_world.specs.Refreshing.{CanBring, IsWay, acknowledging};

use crate::refreshing::{Supplied, Way, first_operation, last_moment};
use crate::seen::carried_by;
use crate::world::World;
use std::alloc::Global;
use x5_know::{AgentNames, Agreement, Start};
use x5_memory::NoMemory;
use x5_ops::{Fate, Moment, Refreshed, ShadowOperation};
use x5_refresh as refresh;
use x5_refresh::{Brought, begins};
use x5_shadow_wire::{Asked, LastTotal, Problem, Update, carried_asked, carried_problem};

/// What the consumer reads of what the supplier sends: by which agreement, its stamp, and what it brings.
#[derive(Drop)]
pub(crate) struct Arrived {
    pub agreement: Agreement,
    pub stamp: Moment,
    pub brought: Brought,
}

/// By which number a message has the agreement. No memory.
fn number(agreement: &Agreement) -> u32
    ensures { result ≡ agreement.now.number }
{
    agreement.id
}

/// The agreement of the number that a message has.
fn agreed(world: &World, number: u32) -> Result<Agreement, NoMemory>
    requires { (g : agreements.Agreement) × (find (λ a. a.number == number) world.now.agreements ≡ Some g) }
    ensures { IfOk result (λ g. find (λ a. a.number == number) world.now.agreements ≡ Some g) }
{
    match world.place_of(number) {
        Some(place) => world.agreement(place),
        None => unreachable!(),
    }
}

/// The way as whoever is asked, or told, has it: by this agreement, and by what it has read. No memory.
fn heard_way(by: &Way, agreement: Agreement, read: Asked) -> Way
    ensures { result ≡ heard_by by.now agreement read }
{
    if by.push {
        Way {
            place: by.place,
            agreement,
            push: by.push,
            total: read.total,
            own: by.own,
            acked: read.last,
        }
    } else {
        Way {
            place: by.place,
            agreement,
            push: by.push,
            total: read.total,
            own: read.last,
            acked: by.acked,
        }
    }
}

/// The way as the receiver of the message that asks for the refresh, or tells of it, has it.
fn received(alloc: Global, start: &Start, world: &World, by: &Way) -> Result<Way, NoMemory>
    requires sound { IsSound world.now }
    requires way { IsWay world.now by.now }
    ensures { IfOk result (λ way. way ≡ by.now) }
{
    let sent = Asked {
        agreement: number(&by.agreement),
        last: last_moment(by),
        total: by.total,
    };
    let read = carried_asked(alloc, start, world.names(), by.push, sent)?;
    let agreement = agreed(world, read.agreement)?;
    Ok(heard_way(by, agreement, read))
}

/// In a pull, the way as the supplier has it by what the consumer asks (requestShadowUpdate).
pub(crate) fn asked(alloc: Global, start: &Start, world: &World, by: Way) -> Result<Way, NoMemory>
    requires sound { IsSound world.now }
    requires way { IsWay world.now by }
    ensures { IfOk result (λ way. way ≡ by) }
{
    if by.push {
        return Ok(by);
    }
    let way = received(alloc, start, world, &by);
    drop(by);
    way
}

/// In a push, the way as the consumer has it by what the supplier tells (coordinateShadowUpdate).
pub(crate) fn told(alloc: Global, start: &Start, world: &World, by: Way) -> Result<Way, NoMemory>
    requires sound { IsSound world.now }
    requires way { IsWay world.now by }
    ensures { IfOk result (λ way. way ≡ by) }
{
    if !by.push {
        return Ok(by);
    }
    let way = received(alloc, start, world, &by);
    drop(by);
    way
}

/// What whoever sent the first message reads of the reply. No memory.
fn start_by(problem: Option<Problem>) -> refresh::Start
    ensures { result ≡ start_of problem }
{
    match problem {
        None => refresh::Start::GoesOn,
        Some(problem) => refresh::Start::Ended(Refreshed::Failed {
            problem: problem.number,
            held: problem.held,
            given: problem.given,
        }),
    }
}

/// What whoever sent the first message reads of a reply with this result or problem.
fn by_reply(
    alloc: Global,
    start: &Start,
    names: &AgentNames,
    operation: ShadowOperation,
    problem: Option<Problem>,
) -> Result<refresh::Start, NoMemory>
    requires { IfThere (λ p. ProblemWithin 11 p.number) problem }
    ensures { IfOk result (λ read. read ≡ start_of problem) }
{
    let read = carried_problem(alloc, start, names, operation, problem)?;
    Ok(start_by(read))
}

/// What follows the first message, as whoever sent it has it: by what is read in the reply, where one comes.
fn replied(
    alloc: Global,
    start: &Start,
    names: &AgentNames,
    push: bool,
    begun: refresh::Start,
) -> Result<refresh::Start, NoMemory>
    requires { IsProblem begun }
    ensures { IfOk result (λ read. read ≡ begun) }
{
    let operation = first_operation(push);
    match begun {
        refresh::Start::GoesOn => by_reply(alloc, start, names, operation, None),
        refresh::Start::Ended(
            Refreshed::Failed {
                problem,
                held,
                given,
            },
        ) => {
            let sent = Problem {
                number: problem,
                held,
                given,
            };
            by_reply(alloc, start, names, operation, Some(sent))
        }
        refresh::Start::Ended(unheard) => Ok(refresh::Start::Ended(unheard)),
    }
}

/// Whether the refresh goes on behind its first message, as whoever sent it has it (X.525, sections 11.1 and 11.2).
pub(crate) fn answered(
    alloc: Global,
    start: &Start,
    names: &AgentNames,
    by: &Way,
    problem: Option<u8>,
    first: Fate,
) -> Result<refresh::Start, NoMemory>
    requires { is_of_supplier problem ≡ true }
    ensures { IfOk result (λ start. (heard : Bool) (number : ℕ) → start_view heard number start ≡ stopped by.now.push by.now.total problem by.now.own by.now.acked (fate_view first)) }
{
    let begun = begins(by.push, by.total, problem, by.own, by.acked, first);
    replied(alloc, start, names, by.push, begun)
}

/// What the consumer has of what the supplier sends (updateShadow), where both ends have seen this.
pub(crate) fn update_read(
    alloc: Global,
    start: &Start,
    world: &World,
    seen: &mut Vec<LastTotal>,
    by: &Way,
    supplied: Supplied,
) -> Result<Arrived, NoMemory>
    requires sound { IsSound world.now }
    requires way { IsWay world.now by.now }
    requires can { CanBring world.now by.now.agreement supplied }
    requires sendable { IsSendable start.now world.now.names supplied }
    ensures { IfOk result (λ read. IsArrived by.now.agreement supplied read) }
{
    let Supplied::Sent(stamp, brought) = supplied else {
        unreachable!()
    };
    let sent = Update {
        agreement: number(&by.agreement),
        stamp,
        brought,
    };
    let read = carried_by(alloc, start, world.names(), seen, by.place, sent)?;
    agreed_in(world, read)
}

/// What was read, by the agreement of its number.
fn agreed_in(world: &World, read: Update) -> Result<Arrived, NoMemory>
    requires { (g : agreements.Agreement) × (find (λ a. a.number == read.agreement) world.now.agreements ≡ Some g) }
    ensures { IfOk result (λ a. (find (λ g. g.number == read.agreement) world.now.agreements ≡ Some a.agreement) × (a.stamp ≡ read.stamp) × (a.brought ≡ read.brought)) }
{
    match agreed(world, read.agreement) {
        Ok(agreement) => Ok(Arrived {
            agreement,
            stamp: read.stamp,
            brought: read.brought,
        }),
        Err(fault) => {
            drop(read);
            Err(fault)
        }
    }
}

/// The supplier reads in the reply that what it sent with the stamp was taken.
pub(crate) fn acknowledged(
    alloc: Global,
    start: &Start,
    world: &mut World,
    place: usize,
    stamp: Moment,
) -> Result<(), NoMemory>
    requires { place < length world.old.acked }
    ensures { OnOk result (world.new ≡ acknowledging true place stamp world.old) }
{
    match carried_problem(
        alloc,
        start,
        world.names(),
        ShadowOperation::UpdateShadow,
        None,
    )? {
        None => world.acknowledge(place, stamp),
        Some(_) => unreachable!(),
    }
    Ok(())
}
