//! A refresh by an agreement, message by message.

ghost use Rattle.std.specs.Prelude.{◌≡◌, ◌∷◌, [], ◌<◌, ◌≤◌, ◌⊎◌, true, false, None, IfOk, length};
ghost use Rattle.x5_model.specs.Words.{distinct, same_octets};
ghost use Rattle.x5_model_run.specs.Network.{is_lost, is_sent};
ghost use Rattle.x5_ops.specs.JournalViews.{fate_view};
ghost use Rattle.x5_ops.specs.RefreshViews.{operation_view, shadow_view, shadows_view, refreshed_view};
ghost use Rattle.x5_refresh.specs.Course.{finished, unsent, opening, line_of};
ghost use Rattle.x5_refresh.specs.Sent.{count_in};
ghost use Rattle.x5_refresh.specs.Joined.{is_of_supplier};
ghost use Rattle.x5_world.specs.Answered.{line_names_agents};
ghost use Rattle.x5_world.specs.Shadows.{IsSendable};
ghost use Rattle.x5_world.specs.Refreshes.{IsSound};
ghost use Rattle.x5_world.specs.Refreshing.{AreMessages, CanBring, IsBounded, IsDoneAt, IsDoneBy, IsInvalid, IsKnown, IsLeft, IsSupplied, IsWay, OnlyHeld};
ghost use Rattle.x5_world.specs.Refreshing.{block_of, first_fate, last_block, last_fate, last_of, opened_block, problem_in};
ghost use Rattle.x5_world.specs.declared.refreshing.Supplied.TheVariants.{Sent};

use crate::refreshment::Refreshment;
use crate::shadows::{Arrived, acknowledged, answered, asked, told, update_read};
use crate::world::World;
use std::alloc::Global;
use x5_consume::expected;
use x5_know::{AgentNames, Agreement, Start};
use x5_memory::NoMemory;
use x5_ops::{Fate, Line, LineList, Listed, Moment, Refreshed, ShadowOperation};
use x5_refresh as refresh;
use x5_refresh::{Brought, ended, opens};
use x5_shadow_wire::LastTotal;

/// invalidAgreementID (X.525, section 12): there is no agreement of this number.
const INVALID_AGREEMENT_ID: u8 = 1;

/// What a supplier sends, with the moment as of which it has the context, or its problem by its number (X.525, section 11.2).
#[derive(Drop)]
pub(crate) enum Supplied {
    Sent(Moment, Brought),
    Refused(u8),
}

/// A refresh by the agreement of a place, pushed by the supplier or pulled by the consumer, total or incremental; the moment of the
/// consumer's copy, and the last one that the supplier knows to be taken.
#[derive(Drop)]
pub(crate) struct Way {
    pub place: usize,
    pub agreement: Agreement,
    pub push: bool,
    pub total: bool,
    pub own: Option<Moment>,
    pub acked: Option<Moment>,
}

/// The supplier's problem, if it has one. No memory.
fn problem_of(supplied: &Supplied) -> Option<u8>
    ensures { result ≡ problem_in supplied.now }
{
    match supplied {
        Supplied::Sent(_, _) => None,
        Supplied::Refused(problem) => Some(*problem),
    }
}

/// A message of a refresh as it's printed.
fn line(
    names: &AgentNames,
    agreement: &Agreement,
    operation: ShadowOperation,
    fate: Fate,
) -> Result<Line, NoMemory>
    requires apart { distinct same_octets names.now ≡ true }
    requires supplier { agreement.now.supplier < length names.now }
    requires consumer { agreement.now.consumer < length names.now }
    ensures view { IfOk result (λ line. shadow_view names.now line ≡ line_of agreement.now (operation_view operation) (fate_view fate) ∷ []) }
    ensures named { IfOk result (λ line. line_names_agents names.now line ≡ true) }
{
    let (from, to) = match operation {
        ShadowOperation::RequestShadowUpdate => (agreement.consumer, agreement.supplier),
        ShadowOperation::UpdateShadow => (agreement.supplier, agreement.consumer),
        ShadowOperation::CoordinateShadowUpdate => (agreement.supplier, agreement.consumer),
    };
    Ok(Line::Dis {
        from: names.name(from).clone()?,
        to: names.name(to).clone()?,
        operation,
        agreement: agreement.id,
        fate,
    })
}

/// The operation of the first message: in a push the supplier tells the consumer, in a pull the consumer asks (X.525, section 11.1).
/// No memory.
pub(crate) fn first_operation(push: bool) -> ShadowOperation
    ensures { operation_view result ≡ opening push }
{
    if push {
        ShadowOperation::CoordinateShadowUpdate
    } else {
        ShadowOperation::RequestShadowUpdate
    }
}

/// What becomes of the first message. No memory.
fn fate_of_first(world: &World, agreement: &Agreement, push: bool) -> Fate
    requires room { world.now.sent ≤ 18446744073709551613 }
    ensures { fate_view result ≡ first_fate world.now agreement.now push }
{
    let number = world.sent() + 1;
    if push {
        world.fate(number, Some(agreement.supplier), agreement.consumer)
    } else {
        world.fate(number, Some(agreement.consumer), agreement.supplier)
    }
}

/// What becomes of the last message. No memory.
fn fate_of_last(world: &World, agreement: &Agreement) -> Fate
    requires room { world.now.sent ≤ 18446744073709551613 }
    ensures { fate_view result ≡ last_fate world.now agreement.now }
{
    let number = world.sent() + 2;
    world.fate(number, Some(agreement.supplier), agreement.consumer)
}

/// Whether the sender knows that its message was taken. No memory.
fn is_heard(fate: Fate) -> bool
    ensures { result ≡ is_sent (fate_view fate) }
{
    match fate {
        Fate::Sent => true,
        Fate::Lost | Fate::NoReply => false,
    }
}

/// A refresh that ended before its last message. No memory.
fn stopped(lines: LineList, became: Refreshed) -> Refreshment
    ensures { (result.lines ≡ lines) × (result.became ≡ became) × (result.heard ≡ false) }
{
    Refreshment {
        lines,
        became,
        heard: false,
    }
}

/// The consumer takes what it has read, where the message arrives; and the supplier knows it where the reply does too. How many
/// entries or steps were taken.
fn taken(
    alloc: Global,
    start: &Start,
    world: &mut World,
    by: &Way,
    read: Arrived,
    last: Fate,
) -> Result<u64, NoMemory>
    requires consumer { read.agreement.consumer < length world.old.names }
    requires there { by.now.place < length world.old.acked }
    requires can { CanBring world.old read.agreement (Sent read.stamp read.brought) }
    ensures left { IfOk result (λ count. IsLeft world.old read.agreement by.now.place (Sent read.stamp read.brought) (finished by.now.total read.agreement.number read.stamp count (fate_view last)) world.new) }
    ensures count { IfOk result (λ count. is_lost (fate_view last) ≡ false → count ≡ count_in read.brought) }
    ensures only { IfOk result (λ _. OnlyHeld world.old world.new) }
{
    if !last.arrives() {
        drop(read);
        return Ok(0);
    }
    let Arrived {
        agreement,
        stamp,
        brought,
    } = read;
    let count = world.accept(alloc, &agreement, stamp, brought)?;
    if is_heard(last) {
        acknowledged(alloc, start, world, by.place, stamp)?;
    }
    Ok(count)
}

/// The last message, behind these, with what it brings (X.525, section 11.3).
fn updated(
    alloc: Global,
    start: &Start,
    world: &mut World,
    seen: &mut Vec<LastTotal>,
    by: &Way,
    lines: LineList,
    supplied: Supplied,
) -> Result<Refreshment, NoMemory>
    requires room { world.old.sent ≤ 18446744073709551613 }
    requires sound { IsSound world.old }
    requires way { IsWay world.old by.now }
    requires can { CanBring world.old by.now.agreement supplied }
    requires sendable { IsSendable start.now world.old.names supplied }
    requires first { AreMessages world.old.names 1 lines }
    ensures block { IfOk result (λ r. block_of world.old.names by.now.agreement r ≡ last_block by.now.agreement by.now.total supplied (shadows_view world.old.names lines) (last_fate world.old by.now.agreement)) }
    ensures left { IfOk result (λ r. IsLeft world.old by.now.agreement by.now.place supplied (refreshed_view r.heard by.now.agreement.number r.became) world.new) }
    ensures only { IfOk result (λ _. OnlyHeld world.old world.new) }
    ensures messages { IfOk result (λ r. AreMessages world.old.names 2 r.lines) }
{
    let mut lines = lines;
    let last = fate_of_last(world, &by.agreement);
    lines.push(line(
        world.names(),
        &by.agreement,
        ShadowOperation::UpdateShadow,
        last,
    )?)?;
    let read = update_read(alloc, start, world, seen, by, supplied)?;
    let stamp = read.stamp;
    let count = taken(alloc, start, world, by, read, last)?;
    Ok(Refreshment {
        lines,
        became: ended(by.total, stamp, count, last),
        heard: is_heard(last),
    })
}

/// The first message alone.
fn first_line(alloc: Global, world: &World, by: &Way, first: Fate) -> Result<LineList, NoMemory>
    requires sound { IsSound world.now }
    requires way { IsWay world.now by.now }
    ensures view { IfOk result (λ lines. shadows_view world.now.names lines ≡ line_of by.now.agreement (opening by.now.push) (fate_view first) ∷ []) }
    ensures messages { IfOk result (λ lines. AreMessages world.now.names 1 lines) }
{
    let operation = first_operation(by.push);
    let mut lines = Listed::new(alloc);
    lines.push(line(world.names(), &by.agreement, operation, first)?)?;
    Ok(lines)
}

/// The first message, and what follows (X.525, sections 11.1 and 11.2): the way is as the receiver of the message has it.
fn opened(
    alloc: Global,
    start: &Start,
    world: &mut World,
    seen: &mut Vec<LastTotal>,
    by: &Way,
    supplied: Supplied,
) -> Result<Refreshment, NoMemory>
    requires room { world.old.sent ≤ 18446744073709551613 }
    requires few { world.old.line ≤ 100000 }
    requires sound { IsSound world.old }
    requires way { IsWay world.old by.now }
    requires supplied { IsSupplied world.old by.now.agreement by.now.total (last_of by.now) supplied }
    requires known { IsKnown (length world.old.names) supplied }
    requires bounded { IsBounded supplied }
    requires told { is_of_supplier (problem_in supplied) ≡ true }
    requires goes_on { unsent by.now.push (problem_in supplied) ≡ None }
    ensures block { IfOk result (λ r. block_of world.old.names by.now.agreement r ≡ opened_block world.old by.now supplied) }
    ensures left { IfOk result (λ r. IsLeft world.old by.now.agreement by.now.place supplied (refreshed_view r.heard by.now.agreement.number r.became) world.new) }
    ensures only { IfOk result (λ _. OnlyHeld world.old world.new) }
    ensures messages { IfOk result (λ r. AreMessages world.old.names 2 r.lines) }
{
    let first = fate_of_first(world, &by.agreement, by.push);
    let lines = first_line(alloc, world, by, first)?;
    let problem = problem_of(&supplied);
    let begun = answered(alloc, start, world.names(), by, problem, first)?;
    match begun {
        refresh::Start::Ended(became) => {
            drop(supplied);
            Ok(stopped(lines, became))
        }
        refresh::Start::GoesOn => updated(alloc, start, world, seen, by, lines, supplied),
    }
}

/// What there is to look at before the first message.
fn way_of(world: &World, place: usize, push: bool, total: bool) -> Result<Way, NoMemory>
    requires sound { IsSound world.now }
    requires there { place < length world.now.agreements }
    ensures way { IfOk result (λ by. IsWay world.now by) }
    ensures place { IfOk result (λ by. by.place ≡ place) }
    ensures push { IfOk result (λ by. by.push ≡ push) }
    ensures total { IfOk result (λ by. by.total ≡ total) }
{
    let agreement = world.agreement(place)?;
    let own = expected(world.held(agreement.consumer), &agreement.context);
    Ok(Way {
        place,
        agreement,
        push,
        total,
        own,
        acked: world.acked(place),
    })
}

/// The moment from which the supplier goes on: in a pull the consumer tells its own, in a push it's the last that was acknowledged
/// (X.525, section 11.2). No memory.
pub(crate) fn last_moment(by: &Way) -> Option<Moment>
    ensures { result ≡ last_of by.now }
{
    if by.push {
        return by.acked;
    }
    by.own
}

/// A refresh by the agreement of this place.
fn by_place(
    alloc: Global,
    start: &Start,
    world: &mut World,
    seen: &mut Vec<LastTotal>,
    place: usize,
    push: bool,
    total: bool,
) -> Result<Refreshment, NoMemory>
    requires room { world.old.sent ≤ 18446744073709551613 }
    requires few { world.old.line ≤ 100000 }
    requires sound { IsSound world.old }
    requires there { place < length world.old.agreements }
    ensures done { IfOk result (λ r. IsDoneAt world.old place push total r world.new) }
    ensures only { IfOk result (λ _. OnlyHeld world.old world.new) }
    ensures messages { IfOk result (λ r. AreMessages world.old.names 2 r.lines) }
{
    let own = way_of(world, place, push, total)?;
    let by = asked(alloc, start, world, own)?;
    let supplied = world.supply(alloc, &by.agreement, by.total, last_moment(&by))?;
    match opens(push, problem_of(&supplied)) {
        refresh::Start::Ended(became) => {
            drop(supplied);
            drop(by);
            Ok(stopped(Listed::new(alloc), became))
        }
        refresh::Start::GoesOn => {
            let way = told(alloc, start, world, by)?;
            opened(alloc, start, world, seen, &way, supplied)
        }
    }
}

/// A refresh by the agreement of this number, or its problem where there is none. The ends of agreements have seen this.
pub(crate) fn refreshed(
    alloc: Global,
    start: &Start,
    world: &mut World,
    seen: &mut Vec<LastTotal>,
    number: u32,
    push: bool,
    total: bool,
) -> Result<Refreshment, NoMemory>
    requires room { world.old.sent ≤ 18446744073709551613 }
    requires few { world.old.line ≤ 100000 }
    requires sound { IsSound world.old }
    ensures done { IfOk result (λ r. IsInvalid world.old number r world.new ⊎ IsDoneBy world.old number push total r world.new) }
    ensures only { IfOk result (λ _. OnlyHeld world.old world.new) }
    ensures messages { IfOk result (λ r. AreMessages world.old.names 2 r.lines) }
{
    match world.place_of(number) {
        None => Ok(stopped(
            Listed::new(alloc),
            Refreshed::Failed {
                problem: INVALID_AGREEMENT_ID,
                held: None,
                given: None,
            },
        )),
        Some(place) => by_place(alloc, start, world, seen, place, push, total),
    }
}
