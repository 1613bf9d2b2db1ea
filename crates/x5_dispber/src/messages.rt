//! Whole messages of shadowing (X.519, section 7; X.525), as octets.
ghost use Rattle.std.specs.Prelude.{◌≡◌, ℕ, IfOk, Result, Ok};
ghost use Rattle.x5_dapber.specs.Results.{Decodes, IsRead, IsWritten};
ghost use Rattle.x5_dispber.specs.ShadowViews.{told_refresh, told_shadow};
ghost use Rattle.x5_model_messages.specs.Replies.{error_node, number_or_vacant, result_node};
ghost use Rattle.x5_model_messages.specs.ShadowLaws.{IsShadow};
ghost use Rattle.x5_model_messages.specs.Shadows as shadows;
ghost use Rattle.x5_model_octets.specs.Breaches as octet_breaches;
ghost use Rattle.x5_model_typed.specs.Named as named;
ghost use Rattle.x5_model_typed.specs.Nodes as nodes;
ghost use Rattle.x5_model_typed.specs.Typed.{Spells};
ghost use Rattle.x5_model_typed.specs.Written.{canonical_octets};
ghost use Rattle.x5_model_typed_laws.specs.Fits.{Fits};
ghost use Rattle.x5_typed.specs.Comes.{Comes};
ghost use Rattle.x5_types.specs.FormView.{world_table};
ghost use Rattle.x5_types.specs.NodeView.{node_view};

use crate::direct::update_in;
use crate::read_again::ReadEntries;
use crate::read_shadows::shadow_in;
use crate::refreshes::refresh_node;
use crate::shadow::{Refresh, Shadow};
use crate::total::write_shadow;
use crate::written::WrittenEntries;
use std::alloc::Global;
use x5_dapber::WireFault;
use x5_dapber::parts::{chosen, number, three, two};
use x5_know::{AgentNames, Start};
use x5_memory::NoMemory;
use x5_ops::Moment;
use x5_syntax::Octets;
use x5_typed::read_in;
use x5_types::{Named, Node, Surroundings};
use x5_writer::WriteFault;

fn moment_node<'a>(moment: Option<Moment>) -> Node<'a>
    ensures { node_view result ≡ number_or_vacant moment }
{
    match moment {
        Some(moment) => number(moment.0),
        None => Node::Vacant,
    }
}

/// A strategy (X.525, section 9.2): incremental or total.
fn strategy_node<'a>(total: bool) -> Node<'a>
    ensures { node_view result ≡ shadows.strategy_node total }
{
    number(if total { 2 } else { 1 })
}

fn invoke_node<'a>(
    alloc: Global,
    id: u32,
    code: u32,
    argument: Node<'a>,
) -> Result<Node<'a>, NoMemory>
    ensures { IfOk result (λ n. node_view n ≡ shadows.invoke_node id code (node_view argument.entry)) }
{
    let invoke = three(alloc, number(id), number(code), argument)?;
    chosen(alloc, 1, invoke)
}

/// What is asked with one of the operations that ask for or tell of a refresh.
fn asked_node<'a>(
    alloc: Global,
    agreement: u32,
    last: Option<Moment>,
    total: bool,
) -> Result<Node<'a>, NoMemory>
    ensures { IfOk result (λ n. node_view n ≡ shadows.asked_node agreement last total) }
{
    three(
        alloc,
        number(agreement),
        moment_node(last),
        strategy_node(total),
    )
}

fn sent_node<'a>(
    alloc: Global,
    names: &'a AgentNames,
    agreement: u32,
    stamp: Moment,
    refresh: &'a Refresh,
) -> Result<Node<'a>, NoMemory>
    ensures { IfOk result (λ n. node_view n ≡ shadows.sent_node agreement stamp (told_refresh names.now refresh.now)) }
{
    let refresh = refresh_node(alloc, names, refresh)?;
    three(alloc, number(agreement), number(stamp.0), refresh)
}

fn done_node<'a>(alloc: Global, id: u32, operation: u8) -> Result<Node<'a>, NoMemory>
    ensures { IfOk result (λ n. node_view n ≡ result_node id operation nodes.Vacant) }
{
    let inner = two(alloc, number(u32::from(operation)), Node::Vacant)?;
    let result = two(alloc, number(id), inner)?;
    chosen(alloc, 2, result)
}

fn failed_node<'a>(
    alloc: Global,
    id: u32,
    problem: u8,
    held: Option<Moment>,
    given: Option<Moment>,
) -> Result<Node<'a>, NoMemory>
    ensures { IfOk result (λ n. node_view n ≡ error_node id 1 (shadows.failed_node problem held given)) }
{
    let parameter = three(
        alloc,
        number(u32::from(problem)),
        moment_node(held),
        moment_node(given),
    )?;
    let error = three(alloc, number(id), number(1), parameter)?;
    chosen(alloc, 3, error)
}

pub(crate) fn shadow_node<'a>(
    alloc: Global,
    names: &'a AgentNames,
    id: u32,
    message: &'a Shadow,
) -> Result<Node<'a>, NoMemory>
    ensures { IfOk result (λ n. node_view n ≡ shadows.shadow_node id (told_shadow names.now message.now)) }
{
    match message {
        Shadow::Request {
            agreement,
            last,
            total,
        } => invoke_node(alloc, id, 1, asked_node(alloc, *agreement, *last, *total)?),
        Shadow::Coordinate {
            agreement,
            last,
            total,
        } => invoke_node(alloc, id, 3, asked_node(alloc, *agreement, *last, *total)?),
        Shadow::Update {
            agreement,
            stamp,
            refresh,
        } => invoke_node(
            alloc,
            id,
            2,
            sent_node(alloc, names, *agreement, *stamp, refresh)?,
        ),
        Shadow::Done { operation } => done_node(alloc, id, *operation),
        Shadow::Failed {
            problem,
            held,
            given,
        } => failed_node(alloc, id, *problem, *held, *given),
    }
}

/// The canonical octets of a message of shadowing with the id, in a world with that start and these agents (X.519, section 7; X.690,
/// section 10). Entries of a total refresh that are those which were written last aren't written again; nothing that is answered depends
/// on what was written.
///
/// # Errors
/// `Misfit` exactly where there are none: an agent that the message names isn't one of the world's, or another part of it is none of
/// its type. Or that memory ran out.
pub fn encode_shadow(
    alloc: Global,
    start: &Start,
    names: &AgentNames,
    last: &mut WrittenEntries,
    id: u32,
    message: &Shadow,
) -> Result<Octets, WriteFault>
    ensures written { IsWritten (canonical_octets (world_table start.now names.now) named.DispMessage (shadows.shadow_node id (told_shadow names.now message.now))) result }
    // They spell the message that they are written of, where it is a value of the type by all rules: so the agents of a reference
    // stand in their order, and values are of their types' kinds. Then they are read back, by `back` below.
    ensures spelled { Fits (world_table start.now names.now) (world_table start.now names.now named.DispMessage) (shadows.shadow_node id (told_shadow names.now message.now))
        → IfOk result (λ octets. Spells (world_table start.now names.now) named.DispMessage octets (shadows.shadow_node id (told_shadow names.now message.now))) }
{
    start.reads_back();
    Ok(Octets::new(write_shadow(alloc, start, names, last, id, message)?))
}

/// What the octets say, which are read by the table of types.
fn decode_by_table(
    alloc: Global,
    start: &Start,
    names: &AgentNames,
    octets: &[u8],
) -> Result<(u32, Shadow), WireFault>
    ensures decodes { (e : Result nodes.Node octet_breaches.Breach) → Comes (world_table start.now names.now) named.DispMessage octets.now e
        → Decodes (λ p. (p.0, told_shadow names.now p.1)) shadows.shadow_in e result }
    ensures comes { (e : Result nodes.Node octet_breaches.Breach) × Comes (world_table start.now names.now) named.DispMessage octets.now e }
    ensures spelled { IfOk result (λ p. (n : nodes.Node) × Spells (world_table start.now names.now) named.DispMessage octets.now n
        × ((p.0, told_shadow names.now p.1) ≡ shadows.shadow_in n)) }
{
    let surroundings = Surroundings::World(start, names);
    let node = read_in(alloc, surroundings, Named::DispMessage, octets)?;
    Ok(shadow_in(alloc, names, &node)?)
}

/// The id of a message of shadowing, and what it says, in a world with that start and these agents (X.519, section 7): of octets that are
/// one spelling of it and nothing else. Entries of a total refresh that come again from the same octets as they were seen aren't read
/// again, and those of this one are seen then; nothing that is answered depends on what was seen.
///
/// # Errors
/// The first breach in the order of reading, with its place: the whole first reading, whatever the type, before the
/// second. `Unrecognised` exactly where that is the code of an operation or error that shadowing doesn't have. Or that memory ran out.
pub fn decode_shadow(
    alloc: Global,
    start: &Start,
    names: &AgentNames,
    seen: &mut ReadEntries,
    octets: &[u8],
) -> Result<(u32, Shadow), WireFault>
    // What the value says, or the breach, that reading comes to; and it comes to exactly one.
    ensures decodes { (e : Result nodes.Node octet_breaches.Breach) → Comes (world_table start.now names.now) named.DispMessage octets.now e
        → Decodes (λ p. (p.0, told_shadow names.now p.1)) shadows.shadow_in e result }
    ensures comes { (e : Result nodes.Node octet_breaches.Breach) × Comes (world_table start.now names.now) named.DispMessage octets.now e }
    // Of octets that spell a value of the type it's what that says, and no other octets give a message.
    ensures exact { (n : nodes.Node) → Spells (world_table start.now names.now) named.DispMessage octets.now n
        → Decodes (λ p. (p.0, told_shadow names.now p.1)) shadows.shadow_in (Ok n) result }
    ensures spelled { IfOk result (λ p. (n : nodes.Node) × Spells (world_table start.now names.now) named.DispMessage octets.now n
        × ((p.0, told_shadow names.now p.1) ≡ shadows.shadow_in n)) }
    // Octets that spell what is written of a message whose parts are as they are spelled give it back, with its id.
    ensures back { (id : ℕ) (m : shadows.Shadow) → IsShadow m → Spells (world_table start.now names.now) named.DispMessage octets.now (shadows.shadow_node id m)
        → IsRead {Y = ℕ × shadows.Shadow} (λ p. (p.0, told_shadow names.now p.1)) (id, m) result }
{
    // Total refreshes are most of what is read, and mostly spelled in the one usual way, of entries that are seen. Whatever else it is,
    // and where memory ran out, the table says it.
    match update_in(alloc, start, names, seen, octets) {
        Ok(read) => Ok(read),
        Err(_) => decode_by_table(alloc, start, names, octets),
    }
}
