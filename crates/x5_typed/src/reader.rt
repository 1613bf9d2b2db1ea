//! Reads octets as a value of a type: first as an element, whatever its type (X.690), and then by its type.
ghost use Rattle.std.specs.Prelude.{◌≡◌, ℕ, ◌<◌, ◌≤◌, ◌+◌, List, Result, IfOk, IfErr, IfSome, Ok, Some, length, drop, true, false};
ghost use Rattle.std.specs.Option.{option_map};
ghost use Rattle.x5_model_octets.specs.Faults as faults;
ghost use Rattle.x5_model_octets.specs.Faults.{begins_with_end, head_at, outermost};
ghost use Rattle.x5_ber.specs.Views.{head_view};
ghost use Rattle.x5_ber.specs.Reading.{Stands};
ghost use Rattle.x5_model_octets.specs.Breaches as octet_breaches;
ghost use Rattle.x5_model_typed.specs.Judged as judged;
ghost use Rattle.x5_model_typed.specs.Layouts as layouts;
ghost use Rattle.x5_model_typed.specs.Nodes as nodes;
ghost use Rattle.x5_model_typed.specs.Trees as trees;
ghost use Rattle.x5_model_typed.specs.Typed.{Spells};
ghost use Rattle.x5_typed.specs.Breaches.{Gives};
ghost use Rattle.x5_types.specs.FormView.{alternative_view, around, choices_view, content_view, named_view, table, table_in};
ghost use Rattle.x5_types.specs.NodeView.{node_view, option_view};
ghost use Rattle.x5_typed.specs.Comes.{Comes, ComesTo};
ghost use Rattle.x5_typed.specs.Places.{EndsAt, Within, behind, is_over_at};
ghost use Rattle.x5_typed.specs.StateView.{state_view, IsState};

use crate::fault::{Breach, ReadFault, wrong_content, wrong_tag};
use crate::state::State;
use std::alloc::Global;
use x5_ber::{BerFault, Head, read_header, read_tlv};
use x5_rules::settle;
use x5_types::{Alternative, Choices, Content, Named, Node, Surroundings, layout, leaf_node};

/// The value as it is kept, by the rule of its type.
fn settled<'a>(
    alloc: Global,
    at: usize,
    a: Alternative,
    node: Option<Node<'a>>,
) -> Result<Node<'a>, ReadFault>
    ensures { (w : layouts.Surroundings) → Gives (λ m n. node_view m ≡ n) (judged.settled at (alternative_view w a) (option_view node.entry)) result }
{
    let Some(node) = node else {
        return Err(ReadFault::Breach(wrong_content(at)));
    };
    let Some(node) = settle(alloc, a.rule, node)? else {
        return Err(ReadFault::Breach(wrong_content(at)));
    };
    if a.marked {
        Ok(Node::Chosen(a.tag, Box::new(alloc, node)?))
    } else {
        Ok(node)
    }
}

/// A primitive element as a value of one of the types.
fn read_octets<'a>(
    alloc: Global,
    surroundings: Surroundings<'_>,
    octets: &'a [u8],
    choices: Choices,
    at: usize,
    class: u8,
    tag: u32,
) -> Result<Node<'a>, ReadFault>
    ensures { Gives (λ m n. node_view m ≡ n) (judged.judged (table_in surroundings.entry) (choices_view (around surroundings.entry) choices) (trees.Leaf at class tag octets.now)) result }
{
    let Some(a) = choices.by_tag(class, tag) else {
        return Err(ReadFault::Breach(wrong_tag(at)));
    };
    let node = leaf_node(alloc, surroundings, a.content, octets)?;
    settled(alloc, at, a, node)
}

/// A primitive element, by its head: its value, and the place behind it.
fn read_piece<'a>(
    alloc: Global,
    surroundings: Surroundings<'_>,
    bytes: &'a [u8],
    at: usize,
    head: Head,
    choices: Choices,
) -> Result<(Node<'a>, usize), ReadFault>
    requires inside { Within at head.content (length bytes.now) }
    ensures nearer { IfOk result (λ r. Within at r.1 (length bytes.now)) }
    ensures reads { (depth : ℕ) (t : trees.Tree) (octets : List ℕ) → trees.Lies depth at t octets → Stands bytes.now at octets
        → head_at outermost bytes.now at ≡ Ok (head_view head) → head.identifier.constructed ≡ false
        → Gives (λ m n. (node_view m.0 ≡ n) × (m.1 ≡ at + length octets)) (judged.judged (table_in surroundings.entry) (choices_view (around surroundings.entry) choices) t) result }
{
    let Some(end) = end_of(bytes, head)? else {
        return Err(ReadFault::Breach(wrong_content(at)));
    };
    let octets = &bytes[head.content..end];
    let node = read_octets(
        alloc,
        surroundings,
        octets,
        choices,
        at,
        head.identifier.class,
        head.identifier.tag,
    )?;
    Ok((node, end))
}

/// Reads an element as a value of one of the types, by its head: its value, and the place behind it.
#[cycle(reading)]
fn read_element<'a>(
    alloc: Global,
    surroundings: Surroundings<'_>,
    bytes: &'a [u8],
    at: usize,
    head: Head,
    choices: Choices,
) -> Result<(Node<'a>, usize), ReadFault>
    requires inside { Within at head.content (length bytes.now) }
    ensures nearer { IfOk result (λ r. Within at r.1 (length bytes.now)) }
    ensures reads { (depth : ℕ) (t : trees.Tree) (octets : List ℕ) → trees.Lies depth at t octets → Stands bytes.now at octets
        → head_at outermost bytes.now at ≡ Ok (head_view head)
        → Gives (λ m n. (node_view m.0 ≡ n) × (m.1 ≡ at + length octets)) (judged.judged (table_in surroundings.entry) (choices_view (around surroundings.entry) choices) t) result }
{
    if head.identifier.constructed {
        read_open(alloc, surroundings, bytes, at, head, choices)
    } else {
        read_piece(alloc, surroundings, bytes, at, head, choices)
    }
}

/// A constructed element.
#[cycle(reading)]
fn read_open<'a>(
    alloc: Global,
    surroundings: Surroundings<'_>,
    bytes: &'a [u8],
    at: usize,
    head: Head,
    choices: Choices,
) -> Result<(Node<'a>, usize), ReadFault>
    requires inside { Within at head.content (length bytes.now) }
    ensures nearer { IfOk result (λ r. Within at r.1 (length bytes.now)) }
    ensures reads { (depth : ℕ) (t : trees.Tree) (octets : List ℕ) → trees.Lies depth at t octets → Stands bytes.now at octets
        → head_at outermost bytes.now at ≡ Ok (head_view head) → head.identifier.constructed ≡ true
        → Gives (λ m n. (node_view m.0 ≡ n) × (m.1 ≡ at + length octets)) (judged.judged (table_in surroundings.entry) (choices_view (around surroundings.entry) choices) t) result }
{
    let Some(a) = choices.by_tag(head.identifier.class, head.identifier.tag) else {
        return Err(ReadFault::Breach(wrong_tag(at)));
    };
    let end = end_of(bytes, head)?;
    let (node, next) = read_content(alloc, surroundings, bytes, at, head.content, end, a.content)?;
    let node = settled(alloc, at, a, node)?;
    Ok((node, next))
}

/// Where the content of a head's element ends, if its length says it.
fn end_of(bytes: &[u8], head: Head) -> Result<Option<usize>, ReadFault>
    requires inside { head.content ≤ length bytes.now }
    ensures end { IfOk result (λ end. end ≡ option_map (λ n. head.content + n) head.extent) }
    ensures within { IfOk result (λ end. IfSome end (λ e. (head.content ≤ e) × (e ≤ length bytes.now))) }
    ensures none { IfErr result (λ f. (n : ℕ) × (head.extent ≡ Some n) × (length bytes.now < head.content + n)) }
{
    let Some(extent) = head.extent else {
        return Ok(None);
    };
    if ((bytes.len() - head.content) as u64) < extent {
        return Err(ReadFault::Breach(Breach::Ber(BerFault::Truncated(bytes.len()))));
    }
    Ok(Some(head.content + extent as usize))
}

/// Reads a constructed content from the place, of the element at the other one: what it is, and the place behind it.
#[cycle(reading)]
fn read_content<'a>(
    alloc: Global,
    surroundings: Surroundings<'_>,
    bytes: &'a [u8],
    at: usize,
    place: usize,
    end: Option<usize>,
    content: Content,
) -> Result<(Option<Node<'a>>, usize), ReadFault>
    requires inside { place ≤ length bytes.now }
    ensures nearer { IfOk result (λ r. (place ≤ r.1) × (r.1 ≤ length bytes.now)) }
    ensures reads { (depth : ℕ) (ts : trees.Trees) (octets : List ℕ) → trees.LieAll depth place ts octets → Stands bytes.now place octets
        → EndsAt bytes.now end (place + length octets)
        → Gives (λ m s. (option_view m.0 ≡ judged.ended s) × (m.1 ≡ behind end (place + length octets))) (judged.judged_all (table_in surroundings.entry) (judged.begun at (content_view (around surroundings.entry) content)) ts) result }
{
    let mut state = State::new(alloc, at, content)?;
    let next = read_members(alloc, surroundings, bytes, place, end, &mut state)?;
    let node = state.ended(alloc, surroundings)?;
    Ok((node, next))
}

/// Whether the content is over at the place: its end is there, or end-of-contents octets (X.690, 8.1.5).
fn is_over(bytes: &[u8], place: usize, end: Option<usize>) -> bool
    ensures { result ≡ is_over_at bytes.now place end }
{
    match end {
        Some(end) => end <= place,
        None => stands_end(bytes, place),
    }
}

fn stands_end(bytes: &[u8], place: usize) -> bool
    ensures { result ≡ begins_with_end (drop place bytes.now) }
{
    if place >= bytes.len() {
        return false;
    }
    matches!(&bytes[place..], [0, 0, ..])
}

/// Reads members up to the end of their content: the place behind it.
#[cycle(reading)]
fn read_members<'a>(
    alloc: Global,
    surroundings: Surroundings<'_>,
    bytes: &'a [u8],
    start: usize,
    end: Option<usize>,
    state: &mut State<'a>,
) -> Result<usize, ReadFault>
    requires inside { start ≤ length bytes.now }
    requires state { IsState state.old }
    ensures kept { IsState state.new }
    ensures nearer { IfOk result (λ next. (start ≤ next) × (next ≤ length bytes.now)) }
    ensures reads { (depth : ℕ) (ts : trees.Trees) (octets : List ℕ) → trees.LieAll depth start ts octets → Stands bytes.now start octets
        → EndsAt bytes.now end (start + length octets)
        → Gives (λ next s. (state_view (around surroundings.entry) state.new ≡ s) × (next ≡ behind end (start + length octets))) (judged.judged_all (table_in surroundings.entry) (state_view (around surroundings.entry) state.old) ts) result }
{
    let mut place = start;
    while !is_over(bytes, place, end) {
        place = read_member(alloc, surroundings, bytes, place, state)?;
    }
    Ok(past_end(bytes, place, end))
}

/// The place behind a content that is over at the place.
fn past_end(bytes: &[u8], place: usize, end: Option<usize>) -> usize
    requires inside { place ≤ length bytes.now }
    requires over { is_over_at bytes.now place end ≡ true }
    ensures next { result ≡ behind end place }
    ensures inside { (place ≤ result) × (result ≤ length bytes.now) }
{
    match end {
        None => place + 2,
        Some(_) => place,
    }
}

/// Reads the member at the place: the place behind it.
#[cycle(reading)]
fn read_member<'a>(
    alloc: Global,
    surroundings: Surroundings<'_>,
    bytes: &'a [u8],
    at: usize,
    state: &mut State<'a>,
) -> Result<usize, ReadFault>
    requires inside { at ≤ length bytes.now }
    requires state { IsState state.old }
    ensures kept { IsState state.new }
    ensures nearer { IfOk result (λ next. Within at next (length bytes.now)) }
    ensures reads { (depth : ℕ) (t : trees.Tree) (octets : List ℕ) → trees.Lies depth at t octets → Stands bytes.now at octets
        → Gives (λ next s. (state_view (around surroundings.entry) state.new ≡ s) × (next ≡ at + length octets)) (judged.judged_member (table_in surroundings.entry) (state_view (around surroundings.entry) state.old) t) result }
{
    let head = head_of(bytes, at)?;
    let awaited = state.awaits(at, head.identifier.class, head.identifier.tag)?;
    let (node, next) = read_element(alloc, surroundings, bytes, at, head, awaited.choices)?;
    state.step(alloc, at, awaited.step, node)?;
    Ok(next)
}

/// The header of the element at the place.
fn head_of(bytes: &[u8], at: usize) -> Result<Head, ReadFault>
    ensures inside { IfOk result (λ head. Within at head.content (length bytes.now)) }
    ensures head { IfOk result (λ head. head_at outermost bytes.now at ≡ Ok (head_view head)) }
    ensures none { IfErr result (λ f. (head : faults.Head) → head_at outermost bytes.now at ≡ Ok head → Within at head.content (length bytes.now) → ⊥) }
{
    match read_header(bytes, at) {
        Ok(head) if at < head.content && head.content <= bytes.len() => Ok(head),
        Ok(_) => Err(ReadFault::Breach(wrong_tag(at))),
        Err(fault) => Err(ReadFault::Breach(Breach::Ber(fault))),
    }
}

/// Reads octets as a value of the type in those surroundings: the value, if they are one spelling of it and nothing else.
///
/// # Errors
/// The first breach in the order of reading: the whole first reading, whatever the type, before the second. Or that
/// memory ran out.
pub fn read_in<'a>(
    alloc: Global,
    surroundings: Surroundings<'_>,
    form: Named,
    octets: &'a [u8],
) -> Result<Node<'a>, ReadFault>
    // The value or the breach is the one that reading comes to, and it comes to exactly one.
    ensures reads { (e : Result nodes.Node octet_breaches.Breach) → Comes (table_in surroundings.entry) (named_view form) octets.now e
        → Gives (λ m n. node_view m ≡ n) e result }
    ensures comes { (e : Result nodes.Node octet_breaches.Breach) × Comes (table_in surroundings.entry) (named_view form) octets.now e }
    // A value is spelled by the octets.
    ensures spelled { IfOk result (λ m. Spells (table_in surroundings.entry) (named_view form) octets.now (node_view m)) }
{
    match read_tlv(octets, 0) {
        Err(fault) => Err(ReadFault::Breach(Breach::Ber(fault))),
        Ok((_, next)) if next < octets.len() => Err(ReadFault::Breach(wrong_tag(next))),
        Ok(_) => read_whole(alloc, surroundings, form, octets),
    }
}

/// Octets that are one element, as a value of the type.
fn read_whole<'a>(
    alloc: Global,
    surroundings: Surroundings<'_>,
    form: Named,
    octets: &'a [u8],
) -> Result<Node<'a>, ReadFault>
    ensures { (t : trees.Tree) → trees.Lies 1 0 t octets.now
        → Gives (λ m n. node_view m ≡ n) (judged.judged (table_in surroundings.entry) (table_in surroundings.entry (named_view form)) t) result }
{
    let head = head_of(octets, 0)?;
    let (node, _) = read_element(alloc, surroundings, octets, 0, head, layout(form))?;
    Ok(node)
}

/// Reads octets as a value of a type that depends on no surroundings, as those of messages of users and between agents: the value,
/// if they are one spelling of it and nothing else.
///
/// # Errors
/// The first breach in the order of reading: the whole first reading, whatever the type, before the second. Or that
/// memory ran out.
pub fn read<'a>(alloc: Global, form: Named, octets: &'a [u8]) -> Result<Node<'a>, ReadFault>
    // The value or the breach is the one that reading comes to, and it comes to exactly one.
    ensures reads { (e : Result nodes.Node octet_breaches.Breach) → ComesTo (named_view form) octets.now e → Gives (λ m n. node_view m ≡ n) e result }
    ensures comes { (e : Result nodes.Node octet_breaches.Breach) × ComesTo (named_view form) octets.now e }
    // A value is spelled by the octets.
    ensures spelled { IfOk result (λ m. Spells table (named_view form) octets.now (node_view m)) }
{
    read_in(alloc, Surroundings::Nowhere, form, octets)
}
