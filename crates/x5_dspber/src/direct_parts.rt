//! Parts of messages between agents (X.518, section 10), read straight from octets in their usual spelling.
ghost use Rattle.std.specs.Prelude.{◌≡◌, ◌<◌, ◌≤◌, ◌%◌, ◌∷◌, ◌++◌, [], IfOk, IfSome, OnOk, drop, false, if◌then◌else◌, length, map, true};
ghost use Rattle.x5_dapreply.specs.ReplyViews.{told_item};
ghost use Rattle.x5_direct.specs.Spelled.{ReadEach, Reads, Spelled};
ghost use Rattle.x5_dspber.specs.Direct.{IsWide, ReadLast, items_of};
ghost use Rattle.x5_model.specs.Words.{distinct};
ghost use Rattle.x5_model_messages.specs.Replies as replies;
ghost use Rattle.x5_model_messages.specs.Terms as terms;
ghost use Rattle.x5_model_typed.specs.Layouts as layouts;
ghost use Rattle.x5_model_typed.specs.Leaves as leaves;
ghost use Rattle.x5_model_typed.specs.Named as named;
ghost use Rattle.x5_model_typed.specs.Nodes as nodes;
ghost use Rattle.x5_trace.specs.Items.{same_named};

use std::alloc::Global;
use x5_dapreply::direct_parts::{progress_at, rdns_if};
use x5_direct::Unread;
use x5_direct::element::{opened, whole};
use x5_direct::names::name_like;
use x5_names::Name;
use x5_ops::{AgentName, RdnList, Trace, TraceItem};
use x5_syntax::Text;
use x5_trace::{MOST_ITEMS, push, repeats};
use x5_types::{Letters, Surroundings, is_text};

/// The octets as a text, if they may be the name of an agent.
fn agent_text(octets: &[u8]) -> Option<&str>
    ensures { IfSome result (λ t. (t.now ≡ octets.now)
        × ((if leaves.is_agent_name octets.now then layouts.any_agent octets.now else false) ≡ true)) }
{
    if !is_text(Surroundings::Nowhere, Letters::Agent, octets) {
        return None;
    }
    std::str::from_utf8(octets).ok()
}

/// The name of an agent that the octets begin with, and the octets behind it.
fn agent_at(octets: &[u8]) -> Result<(&str, &[u8]), Unread>
    ensures is { IfOk result (λ r. Spelled 0 named.AgentName (nodes.Text r.0.now) octets.now r.1.now) }
    ensures less { IfOk result (λ r. length r.1.now < length octets.now) }
{
    let (content, rest) = opened(0x13, octets)?;
    let Some(text) = agent_text(content) else {
        return Err(Unread::Unusual);
    };
    Ok((text, rest))
}

/// The mark that all of the octets say, of a message of the type nonSpecific: true, or missing.
fn wide_in(octets: &[u8]) -> Option<bool>
    ensures { IfSome result (λ w. IsWide w octets.now) }
{
    if octets.is_empty() {
        return Some(false);
    }
    let [identifier, length, mark, rest @ ..] = octets else {
        return None;
    };
    if *identifier != 1 || *length != 1 || *mark != 0xFF || !rest.is_empty() {
        return None;
    }
    Some(true)
}

/// The item of trace information that the octets begin with, and how many octets it takes.
fn item_at(
    alloc: Global,
    known: &Name,
    spelled: &[u8],
    octets: &[u8],
) -> Result<(TraceItem, usize), Unread>
    requires { Reads 3 named.Name terms.name_of known.now spelled.now [] }
    ensures reads { IfOk result (λ r. Reads 4 named.TraceItem replies.item_in (told_item r.0) octets.now (drop r.1 octets.now)) }
    ensures some { IfOk result (λ r. (0 < r.1) × (r.1 ≤ length octets.now)) }
{
    let (content, rest) = opened(0x30, octets)?;
    let taken = octets.len() - rest.len();
    let (agent, behind) = agent_at(content)?;
    let (target, size) = name_like(alloc, known, spelled, behind)?;
    let (progress, end) = progress_at(&behind[size..])?;
    let Some(wide) = wide_in(end) else {
        return Err(Unread::Unusual);
    };
    let item = TraceItem {
        agent: AgentName::new(Text::new(alloc, agent)?),
        target,
        progress,
        wide,
    };
    Ok((item, taken))
}

/// Adds the item as the last, if there is room and it's none of those that stand there (X.518, section 10.6).
fn add(trace: &mut Trace, item: TraceItem) -> Result<(), Unread>
    ensures added { OnOk result (trace.new ≡ trace.old ++ item ∷ []) }
    ensures few { OnOk result (length trace.new ≤ 128) }
    ensures apart { OnOk result (distinct same_named trace.old ≡ true → distinct same_named trace.new ≡ true) }
{
    if trace.len() >= MOST_ITEMS || repeats(trace, &item) {
        return Err(Unread::Unusual);
    }
    push(trace, item)?;
    Ok(())
}

/// The different items, 128 at most, that are all of the octets.
fn items_in(alloc: Global, known: &Name, spelled: &[u8], octets: &[u8]) -> Result<Trace, Unread>
    requires { Reads 3 named.Name terms.name_of known.now spelled.now [] }
    ensures each { IfOk result (λ t. ReadEach 4 named.TraceItem replies.item_in (map told_item t) octets.now) }
    ensures few { IfOk result (λ t. length t ≤ 128) }
    ensures apart { IfOk result (λ t. distinct same_named t ≡ true) }
{
    let mut trace = Trace::new(alloc);
    let mut left = octets;
    while !left.is_empty() {
        let (item, taken) = item_at(alloc, known, spelled, left)?;
        add(&mut trace, item)?;
        left = &left[taken..];
    }
    Ok(trace)
}

/// The trace information that is all of the octets; names in it are mostly the known one.
pub(crate) fn trace_in(
    alloc: Global,
    known: &Name,
    spelled: &[u8],
    octets: &[u8],
) -> Result<Trace, Unread>
    requires { Reads 3 named.Name terms.name_of known.now spelled.now [] }
    ensures { IfOk result (λ t. Reads 5 named.Trace items_of (map told_item t) octets.now []) }
{
    let content = whole(0x30, octets)?;
    let trace = items_in(alloc, known, spelled, content)?;
    Ok(trace)
}

/// The RDNs that are left out, in the last component of chaining arguments or where it's missing.
pub(crate) fn exclusions_in(alloc: Global, octets: &[u8]) -> Result<RdnList, Unread>
    ensures { IfOk result (λ l. ReadLast l octets.now) }
{
    if octets.is_empty() {
        return Ok(RdnList::new(alloc));
    }
    let content = whole(0xA4, octets)?;
    let rdns = rdns_if(alloc, true, content)?;
    Ok(rdns)
}
