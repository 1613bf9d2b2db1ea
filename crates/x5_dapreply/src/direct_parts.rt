//! Parts of replies read straight from octets into what they say, where they're spelled as they usually are (X.511, X.518). Where
//! anything else stands there nothing is said.
ghost use Rattle.std.specs.Prelude.{◌≡◌, ◌++◌, ◌<◌, ◌≤◌, ◌%◌, ℕ, List, [], IfOk, IfSome, Some, None, length, map, pos, true, false, drop, if◌then◌else◌};
ghost use Rattle.x5_direct.specs.Spelled.{Opens, Reads, ReadEach};
ghost use Rattle.x5_model_messages.specs.Replies as replies;
ghost use Rattle.x5_model_messages.specs.Terms as terms;
ghost use Rattle.x5_model_typed.specs.Forms as forms;
ghost use Rattle.x5_model_typed.specs.Layouts as layouts;
ghost use Rattle.x5_model_typed.specs.Leaves as leaves;
ghost use Rattle.x5_model_typed.specs.Named as named;
ghost use Rattle.x5_model_typed.specs.Nodes as nodes;
ghost use Rattle.x5_model_typed.specs.Rules as rules;
ghost use Rattle.x5_ops.specs.ReferenceViews.{kind_view, progress_view};
ghost use Rattle.x5_dapreply.specs.ReplyViews.{told_access, told_item, told_outcome, told_reference, told_source};
ghost use Rattle.x5_dapreply.specs.Components.{MayOpen, MayRead, ReadsInside, ReadsLast};
ghost use Rattle.x5_dapreply.specs.Said.{accesses_in as accesses_said, limited_in, rdns_in as rdns_said, references_in as references_said, sources_in as sources_said};

use std::alloc::Global;
use x5_direct::Unread;
use x5_direct::element::{opened, whole};
use x5_direct::names::{name_at, rdns_in};
use x5_names::Name;
use x5_ops::{
    AccessList, AccessPoint, AgentName, Moment, Outcome, Progress, RdnList, RefType, Reference,
    ReferenceList, Source, SourceList, TraceItem,
};
use x5_syntax::Text;
use x5_types::{Letters, Surroundings, is_text};

/// The octets behind these ones, if the octets begin with them.
#[inline]
pub(crate) fn after<'a>(octets: &'a [u8], front: &[u8]) -> Option<&'a [u8]>
    ensures { IfSome result (λ rest. octets.entry.now ≡ front.now ++ rest.now) }
{
    match octets.strip_prefix(front) {
        Some(rest) => Some(rest),
        None => None,
    }
}

/// What stands behind so many octets.
#[inline]
pub(crate) fn behind(octets: &[u8], taken: usize) -> &[u8]
    requires { taken ≤ length octets.now }
    ensures { result.now ≡ drop taken octets.entry.now }
{
    &octets[taken..]
}

/// The content of the element that the octets begin with, if that octet identifies one, and the octets behind it.
#[inline]
pub(crate) fn maybe_opened(first: u8, octets: &[u8]) -> Result<(bool, &[u8], &[u8]), Unread>
    requires { first % 32 < 31 }
    ensures { IfOk result (λ r. MayOpen r.0 first r.1.now octets.now r.2.now) }
{
    match octets {
        [octet, ..] if *octet == first => {}
        _ => return Ok((false, octets, octets)),
    }
    let (content, rest) = opened(first, octets)?;
    Ok((true, content, rest))
}

/// The content of the one element that the octets are, if that octet identifies it and there are any.
#[inline]
pub(crate) fn last_opened(first: u8, octets: &[u8]) -> Result<(bool, &[u8]), Unread>
    requires { first % 32 < 31 }
    ensures { IfOk result (λ r. MayOpen r.0 first r.1.now octets.now []) }
{
    if octets.len() == 0 {
        return Ok((false, octets));
    }
    Ok((true, whole(first, octets)?))
}

/// The truth value that the octets are.
pub(crate) fn flag_in(octets: &[u8]) -> Result<bool, Unread>
    ensures { IfOk result (λ b. Reads 0 named.Boolean terms.flag_in b octets.now []) }
{
    let Some(rest) = after(octets, &[1, 1]) else {
        return Err(Unread::Unusual);
    };
    let [octet] = rest else {
        return Err(Unread::Unusual);
    };
    Ok(*octet != 0)
}

/// The truth value that the octets are, or else the one that stands for it.
pub(crate) fn flag_or(missing: bool, octets: &[u8]) -> Result<bool, Unread>
    ensures { IfOk result (λ b. ReadsLast 0 (forms.or (nodes.Flag missing) (forms.plain named.Boolean)) terms.flag_in b octets.now) }
{
    if octets.len() == 0 {
        return Ok(missing);
    }
    let flag = flag_in(octets)?;
    Ok(flag)
}

/// The truth value that the octets are, where there is one, or else false.
fn flag_if(there: bool, octets: &[u8]) -> Result<bool, Unread>
    ensures { IfOk result (λ b. MayRead there 0 named.Boolean terms.flag_in (nodes.Flag false) b octets.now) }
{
    if !there {
        return Ok(false);
    }
    flag_in(octets)
}

/// The number that the content of an INTEGER says, if it has one to four octets and isn't below zero.
fn number_of(content: &[u8]) -> Option<u32>
    ensures { IfSome result (λ n. leaves.number_of content.now ≡ Some (pos n)) }
{
    match content {
        [a] if *a < 128 => Some(u32::from(*a)),
        [a, b] if *a < 128 && (1 <= *a || 128 <= *b) => Some(u32::from(*a) * 256 + u32::from(*b)),
        [a, b, c] if *a < 128 && (1 <= *a || 128 <= *b) => {
            Some(u32::from(*a) * 65536 + u32::from(*b) * 256 + u32::from(*c))
        }
        [a, b, c, d] if *a < 128 && (1 <= *a || 128 <= *b) => Some(
            u32::from(*a) * 16_777_216
                + u32::from(*b) * 65536
                + u32::from(*c) * 256
                + u32::from(*d),
        ),
        _ => None,
    }
}

/// The number of 32 bits that the octets begin with, and the octets behind it.
pub(crate) fn count_at(octets: &[u8]) -> Result<(u32, &[u8]), Unread>
    ensures { IfOk result (λ r. Reads 0 (named.NumberBelow 0 4294967295) terms.number_in (Some r.0) octets.now r.1.now) }
{
    let (content, rest) = opened(0x02, octets)?;
    match number_of(content) {
        Some(number) => Ok((number, rest)),
        None => Err(Unread::Unusual),
    }
}

/// The moment that the octets are, if there are any.
fn moment_in(octets: &[u8]) -> Result<Option<Moment>, Unread>
    ensures { IfOk result (λ m. ReadsLast 0 (layouts.optional (forms.plain (named.NumberBelow 0 4294967295))) terms.number_in m octets.now) }
{
    if octets.len() == 0 {
        return Ok(None);
    }
    match number_of(whole(0x02, octets)?) {
        Some(seconds) => Ok(Some(Moment(seconds))),
        None => Err(Unread::Unusual),
    }
}

/// How far a name is resolved, as the octets that stand first say, and the octets behind them (X.518, section 10.5).
pub fn progress_at(octets: &[u8]) -> Result<(Progress, &[u8]), Unread>
    ensures { IfOk result (λ r. Reads 1 named.Progress replies.progress_in (progress_view r.0) octets.now r.1.now) }
{
    if let Some(rest) = after(octets, &[48, 3, 10, 1, 1]) {
        return Ok((Progress::NotStarted, rest));
    }
    if let Some(rest) = after(octets, &[48, 3, 10, 1, 3]) {
        return Ok((Progress::Completed, rest));
    }
    proceeding_at(octets)
}

/// The same where some RDNs are resolved.
fn proceeding_at(octets: &[u8]) -> Result<(Progress, &[u8]), Unread>
    ensures { IfOk result (λ r. Reads 1 named.Progress replies.progress_in (progress_view r.0) octets.now r.1.now) }
{
    let Some(rest) = after(octets, &[48, 6, 10, 1, 2, 2, 1]) else {
        return Err(Unread::Unusual);
    };
    match rest.split_first() {
        Some((next, rest)) if 1 <= *next && *next <= 16 => Ok((Progress::Proceeding(*next), rest)),
        _ => Err(Unread::Unusual),
    }
}

/// How far a name is resolved, as the octets say, all of them (X.518, section 10.5).
pub fn progress_in(octets: &[u8]) -> Result<Progress, Unread>
    ensures { IfOk result (λ p. Reads 1 named.Progress replies.progress_in (progress_view p) octets.now []) }
{
    let (progress, rest) = progress_at(octets)?;
    if rest.len() > 0 {
        return Err(Unread::Unusual);
    }
    Ok(progress)
}

/// The kind of reference that the octets say, all of them (X.518, section 10.7).
pub fn kind_in(octets: &[u8]) -> Result<RefType, Unread>
    ensures { IfOk result (λ k. Reads 0 named.RefType replies.kind_in (kind_view k) octets.now []) }
{
    let Some(rest) = after(octets, &[2, 1]) else {
        return Err(Unread::Unusual);
    };
    let [number] = rest else {
        return Err(Unread::Unusual);
    };
    match RefType::from_number(*number) {
        Some(kind) => Ok(kind),
        None => Err(Unread::Unusual),
    }
}

/// The agent whose name is that text.
fn agent_of(alloc: Global, text: &[u8]) -> Result<AgentName, Unread>
    ensures is { IfOk result (λ a. a ≡ text.now) }
    ensures may { IfOk result (λ a. (if leaves.is_agent_name text.now then layouts.any_agent text.now else false) ≡ true) }
{
    if !is_text(Surroundings::Nowhere, Letters::Agent, text) {
        return Err(Unread::Unusual);
    }
    match std::str::from_utf8(text) {
        Ok(text) => Ok(AgentName::new(Text::new(alloc, text)?)),
        Err(_) => Err(Unread::Unusual),
    }
}

/// The name that the octets are, all of them (X.501, section 9).
pub fn name_in(alloc: Global, octets: &[u8]) -> Result<Name, Unread>
    ensures { IfOk result (λ n. Reads 3 named.Name terms.name_of n octets.now []) }
{
    let (name, taken) = name_at(alloc, octets)?;
    if taken != octets.len() {
        return Err(Unread::Unusual);
    }
    Ok(name)
}

/// The source that the content of its element says.
pub(crate) fn source_of(alloc: Global, content: &[u8]) -> Result<Source, Unread>
    ensures { IfOk result (λ s. ReadsInside 4 named.Source 48 replies.source_in (told_source s) content.now) }
{
    let (context, taken) = name_at(alloc, content)?;
    let (text, left) = opened(0x13, behind(content, taken))?;
    let agent = agent_of(alloc, text)?;
    let moment = moment_in(left)?;
    Ok(Source {
        context,
        agent,
        moment,
    })
}

/// The sources that the octets are.
fn each_source(alloc: Global, octets: &[u8]) -> Result<Vec<Source>, Unread>
    ensures { IfOk result (λ l. ReadEach 4 named.Source replies.source_in (map told_source l.items) octets.now) }
{
    let mut sources = Vec::new(alloc);
    let mut left = octets;
    while !left.is_empty() {
        let (content, rest) = opened(0x30, left)?;
        let source = source_of(alloc, content)?;
        sources.push(source)?;
        left = rest;
    }
    Ok(sources)
}

/// The list of sources that the octets are.
pub(crate) fn sources_in(alloc: Global, octets: &[u8]) -> Result<SourceList, Unread>
    ensures { IfOk result (λ l. Reads 5 named.Sources sources_said (map told_source l) octets.now []) }
{
    let content = whole(0x30, octets)?;
    let sources = each_source(alloc, content)?;
    Ok(SourceList::from_vec(sources))
}

/// The agent of a reference that the content of its element says.
fn access_of(alloc: Global, content: &[u8]) -> Result<AccessPoint, Unread>
    ensures { IfOk result (λ a. ReadsInside 1 named.Agent 48 replies.access_in (told_access a) content.now) }
{
    let (text, left) = opened(0x13, content)?;
    let copy = flag_or(false, left)?;
    let agent = agent_of(alloc, text)?;
    Ok(AccessPoint { agent, copy })
}

/// The agents of a reference that the octets are.
fn each_access(alloc: Global, octets: &[u8]) -> Result<Vec<AccessPoint>, Unread>
    ensures { IfOk result (λ l. ReadEach 1 named.Agent replies.access_in (map told_access l.items) octets.now) }
{
    let mut agents = Vec::new(alloc);
    let mut left = octets;
    while !left.is_empty() {
        let (content, rest) = opened(0x30, left)?;
        let access = access_of(alloc, content)?;
        agents.push(access)?;
        left = rest;
    }
    Ok(agents)
}

/// The list of agents of a reference that the octets are.
fn accesses_in(alloc: Global, octets: &[u8]) -> Result<AccessList, Unread>
    ensures { IfOk result (λ l. Reads 2 named.Agents accesses_said (map told_access l) octets.now []) }
{
    let content = whole(0x30, octets)?;
    let agents = each_access(alloc, content)?;
    Ok(AccessList::from_vec(agents))
}

/// The item of trace information that the content of its element says (X.518, section 10.6).
pub fn item_of(alloc: Global, content: &[u8]) -> Result<TraceItem, Unread>
    ensures { IfOk result (λ i. ReadsInside 4 named.TraceItem 48 replies.item_in (told_item i) content.now) }
{
    let (text, left) = opened(0x13, content)?;
    let (target, taken) = name_at(alloc, left)?;
    let (progress, left) = progress_at(behind(left, taken))?;
    let wide = flag_or(false, left)?;
    let agent = agent_of(alloc, text)?;
    Ok(TraceItem {
        agent,
        target,
        progress,
        wide,
    })
}

/// The RDNs that the content of their element says.
fn rdns_of_content(alloc: Global, content: &[u8]) -> Result<RdnList, Unread>
    ensures { IfOk result (λ l. ReadsInside 3 named.Rdns 48 rdns_said l content.now) }
{
    let rdns = rdns_in(alloc, content)?;
    Ok(RdnList::from_vec(rdns))
}

/// The RDNs that the octets are, where there are any.
pub fn rdns_if(alloc: Global, there: bool, octets: &[u8]) -> Result<RdnList, Unread>
    ensures { IfOk result (λ l. MayRead there 3 named.Rdns rdns_said (nodes.Many nodes.Nil) l octets.now) }
{
    if !there {
        return Ok(RdnList::new(alloc));
    }
    let content = whole(0x30, octets)?;
    rdns_of_content(alloc, content)
}

/// The continuation reference that the content of its element says (X.518, section 10.10).
pub(crate) fn reference_of(alloc: Global, content: &[u8]) -> Result<Reference, Unread>
    ensures { IfOk result (λ r. ReadsInside 5 named.Reference 49 replies.reference_in (told_reference r) content.now) }
{
    let (target_octets, left) = opened(0xA0, content)?;
    let (progress_octets, left) = opened(0xA1, left)?;
    let (kind_octets, left) = opened(0xA2, left)?;
    let (agents_octets, left) = opened(0xA3, left)?;
    let (excludes, exclusions_octets, left) = maybe_opened(0xA4, left)?;
    let (tells, tried_octets) = last_opened(0xA5, left)?;
    let progress = progress_in(progress_octets)?;
    let kind = kind_in(kind_octets)?;
    let tried = flag_if(tells, tried_octets)?;
    let target = name_in(alloc, target_octets)?;
    let agents = accesses_in(alloc, agents_octets)?;
    let exclusions = rdns_if(alloc, excludes, exclusions_octets)?;
    Ok(Reference {
        target,
        progress,
        kind,
        agents,
        exclusions,
        tried,
    })
}

/// The references that the octets are.
fn each_reference(alloc: Global, octets: &[u8]) -> Result<Vec<Reference>, Unread>
    ensures { IfOk result (λ l. ReadEach 5 named.Reference replies.reference_in (map told_reference l.items) octets.now) }
{
    let mut references = Vec::new(alloc);
    let mut left = octets;
    while !left.is_empty() {
        let (content, rest) = opened(0x31, left)?;
        let reference = reference_of(alloc, content)?;
        references.push(reference)?;
        left = rest;
    }
    Ok(references)
}

/// The references that the octets are, where there are any.
fn references_if(alloc: Global, there: bool, octets: &[u8]) -> Result<ReferenceList, Unread>
    ensures { IfOk result (λ l. MayRead there 6 named.References references_said (nodes.Many nodes.Nil) (map told_reference l) octets.now) }
{
    if !there {
        return Ok(ReferenceList::new(alloc));
    }
    let content = whole(0x30, octets)?;
    let references = each_reference(alloc, content)?;
    Ok(ReferenceList::from_vec(references))
}

/// Whether a limit was passed, where the octets that say so are there.
fn limit_if(there: bool, octets: &[u8]) -> Result<bool, Unread>
    ensures { IfOk result (λ b. MayRead there 0 (named.NumberBelow 1 1) limited_in nodes.Vacant b octets.now) }
{
    if !there {
        return Ok(false);
    }
    let Some(rest) = after(octets, &[2, 1, 1]) else {
        return Err(Unread::Unusual);
    };
    if rest.len() > 0 {
        return Err(Unread::Unusual);
    }
    Ok(true)
}

/// The partial outcome that the content of its element says (X.511, section 10.1.3).
fn outcome_of(alloc: Global, content: &[u8]) -> Result<Outcome, Unread>
    ensures { IfOk result (λ o. ReadsInside 8 named.Qualifier 49 replies.outcome_in (told_outcome o) content.now) }
{
    let (limits, limit_octets, left) = maybe_opened(0xA0, content)?;
    let (leaves, unexplored_octets) = last_opened(0xA1, left)?;
    let limited = limit_if(limits, limit_octets)?;
    let unexplored = references_if(alloc, leaves, unexplored_octets)?;
    Ok(Outcome {
        limited,
        unexplored,
    })
}

/// The partial outcome that the octets are, where there is one, or else a whole one.
pub(crate) fn outcome_if(alloc: Global, there: bool, octets: &[u8]) -> Result<Outcome, Unread>
    ensures { IfOk result (λ o. MayRead there 8 named.Qualifier replies.outcome_in layouts.no_qualifier (told_outcome o) octets.now) }
{
    if !there {
        return Ok(Outcome {
            limited: false,
            unexplored: ReferenceList::new(alloc),
        });
    }
    let content = whole(0x31, octets)?;
    outcome_of(alloc, content)
}
