//! Replies read straight from octets into what they say, where they're spelled as they usually are (X.511, sections 9, 10 and 12):
//! what a read, a list or a search found, that an update is done, and that a name has no entry. Of any other reply, and where anything
//! is spelled otherwise, nothing is said.
ghost use Rattle.std.specs.Prelude.{◌≡◌, [], IfOk, map};
ghost use Rattle.x5_direct.specs.Spelled.{Reads, ReadEach};
ghost use Rattle.x5_model_messages.specs.Replies as replies;
ghost use Rattle.x5_model_typed.specs.Named as named;
ghost use Rattle.x5_ops.specs.AnswerViews.{info_view, sub_view};
ghost use Rattle.x5_dapreply.specs.ReplyViews.{heard, told_answer, told_source};
ghost use Rattle.x5_dapreply.specs.Results.{ReadsReply, ReadsResult};
ghost use Rattle.x5_dapreply.specs.Said.{infos_in as infos_said, subs_in as subs_said};
ghost use Rattle.x5_dapreply.specs.Components.{ReadsInside};

use crate::direct_parts::{
    after, behind, count_at, flag_or, last_opened, name_in, outcome_if, source_of, sources_in,
};
use std::alloc::Global;
use x5_direct::Unread;
use x5_direct::element::{opened, whole};
use x5_direct::infos::{info_at, infos_in};
use x5_direct::names::rdn_at;
use x5_ops::{Answer, DirError, EntryInfo, EntryList, Reply, Source, Sub, SubList};

/// What the octets show of an entry (X.511, section 7.7).
fn info_in(alloc: Global, octets: &[u8]) -> Result<EntryInfo, Unread>
    ensures { IfOk result (λ e. Reads 7 named.EntryInfo replies.info_in (info_view e) octets.now []) }
{
    let (entry, taken) = info_at(alloc, octets)?;
    if taken != octets.len() {
        return Err(Unread::Unusual);
    }
    Ok(entry)
}

/// What the octets show of entries.
fn entries_in(alloc: Global, octets: &[u8]) -> Result<EntryList, Unread>
    ensures { IfOk result (λ l. Reads 8 named.EntryInfos infos_said (map info_view l) octets.now []) }
{
    let content = whole(0x30, octets)?;
    let entries = infos_in(alloc, content)?;
    Ok(entries)
}

/// The source that the octets are.
fn source_in(alloc: Global, octets: &[u8]) -> Result<Source, Unread>
    ensures { IfOk result (λ s. Reads 4 named.Source replies.source_in (told_source s) octets.now []) }
{
    let content = whole(0x30, octets)?;
    let source = source_of(alloc, content)?;
    Ok(source)
}

/// What the content of an element says of an entry below.
fn sub_of(alloc: Global, content: &[u8]) -> Result<Sub, Unread>
    ensures { IfOk result (λ s. ReadsInside 3 named.Sub 48 replies.sub_in (sub_view s) content.now) }
{
    let (rdn, taken) = rdn_at(alloc, content)?;
    let from_entry = flag_or(true, behind(content, taken))?;
    Ok(Sub {
        rdn,
        copy: !from_entry,
    })
}

/// What the octets say of entries below.
fn each_sub(alloc: Global, octets: &[u8]) -> Result<Vec<Sub>, Unread>
    ensures { IfOk result (λ l. ReadEach 3 named.Sub replies.sub_in (map sub_view l.items) octets.now) }
{
    let mut subs = Vec::new(alloc);
    let mut left = octets;
    while !left.is_empty() {
        let (content, rest) = opened(0x30, left)?;
        let sub = sub_of(alloc, content)?;
        subs.push(sub)?;
        left = rest;
    }
    Ok(subs)
}

/// The list of entries below that the octets are.
fn subs_in(alloc: Global, octets: &[u8]) -> Result<SubList, Unread>
    ensures { IfOk result (λ l. Reads 4 named.Subs subs_said (map sub_view l) octets.now []) }
{
    let content = whole(0x30, octets)?;
    let subs = each_sub(alloc, content)?;
    Ok(SubList::from_vec(subs))
}

/// What a search found, by the content of its result.
fn found_of(alloc: Global, content: &[u8]) -> Result<Answer, Unread>
    ensures { IfOk result (λ a. ReadsInside 10 (named.Outcome named.Search) 49 (replies.answer_in 5) (told_answer a) content.now) }
{
    let (entries_octets, left) = opened(0xA0, content)?;
    let (sources_octets, left) = opened(0xA1, left)?;
    let (qualified, outcome_octets) = last_opened(0xA2, left)?;
    let sources = sources_in(alloc, sources_octets)?;
    let outcome = outcome_if(alloc, qualified, outcome_octets)?;
    let entries = entries_in(alloc, entries_octets)?;
    Ok(Answer::Found {
        entries,
        sources,
        outcome,
    })
}

/// What a list found, by the content of its result.
fn listed_of(alloc: Global, content: &[u8]) -> Result<Answer, Unread>
    ensures { IfOk result (λ a. ReadsInside 10 (named.Outcome named.ListBelow) 49 (replies.answer_in 4) (told_answer a) content.now) }
{
    let (subs_octets, left) = opened(0xA0, content)?;
    let (sources_octets, left) = opened(0xA1, left)?;
    let (qualified, outcome_octets) = last_opened(0xA2, left)?;
    let sources = sources_in(alloc, sources_octets)?;
    let outcome = outcome_if(alloc, qualified, outcome_octets)?;
    let subs = subs_in(alloc, subs_octets)?;
    Ok(Answer::Listed {
        subs,
        sources,
        outcome,
    })
}

/// What a read found, by the content of its result.
fn entry_of(alloc: Global, content: &[u8]) -> Result<Answer, Unread>
    ensures { IfOk result (λ a. ReadsInside 10 (named.Outcome named.Read) 49 (replies.answer_in 1) (told_answer a) content.now) }
{
    let (entry_octets, left) = opened(0xA0, content)?;
    let source_octets = whole(0xA1, left)?;
    let source = source_in(alloc, source_octets)?;
    let entry = info_in(alloc, entry_octets)?;
    Ok(Answer::Entry { entry, source })
}

/// That an update is done.
fn changed_in(body: &[u8]) -> Result<Answer, Unread>
    ensures { IfOk result (λ a. ReadsResult (told_answer a) body.now) }
{
    let Some(rest) = after(body, &[2, 1]) else {
        return Err(Unread::Unusual);
    };
    let [code, null, length] = rest else {
        return Err(Unread::Unusual);
    };
    if *code < 6 || 9 < *code || *null != 5 || *length != 0 {
        return Err(Unread::Unusual);
    }
    Ok(Answer::Changed)
}

/// The result of an operation behind its code.
fn answer_in(alloc: Global, body: &[u8]) -> Result<Answer, Unread>
    ensures { IfOk result (λ a. ReadsResult (told_answer a) body.now) }
{
    if let Some(rest) = after(body, &[2, 1, 5]) {
        let found = found_of(alloc, whole(0x31, rest)?)?;
        return Ok(found);
    }
    if let Some(rest) = after(body, &[2, 1, 1]) {
        let read = entry_of(alloc, whole(0x31, rest)?)?;
        return Ok(read);
    }
    if let Some(rest) = after(body, &[2, 1, 4]) {
        let listed = listed_of(alloc, whole(0x31, rest)?)?;
        return Ok(listed);
    }
    changed_in(body)
}

/// A result with the id of its request.
fn done_in(alloc: Global, octets: &[u8]) -> Result<(u32, Reply), Unread>
    ensures { IfOk result (λ p. ReadsReply (p.0, heard p.1) octets.now) }
{
    let content = whole(0xA2, octets)?;
    let (id, left) = count_at(content)?;
    let body = whole(0x30, left)?;
    let answer = answer_in(alloc, body)?;
    Ok((id, Reply::Done(answer)))
}

/// That a name has no entry, with the id of the request.
fn unmatched_in(alloc: Global, octets: &[u8]) -> Result<(u32, Reply), Unread>
    ensures { IfOk result (λ p. ReadsReply (p.0, heard p.1) octets.now) }
{
    let content = whole(0xA3, octets)?;
    let (id, left) = count_at(content)?;
    let Some(error) = after(left, &[2, 1, 2]) else {
        return Err(Unread::Unusual);
    };
    let inside = whole(0x30, error)?;
    let Some(name) = after(inside, &[2, 1, 1]) else {
        return Err(Unread::Unusual);
    };
    let matched = name_in(alloc, name)?;
    Ok((id, Reply::Failed(DirError::Name { matched })))
}

/// The id and the reply that the octets are, to a user and to an agent just so, whatever the code of its operation.
pub fn usual_reply(alloc: Global, octets: &[u8]) -> Result<(u32, Reply), Unread>
    ensures { IfOk result (λ p. ReadsReply (p.0, heard p.1) octets.now) }
{
    match octets {
        [0xA2, ..] => done_in(alloc, octets),
        [0xA3, ..] => unmatched_in(alloc, octets),
        _ => Err(Unread::Unusual),
    }
}
