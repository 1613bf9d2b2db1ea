//! Results of operations (X.511, sections 9 to 11) written straight as their canonical octets (X.690, section 10).
ghost use Rattle.std.specs.Prelude.{◌≡◌, ◌++◌, ◌∷◌, [], OnOk, map};
ghost use Rattle.x5_dapreply.specs.Found.{PutsPart, PutsTagged, form_of, qualifier, verdict};
ghost use Rattle.x5_dapreply.specs.ReplyViews.{told_answer, told_outcome, told_source};
ghost use Rattle.x5_model_messages.specs.Replies as replies;
ghost use Rattle.x5_model_messages.specs.Terms.{node_of};
ghost use Rattle.x5_model_octets.specs.Elements.{canonical_all};
ghost use Rattle.x5_model_typed.specs.Layouts.{no_qualifier};
ghost use Rattle.x5_model_typed.specs.Named as named;
ghost use Rattle.x5_model_typed.specs.Nodes as nodes;
ghost use Rattle.x5_model_typed.specs.Written as written;
ghost use Rattle.x5_ops.specs.AnswerViews.{info_view, sub_view};
ghost use Rattle.x5_types.specs.FormView.{operation_view, table};
ghost use Rattle.x5_writer.specs.Puts.{Puts};

use crate::replies::{answer_node, outcome_node};
use crate::sources::{put_source, put_source_list};
use std::alloc::Global;
use x5_direct_writer::answers::put_sub_list;
use x5_direct_writer::enclose;
use x5_direct_writer::entries::{put_info, put_info_list};
use x5_memory::NoMemory;
use x5_ops::{Answer, EntryInfo, Operation, Outcome, Source, Sub};
use x5_types::{Named, Operation as Code, Surroundings};
use x5_writer::{Backwards, WriteFault, write_node};

/// Whether the outcome is that of a list or search which explored everything.
fn is_whole(outcome: &Outcome) -> bool
    ensures { result ≡ nodes.same no_qualifier (replies.outcome_node (told_outcome outcome.now)) }
{
    !outcome.limited && outcome.unexplored.len() == 0
}

/// The partial outcome, which is left out where everything was explored.
fn put_outcome(alloc: Global, out: &mut Backwards, outcome: &Outcome) -> Result<(), WriteFault>
    ensures { Puts canonical_all (written.written_components table (qualifier ∷ []) (nodes.row (replies.outcome_node (told_outcome outcome.now) ∷ []))) out.old out.new result }
{
    if is_whole(outcome) {
        return Ok(());
    }
    let node = outcome_node(alloc, outcome)?;
    let behind = out.len();
    write_node(alloc, out, Surroundings::Nowhere, Named::Qualifier, &node)?;
    enclose(out, 2, 2, behind)?;
    Ok(())
}

/// Where the entries are from, in their tag.
fn put_sources(alloc: Global, out: &mut Backwards, sources: &[Source]) -> Result<(), WriteFault>
    ensures { PutsTagged 1 named.Sources (node_of (map replies.source_node (map told_source sources.now))) out.old out.new result }
{
    let behind = out.len();
    put_source_list(alloc, out, sources)?;
    enclose(out, 2, 1, behind)?;
    Ok(())
}

/// Where the entry is from, in that tag.
fn put_tagged_source(
    alloc: Global,
    out: &mut Backwards,
    tag: u32,
    source: &Source,
) -> Result<(), WriteFault>
    ensures { PutsTagged tag named.Source (replies.source_node (told_source source.now)) out.old out.new result }
{
    let behind = out.len();
    put_source(alloc, out, source)?;
    enclose(out, 2, tag, behind)?;
    Ok(())
}

/// The entry, in its tag.
fn put_entry(alloc: Global, out: &mut Backwards, entry: &EntryInfo) -> Result<(), WriteFault>
    ensures { PutsTagged 0 named.EntryInfo (replies.info_node (info_view entry.now)) out.old out.new result }
{
    let behind = out.len();
    put_info(alloc, out, entry)?;
    enclose(out, 2, 0, behind)?;
    Ok(())
}

/// The entries, in their tag.
fn put_entries(alloc: Global, out: &mut Backwards, entries: &[EntryInfo]) -> Result<(), WriteFault>
    ensures { PutsTagged 0 named.EntryInfos (node_of (map replies.info_node (map info_view entries.now))) out.old out.new result }
{
    let behind = out.len();
    put_info_list(alloc, out, entries)?;
    enclose(out, 2, 0, behind)?;
    Ok(())
}

/// The entries below, in their tag.
fn put_subs(alloc: Global, out: &mut Backwards, subs: &[Sub]) -> Result<(), WriteFault>
    ensures { PutsTagged 0 named.Subs (node_of (map replies.sub_node (map sub_view subs.now))) out.old out.new result }
{
    let behind = out.len();
    put_sub_list(alloc, out, subs)?;
    enclose(out, 2, 0, behind)?;
    Ok(())
}

/// What a read found: the entry, and where from.
fn put_read(
    alloc: Global,
    out: &mut Backwards,
    entry: &EntryInfo,
    source: &Source,
) -> Result<(), WriteFault>
    ensures { PutsPart (named.Outcome named.Read) (node_of (replies.info_node (info_view entry.now) ∷ replies.source_node (told_source source.now) ∷ [])) out.old out.new result }
{
    let behind = out.len();
    put_tagged_source(alloc, out, 1, source)?;
    put_entry(alloc, out, entry)?;
    enclose(out, 0, 17, behind)?;
    Ok(())
}

/// Whether the entry has the value, and that it comes from a shadow where it does.
fn put_verdict(out: &mut Backwards, matched: bool, copy: bool) -> Result<(), NoMemory>
    ensures { OnOk result (out.new ≡ verdict matched copy ++ out.old) }
{
    if copy {
        out.put_all(&[161, 3, 1, 1, 0])?;
    }
    if matched {
        out.put_all(&[160, 3, 1, 1, 255])
    } else {
        out.put_all(&[160, 3, 1, 1, 0])
    }
}

/// What a compare found: whether the entry has the value, and where from.
fn put_compared(
    alloc: Global,
    out: &mut Backwards,
    matched: bool,
    copy: bool,
    source: &Source,
) -> Result<(), WriteFault>
    ensures { PutsPart (named.Outcome named.Compare) (replies.answer_node (replies.Match matched copy (told_source source.now))) out.old out.new result }
{
    let behind = out.len();
    put_tagged_source(alloc, out, 2, source)?;
    put_verdict(out, matched, copy)?;
    enclose(out, 0, 17, behind)?;
    Ok(())
}

/// What a list found: entries below, where from, and the outcome.
fn put_listed(
    alloc: Global,
    out: &mut Backwards,
    subs: &[Sub],
    sources: &[Source],
    outcome: &Outcome,
) -> Result<(), WriteFault>
    ensures { PutsPart (named.Outcome named.ListBelow) (replies.answer_node (replies.Listed (map sub_view subs.now) (map told_source sources.now) (told_outcome outcome.now))) out.old out.new result }
{
    let behind = out.len();
    put_outcome(alloc, out, outcome)?;
    put_sources(alloc, out, sources)?;
    put_subs(alloc, out, subs)?;
    enclose(out, 0, 17, behind)?;
    Ok(())
}

/// What a search found: entries, where from, and the outcome.
fn put_found(
    alloc: Global,
    out: &mut Backwards,
    entries: &[EntryInfo],
    sources: &[Source],
    outcome: &Outcome,
) -> Result<(), WriteFault>
    ensures { PutsPart (named.Outcome named.Search) (replies.answer_node (replies.Found (map info_view entries.now) (map told_source sources.now) (told_outcome outcome.now))) out.old out.new result }
{
    let behind = out.len();
    put_outcome(alloc, out, outcome)?;
    put_sources(alloc, out, sources)?;
    put_entries(alloc, out, entries)?;
    enclose(out, 0, 17, behind)?;
    Ok(())
}

/// That an update is done: NULL.
fn put_changed(out: &mut Backwards) -> Result<(), WriteFault>
    ensures { PutsPart named.Null nodes.Vacant out.old out.new result }
{
    out.put_all(&[5, 0])?;
    Ok(())
}

/// The operation, as the table of types has it.
fn form_of_operation(operation: Operation) -> Code
    ensures { operation_view result ≡ form_of operation }
{
    match operation {
        Operation::Read => Code::Read,
        Operation::Compare => Code::Compare,
        Operation::List => Code::ListBelow,
        Operation::Search => Code::Search,
        Operation::AddEntry => Code::AddEntry,
        Operation::RemoveEntry => Code::RemoveEntry,
        Operation::ModifyEntry => Code::ModifyEntry,
        Operation::ModifyDn => Code::ModifyDn,
    }
}

/// A result of whatever operation, by the writer over the table of types.
fn put_other(
    alloc: Global,
    out: &mut Backwards,
    operation: Operation,
    answer: &Answer,
) -> Result<(), WriteFault>
    ensures { PutsPart (named.Outcome (form_of operation)) (replies.answer_node (told_answer answer.now)) out.old out.new result }
{
    let node = answer_node(alloc, answer)?;
    let form = Named::Outcome(form_of_operation(operation));
    write_node(alloc, out, Surroundings::Nowhere, form, &node)
}

/// A result of the operation.
pub(crate) fn put_answer(
    alloc: Global,
    out: &mut Backwards,
    operation: Operation,
    answer: &Answer,
) -> Result<(), WriteFault>
    ensures { PutsPart (named.Outcome (form_of operation)) (replies.answer_node (told_answer answer.now)) out.old out.new result }
{
    match operation {
        Operation::Read => match answer {
            Answer::Entry { entry, source } => put_read(alloc, out, entry, source),
            _ => put_other(alloc, out, operation, answer),
        },
        Operation::Compare => match answer {
            Answer::Match {
                matched,
                copy,
                source,
            } => put_compared(alloc, out, *matched, *copy, source),
            _ => put_other(alloc, out, operation, answer),
        },
        Operation::List => match answer {
            Answer::Listed {
                subs,
                sources,
                outcome,
            } => put_listed(alloc, out, subs.as_slice(), sources.as_slice(), outcome),
            _ => put_other(alloc, out, operation, answer),
        },
        Operation::Search => match answer {
            Answer::Found {
                entries,
                sources,
                outcome,
            } => put_found(alloc, out, entries.as_slice(), sources.as_slice(), outcome),
            _ => put_other(alloc, out, operation, answer),
        },
        Operation::AddEntry
        | Operation::RemoveEntry
        | Operation::ModifyEntry
        | Operation::ModifyDn => match answer {
            Answer::Changed => put_changed(out),
            _ => put_other(alloc, out, operation, answer),
        },
    }
}
