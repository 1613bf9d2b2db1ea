//! What is printed of a reply.

ghost use Rattle.std.specs.Prelude.{◌≡◌, ◌++◌, ◌∷◌, [], codes, flat_map, length, IfOk, OnOk, string_bytes};
ghost use Rattle.std.specs.List.{concat};
ghost use Rattle.x5_model_output.specs.Output as print;
ghost use Rattle.x5_ops.specs.AnswerViews.{sub_view};
ghost use Rattle.x5_report.specs.Spelled as spelled;

use crate::lines::{item, reference};
use crate::order::{sorted_references, sorted_sources};
use crate::targets::{Target, name_text};
use crate::words::{
    attribute_problem, copy_mark, limit_line, service_problem, truth_word, update_problem,
};
use std::alloc::{AllocError, Global};
use x5_know::Start;
use x5_memory::NoMemory;
use x5_ops::{
    Answer, Attribute, DirError, EntryInfo, Moment, Outcome, Reference, Reply, Source, Sub,
    TraceItem,
};
use x5_syntax::Value;

/// The lines of an attribute whose type is printed as the word.
fn values(alloc: Global, kind: &str, values: &[Value]) -> Result<String, NoMemory>
    ensures { IfOk result (λ text. string_bytes text ≡ flat_map (spelled.value_text kind.now) values.now) }
{
    let mut text = String::new(alloc);
    for value in values {
        let value = value.to_text(alloc)?;
        let value = value.as_str();
        let line = format!(in alloc; "attr {kind}={value}\n")?;
        text.push_str(line.as_str())?;
    }
    Ok(text)
}

/// The lines of an attribute.
fn attribute(alloc: Global, attribute: &Attribute) -> Result<String, NoMemory>
    ensures { IfOk result (λ text. string_bytes text ≡ spelled.attribute_text attribute.now) }
{
    let kind = attribute.kind.text(alloc)?;
    values(alloc, kind.as_str(), attribute.values.as_slice())
}

/// The lines of attributes.
fn attributes(alloc: Global, attributes: &[Attribute]) -> Result<String, NoMemory>
    ensures { IfOk result (λ text. string_bytes text ≡ flat_map spelled.attribute_text attributes.now) }
{
    let mut text = String::new(alloc);
    for one in attributes {
        let lines = attribute(alloc, one)?;
        text.push_str(lines.as_str())?;
    }
    Ok(text)
}

/// The lines of an entry, the first of which ends so. What stands above is taken from the last one's name, where it's the same.
pub(crate) fn entry_with(
    alloc: Global,
    last: &mut Option<Target>,
    copy: &str,
    entry: &EntryInfo,
) -> Result<String, NoMemory>
    ensures { IfOk result (λ text. string_bytes text ≡ spelled.entry_with copy.now entry.now) }
{
    let name = name_text(alloc, last, &entry.name)?;
    let name = name.as_str();
    let mut text = format!(in alloc; "entry {name}{copy}\n")?;
    let attributes = attributes(alloc, entry.attributes.as_slice())?;
    text.push_str(attributes.as_str())?;
    Ok(text)
}

/// The lines of an entry.
fn entry(alloc: Global, last: &mut Option<Target>, entry: &EntryInfo) -> Result<String, NoMemory>
    ensures { IfOk result (λ text. string_bytes text ≡ spelled.entry_text entry.now) }
{
    entry_with(alloc, last, copy_mark(entry.copy), entry)
}

/// The lines of entries.
fn entries(alloc: Global, entries: &[EntryInfo]) -> Result<String, NoMemory>
    ensures { IfOk result (λ text. string_bytes text ≡ flat_map spelled.entry_text entries.now) }
{
    let mut text = String::new(alloc);
    let mut last = None;
    for one in entries {
        let lines = entry(alloc, &mut last, one)?;
        text.push_str(lines.as_str())?;
    }
    Ok(text)
}

/// The lines of what a list found.
fn subs(alloc: Global, subs: &[Sub]) -> Result<String, NoMemory>
    ensures { IfOk result (λ text. string_bytes text ≡ flat_map (λ s. print.sub_line (sub_view s)) subs.now) }
{
    let mut text = String::new(alloc);
    for sub in subs {
        let rdn = sub.rdn.text(alloc)?;
        let rdn = rdn.as_str();
        let copy = copy_mark(sub.copy);
        let line = format!(in alloc; "sub {rdn}{copy}\n")?;
        text.push_str(line.as_str())?;
    }
    Ok(text)
}

/// The moment of a copy, and `now` at a master.
fn held_at(alloc: Global, start: &Start, moment: &Option<Moment>) -> Result<String, NoMemory>
    ensures { IfOk result (λ text. string_bytes text ≡ spelled.held_at start.now moment.now) }
{
    match moment {
        None => Ok(String::from_str(alloc, "now")?),
        Some(moment) => Ok(start.moment_text(alloc, *moment)?.into_string()),
    }
}

/// The line of a source.
fn source(alloc: Global, start: &Start, source: &Source) -> Result<String, NoMemory>
    ensures { IfOk result (λ text. string_bytes text ≡ spelled.source_text start.now source.now) }
{
    let context = source.context.text(alloc)?;
    let context = context.as_str();
    let agent = source.agent.as_str();
    let moment = held_at(alloc, start, &source.moment)?;
    Ok(format!(in alloc; "source {context} {agent} {moment}\n")?)
}

/// The lines of sources.
fn source_lines(alloc: Global, start: &Start, sources: &[Source]) -> Result<String, NoMemory>
    ensures { IfOk result (λ text. string_bytes text ≡ flat_map (spelled.source_text start.now) sources.now) }
{
    let mut text = String::new(alloc);
    for one in sources {
        let line = source(alloc, start, one)?;
        text.push_str(line.as_str())?;
    }
    Ok(text)
}

/// The lines of sources, in their order.
fn sources(alloc: Global, start: &Start, sources: &[Source]) -> Result<String, NoMemory>
    ensures { IfOk result (λ text. string_bytes text ≡ spelled.sources_text start.now sources.now) }
{
    let ordered = sorted_sources(alloc, sources)?;
    source_lines(alloc, start, ordered.as_slice())
}

/// The line of an unexplored reference.
fn unexplored_line(alloc: Global, unexplored: &Reference) -> Result<String, NoMemory>
    ensures { IfOk result (λ text. string_bytes text ≡ spelled.unexplored_text unexplored.now) }
{
    let reference = reference(alloc, unexplored)?;
    Ok(format!(in alloc; "unexplored {reference}\n")?)
}

/// The lines of unexplored references.
fn unexplored_lines(alloc: Global, references: &[Reference]) -> Result<String, NoMemory>
    ensures { IfOk result (λ text. string_bytes text ≡ flat_map spelled.unexplored_text references.now) }
{
    let mut text = String::new(alloc);
    for one in references {
        let line = unexplored_line(alloc, one)?;
        text.push_str(line.as_str())?;
    }
    Ok(text)
}

/// The lines of unexplored references, in their order.
fn unexplored(alloc: Global, references: &[Reference]) -> Result<String, NoMemory>
    ensures { IfOk result (λ text. string_bytes text ≡ spelled.unexplored_texts references.now) }
{
    let ordered = sorted_references(alloc, references)?;
    unexplored_lines(alloc, ordered.as_slice())
}

/// What ends a list or a search.
pub(crate) fn outcome(
    alloc: Global,
    start: &Start,
    from: &[Source],
    outcome: &Outcome,
) -> Result<String, NoMemory>
    ensures { IfOk result (λ text. string_bytes text ≡ spelled.outcome_text start.now from.now outcome.now) }
{
    let sources = sources(alloc, start, from)?;
    let unexplored = unexplored(alloc, outcome.unexplored.as_slice())?;
    let limit = limit_line(outcome.limited);
    Ok(format!(in alloc; "{sources}{unexplored}{limit}")?)
}

/// What is printed of the answer to a read.
fn read(alloc: Global, start: &Start, found: &EntryInfo, from: &Source) -> Result<String, NoMemory>
    ensures { IfOk result (λ text. string_bytes text ≡ spelled.entry_text found.now ++ spelled.source_text start.now from.now) }
{
    let mut text = entry(alloc, &mut None, found)?;
    let source = source(alloc, start, from)?;
    text.push_str(source.as_str())?;
    Ok(text)
}

/// What is printed of the answer to a compare.
fn matched(
    alloc: Global,
    start: &Start,
    equal: bool,
    copy: bool,
    from: &Source,
) -> Result<String, NoMemory>
    ensures { IfOk result (λ text. string_bytes text ≡ print.match_line equal copy ++ spelled.source_text start.now from.now) }
{
    let equal = truth_word(equal);
    let copy = copy_mark(copy);
    let mut text = format!(in alloc; "match {equal}{copy}\n")?;
    let source = source(alloc, start, from)?;
    text.push_str(source.as_str())?;
    Ok(text)
}

/// What is printed of the answer to a list.
fn listed(
    alloc: Global,
    start: &Start,
    found: &[Sub],
    from: &[Source],
    ended: &Outcome,
) -> Result<String, NoMemory>
    ensures { IfOk result (λ text. string_bytes text ≡ concat (print.count_line (codes "listed") (length found.now) ∷ flat_map (λ s. print.sub_line (sub_view s)) found.now ∷ spelled.outcome_text start.now from.now ended.now ∷ [])) }
{
    let count = found.len();
    let subs = subs(alloc, found)?;
    let outcome = outcome(alloc, start, from, ended)?;
    Ok(format!(in alloc; "listed {count}\n{subs}{outcome}")?)
}

/// What is printed of the answer to a search.
fn found(
    alloc: Global,
    start: &Start,
    found: &[EntryInfo],
    from: &[Source],
    ended: &Outcome,
) -> Result<String, NoMemory>
    ensures { IfOk result (λ text. string_bytes text ≡ concat (print.count_line (codes "found") (length found.now) ∷ flat_map spelled.entry_text found.now ∷ spelled.outcome_text start.now from.now ended.now ∷ [])) }
{
    let count = found.len();
    let entries = entries(alloc, found)?;
    let outcome = outcome(alloc, start, from, ended)?;
    Ok(format!(in alloc; "found {count}\n{entries}{outcome}")?)
}

/// What is printed of an answer.
fn answer(alloc: Global, start: &Start, answer: &Answer) -> Result<String, NoMemory>
    ensures { IfOk result (λ text. string_bytes text ≡ spelled.answer_text start.now answer.now) }
{
    match answer {
        Answer::Entry { entry, source } => read(alloc, start, entry, source),
        Answer::Match {
            matched: equal,
            copy,
            source,
        } => matched(alloc, start, *equal, *copy, source),
        Answer::Listed {
            subs,
            sources,
            outcome,
        } => listed(alloc, start, subs.as_slice(), sources.as_slice(), outcome),
        Answer::Found {
            entries,
            sources,
            outcome,
        } => found(
            alloc,
            start,
            entries.as_slice(),
            sources.as_slice(),
            outcome,
        ),
        Answer::Changed => Ok(String::from_str(alloc, "changed\n")?),
    }
}

/// The reference that an error names, after a space.
fn reference_after(alloc: Global, named: &Option<Reference>) -> Result<String, NoMemory>
    ensures { IfOk result (λ text. string_bytes text ≡ spelled.reference_after named.now) }
{
    match named {
        None => Ok(String::new(alloc)),
        Some(named) => {
            let reference = reference(alloc, named)?;
            Ok(format!(in alloc; " {reference}")?)
        }
    }
}

/// The item that an error names, after a space.
fn item_after(alloc: Global, named: &Option<TraceItem>) -> Result<String, NoMemory>
    ensures { IfOk result (λ text. string_bytes text ≡ spelled.item_after named.now) }
{
    match named {
        None => Ok(String::new(alloc)),
        Some(named) => item(alloc, named),
    }
}

/// The line of a service error, by the word of its problem.
fn service_error(
    alloc: Global,
    problem: &str,
    reference: &Option<Reference>,
    item: &Option<TraceItem>,
) -> Result<String, NoMemory>
    ensures { IfOk result (λ text. string_bytes text ≡ concat (codes "error service " ∷ problem.now ∷ spelled.reference_after reference.now ∷ spelled.item_after item.now ∷ codes "\n" ∷ [])) }
{
    let reference = reference_after(alloc, reference)?;
    let item = item_after(alloc, item)?;
    Ok(format!(in alloc; "error service {problem}{reference}{item}\n")?)
}

/// The line of an error.
pub(crate) fn error(alloc: Global, error: &DirError) -> Result<String, NoMemory>
    ensures { IfOk result (λ text. string_bytes text ≡ spelled.error_text error.now) }
{
    match error {
        DirError::Name { matched } => {
            let matched = matched.text(alloc)?;
            let matched = matched.as_str();
            Ok(format!(in alloc; "error name noSuchObject {matched}\n")?)
        }
        DirError::Attribute { problem, kind } => {
            let problem = attribute_problem(*problem);
            let kind = kind.text(alloc)?;
            let kind = kind.as_str();
            Ok(format!(in alloc; "error attribute {problem} {kind}\n")?)
        }
        DirError::Update { problem } => {
            let problem = update_problem(*problem);
            Ok(format!(in alloc; "error update {problem}\n")?)
        }
        DirError::Service {
            problem,
            reference,
            item,
        } => {
            let problem = service_problem(*problem);
            service_error(alloc, problem, reference, item)
        }
    }
}

/// The line of a referral.
pub(crate) fn referral(alloc: Global, named: &Reference) -> Result<String, NoMemory>
    ensures { IfOk result (λ text. string_bytes text ≡ spelled.referral_text named.now) }
{
    let reference = reference(alloc, named)?;
    Ok(format!(in alloc; "referral {reference}\n")?)
}

/// What is printed of a reply.
pub(crate) fn reply(alloc: Global, start: &Start, reply: &Reply) -> Result<String, NoMemory>
    ensures { IfOk result (λ text. string_bytes text ≡ spelled.reply_text start.now reply.now) }
{
    match reply {
        Reply::Done(done) => answer(alloc, start, done),
        Reply::Failed(failed) => error(alloc, failed),
        Reply::Refer(named) => referral(alloc, named),
    }
}
