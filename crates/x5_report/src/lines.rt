//! Lines of messages and of what answers name, each agent by its name.

ghost use Rattle.std.specs.Prelude.{◌≡◌, ◌++◌, ◌∷◌, [], codes, flat_map, map, IfOk, OnOk, string_bytes};
ghost use Rattle.std.specs.List.{concat, join_with_byte};
ghost use Rattle.std.specs.Fmt.{decimal};
ghost use Rattle.x5_model_output.specs.Output as print;
ghost use Rattle.x5_model_text.specs.NameText.{text_of_rdn};
ghost use Rattle.x5_ops.specs.ReferenceViews.{progress_view};
ghost use Rattle.x5_model.specs.Words.{sorted};
ghost use Rattle.x5_report.specs.Order as order;
ghost use Rattle.x5_report.specs.Spelled as spelled;

use crate::order::sorted_rdns;
use crate::targets::{Target, with_text};
use crate::words::{fate_word, kind_word, operation_word, shadow_operation, tried_mark, wide_mark};
use std::alloc::{AllocError, Global};
use x5_memory::NoMemory;
use x5_names::{KeyRdn, Name, Rdn};
use x5_ops::{AccessPoint, AgentName, Fate, Line, Progress, Reference, TraceItem};

/// The sender of a message.
fn sender(from: &Option<AgentName>) -> &str
    ensures { result.now ≡ spelled.sender_text from.now }
{
    match from {
        None => "user",
        Some(agent) => agent.as_str(),
    }
}

/// A name of which all RDNs before the next are resolved.
fn next_text(alloc: Global, next: u8) -> Result<String, AllocError>
    ensures { IfOk result (λ text. string_bytes text ≡ concat (codes "next=" ∷ decimal next ∷ [])) }
{
    format!(in alloc; "next={next}")
}

/// How far a name is resolved.
pub(crate) fn progress(alloc: Global, progress: Progress) -> Result<String, AllocError>
    ensures { IfOk result (λ text. string_bytes text ≡ print.progress_text (progress_view progress)) }
{
    match progress {
        Progress::NotStarted => String::from_str(alloc, "start"),
        Progress::Proceeding(next) => next_text(alloc, next),
        Progress::Completed => String::from_str(alloc, "done"),
    }
}

/// From whom, to whom, and what for.
fn head(
    alloc: Global,
    from: &str,
    to: &str,
    operation: &str,
    progress: &str,
) -> Result<String, AllocError>
    ensures { IfOk result (λ text. string_bytes text ≡ concat (codes "msg " ∷ from.now ∷ codes " " ∷ to.now ∷ codes " " ∷ operation.now ∷ codes " " ∷ progress.now ∷ [])) }
{
    format!(in alloc; "msg {from} {to} {operation} {progress}")
}

/// How deep, for which name, and what became of it.
fn tail(alloc: Global, t: u32, target: &str, fate: &str) -> Result<String, AllocError>
    ensures { IfOk result (λ text. string_bytes text ≡ concat (codes " t=" ∷ decimal t ∷ codes " " ∷ target.now ∷ codes " " ∷ fate.now ∷ codes "\n" ∷ [])) }
{
    format!(in alloc; " t={t} {target} {fate}\n")
}

/// The line of a message of a request, by its words and the text of its name.
fn message_line(
    alloc: Global,
    from: &str,
    to: &str,
    operation: &str,
    resolved: Progress,
    t: u32,
    target: &str,
    fate: &str,
) -> Result<String, NoMemory>
    ensures { IfOk result (λ text. string_bytes text ≡ concat (codes "msg " ∷ from.now ∷ codes " " ∷ to.now ∷ codes " " ∷ operation.now ∷ codes " " ∷ print.progress_text (progress_view resolved) ∷ []) ++ concat (codes " t=" ∷ decimal t ∷ codes " " ∷ target.now ∷ codes " " ∷ fate.now ∷ codes "\n" ∷ [])) }
{
    let resolved = progress(alloc, resolved)?;
    let mut text = head(alloc, from, to, operation, resolved.as_str())?;
    let tail = tail(alloc, t, target, fate)?;
    text.push_str(tail.as_str())?;
    Ok(text)
}

/// The line of a message of a request; nothing of another. It takes the text of the last message's name where that's its own.
fn message(alloc: Global, last: &mut Option<Target>, line: &Line) -> Result<String, NoMemory>
    ensures { IfOk result (λ text. string_bytes text ≡ spelled.message_text line.now) }
{
    match line {
        Line::Msg {
            from,
            to,
            operation,
            progress: resolved,
            t,
            target: name,
            fate,
        } => {
            let from = sender(from);
            let to = to.as_str();
            let operation = operation_word(*operation);
            let target = with_text(alloc, last.take(), name)?;
            let fate = fate_word(*fate);
            let line = message_line(
                alloc,
                from,
                to,
                operation,
                *resolved,
                *t,
                target.text(),
                fate,
            );
            *last = Some(target);
            line
        }
        Line::Dis { .. } | Line::Raw { .. } => Ok(String::new(alloc)),
    }
}

/// The line of a message of a refresh; nothing of another.
fn shadow(alloc: Global, line: &Line) -> Result<String, NoMemory>
    ensures { IfOk result (λ text. string_bytes text ≡ spelled.shadow_text line.now) }
{
    match line {
        Line::Dis {
            from,
            to,
            operation,
            agreement,
            fate,
        } => {
            let from = from.as_str();
            let to = to.as_str();
            let operation = shadow_operation(*operation);
            let fate = fate_word(*fate);
            Ok(format!(in alloc; "dis {from} {to} {operation} {agreement} {fate}\n")?)
        }
        Line::Msg { .. } | Line::Raw { .. } => Ok(String::new(alloc)),
    }
}

/// The messages of a request.
pub(crate) fn messages(alloc: Global, lines: &[Line]) -> Result<String, NoMemory>
    ensures { IfOk result (λ text. string_bytes text ≡ flat_map spelled.message_text lines.now) }
{
    let mut text = String::new(alloc);
    let mut last = None;
    for line in lines {
        let message = message(alloc, &mut last, line)?;
        text.push_str(message.as_str())?;
    }
    Ok(text)
}

/// The messages of a refresh.
pub(crate) fn shadows(alloc: Global, lines: &[Line]) -> Result<String, NoMemory>
    ensures { IfOk result (λ text. string_bytes text ≡ flat_map spelled.shadow_text lines.now) }
{
    let mut text = String::new(alloc);
    for line in lines {
        let message = shadow(alloc, line)?;
        text.push_str(message.as_str())?;
    }
    Ok(text)
}

/// The agents that accepted an update.
pub(crate) fn accepted(alloc: Global, agents: &[AgentName]) -> Result<String, NoMemory>
    ensures { IfOk result (λ text. string_bytes text ≡ flat_map spelled.accepted_text agents.now) }
{
    let mut text = String::new(alloc);
    for agent in agents {
        let agent = agent.as_str();
        let line = format!(in alloc; "accepted {agent}\n")?;
        text.push_str(line.as_str())?;
    }
    Ok(text)
}

/// The texts with commas between them.
fn with_commas(alloc: Global, texts: &[String]) -> Result<String, AllocError>
    ensures { IfOk result (λ text. string_bytes text ≡ join_with_byte print.comma (map string_bytes texts.now)) }
{
    texts.join(alloc, ",")
}

/// The names of the agents of a reference.
fn agent_texts(alloc: Global, agents: &[AccessPoint]) -> Result<Vec<String>, NoMemory>
    ensures { IfOk result (λ texts. map string_bytes texts.items ≡ map spelled.access_text agents.now) }
{
    let mut texts = Vec::new(alloc);
    for access in agents {
        texts.push(String::from_str(alloc, access.agent.as_str())?)?;
    }
    Ok(texts)
}

/// The agents of a reference.
fn agents(alloc: Global, agents: &[AccessPoint]) -> Result<String, NoMemory>
    ensures { IfOk result (λ text. string_bytes text ≡ spelled.agents_text agents.now) }
{
    let texts = agent_texts(alloc, agents)?;
    Ok(with_commas(alloc, texts.as_slice())?)
}

/// The texts of RDNs, which stand behind their keys.
fn rdn_texts(alloc: Global, rdns: &[(KeyRdn, Rdn)]) -> Result<Vec<String>, NoMemory>
    ensures { IfOk result (λ texts. map string_bytes texts.items ≡ map order.keyed_text rdns.now) }
{
    let mut texts = Vec::new(alloc);
    for rdn in rdns {
        texts.push(rdn.1.text(alloc)?.into_string())?;
    }
    Ok(texts)
}

/// RDNs in the order of their keys, with commas between them.
fn rdns(alloc: Global, rdns: &[Rdn]) -> Result<String, NoMemory>
    ensures { IfOk result (λ text. string_bytes text ≡ join_with_byte print.comma (map text_of_rdn (sorted print.rdn_below rdns.now))) }
{
    let ordered = sorted_rdns(alloc, rdns)?;
    let texts = rdn_texts(alloc, ordered.as_slice())?;
    Ok(with_commas(alloc, texts.as_slice())?)
}

/// What a reference leaves out.
fn exclusions(alloc: Global, excluded: &[Rdn]) -> Result<String, NoMemory>
    ensures { IfOk result (λ text. string_bytes text ≡ print.exclusions_text excluded.now) }
{
    if excluded.is_empty() {
        return Ok(String::new(alloc));
    }
    let rdns = rdns(alloc, excluded)?;
    Ok(format!(in alloc; " less {rdns}")?)
}

/// A reference.
pub(crate) fn reference(alloc: Global, reference: &Reference) -> Result<String, NoMemory>
    ensures { IfOk result (λ text. string_bytes text ≡ spelled.reference_text reference.now) }
{
    let kind = kind_word(reference.kind);
    let target = reference.target.text(alloc)?;
    let target = target.as_str();
    let progress = progress(alloc, reference.progress)?;
    let agents = agents(alloc, reference.agents.as_slice())?;
    let exclusions = exclusions(alloc, reference.exclusions.as_slice())?;
    let tried = tried_mark(reference.tried);
    Ok(format!(in alloc; "{kind} {target} {progress} {agents}{exclusions}{tried}")?)
}

/// The item of a message that came back.
pub(crate) fn item(alloc: Global, item: &TraceItem) -> Result<String, NoMemory>
    ensures { IfOk result (λ text. string_bytes text ≡ spelled.item_text item.now) }
{
    let agent = item.agent.as_str();
    let progress = progress(alloc, item.progress)?;
    let target = item.target.text(alloc)?;
    let target = target.as_str();
    let wide = wide_mark(item.wide);
    Ok(format!(in alloc; " {agent} {progress} {target}{wide}")?)
}
