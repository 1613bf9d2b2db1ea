//! The messages of a request, whole, and as they're printed.

ghost use Rattle.std.specs.Prelude.{◌≡◌, ◌∷◌, [], true, nat_lt, length, map, IfOk};
ghost use Rattle.std.specs.List.{list_all};
ghost use Rattle.std.specs.Option.{option_map};
ghost use Rattle.x5_model.specs.Words.{distinct, in_option, same_octets};
ghost use Rattle.x5_model_heard.specs.Told.{are_agents};
ghost use Rattle.x5_model_run.specs.Journal as model;
ghost use Rattle.x5_ops.specs.AgentNames.{agent_of};
ghost use Rattle.x5_ops.specs.JournalViews.{printed_view, messages_view};
ghost use Rattle.x5_world.specs.Answered.{is_agent, line_names_agents};
ghost use Rattle.x5_world.specs.Sent.{line_view, is_counted};

use std::alloc::Global;
use x5_know::AgentNames;
use x5_memory::NoMemory;
use x5_ops::{AgentId, AgentName, Chained, Fate, Journal, Line, LineList, Listed};

/// A message that was sent: its number among all of the run, from 1, its sender, None for the user, its receiver, what was carried,
/// and what became of it.
#[derive(Drop)]
pub struct Sent {
    pub number: u64,
    pub from: Option<AgentId>,
    pub to: AgentId,
    pub message: Chained,
    pub fate: Fate,
}

/// The sender's name; the user has none.
fn sender(names: &AgentNames, from: Option<AgentId>) -> Result<Option<AgentName>, NoMemory>
    requires there { in_option true (λ a. nat_lt a (length names.now)) from ≡ true }
    requires apart { distinct same_octets names.now ≡ true }
    ensures view { IfOk result (λ name. option_map (agent_of names.now) name ≡ from) }
    ensures named { IfOk result (λ name. in_option true (is_agent names.now) name ≡ true) }
{
    match from {
        None => Ok(None),
        Some(agent) => Ok(Some(names.name(agent).clone()?)),
    }
}

/// A message as it's printed.
fn line(names: &AgentNames, sent: &Sent) -> Result<Line, NoMemory>
    requires apart { distinct same_octets names.now ≡ true }
    requires counted { is_counted names.now sent.now ≡ true }
    ensures printed { IfOk result (λ line. printed_view names.now line ≡ model.printed_line (line_view names.now sent.now) ∷ []) }
    ensures named { IfOk result (λ line. line_names_agents names.now line ≡ true) }
{
    Ok(Line::Msg {
        from: sender(names, sent.from)?,
        to: names.name(sent.to).clone()?,
        operation: sent.message.request.body.operation(),
        progress: sent.message.progress,
        t: sent.message.trace.len() as u32,
        target: sent.message.target.clone()?,
        fate: sent.fate,
    })
}

/// The messages as they're printed, in the order in which they were sent.
pub(crate) fn lines(alloc: Global, names: &AgentNames, sent: &[Sent]) -> Result<LineList, NoMemory>
    requires apart { distinct same_octets names.now ≡ true }
    requires counted { list_all (is_counted names.now) sent.now ≡ true }
    ensures printed { IfOk result (λ lines. messages_view names.now lines ≡ map (λ l. model.printed_line (line_view names.now l)) sent.now) }
    ensures named { IfOk result (λ lines. list_all (line_names_agents names.now) lines ≡ true) }
{
    let mut lines = Listed::new(alloc);
    for message in sent {
        lines.push(line(names, message)?)?;
    }
    Ok(lines)
}

/// The names of the agents that accepted an update, in their order.
fn accepted_names(
    alloc: Global,
    names: &AgentNames,
    accepted: &[AgentId],
) -> Result<Listed<AgentName>, NoMemory>
    requires apart { distinct same_octets names.now ≡ true }
    requires there { are_agents (length names.now) accepted.now ≡ true }
    ensures view { IfOk result (λ list. map (agent_of names.now) list ≡ accepted.now) }
    ensures named { IfOk result (λ list. list_all (is_agent names.now) list ≡ true) }
{
    let mut list = Listed::new(alloc);
    for agent in accepted {
        list.push(names.name(*agent).clone()?)?;
    }
    Ok(list)
}

/// A journal of these messages, and of the agents that accepted the update.
pub(crate) fn journal(
    alloc: Global,
    names: &AgentNames,
    lines: LineList,
    accepted: &[AgentId],
) -> Result<Journal, NoMemory>
    requires apart { distinct same_octets names.now ≡ true }
    requires there { are_agents (length names.now) accepted.now ≡ true }
    ensures lines { IfOk result (λ journal. journal.lines ≡ lines) }
    ensures accepted { IfOk result (λ journal. map (agent_of names.now) journal.accepted ≡ accepted.now) }
    ensures named { IfOk result (λ journal. list_all (is_agent names.now) journal.accepted ≡ true) }
{
    Ok(Journal {
        lines,
        accepted: accepted_names(alloc, names, accepted)?,
    })
}
