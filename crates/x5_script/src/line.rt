//! A line of a script: what it asks for, or its first fault.
ghost use Rattle.std.specs.Prelude.{◌≡◌, ◌≤◌, map, length};
ghost use Rattle.x5_model_script.specs.Lines as lines;
ghost use Rattle.x5_model_script.specs.Texts as texts;
ghost use Rattle.x5_model_script.specs.Words as model;
ghost use Rattle.x5_ops.specs.RequestViews.{controls_view};
ghost use Rattle.x5_script.specs.Views.{ReadsLine, Says, Takes, command_view, left_view, word_view};

use crate::command::{Command, ScriptFault};
use crate::operations::operation;
use crate::texts::{
    agreement_of, loss_kind_of, loss_of, octets_at, or_fault, protocol_of, size_of, strategy_of,
};
use crate::tokens::{Word, Words};
use crate::words::tokens_of;
use std::alloc::Global;
use x5_know::AgentNames;
use x5_ops::{AgentId, Controls, Outage, Request};
use x5_syntax::Octets;

/// Octets of a line at most.
const MOST_LINE_OCTETS: usize = 4096;

/// The next word as an agent.
fn next_agent(words: &mut Words<'_>, agents: &AgentNames) -> Result<AgentId, ScriptFault>
    ensures { Takes (λ to. to) result words.new (lines.agent agents.now (left_view words.old)) }
{
    let word = words.next()?;
    let to = or_fault(agents.find(word.text), ScriptFault::BadName(word.column))?;
    Ok(to)
}

/// The size limit, if the next word is one.
fn size(words: &mut Words<'_>) -> Option<u32>
    ensures { lines.sized (left_view words.old) ≡ (result, left_view words.new) }
{
    let size = match words.peek() {
        Some(text) => size_of(text),
        None => None,
    };
    if size.is_some() {
        words.pass();
    }
    size
}

/// The controls of a request, in their order.
fn controls(words: &mut Words<'_>) -> Controls
    ensures { lines.controls (left_view words.old) ≡ (controls_view result, left_view words.new) }
{
    let nocopy = words.skip("nocopy");
    let nochain = words.skip("nochain");
    let size = size(words);
    Controls {
        nocopy,
        nochain,
        size,
    }
}

/// What stands behind `at`.
fn request(
    alloc: Global,
    words: &mut Words<'_>,
    agents: &AgentNames,
) -> Result<Command, ScriptFault>
    ensures { Says command_view result (lines.request agents.now (left_view words.old)) }
{
    let to = next_agent(words, agents)?;
    let controls = controls(words);
    let body = operation(alloc, words)?;
    match words.end() {
        Ok(()) => Ok(Command::Ask {
            to,
            request: Request { controls, body },
        }),
        Err(fault) => {
            drop(body);
            Err(fault)
        }
    }
}

/// One agent, and nothing behind it.
fn one_agent(words: &mut Words<'_>, agents: &AgentNames) -> Result<AgentId, ScriptFault>
    ensures { Says (λ a. a) result (lines.one_agent agents.now (left_view words.old)) }
{
    let agent = next_agent(words, agents)?;
    words.end()?;
    Ok(agent)
}

/// The next word as another agent than the first.
fn other_agent(
    first: AgentId,
    words: &mut Words<'_>,
    agents: &AgentNames,
) -> Result<AgentId, ScriptFault>
    ensures { Takes (λ b. b) result words.new (lines.other_agent first agents.now (left_view words.old)) }
{
    let word = words.next()?;
    let other = or_fault(agents.find(word.text), ScriptFault::BadName(word.column))?;
    if other.0 == first.0 {
        return Err(ScriptFault::BadWord(word.column));
    }
    Ok(other)
}

/// Two different agents, and nothing behind them.
fn two_agents(words: &mut Words<'_>, agents: &AgentNames) -> Result<(AgentId, AgentId), ScriptFault>
    ensures { Says (λ p. (p.0, p.1)) result (lines.two_agents agents.now (left_view words.old)) }
{
    let first = next_agent(words, agents)?;
    let other = other_agent(first, words, agents)?;
    words.end()?;
    Ok((first, other))
}

/// The number of an agreement.
fn next_agreement(words: &mut Words<'_>) -> Result<u32, ScriptFault>
    ensures { Takes (λ n. n) result words.new (lines.reading texts.agreement_in model.BadWord (left_view words.old)) }
{
    let word = words.next()?;
    let id = or_fault(agreement_of(word.text), ScriptFault::BadWord(word.column))?;
    Ok(id)
}

/// Whether a refresh is total.
fn next_strategy(words: &mut Words<'_>) -> Result<bool, ScriptFault>
    ensures { Takes (λ b. b) result words.new (lines.reading texts.strategy_in model.BadWord (left_view words.old)) }
{
    let word = words.next()?;
    let total = or_fault(strategy_of(word.text), ScriptFault::BadWord(word.column))?;
    Ok(total)
}

/// What stands behind `pull` or `push`.
fn refresh(push: bool, words: &mut Words<'_>) -> Result<Command, ScriptFault>
    ensures { Says command_view result (lines.refresh push (left_view words.old)) }
{
    let id = next_agreement(words)?;
    let total = next_strategy(words)?;
    words.end()?;
    Ok(Command::Refresh { id, push, total })
}

/// Whether a reply is lost.
fn next_loss_kind(words: &mut Words<'_>) -> Result<bool, ScriptFault>
    ensures { Takes (λ b. b) result words.new (lines.reading texts.loss_kind_in model.BadWord (left_view words.old)) }
{
    let word = words.next()?;
    let reply = or_fault(loss_kind_of(word.text), ScriptFault::BadWord(word.column))?;
    Ok(reply)
}

/// Which message is lost.
fn next_loss(words: &mut Words<'_>) -> Result<u32, ScriptFault>
    ensures { Takes (λ k. k) result words.new (lines.reading texts.loss_in model.BadWord (left_view words.old)) }
{
    let word = words.next()?;
    let k = or_fault(loss_of(word.text), ScriptFault::BadWord(word.column))?;
    Ok(k)
}

/// What stands behind `lose`.
fn lose(words: &mut Words<'_>) -> Result<Command, ScriptFault>
    ensures { Says command_view result (lines.lose (left_view words.old)) }
{
    let reply = next_loss_kind(words)?;
    let k = next_loss(words)?;
    words.end()?;
    Ok(Command::Lose { reply, k })
}

/// Which protocol.
fn next_protocol(words: &mut Words<'_>) -> Result<bool, ScriptFault>
    ensures { Takes (λ b. b) result words.new (lines.reading texts.protocol_in model.BadWord (left_view words.old)) }
{
    let word = words.next()?;
    let dsp = or_fault(protocol_of(word.text), ScriptFault::BadWord(word.column))?;
    Ok(dsp)
}

/// Octets in hexadecimal digits.
fn next_octets(alloc: Global, words: &mut Words<'_>) -> Result<Octets, ScriptFault>
    ensures { Takes (λ octets. octets) result words.new (lines.reading texts.octets_in model.BadHex (left_view words.old)) }
{
    let word = words.next()?;
    let octets = octets_at(alloc, word.column, word.text)?;
    Ok(octets)
}

/// What stands behind `deliver`.
fn deliver(
    alloc: Global,
    words: &mut Words<'_>,
    agents: &AgentNames,
) -> Result<Command, ScriptFault>
    ensures { Says command_view result (lines.deliver agents.now (left_view words.old)) }
{
    let dsp = next_protocol(words)?;
    let to = next_agent(words, agents)?;
    let octets = next_octets(alloc, words)?;
    words.end()?;
    Ok(Command::Deliver { dsp, to, octets })
}

/// What happens to one agent, by the word.
fn outage_by(
    word: Word<'_>,
    words: &mut Words<'_>,
    agents: &AgentNames,
) -> Result<Command, ScriptFault>
    ensures { Says command_view result (lines.outage_by agents.now (word_view word.entry) (left_view words.old)) }
{
    let outage = if word.text == "down" {
        Outage::Down(one_agent(words, agents)?)
    } else if word.text == "up" {
        Outage::Up(one_agent(words, agents)?)
    } else if word.text == "refuse" {
        Outage::Refuse(one_agent(words, agents)?)
    } else if word.text == "willing" {
        Outage::Willing(one_agent(words, agents)?)
    } else if word.text == "cut" {
        let (a, b) = two_agents(words, agents)?;
        Outage::Cut(a, b)
    } else if word.text == "join" {
        let (a, b) = two_agents(words, agents)?;
        Outage::Join(a, b)
    } else {
        return Err(ScriptFault::BadWord(word.column));
    };
    Ok(Command::Outage(outage))
}

/// The command of the kind that the word tells.
fn command_by(
    alloc: Global,
    word: Word<'_>,
    words: &mut Words<'_>,
    agents: &AgentNames,
) -> Result<Command, ScriptFault>
    ensures { Says command_view result (lines.command_by agents.now (word_view word.entry) (left_view words.old)) }
{
    if word.text == "at" {
        request(alloc, words, agents)
    } else if word.text == "pull" {
        refresh(false, words)
    } else if word.text == "push" {
        refresh(true, words)
    } else if word.text == "lose" {
        lose(words)
    } else if word.text == "deliver" {
        deliver(alloc, words, agents)
    } else {
        outage_by(word, words, agents)
    }
}

/// The command that the words of a line give.
fn command(
    alloc: Global,
    words: &mut Words<'_>,
    agents: &AgentNames,
) -> Result<Command, ScriptFault>
    ensures { Says command_view result (lines.command agents.now (left_view words.old)) }
{
    let word = words.next()?;
    command_by(alloc, word, words, agents)
}

/// The command of a line of 4,096 octets at most that is neither empty nor a comment.
fn read_words(alloc: Global, line: &[u8], agents: &AgentNames) -> Result<Command, ScriptFault>
    requires { length line.now ≤ 4096 }
    ensures { Says command_view result (lines.command agents.now (model.words_of line.now)) }
{
    let tokens = tokens_of(alloc, line)?;
    let mut words = Words::new(&tokens, line.len());
    command(alloc, &mut words, agents)
}

/// What a line asks for, without its line feed: an empty line and one that begins with `#` ask for nothing. Else the first fault
/// from the left; but a line of more than 4,096 octets is too long, whatever it holds. After want of memory nothing is said of it.
pub fn parse_line(alloc: Global, line: &[u8], agents: &AgentNames) -> Result<Command, ScriptFault>
    ensures { ReadsLine result agents.now line.now }
{
    if line.len() > MOST_LINE_OCTETS {
        return Err(ScriptFault::LineTooLong);
    }
    if line.is_empty() || line.starts_with(b"#") {
        return Ok(Command::Nothing);
    }
    read_words(alloc, line, agents)
}
