//! The naming contexts of a world, in the order of its file, and their pins in the order of keys.

ghost use Rattle.std.specs.Prelude.{◌≡◌, ◌++◌, ◌<◌, ℕ, true, List, length, map, IfOk};
ghost use Rattle.std.specs.List.{list_any, flat_map};
ghost use Rattle.std.specs.Option.{option_copied};
ghost use Rattle.x5_model.specs.Keys.{Key, key_below, is_prefix};
ghost use Rattle.x5_model.specs.Members.{In, Once};
ghost use Rattle.x5_model.specs.Words.{ascending, sorted};
ghost use Rattle.x5_know.specs.WorldView.{world_view, described_agent_view};
ghost use Rattle.x5_ops.specs.AnswerViews.{source_view};
ghost use Rattle.x5_ops.specs.KnowledgeViews.{context_view};
ghost use Rattle.x5_one.specs.One.{pin_in, held_by, contexts_by, contexts_of, context_at};
ghost use Rattle.x5_one.specs.Places.{IsPlace};
ghost use Rattle.x5_one.specs.Replies.{source_of};
ghost use Rattle.x5_one.specs.Rows.{row_below, rows_of};

use std::alloc::Global;
use std::marker::Model;
use x5_know::{ContextSpec, Described, DescribedAgent};
use x5_memory::NoMemory;
use x5_names::{Key, Name};
use x5_ops::{AgentName, Source};

/// A naming context: its prefix, and the name of the agent that masters it.
#[derive(Drop)]
pub(crate) struct Held {
    prefix: Name,
    master: AgentName,
}

impl Model for Held {
    ghost use Rattle.x5_one.specs.One as one;

    ghost Value = { one.Held };

    ghost view = { λ h. record { prefix = h.prefix; master = h.master } };
}

impl Held {
    /// The context and its master as the source of an answer.
    pub(crate) fn source(&self) -> Result<Source, NoMemory>
        ensures { IfOk result (λ s. (names : List (List ℕ)) → source_view names s ≡ source_of names self.now) }
    {
        Ok(Source {
            context: self.prefix.clone()?,
            agent: self.master.clone()?,
            moment: None,
        })
    }
}

/// A pin, and the place of its context.
#[derive(Drop)]
pub(crate) struct Pin {
    key: Key,
    place: usize,
}

impl Model for Pin {
    ghost use Rattle.x5_one.specs.Rows as rows;

    ghost Value = { rows.Row };

    ghost view = { λ p. (p.key, p.place) };
}

/// All these, and the contexts of the agent of this name.
fn with_contexts(
    held: Vec<Held>,
    master: &AgentName,
    contexts: &[ContextSpec],
) -> Result<Vec<Held>, NoMemory>
    ensures { IfOk result (λ v. v.items ≡ held.items ++ held_by master.now (map context_view contexts.now)) }
{
    let mut held = held;
    for context in contexts {
        held.push(Held {
            prefix: context.prefix.clone()?,
            master: master.clone()?,
        })?;
    }
    Ok(held)
}

/// The contexts of the agents, in the order of the file.
fn gathered(alloc: Global, agents: &[DescribedAgent]) -> Result<Vec<Held>, NoMemory>
    ensures { IfOk result (λ v. v.items ≡ flat_map contexts_by (map described_agent_view agents.now)) }
{
    let mut held = Vec::new(alloc);
    for agent in agents {
        held = with_contexts(held, &agent.spec.name, agent.spec.contexts.as_slice())?;
    }
    Ok(held)
}

/// The contexts of all agents, in the order of the file.
pub(crate) fn contexts_in(alloc: Global, world: &Described) -> Result<Vec<Held>, NoMemory>
    ensures { IfOk result (λ v. v.items ≡ contexts_of (world_view world.now)) }
{
    gathered(alloc, world.agents.as_slice())
}

/// The pins of the contexts, each with its place.
fn rows_in(alloc: Global, held: &[Held]) -> Result<Vec<Pin>, NoMemory>
    ensures { IfOk result (λ v. v.items ≡ rows_of held.now) }
{
    let mut pins = Vec::new(alloc);
    for (place, context) in held.iter().enumerate() {
        let key = context.prefix.key().clone()?;
        pins.push(Pin { key, place })?;
    }
    Ok(pins)
}

/// The pins of the contexts in the order of keys, each with its place.
pub(crate) fn pins_of(alloc: Global, held: &[Held]) -> Result<Vec<Pin>, NoMemory>
    ensures { IfOk result (λ v. v.items ≡ sorted row_below (rows_of held.now)) }
{
    let mut pins = rows_in(alloc, held)?;
    pins.sort_by(|a, b| a.key.cmp(&b.key))?;
    Ok(pins)
}

/// Where the pin is among the pins, or where it would go. No memory.
fn place_of_pin(pins: &[Pin], key: &Key) -> Result<usize, usize>
    requires { ascending key_below (map (λ p. p.0) pins.now) ≡ true }
    ensures { IsPlace (map (λ p. p.0) pins.now) key.now result }
{
    pins.binary_search_by(|pin| pin.key.cmp(key))
}

/// The context that the key belongs to: that of the longest pin that is its prefix (X.501: naming contexts).
pub(crate) fn context_of<'a>(
    alloc: Global,
    held: &'a [Held],
    pins: &[Pin],
    key: &Key,
) -> Result<Option<&'a Held>, NoMemory>
    requires rows { pins.now ≡ sorted row_below (rows_of held.now) }
    requires once { Once (map pin_in held.now) }
    requires filled { (q : Key) → In q (map pin_in held.now) → 0 < length q }
    ensures { IfOk result (λ found. option_copied found ≡ context_at held.now key.now) }
{
    let mut left = key.len();
    while left > 0 {
        let front = key.first(alloc, left)?;
        if let Ok(at) = place_of_pin(pins, &front) {
            let pin = &pins[at];
            let Some(found) = held.get(pin.place) else {
                unreachable!()
            };
            return Ok(Some(found));
        }
        left -= 1;
    }
    Ok(None)
}

/// Whether the key is that of a pin, or of what stands above one. No memory.
pub(crate) fn is_above_pin(pins: &[Pin], key: &Key) -> bool
    requires { ascending key_below (map (λ p. p.0) pins.now) ≡ true }
    ensures { result ≡ list_any (is_prefix key.now) (map (λ p. p.0) pins.now) }
{
    match place_of_pin(pins, key) {
        Ok(_) => true,
        Err(at) => match pins.get(at) {
            Some(pin) => key.is_prefix(&pin.key),
            None => false,
        },
    }
}
