//! The script: requests to the agents of the world, and refreshes.
ghost use Rattle.std.specs.Prelude.{◌≡◌, ◌++◌, ◌∷◌, [], ◌+◌, ◌<◌, IfOk, OnOk, codes, string_bytes};
ghost use Rattle.std.specs.List.{concat};
ghost use Rattle.std.specs.Fmt.{decimal};
ghost use Rattle.x5_gen.specs.Draws.{after};
ghost use Rattle.x5_gen.specs.Script as made;

use crate::draws::Draws;
use crate::world::{AGENTS, PEOPLE, prefix};
use std::alloc::Global;
use x5_memory::NoMemory;
use x5_syntax::Octets;

/// Lines of the script.
const LINES: u32 = 2000;

/// Adds what a line of this number and kind asks of a person below the prefix.
fn add_asked(
    text: &mut String,
    number: u32,
    kind: u32,
    prefix: &str,
    person: u32,
) -> Result<(), NoMemory>
    ensures { OnOk result (string_bytes text.new ≡ string_bytes text.old ++ made.asked number kind prefix.now person) }
{
    match kind {
        0..=3 => write!(text, " read {prefix}/CN=P{person} attrs=SN\n")?,
        4 | 5 => {
            let surname = person % 100;
            write!(text, " search tree {prefix} (SN=S{surname}) attrs=CN\n")?;
        }
        6 => write!(text, " list {prefix}/CN=P{person}\n")?,
        7 => write!(
            text,
            " modify {prefix}/CN=P{person} put:description={number}\n"
        )?,
        _ => write!(text, " nocopy read {prefix}/CN=P{person} attrs=SN\n")?,
    }
    Ok(())
}

/// Adds a refresh, which one being told by a person.
fn add_pull(text: &mut String, person: u32) -> Result<(), NoMemory>
    ensures { OnOk result (string_bytes text.new ≡ string_bytes text.old ++ made.pull person) }
{
    let agreement = 1 + person % 9;
    write!(text, "pull {agreement} total\n")?;
    Ok(())
}

/// Adds the line of this number and kind, which asks an agent of a person in another's context.
fn add_line(
    text: &mut String,
    alloc: Global,
    number: u32,
    agent: u32,
    kind: u32,
    holder: u32,
    person: u32,
) -> Result<(), NoMemory>
    ensures { OnOk result (string_bytes text.new ≡ string_bytes text.old ++ made.line number agent kind holder person) }
{
    if kind == 9 {
        return add_pull(text, person);
    }
    let prefix = prefix(alloc, holder)?;
    write!(text, "at A{agent}")?;
    add_asked(text, number, kind, prefix.as_str(), person)
}

/// Adds the line of this number, with an agent, a kind, the agent of a context and a person drawn.
fn add_drawn_line(
    text: &mut String,
    alloc: Global,
    number: u32,
    draws: &mut Draws,
) -> Result<(), NoMemory>
    ensures text { OnOk result (string_bytes text.new ≡ string_bytes text.old ++ made.drawn_line number draws.old.x) }
    ensures draws { OnOk result (draws.new.x ≡ after draws.old.x 4) }
{
    let agent = draws.below(AGENTS);
    let kind = draws.below(10);
    let holder = draws.below(AGENTS);
    let person = draws.below(PEOPLE) + 1;
    add_line(text, alloc, number, agent, kind, holder, person)
}

/// Passes over the draws that the world takes.
#[tactic(auto, using(crate::proofs::Making::none_drawn, crate::proofs::Making::one_more))]
fn after_world(seed: u32) -> Draws
    ensures { result.x ≡ after seed made.world_draws }
{
    let mut draws = Draws::new(seed);
    for _drawn in 0..AGENTS * PEOPLE {
        draws.below(100);
    }
    draws
}

/// The octets of the script that is made of a number: 2,000 lines.
pub fn script_of(alloc: Global, seed: u32) -> Result<Octets, NoMemory>
    ensures { IfOk result (λ octets. octets ≡ made.script_text seed) }
{
    let mut draws = after_world(seed);
    let mut text = String::new(alloc);
    for before in 0..LINES {
        add_drawn_line(&mut text, alloc, before + 1, &mut draws)?;
    }
    Ok(Octets::new(text.into_bytes()))
}
