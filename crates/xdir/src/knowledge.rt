//! The line on a world's knowledge (docs/FORMATS.md, output).
ghost use Rattle.std.specs.Prelude.{◌≡◌, ◌∷◌, [], codes, IfOk, option_map, string_bytes};
ghost use Rattle.std.specs.Fmt.{decimal};
ghost use Rattle.std.specs.List.{concat};
ghost use Rattle.x5_check.specs.Views.{breach_view, shown_view};
ghost use Rattle.x5_know.specs.WorldView.{world_view};
ghost use Rattle.x5_model_output.specs.Output.{knowledge_line as line_on, names_of, printed_text};

use std::alloc::{AllocError, Global};
use x5_check::{Inconsistency, Shown};
use x5_know::{AgentId, Described};
use x5_memory::NoMemory;

/// That the knowledge is consistent, or the first condition that fails with its two values.
pub fn knowledge_line(
    alloc: Global,
    world: &Described,
    breach: &Option<Inconsistency>,
) -> Result<String, NoMemory>
    ensures { IfOk result (λ line. string_bytes line ≡ line_on (names_of (world_view world.now) (λ moment. [])) (option_map breach_view breach.now)) }
{
    match breach {
        None => Ok(String::from_str(alloc, "knowledge consistent\n")?),
        Some(breach) => {
            let first = shown_text(alloc, world, &breach.first)?;
            let second = shown_text(alloc, world, &breach.second)?;
            Ok(breach_line(alloc, breach.condition, &first, &second)?)
        }
    }
}

/// The line of a breach.
fn breach_line(
    alloc: Global,
    condition: u8,
    first: &str,
    second: &str,
) -> Result<String, AllocError>
    ensures { IfOk result (λ line. string_bytes line ≡ concat (codes "knowledge inconsistent C" ∷ decimal condition ∷ codes " " ∷ first.now ∷ codes " " ∷ second.now ∷ codes "\n" ∷ [])) }
{
    format!(in alloc; "knowledge inconsistent C{condition} {first} {second}\n")
}

/// A value that a breach names.
fn shown_text(alloc: Global, world: &Described, shown: &Shown) -> Result<String, NoMemory>
    ensures { IfOk result (λ text. string_bytes text ≡ printed_text (names_of (world_view world.now) (λ moment. [])) (shown_view shown.now)) }
{
    match shown {
        Shown::Agent(id) => Ok(String::from_str(alloc, agent_name(world, *id))?),
        Shown::Name(name) => Ok(name.text(alloc)?.into_string()),
        Shown::Agreement(number) => Ok(format!(in alloc; "{number}")?),
    }
}

/// The agent's name; none where there is no such agent.
fn agent_name(world: &Described, id: AgentId) -> &str
    ensures { result.now ≡ (names_of (world_view world.now) (λ moment. [])).agent id }
{
    match world.agents.as_slice().get(id.0 as usize) {
        Some(agent) => agent.spec.name.as_str(),
        None => "",
    }
}
