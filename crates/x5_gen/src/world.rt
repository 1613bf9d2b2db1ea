//! The world: a tree of agents with their contexts, references and agreements.
ghost use Rattle.std.specs.Prelude.{◌≡◌, ◌++◌, ◌∷◌, [], ◌*◌, ◌+◌, ◌<◌, ◌≤◌, IfOk, OnOk, All, codes, map, string_bytes};
ghost use Rattle.std.specs.List.{concat, filter};
ghost use Rattle.std.specs.Fmt.{decimal};
ghost use Rattle.x5_gen.specs.Draws.{after};
ghost use Rattle.x5_gen.specs.World as made;

use crate::draws::Draws;
use std::alloc::{AllocError, Global};
use x5_memory::NoMemory;
use x5_syntax::Octets;

/// Agents of the world.
pub(crate) const AGENTS: u32 = 40;

/// Entries just below each context's prefix.
pub(crate) const PEOPLE: u32 = 499;

/// Agreements of the world.
const AGREEMENTS: u32 = 9;

/// The prefix of an agent's context.
pub(crate) fn prefix(alloc: Global, agent: u32) -> Result<String, NoMemory>
    ensures { IfOk result (λ text. string_bytes text ≡ made.prefix agent) }
{
    if agent == 0 {
        return Ok(String::from_str(alloc, "/C=NL")?);
    }
    let mut text = prefix(alloc, (agent - 1) / 3)?;
    write!(&mut text, "/OU=U{agent}")?;
    Ok(text)
}

/// The object class of the entry of a context's prefix: country or organizationalUnit (X.521).
fn prefix_class(agent: u32) -> &'static str
    ensures { result.now ≡ made.prefix_class agent }
{
    if agent == 0 { "2.5.6.2" } else { "2.5.6.5" }
}

/// Adds the entry of a context's prefix.
fn add_prefix_entry(text: &mut String, prefix: &str, class: &str) -> Result<(), NoMemory>
    ensures { OnOk result (string_bytes text.new ≡ string_bytes text.old ++ made.prefix_entry prefix.now class.now) }
{
    write!(
        text,
        "{{\"name\":\"{prefix}\",\"attrs\":[\"objectClass={class}\"]}}"
    )?;
    Ok(())
}

/// Adds the entries just below a context's prefix.
fn add_people(text: &mut String, prefix: &str, draws: &mut Draws) -> Result<(), NoMemory>
    ensures text { OnOk result (string_bytes text.new ≡ string_bytes text.old ++ made.people prefix.now draws.old.x made.people_count) }
    ensures draws { OnOk result (draws.new.x ≡ after draws.old.x made.people_count) }
{
    for before in 0..PEOPLE {
        let person = before + 1;
        let surname = draws.below(100);
        write!(
            text,
            ",{{\"name\":\"{prefix}/CN=P{person}\",\"attrs\":[\"objectClass=2.5.6.7\",\"SN=S{surname}\"]}}"
        )?;
    }
    Ok(())
}

/// The agents just below another whose numbers leave this rest by two.
fn just_below(alloc: Global, agent: u32, rest: u32) -> Result<Vec<u32>, NoMemory>
    requires { agent < made.agents_count }
    ensures { IfOk result (λ numbers. numbers.items ≡ made.just_below agent rest) }
{
    let mut numbers = Vec::new(alloc);
    for number in &[3 * agent + 1, 3 * agent + 2, 3 * agent + 3] {
        if *number < AGENTS && *number % 2 == rest {
            numbers.push(*number)?;
        }
    }
    Ok(numbers)
}

/// The texts with commas between them.
fn with_commas(alloc: Global, texts: &[String]) -> Result<String, AllocError>
    ensures { IfOk result (λ text. string_bytes text ≡ made.listed (map string_bytes texts.now)) }
{
    texts.join(alloc, ",")
}

/// The names of agents, quoted.
fn agent_names(alloc: Global, numbers: &[u32]) -> Result<Vec<String>, NoMemory>
    ensures { IfOk result (λ texts. map string_bytes texts.items ≡ map made.agent_name numbers.now) }
{
    let mut texts = Vec::new(alloc);
    for number in numbers {
        texts.push(format!(in alloc; "\"A{number}\"")?)?;
    }
    Ok(texts)
}

/// Adds the non-specific reference at a context's prefix, where there is one.
fn add_nssr(text: &mut String, alloc: Global, prefix: &str, agent: u32) -> Result<(), NoMemory>
    requires { agent < made.agents_count }
    ensures { OnOk result (string_bytes text.new ≡ string_bytes text.old ++ made.nssr prefix.now agent) }
{
    let numbers = just_below(alloc, agent, 0)?;
    let numbers = numbers.as_slice();
    if numbers.is_empty() {
        return Ok(());
    }
    let names = agent_names(alloc, numbers)?;
    let names = with_commas(alloc, &names)?;
    write!(
        text,
        ",\"nssr\":[{{\"at\":\"{prefix}\",\"agents\":[{names}]}}]"
    )?;
    Ok(())
}

/// The shadow of an agent's context, which agents 1 to 9 have.
fn shadow(alloc: Global, agent: u32) -> Result<String, NoMemory>
    requires { agent < made.agents_count }
    ensures { IfOk result (λ text. string_bytes text ≡ made.shadow agent) }
{
    if agent > AGREEMENTS {
        return Ok(String::new(alloc));
    }
    let consumer = agent + 30;
    Ok(format!(in alloc; ",\"shadows\":[\"A{consumer}\"]")?)
}

/// The subordinate reference to an agent's context.
#[tactic(auto, unfolding(crate::specs::World::reference))]
fn reference(alloc: Global, agent: u32) -> Result<String, NoMemory>
    requires { agent < made.agents_count }
    ensures { IfOk result (λ text. string_bytes text ≡ made.reference agent) }
{
    let prefix = prefix(alloc, agent)?;
    let shadow = shadow(alloc, agent)?;
    Ok(format!(in alloc;
        "{{\"kind\":\"subordinate\",\"name\":\"{prefix}\",\"master\":\"A{agent}\"{shadow}}}"
    )?)
}

/// The subordinate references to some agents' contexts.
fn references_to(alloc: Global, agents: &[u32]) -> Result<Vec<String>, NoMemory>
    requires { All (λ agent. agent < made.agents_count) agents.now }
    ensures { IfOk result (λ texts. map string_bytes texts.items ≡ map made.reference agents.now) }
{
    let mut texts = Vec::new(alloc);
    for agent in agents {
        texts.push(reference(alloc, *agent)?)?;
    }
    Ok(texts)
}

/// Adds an agent's subordinate references, where there are any.
fn add_references(text: &mut String, alloc: Global, agent: u32) -> Result<(), NoMemory>
    requires { agent < made.agents_count }
    ensures { OnOk result (string_bytes text.new ≡ string_bytes text.old ++ made.references agent) }
{
    let numbers = just_below(alloc, agent, 1)?;
    let numbers = numbers.as_slice();
    if numbers.is_empty() {
        return Ok(());
    }
    let texts = references_to(alloc, numbers)?;
    let texts = with_commas(alloc, &texts)?;
    write!(text, ",\"refs\":[{texts}]")?;
    Ok(())
}

/// Adds the superior of an agent, where it has one.
fn add_superior(text: &mut String, agent: u32) -> Result<(), NoMemory>
    ensures { OnOk result (string_bytes text.new ≡ string_bytes text.old ++ made.superior agent) }
{
    if agent > 0 {
        let superior = (agent - 1) / 3;
        write!(text, ",\"superior\":\"A{superior}\"")?;
    }
    Ok(())
}

/// Adds the context with a prefix that an agent masters.
fn add_context(
    text: &mut String,
    alloc: Global,
    prefix: &str,
    agent: u32,
    draws: &mut Draws,
) -> Result<(), NoMemory>
    requires { agent < made.agents_count }
    ensures text { OnOk result (string_bytes text.new ≡ string_bytes text.old ++ made.context prefix.now agent draws.old.x) }
    ensures draws { OnOk result (draws.new.x ≡ after draws.old.x made.people_count) }
{
    write!(
        text,
        ",\"contexts\":[{{\"prefix\":\"{prefix}\",\"entries\":["
    )?;
    add_prefix_entry(text, prefix, prefix_class(agent))?;
    add_people(text, prefix, draws)?;
    text.push_str("]")?;
    add_nssr(text, alloc, prefix, agent)?;
    text.push_str("}]")?;
    Ok(())
}

/// Adds an agent.
fn add_agent(
    text: &mut String,
    alloc: Global,
    agent: u32,
    draws: &mut Draws,
) -> Result<(), NoMemory>
    requires { agent < made.agents_count }
    ensures text { OnOk result (string_bytes text.new ≡ string_bytes text.old ++ made.agent agent draws.old.x) }
    ensures draws { OnOk result (draws.new.x ≡ after draws.old.x made.people_count) }
{
    let prefix = prefix(alloc, agent)?;
    write!(text, "{{\"name\":\"A{agent}\"")?;
    add_superior(text, agent)?;
    add_context(text, alloc, prefix.as_str(), agent, draws)?;
    drop(prefix);
    add_references(text, alloc, agent)?;
    text.push_str("}")?;
    Ok(())
}

/// Adds a comma before all but the first.
fn add_comma(text: &mut String, before: u32) -> Result<(), NoMemory>
    ensures { OnOk result (string_bytes text.new ≡ string_bytes text.old ++ made.comma before) }
{
    if before > 0 {
        text.push(',')?;
    }
    Ok(())
}

/// Adds the agents.
fn add_agents(text: &mut String, alloc: Global, draws: &mut Draws) -> Result<(), NoMemory>
    ensures { OnOk result (string_bytes text.new ≡ string_bytes text.old ++ made.agents draws.old.x made.agents_count) }
{
    for agent in 0..AGENTS {
        add_comma(text, agent)?;
        add_agent(text, alloc, agent, draws)?;
    }
    Ok(())
}

/// Adds an agreement.
fn add_agreement(text: &mut String, alloc: Global, supplier: u32) -> Result<(), NoMemory>
    requires { supplier < made.agents_count }
    ensures { OnOk result (string_bytes text.new ≡ string_bytes text.old ++ made.agreement supplier) }
{
    let prefix = prefix(alloc, supplier)?;
    let consumer = supplier + 30;
    write!(
        text,
        "{{\"id\":{supplier},\"supplier\":\"A{supplier}\",\"consumer\":\"A{consumer}\",\"context\":\"{prefix}\"}}"
    )?;
    Ok(())
}

/// Adds the agreements.
fn add_agreements(text: &mut String, alloc: Global) -> Result<(), NoMemory>
    ensures { OnOk result (string_bytes text.new ≡ string_bytes text.old ++ made.agreements made.agreements_count) }
{
    for before in 0..AGREEMENTS {
        add_comma(text, before)?;
        add_agreement(text, alloc, before + 1)?;
    }
    Ok(())
}

/// The octets of the world file that is made of a number, some 1.6 million of them.
pub fn world_of(alloc: Global, seed: u32) -> Result<Octets, NoMemory>
    ensures { IfOk result (λ octets. octets ≡ made.world_text seed) }
{
    let mut draws = Draws::new(seed);
    let mut text = String::new(alloc);
    text.push_str("{\"format\":1,\"start\":\"19930101000000Z\",\"agents\":[")?;
    add_agents(&mut text, alloc, &mut draws)?;
    text.push_str("],\"agreements\":[")?;
    add_agreements(&mut text, alloc)?;
    text.push_str("]}\n")?;
    Ok(Octets::new(text.into_bytes()))
}
