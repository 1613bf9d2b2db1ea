//! Two worlds of one file, but for a surname in the third agent's context: once that agent of the first world holds what it holds in
//! the second, the first world answers with the second's surname; and where it holds nothing, nobody has the entry.
ghost use Rattle.std.specs.Prelude.{ℕ, ◌<◌, ◌+◌, IfOk};
ghost use Rattle.x5_world.specs.State.{HasRoom};

use std::alloc::Global;
use std::test::Fail;
use x5_holdings::Holdings;
use x5_know::{Described, Start};
use x5_load::load;
use x5_names::Name;
use x5_ops::{AgentId, Body, Controls, Request, Selection};
use x5_report::{LineOutcome, block};
use x5_syntax::Text;
use x5_world::World;

/// The world's file as far as Jan's surname, and from there on.
const BEFORE: &str = r#"{"format":1,"start":"19930101000000Z","agents":[
{"name":"Alpha","contexts":[{"prefix":"/C=NL","entries":[{"name":"/C=NL","attrs":["objectClass=2.5.6.2"]}]}],
 "refs":[{"kind":"subordinate","name":"/C=NL/O=Acme","master":"Beta","shadows":["Epsilon"]}]},
{"name":"Beta","superior":"Alpha","contexts":[{"prefix":"/C=NL/O=Acme","entries":[
 {"name":"/C=NL/O=Acme","attrs":["objectClass=2.5.6.4","description=tools"]},
 {"name":"/C=NL/O=Acme/CN=Desk","attrs":["objectClass=2.5.6.7","SN=Desk"]}],
 "nssr":[{"at":"/C=NL/O=Acme","agents":["Gamma","Delta"]}]}]},
{"name":"Gamma","superior":"Beta","contexts":[{"prefix":"/C=NL/O=Acme/OU=Lab","entries":[
 {"name":"/C=NL/O=Acme/OU=Lab","attrs":["objectClass=2.5.6.5"]},
 {"name":"/C=NL/O=Acme/OU=Lab/CN=Jan","attrs":["objectClass=2.5.6.7","SN="#;

const AFTER: &str = r#""]}]}]},
{"name":"Delta","superior":"Beta","contexts":[{"prefix":"/C=NL/O=Acme/OU=Shop","entries":[
 {"name":"/C=NL/O=Acme/OU=Shop","attrs":["objectClass=2.5.6.5"]},
 {"name":"/C=NL/O=Acme/OU=Shop/CN=Ada","attrs":["objectClass=2.5.6.7","SN=Bos"]}]}]},
{"name":"Epsilon","superior":"Alpha"}],
"agreements":[{"id":1,"supplier":"Beta","consumer":"Epsilon","context":"/C=NL/O=Acme"}]}
"#;

const JAN: &str = "/C=NL/O=Acme/OU=Lab/CN=Jan";

/// The messages of a read of Jan that Gamma answers, behind which its answer stands.
const BY_GAMMA: &str = "msg user Alpha read start t=0 /C=NL/O=Acme/OU=Lab/CN=Jan sent
msg Alpha Beta read next=2 t=1 /C=NL/O=Acme/OU=Lab/CN=Jan sent
msg Beta Gamma read next=3 t=2 /C=NL/O=Acme/OU=Lab/CN=Jan sent
";

/// The world's file where Jan has this surname.
fn file(alloc: Global, surname: &str) -> Result<String, Fail> {
    Ok(format!(in alloc; "{BEFORE}{surname}{AFTER}")?)
}

/// What is printed of the line of this number, a read of Jan that Gamma answers with this surname.
fn answer(alloc: Global, line: u32, surname: &str) -> Result<String, Fail> {
    let shown = "attr objectClass=2.5.6.7\nattr CN=Jan\n";
    let source = "source /C=NL/O=Acme/OU=Lab Gamma now\n";
    Ok(format!(in alloc; "#{line}\n{BY_GAMMA}entry {JAN}\n{shown}attr SN={surname}\n{source}")?)
}

/// What is printed of that line where Gamma can't go on, nor can Delta.
fn nobody(alloc: Global, line: u32) -> Result<String, Fail> {
    let asked = "msg Beta Delta read next=3 t=2 /C=NL/O=Acme/OU=Lab/CN=Jan sent\n";
    Ok(format!(in alloc; "#{line}\n{BY_GAMMA}{asked}error name noSuchObject /C=NL/O=Acme\n")?)
}

/// The start of the world.
fn start(alloc: Global) -> Result<Start, Fail> {
    let Described {
        start,
        names,
        agents,
        agreements,
        network,
    } = load(alloc, file(alloc, "Smit")?.as_bytes())?;
    drop(network);
    drop(agreements);
    drop(agents);
    drop(names);
    Ok(start)
}

/// The network before the first line of a script, where Jan has this surname.
fn network(alloc: Global, surname: &str) -> Result<World, Fail>
    ensures { IfOk result (λ network. HasRoom network 0) }
{
    let described = load(alloc, file(alloc, surname)?.as_bytes())?;
    let made = World::new(alloc, &described);
    drop(described);
    Ok(made?)
}

/// What is printed of a read of this entry at the network's first agent, after so many lines.
fn read(
    alloc: Global,
    start: &Start,
    network: &mut World,
    before: u32,
    object: &str,
) -> Result<Text, Fail>
    requires room { HasRoom network.old before }
    requires few { before < 100000 }
    ensures { IfOk result (λ _. HasRoom network.new (before + 1)) }
{
    if network.names().len() == 0 {
        return Err(Fail::new("no agents"));
    }
    let request = Request {
        controls: Controls {
            nocopy: false,
            nochain: false,
            size: None,
        },
        body: Body::Read {
            object: Name::parse(alloc, object)?,
            selection: Selection::All,
        },
    };
    let asked = network.ask(alloc, AgentId(0), &request);
    drop(request);
    let (reply, journal) = asked?;
    let outcome = LineOutcome::Answered(reply);
    let text = block(alloc, start, before + 1, &journal, &outcome);
    drop(outcome);
    drop(journal);
    Ok(text?)
}

/// Whether Gamma answers the read of Jan with this surname, after so many lines.
fn is_called(
    alloc: Global,
    start: &Start,
    network: &mut World,
    before: u32,
    surname: &str,
) -> Result<bool, Fail>
    requires room { HasRoom network.old before }
    requires few { before < 100000 }
    ensures { IfOk result (λ _. HasRoom network.new (before + 1)) }
{
    let told = read(alloc, start, network, before, JAN)?;
    Ok(told.as_str() == answer(alloc, before + 1, surname)?.as_str())
}

/// Whether nobody has Jan, after so many lines.
fn is_unknown(alloc: Global, start: &Start, network: &mut World, before: u32) -> Result<bool, Fail>
    requires room { HasRoom network.old before }
    requires few { before < 100000 }
{
    let told = read(alloc, start, network, before, JAN)?;
    Ok(told.as_str() == nobody(alloc, before + 1)?.as_str())
}

/// What the agent holds in the one network it holds in the other, if that has as many agents, and nothing in the one.
fn hand_over(alloc: Global, agent: AgentId, from: &mut World, to: &mut World)
    ensures from_room { (lines : ℕ) → HasRoom from.old lines → HasRoom from.new lines }
    ensures to_room { (lines : ℕ) → HasRoom to.old lines → HasRoom to.new lines }
{
    let count = from.names().len();
    let others = to.names().len();
    if others != count {
        return;
    }
    if agent.0 as usize >= count {
        return;
    }
    let holdings = from.swap_holdings(agent, Holdings::empty(alloc, agent));
    drop(to.swap_holdings(agent, holdings));
}

/// Whether Gamma answers in the first network by its own file at first, then by that of the second, where nobody does by then.
fn answers_follow(
    alloc: Global,
    start: &Start,
    first: &mut World,
    second: &mut World,
) -> Result<bool, Fail>
    requires first { HasRoom first.old 0 }
    requires second { HasRoom second.old 0 }
{
    let before = is_called(alloc, start, first, 0, "Smit")?;
    hand_over(alloc, AgentId(2), second, first);
    let after = is_called(alloc, start, first, 1, "Blom")?;
    let unknown = is_unknown(alloc, start, second, 0)?;
    Ok(before && after && unknown)
}

/// The same, where the second network is made beside the first.
fn first_follows(alloc: Global, start: &Start, first: &mut World) -> Result<bool, Fail>
    requires { HasRoom first.old 0 }
{
    let mut second = network(alloc, "Blom")?;
    let follows = answers_follow(alloc, start, first, &mut second);
    drop(second);
    follows
}

/// The same, of the two worlds' networks.
fn networks_follow(alloc: Global) -> Result<bool, Fail> {
    let start = start(alloc)?;
    let mut first = network(alloc, "Smit")?;
    let follows = first_follows(alloc, &start, &mut first);
    drop(first);
    follows
}

#[test]
fn an_agent_answers_from_what_it_holds(rt: HostRuntime) -> Result<(), Fail> {
    assert!(rt; networks_follow(rt.alloc())?);
    Ok(())
}
