//! What counts as the same item, with ample memory.
use std::alloc::Global;
use std::test::Fail;
use x5_ops::{AgentName, Listed, Name, Progress, Trace, TraceItem};
use x5_syntax::Text;
use x5_trace::{push, repeats};

/// An agent's item for a target.
fn item(alloc: Global, agent: &str, target: &str, next: u8, wide: bool) -> Result<TraceItem, Fail> {
    let agent = AgentName::new(Text::new(alloc, agent)?);
    let target = Name::parse(alloc, target)?;
    let progress = Progress::Proceeding(next);
    Ok(TraceItem {
        agent,
        target,
        progress,
        wide,
    })
}

/// The trace of one agent.
fn passed(alloc: Global) -> Result<Trace, Fail> {
    let first = item(alloc, "Beta", "/C=NL/O=Acme", 2, false)?;
    let mut trace: Trace = Listed::new(alloc);
    if !repeats(&trace, &first) {
        push(&mut trace, first)?;
    }
    Ok(trace)
}

/// Whether the item stands in the trace.
fn stands_in(
    alloc: Global,
    trace: &Trace,
    agent: &str,
    target: &str,
    next: u8,
    wide: bool,
) -> Result<bool, Fail> {
    let asked = item(alloc, agent, target, next, wide)?;
    let stands = repeats(trace, &asked);
    drop(asked);
    Ok(stands)
}

#[test]
fn an_item_stands_by_agent_target_progress_and_way(rt: HostRuntime) -> Result<(), Fail> {
    let alloc = rt.alloc();
    let trace = passed(alloc)?;
    assert_eq!(rt; trace.len(), 1);
    for (agent, target, next, wide, stands) in [
        ("Beta", "/C=nl/O=ACME", 2, false, true),
        ("Alpha", "/C=NL/O=Acme", 2, false, false),
        ("Beta", "/C=NL/O=Acme/OU=Lab", 2, false, false),
        ("Beta", "/C=NL/O=Acme", 1, false, false),
        ("Beta", "/C=NL/O=Acme", 2, true, false),
    ] {
        let found = stands_in(alloc, &trace, agent, target, next, wide)?;
        assert_eq!(rt; found, stands, "{agent} {target}");
    }
    Ok(())
}
