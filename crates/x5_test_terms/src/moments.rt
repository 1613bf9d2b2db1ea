//! Moments by the calendar: across the ends of days, months and years, and at leap days. Names of agents, which are found as they are
//! spelled.
use jiff::civil::Date;
use std::alloc::Global;
use std::test::Fail;
use x5_know::{AgentNames, MOST_AGENTS, Start};
use x5_ops::{AgentName, Moment};
use x5_syntax::Text;

/// The start at the second of the date, if it's one.
fn start(date: (i16, i8, i8), second: u32) -> Option<Start> {
    let (year, month, day) = date;
    match Date::new(year, month, day) {
        Ok(date) => Start::new(date, second),
        Err(_) => None,
    }
}

/// The text of the moment after the start; nothing where that's no start.
fn printed(alloc: Global, start: Option<Start>, moment: u32) -> Result<Text, Fail> {
    match start {
        Some(start) => Ok(start.moment_text(alloc, Moment(moment))?),
        None => Ok(Text::new(alloc, "")?),
    }
}

#[test]
fn moments_follow_the_calendar(rt: HostRuntime) -> Result<(), Fail> {
    let alloc = rt.alloc();
    for (date, second, moment, wanted) in [
        ((1993, 1, 1), 0, 0, "19930101000000Z"),
        ((1993, 1, 1), 0, 3_661, "19930101010101Z"),
        ((1999, 12, 31), 86_399, 1, "20000101000000Z"),
        ((2000, 2, 28), 0, 86_400, "20000229000000Z"),
        ((2100, 2, 28), 0, 86_400, "21000301000000Z"),
        ((1970, 1, 1), 0, u32::MAX, "21060207062815Z"),
        ((9000, 12, 31), 86_399, 1, "90010101000000Z"),
        ((1899, 12, 31), 0, 0, ""),
        ((9001, 1, 1), 0, 0, ""),
        ((1993, 1, 1), 86_400, 0, ""),
    ] {
        let text = printed(alloc, start(date, second), moment)?;
        assert_eq!(rt; text.as_str(), wanted);
    }
    Ok(())
}

fn agent(alloc: Global, text: &str) -> Result<AgentName, Fail> {
    Ok(AgentName::new(Text::new(alloc, text)?))
}

/// Three agents, one of which is offered twice.
fn three(alloc: Global) -> Result<AgentNames, Fail> {
    let mut names = AgentNames::new(alloc);
    for text in ["Beta", "Alpha", "Beta", "B2"] {
        if names.len() < MOST_AGENTS {
            names.add(agent(alloc, text)?)?;
        }
    }
    Ok(names)
}

#[test]
fn names_are_found_by_their_text(rt: HostRuntime) -> Result<(), Fail> {
    let alloc = rt.alloc();
    let names = three(alloc)?;
    for (text, wanted) in [
        ("Beta", Some(0)),
        ("Alpha", Some(1)),
        ("B2", Some(2)),
        ("beta", None),
        ("", None),
    ] {
        assert_eq!(rt; names.find(text).map(|id| id.0), wanted);
    }
    Ok(())
}
