//! Blocks as the documented runs print them, of values built by hand.
use jiff::civil::Date;
use std::alloc::Global;
use std::test::Fail;
use x5_know::Start;
use x5_ops::{
    AccessList, AccessPoint, AgentName, Answer, EntryInfo, EntryList, Fate, Journal, Line, Listed,
    Moment, Name, Operation, Outcome, Progress, Rdn, RdnList, RefType, Reference, ReferenceList,
    Refreshed, Reply, ShadowOperation, Source, SourceList,
};
use x5_report::{LineOutcome, Totals, block, summary};
use x5_syntax::Text;
use x5_typed::{BerFault, Breach};

fn agent(alloc: Global, text: &str) -> Result<AgentName, Fail> {
    Ok(AgentName::new(Text::new(alloc, text)?))
}

fn name(alloc: Global, text: &str) -> Result<Name, Fail> {
    Ok(Name::parse(alloc, text)?)
}

fn access(alloc: Global, text: &str) -> Result<AccessList, Fail> {
    let agent = agent(alloc, text)?;
    let point = AccessPoint { agent, copy: false };
    Ok(Listed::from_vec(vec![in alloc; point]?))
}

/// The RDN of the text alone; none for no text.
fn rdns(alloc: Global, text: &str) -> Result<RdnList, Fail> {
    if text.is_empty() {
        return Ok(Listed::new(alloc));
    }
    let rdn = Rdn::parse(alloc, text)?;
    Ok(Listed::from_vec(vec![in alloc; rdn]?))
}

/// A reference to what one agent has below Acme, less one RDN if there is a text.
fn below(
    alloc: Global,
    kind: RefType,
    text: &str,
    excluded: &str,
    tried: bool,
) -> Result<Reference, Fail> {
    let agents = access(alloc, text)?;
    let exclusions = rdns(alloc, excluded)?;
    let progress = Progress::Completed;
    let target = name(alloc, "/C=NL/O=Acme")?;
    Ok(Reference {
        target,
        progress,
        kind,
        agents,
        exclusions,
        tried,
    })
}

fn add_reference(
    alloc: Global,
    references: &mut ReferenceList,
    kind: RefType,
    text: &str,
    excluded: &str,
    tried: bool,
) -> Result<(), Fail> {
    references.push(below(alloc, kind, text, excluded, tried)?)?;
    Ok(())
}

/// Unexplored references, not in the order in which they are printed.
fn unexplored(alloc: Global) -> Result<ReferenceList, Fail> {
    let mut references = Listed::new(alloc);
    add_reference(
        alloc,
        &mut references,
        RefType::NonSpecific,
        "Gamma",
        "OU=Shop",
        true,
    )?;
    add_reference(
        alloc,
        &mut references,
        RefType::Subordinate,
        "Gamma",
        "",
        false,
    )?;
    add_reference(
        alloc,
        &mut references,
        RefType::NonSpecific,
        "Delta",
        "",
        true,
    )?;
    Ok(references)
}

fn source(
    alloc: Global,
    context: &str,
    text: &str,
    moment: Option<Moment>,
) -> Result<Source, Fail> {
    let agent = agent(alloc, text)?;
    let context = name(alloc, context)?;
    Ok(Source {
        context,
        agent,
        moment,
    })
}

fn add_source(
    alloc: Global,
    sources: &mut SourceList,
    context: &str,
    text: &str,
    moment: Option<Moment>,
) -> Result<(), Fail> {
    sources.push(source(alloc, context, text, moment)?)?;
    Ok(())
}

/// Sources, the later context first.
fn sources(alloc: Global) -> Result<SourceList, Fail> {
    let mut sources = Listed::new(alloc);
    add_source(alloc, &mut sources, "/C=NL/O=Acme/OU=Shop", "Delta", None)?;
    add_source(
        alloc,
        &mut sources,
        "/C=NL/O=Acme",
        "Epsilon",
        Some(Moment(1)),
    )?;
    Ok(sources)
}

/// A copy of an entry of which nothing is shown.
fn entries(alloc: Global) -> Result<EntryList, Fail> {
    let name = name(alloc, "/C=NL/O=Acme/CN=Desk")?;
    let attributes = Listed::new(alloc);
    let entry = EntryInfo {
        name,
        copy: true,
        attributes,
    };
    Ok(Listed::from_vec(vec![in alloc; entry]?))
}

fn outcome(alloc: Global) -> Result<Outcome, Fail> {
    let unexplored = unexplored(alloc)?;
    Ok(Outcome {
        limited: true,
        unexplored,
    })
}

fn found(alloc: Global) -> Result<Reply, Fail> {
    let entries = entries(alloc)?;
    let sources = sources(alloc)?;
    let outcome = outcome(alloc)?;
    let found = Answer::Found {
        entries,
        sources,
        outcome,
    };
    Ok(Reply::Done(found))
}

/// The first second of 1993.
fn start() -> Option<Start> {
    match Date::new(1993, 1, 1) {
        Ok(date) => Start::new(date, 0),
        Err(_) => None,
    }
}

/// A journal of these messages, of which nobody accepted one.
fn journal(alloc: Global, lines: Vec<Line>) -> Journal {
    Journal {
        lines: Listed::from_vec(lines),
        accepted: Listed::new(alloc),
    }
}

/// What is printed for line 2 of a world that starts with 1993.
fn shown(alloc: Global, journal: &Journal, outcome: &LineOutcome) -> Result<Text, Fail> {
    let start = start().ok_or("no start")?;
    Ok(block(alloc, &start, 2, journal, outcome)?)
}

/// The same, of a journal and an outcome that nobody looks at again.
fn printed(alloc: Global, journal: Journal, outcome: LineOutcome) -> Result<Text, Fail> {
    let text = shown(alloc, &journal, &outcome);
    drop(outcome);
    drop(journal);
    text
}

/// Counts what a line came to, which nobody looks at again.
fn count(totals: &mut Totals, journal: &Journal, outcome: LineOutcome) {
    totals.count(journal, &outcome);
    drop(outcome);
}

/// What is printed of the search without messages.
fn search(alloc: Global) -> Result<Text, Fail> {
    let outcome = LineOutcome::Answered(found(alloc)?);
    printed(alloc, journal(alloc, Vec::new(alloc)), outcome)
}

/// What is printed of the same answer of the one tree.
fn plain_search(alloc: Global) -> Result<Text, Fail> {
    let outcome = LineOutcome::Plain(found(alloc)?);
    printed(alloc, journal(alloc, Vec::new(alloc)), outcome)
}

#[test]
fn a_search_prints_sources_and_what_is_unexplored_in_order(rt: HostRuntime) -> Result<(), Fail> {
    let alloc = rt.alloc();
    let text = search(alloc)?;
    assert_eq!(rt;
        text.as_str(),
        "#2\nfound 1\nentry /C=NL/O=Acme/CN=Desk copy\nsource /C=NL/O=Acme Epsilon 19930101000001Z\nsource /C=NL/O=Acme/OU=Shop Delta now\nunexplored subordinate /C=NL/O=Acme done Gamma\nunexplored nonSpecific /C=NL/O=Acme done Delta tried\nunexplored nonSpecific /C=NL/O=Acme done Gamma less OU=Shop tried\nlimit sizeLimitExceeded\n"
    );
    Ok(())
}

#[test]
fn on_the_one_tree_nothing_is_a_copy_and_nobody_a_source(rt: HostRuntime) -> Result<(), Fail> {
    let alloc = rt.alloc();
    let text = plain_search(alloc)?;
    assert_eq!(rt;
        text.as_str(),
        "#2\nfound 1\nentry /C=NL/O=Acme/CN=Desk\nunexplored subordinate /C=NL/O=Acme done Gamma\nunexplored nonSpecific /C=NL/O=Acme done Delta tried\nunexplored nonSpecific /C=NL/O=Acme done Gamma less OU=Shop tried\nlimit sizeLimitExceeded\n"
    );
    Ok(())
}

/// The summary of a run with the search in one line and a refresh in the next.
fn summed(alloc: Global) -> Result<Text, Fail> {
    let journal = journal(alloc, Vec::new(alloc));
    let mut totals = Totals::new();
    count(&mut totals, &journal, LineOutcome::Answered(found(alloc)?));
    let refreshed = LineOutcome::Refreshed(1, Refreshed::Nothing(Moment(1)), true);
    count(&mut totals, &journal, refreshed);
    Ok(summary(alloc, &totals)?)
}

#[test]
fn a_summary_counts_lines_by_their_first_words(rt: HostRuntime) -> Result<(), Fail> {
    let alloc = rt.alloc();
    let text = summed(alloc)?;
    assert_eq!(rt;
        text.as_str(),
        "summary requests 1 entries 1 subs 0 errors 0 referrals 0 unexplored 3 accepted 0 refreshed 1\n"
    );
    Ok(())
}

/// A request for a refresh.
fn asked(alloc: Global) -> Result<Line, Fail> {
    let from = agent(alloc, "Epsilon")?;
    let to = agent(alloc, "Beta")?;
    Ok(Line::Dis {
        from,
        to,
        operation: ShadowOperation::RequestShadowUpdate,
        agreement: 1,
        fate: Fate::Sent,
    })
}

/// What is printed of a refresh with one message, of which the supplier knows that it was taken or doesn't.
fn refresh(alloc: Global, number: u32, refreshed: Refreshed, heard: bool) -> Result<Text, Fail> {
    let lines = vec![in alloc; asked(alloc)?]?;
    let outcome = LineOutcome::Refreshed(number, refreshed, heard);
    printed(alloc, journal(alloc, lines), outcome)
}

#[test]
fn a_refresh_prints_its_messages_and_what_became_of_it(rt: HostRuntime) -> Result<(), Fail> {
    let alloc = rt.alloc();
    let total = refresh(alloc, 1, Refreshed::Total(Moment(1), 2), true)?;
    assert_eq!(rt;
        total.as_str(),
        "#2\ndis Epsilon Beta requestShadowUpdate 1 sent\nrefreshed 1 total 19930101000001Z 2\n"
    );
    let unheard = refresh(alloc, 1, Refreshed::Incremental(Moment(4), 1), false)?;
    assert_eq!(rt;
        unheard.as_str(),
        "#2\ndis Epsilon Beta requestShadowUpdate 1 sent\nrefreshed 1 incremental 19930101000004Z 1 unacknowledged\n"
    );
    let lost = refresh(alloc, 7, Refreshed::Lost, true)?;
    assert_eq!(rt;
        lost.as_str(),
        "#2\ndis Epsilon Beta requestShadowUpdate 1 sent\nunrefreshed 7\n"
    );
    Ok(())
}

/// What is printed of 26 octets for Alpha with this first breach.
fn rejected(alloc: Global, fate: Fate, breach: Breach) -> Result<Text, Fail> {
    let to = agent(alloc, "Alpha")?;
    let outcome = LineOutcome::Rejected {
        dsp: false,
        to,
        count: 26,
        fate,
        breach,
    };
    printed(alloc, journal(alloc, Vec::new(alloc)), outcome)
}

#[test]
fn octets_that_bring_no_request_print_why(rt: HostRuntime) -> Result<(), Fail> {
    let alloc = rt.alloc();
    let cut = rejected(alloc, Fate::Sent, Breach::Ber(BerFault::Truncated(26)))?;
    assert_eq!(rt;
        cut.as_str(),
        "#2\nraw Alpha dap 26 sent\nreject truncated 26\n"
    );
    let other = rejected(alloc, Fate::Sent, Breach::Unrecognised(-3))?;
    assert_eq!(rt;
        other.as_str(),
        "#2\nraw Alpha dap 26 sent\nreject unrecognised -3\n"
    );
    let lost = rejected(alloc, Fate::Lost, Breach::Ber(BerFault::Truncated(26)))?;
    assert_eq!(rt; lost.as_str(), "#2\nraw Alpha dap 26 lost\n");
    Ok(())
}

/// The removal of Acme's desk, which the user asks of Alpha, or which Alpha passes on to Beta.
fn removal(alloc: Global, passed: bool, fate: Fate) -> Result<Line, Fail> {
    let alpha = agent(alloc, "Alpha")?;
    let (from, to) = if passed {
        (Some(alpha), agent(alloc, "Beta")?)
    } else {
        (None, alpha)
    };
    Ok(Line::Msg {
        from,
        to,
        operation: Operation::RemoveEntry,
        progress: Progress::NotStarted,
        t: if passed { 1 } else { 0 },
        target: name(alloc, "/C=NL/O=Acme/CN=Desk")?,
        fate,
    })
}

/// The removal as the user asks it, and as it's passed on.
fn removals(alloc: Global, fate: Fate) -> Result<Vec<Line>, Fail> {
    let mut lines = Vec::new(alloc);
    lines.push(removal(alloc, false, fate)?)?;
    lines.push(removal(alloc, true, Fate::Sent)?)?;
    Ok(lines)
}

/// What is printed of the removal where 50 octets brought it, and Beta accepted it.
fn handed(alloc: Global, fate: Fate) -> Result<Text, Fail> {
    let lines = removals(alloc, fate)?;
    let beta = agent(alloc, "Beta")?;
    let journal = Journal {
        lines: Listed::from_vec(lines),
        accepted: Listed::from_vec(vec![in alloc; beta]?),
    };
    let outcome = LineOutcome::Handed {
        dsp: false,
        count: 50,
        reply: Reply::Done(Answer::Changed),
    };
    printed(alloc, journal, outcome)
}

#[test]
fn octets_stand_for_the_first_message_of_what_they_bring(rt: HostRuntime) -> Result<(), Fail> {
    let alloc = rt.alloc();
    let heard = handed(alloc, Fate::Sent)?;
    assert_eq!(rt;
        heard.as_str(),
        "#2\nraw Alpha dap 50 sent\nmsg Alpha Beta remove start t=1 /C=NL/O=Acme/CN=Desk sent\naccepted Beta\nchanged\n"
    );
    let unheard = handed(alloc, Fate::NoReply)?;
    assert_eq!(rt;
        unheard.as_str(),
        "#2\nraw Alpha dap 50 noreply\nmsg Alpha Beta remove start t=1 /C=NL/O=Acme/CN=Desk sent\naccepted Beta\n"
    );
    Ok(())
}
