//! Messages of shadowing as octets, by hand, in a world that starts on 1 January 1993 and has agents A and B: they are read, and written
//! back; octets that are none have their first breach.
use crate::spelled::{front, octets};
use jiff::civil::Date;
use std::alloc::Global;
use std::test::Fail;
use x5_dispber::{
    BerFault, ReadEntries, Shadow, WireFault, WrittenEntries, decode_shadow, encode_shadow,
};
use x5_know::{AgentNames, Start};
use x5_ops::AgentName;
use x5_syntax::Text;

/// To be sent all of agreement 1.
const ASK: &str = "a10e02010102010130060201010a0102";

/// That what changed of agreement 7 since second 1 will be sent.
const COORDINATE: &str = "a1210201020201033019020107a011180f31393933303130313030303030315a0a0101";

/// All of C=NL at the start: its entry, and it as a context below with master A and a copy at B, and B at the root.
const TOTAL: &str =
    "a172020103020102306a020101180f31393933303130313030303030305aa05430523021301f300d310b300906035504\
     0613024e4c310e300c0603550400310506035506023020301e300d310b3009060355040613024e4c300d300313014130\
     061301420101ff300b3009300030053003130142";

/// Changes until second 5: C=NL is added, is removed, and gets its own name.
const STEPS: &str =
    "a18189020104020102308180020101180f31393933303130313030303030355aa16a3068a021301f300d310b30090603\
     55040613024e4c310e300c060355040031050603550602a10f300d310b3009060355040613024e4ca3323030300d310b\
     3009060355040613024e4c301f300d310b3009060355040613024e4c310e300c060355040031050603550602";

/// That nothing changed until second 5.
const NOTHING: &str = "a11e0201060201023016020101180f31393933303130313030303030355a0500";

/// That until second 6 C=NL became another entry.
const MODIFY: &str =
    "a143020107020102303b020101180f31393933303130313030303030365aa1253023a221301f300d310b300906035504\
     0613024e4c310e300c060355040031050603550602";

/// Changes until second 5: a part of C=NL is added, which isn't all from the entry.
const PART: &str =
    "a146020108020102303e020101180f31393933303130313030303030355aa1283026a0243022300d310b300906035504\
     0613024e4c010100310e300c060355040031050603550602";

/// All of a context without entries, with C=NL as a context below that has a copy at B and no master.
const NO_MASTER: &str =
    "a1410201090201023039020101180f31393933303130313030303030355aa02330213000301b3019300d310b30090603\
     55040613024e4c300830061301420101ff3000";

/// The result of a refresh.
const DONE: &str = "a20a02010530050201020500";

/// Problem 5, with the moments that are held and were given.
const FAILED: &str =
    "a3310201050201013029020105a011180f31393933303130313030303030315aa111180f313939333031303130303030\
     30325a";

/// The time of `COORDINATE`, and the octet of it in `TOTAL` that names the master.
const TIME: usize = 15;

const MASTER: usize = 94;

/// The last letter of the entry's name in `TOTAL`.
const LETTER: usize = 52;

/// Where the entry of `PART` begins, and the reference of `NO_MASTER`.
const ENTRY: usize = 36;

const KNOWN: usize = 38;

fn start() -> Option<Start> {
    match Date::new(1993, 1, 1) {
        Ok(date) => Start::new(date, 0),
        Err(_) => None,
    }
}

fn agents(alloc: Global) -> Result<AgentNames, Fail> {
    let mut names = AgentNames::new(alloc);
    let _a = names.add(AgentName::new(Text::new(alloc, "A")?))?;
    let _b = names.add(AgentName::new(Text::new(alloc, "B")?))?;
    Ok(names)
}

/// Whether the octets are read as a message with the id between these agents, which is written as them again.
fn octets_come_back_to(
    alloc: Global,
    start: &Start,
    names: &AgentNames,
    last: &mut WrittenEntries,
    octets: &[u8],
    wanted: u32,
) -> Result<bool, Fail> {
    let mut seen = ReadEntries::none(alloc);
    let read = decode_shadow(alloc, start, names, &mut seen, octets);
    drop(seen);
    let (id, message) = read?;
    let written = encode_shadow(alloc, start, names, last, id, &message);
    drop(message);
    Ok(id == wanted && written?.as_slice() == octets)
}

/// The same in the world, whatever was written last.
fn octets_come_back(
    alloc: Global,
    last: &mut WrittenEntries,
    octets: &[u8],
    wanted: u32,
) -> Result<bool, Fail> {
    let Some(start) = start() else {
        return Ok(false);
    };
    let names = agents(alloc)?;
    let back = octets_come_back_to(alloc, &start, &names, last, octets, wanted);
    drop(names);
    back
}

/// The same of octets by their digits, where nothing was written before.
fn message_comes_back(alloc: Global, digits: &str, wanted: u32) -> Result<bool, Fail> {
    let octets = octets(alloc, digits)?;
    let mut last = WrittenEntries::none();
    let back = octets_come_back(alloc, &mut last, &octets, wanted);
    drop(last);
    back
}

#[test]
fn messages_of_shadowing_come_back(rt: HostRuntime) -> Result<(), Fail> {
    for (digits, id) in [(ASK, 1), (COORDINATE, 2), (DONE, 5), (FAILED, 5)] {
        assert!(rt; message_comes_back(rt.alloc(), digits, id)?);
    }
    Ok(())
}

#[test]
fn refreshes_come_back(rt: HostRuntime) -> Result<(), Fail> {
    for (digits, id) in [(TOTAL, 3), (STEPS, 4), (NOTHING, 6), (MODIFY, 7)] {
        assert!(rt; message_comes_back(rt.alloc(), digits, id)?);
    }
    Ok(())
}

/// The first breach of the octets, if they have one.
fn fault(alloc: Global, octets: &[u8]) -> Result<Option<WireFault>, Fail> {
    let Some(start) = start() else {
        return Ok(None);
    };
    let names = agents(alloc)?;
    let mut seen = ReadEntries::none(alloc);
    let fault = decode_shadow(alloc, &start, &names, &mut seen, octets).err();
    drop(seen);
    drop(names);
    Ok(fault)
}

/// The octets with another one at the place.
fn changed(alloc: Global, digits: &str, place: usize, octet: u8) -> Result<Vec<u8>, Fail> {
    let mut other = octets(alloc, digits)?;
    if place < other.len() {
        other[place] = octet;
    }
    Ok(other)
}

/// Whether the refresh comes back with each letter, one after the other.
fn letters_come_back(alloc: Global, last: &mut WrittenEntries) -> Result<bool, Fail> {
    // C=NL twice, then C=NO, and C=NL again
    for letter in [0x4c, 0x4c, 0x4f, 0x4c] {
        let octets = changed(alloc, TOTAL, LETTER, letter)?;
        if !octets_come_back(alloc, last, &octets, 3)? {
            return Ok(false);
        }
    }
    Ok(true)
}

#[test]
fn refreshes_come_back_whatever_was_written_last(rt: HostRuntime) -> Result<(), Fail> {
    let mut last = WrittenEntries::none();
    let back = letters_come_back(rt.alloc(), &mut last);
    drop(last);
    assert!(rt; back?);
    Ok(())
}

#[test]
fn times_and_agents_are_the_world_s(rt: HostRuntime) -> Result<(), Fail> {
    let alloc = rt.alloc();
    // 0993, before the start; and agent C, whom the world lacks
    for (digits, place, octet, breach) in [
        (COORDINATE, TIME + 2, 0x30, TIME),
        (TOTAL, MASTER, 0x43, MASTER - 2),
    ] {
        let octets = changed(alloc, digits, place, octet)?;
        let wanted = WireFault::Ber(BerFault::BadContent(breach));
        assert_eq!(rt; fault(alloc, &octets)?, Some(wanted));
    }
    Ok(())
}

#[test]
fn other_octets_are_no_message_of_shadowing(rt: HostRuntime) -> Result<(), Fail> {
    for (digits, wanted) in [
        (PART, WireFault::Ber(BerFault::BadContent(ENTRY))),
        (NO_MASTER, WireFault::Ber(BerFault::BadContent(KNOWN))),
        ("a106020101020104", WireFault::Unrecognised(4)),
        ("a306020105020102", WireFault::Unrecognised(2)),
        (
            "a2080201053003020102",
            WireFault::Ber(BerFault::BadContent(5)),
        ),
    ] {
        let octets = octets(rt.alloc(), digits)?;
        assert_eq!(rt; fault(rt.alloc(), &octets)?, Some(wanted));
    }
    Ok(())
}

#[test]
fn a_message_of_shadowing_that_is_cut_off_is_none(rt: HostRuntime) -> Result<(), Fail> {
    let octets = front(rt.alloc(), ASK, 15)?;
    let wanted = WireFault::Ber(BerFault::Truncated(15));
    assert_eq!(rt; fault(rt.alloc(), &octets)?, Some(wanted));
    Ok(())
}
