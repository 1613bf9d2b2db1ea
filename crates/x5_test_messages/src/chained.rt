//! Messages between agents as octets, by hand: what they ask and what is answered are read, and written back; octets that are none have
//! their first breach.
use crate::spelled::{front, octets};
use std::alloc::Global;
use std::test::Fail;
use x5_dspber::{
    BerFault, WireFault, decode_chained, decode_result, encode_chained, encode_result,
};
use x5_ops::Operation;

/// To read the root, which agent A has passed on.
const READ: &str =
    "a13002010102010130283120a0023000a10530030a0101a20e300c300a130141300030030a0101a3030201023104a002\
     3000";

/// To search the tree below C=NL, from its second RDN on and without another C=NL, by a nonSpecific reference, as agent A was asked.
const SEARCH: &str =
    "a15902010502010530513144a00f300d310b3009060355040613024e4ca10830060a0102020102a211300f300d130141\
     300030030a01030101ffa303020104a40f300d310b3009060355040613024e4c3109a0023000a103020102";

/// To read the root, with agent A's item twice in the trace.
const COME_ROUND: &str =
    "a13c0201010201013034312ca0023000a10530030a0101a21a3018300a130141300030030a0101300a13014130003003\
     0a0101a3030201023104a0023000";

/// A user's request to read the root.
const ASKED: &str = "a10c0201010201013104a0023000";

/// The result of an update, here a removal.
const CHANGED: &str = "a20a02010530050201070500";

/// There is no such object.
const NAME: &str = "a30d02010502010230050201013000";

/// To the superior agent A.
const REFERRAL: &str = "a3210201050201093119a0023000a10530030a0103a203020101a30730053003130141";

/// Whether the octets are read as a message with the id, which is written as them again.
fn message_comes_back(alloc: Global, digits: &str, wanted: u32) -> Result<bool, Fail> {
    let octets = octets(alloc, digits)?;
    let (id, message) = decode_chained(alloc, &octets)?;
    let written = encode_chained(alloc, id, &message);
    drop(message);
    Ok(id == wanted && written?.as_slice() == octets.as_slice())
}

/// Whether the octets are read as a reply to message 5, which is written as them again.
fn reply_comes_back(alloc: Global, digits: &str, operation: Operation) -> Result<bool, Fail> {
    let octets = octets(alloc, digits)?;
    let (id, reply) = decode_result(alloc, &octets)?;
    let written = encode_result(alloc, id, operation, &reply);
    drop(reply);
    Ok(id == 5 && written?.as_slice() == octets.as_slice())
}

#[test]
fn messages_between_agents_come_back(rt: HostRuntime) -> Result<(), Fail> {
    for (digits, id) in [(READ, 1), (SEARCH, 5)] {
        assert!(rt; message_comes_back(rt.alloc(), digits, id)?);
    }
    Ok(())
}

#[test]
fn replies_to_agents_come_back(rt: HostRuntime) -> Result<(), Fail> {
    for (digits, operation) in [
        (CHANGED, Operation::RemoveEntry),
        (NAME, Operation::Read),
        (REFERRAL, Operation::Read),
    ] {
        assert!(rt; reply_comes_back(rt.alloc(), digits, operation)?);
    }
    Ok(())
}

#[test]
fn other_octets_are_no_message_between_agents(rt: HostRuntime) -> Result<(), Fail> {
    for (digits, wanted) in [
        (COME_ROUND, WireFault::Ber(BerFault::BadContent(25))),
        (ASKED, WireFault::Ber(BerFault::BadTag(8))),
        (CHANGED, WireFault::Ber(BerFault::BadTag(0))),
        ("a106020101020103", WireFault::Unrecognised(3)),
    ] {
        let octets = octets(rt.alloc(), digits)?;
        assert_eq!(rt; decode_chained(rt.alloc(), &octets).err(), Some(wanted));
    }
    Ok(())
}

#[test]
fn a_message_that_is_cut_off_is_none(rt: HostRuntime) -> Result<(), Fail> {
    let octets = front(rt.alloc(), READ, 49)?;
    let wanted = WireFault::Ber(BerFault::Truncated(49));
    assert_eq!(rt; decode_chained(rt.alloc(), &octets).err(), Some(wanted));
    Ok(())
}

#[test]
fn a_referral_to_a_user_is_none_to_an_agent(rt: HostRuntime) -> Result<(), Fail> {
    let octets = octets(rt.alloc(), "a306020105020104")?;
    assert_eq!(rt;
        decode_result(rt.alloc(), &octets).err(),
        Some(WireFault::Unrecognised(4))
    );
    Ok(())
}
