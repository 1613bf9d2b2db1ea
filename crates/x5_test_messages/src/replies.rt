//! Answers to users as octets, by hand: a result of each kind, each error and a referral are read as what they are, and written back.
use crate::spelled::octets;
use std::alloc::Global;
use std::test::Fail;
use x5_dapreply::{decode_answer, encode_answer};
use x5_ops::{Answer, DirError, Operation, Reply};

/// The result of a read: /C=NL with its country, from the root's context at agent A.
const ENTRY: &str =
    "a2350201053030020101312ba020301e300d310b3009060355040613024e4c310d300b0603550406310413024e4ca107\
     30053000130141";

/// That of a compare: it matched, at a copy of a minute after the start.
const MATCH: &str = "a220020105301b0201023116a0030101ffa103010100a20a3008300013014102013c";

/// That of a list: C=NL, cut by the size limit.
const LISTED: &str =
    "a231020105302c0201043127a011300f300d310b3009060355040613024e4ca109300730053000130141a2073105a003\
     020101";

/// That of a search: nothing, and a part that nobody looked into, of which agent A has a copy.
const FOUND: &str =
    "a2380201053033020105312ea0023000a1023000a2243122a120301e311ca0023000a10530030a0101a203020102a30a\
     300830061301410101ff";

/// That of an update, here a removal.
const CHANGED: &str = "a20a02010530050201070500";

const ATTRIBUTE: &str = "a31002010502010130080201010603550406";

const NAME: &str = "a30d02010502010230050201013000";

/// A loop, with the trace item of agent A.
const SERVICE: &str = "a31c0201050201033014020109a10f300d130141300030060a0102020101";

/// To the superior agent A, without C=NL, asked in vain.
const REFERRAL: &str =
    "a337020105020104312fa0023000a10530030a0103a203020101a30730053003130141a40f300d310b30090603550406\
     13024e4ca5030101ff";

const UPDATE: &str = "a30b0201050201083003020103";

/// What the reply is.
fn kind(reply: &Reply) -> &'static str {
    match reply {
        Reply::Done(Answer::Entry { .. }) => "entry",
        Reply::Done(Answer::Match { .. }) => "match",
        Reply::Done(Answer::Listed { .. }) => "listed",
        Reply::Done(Answer::Found { .. }) => "found",
        Reply::Done(Answer::Changed) => "changed",
        Reply::Failed(DirError::Name { .. }) => "name",
        Reply::Failed(DirError::Attribute { .. }) => "attribute",
        Reply::Failed(DirError::Update { .. }) => "update",
        Reply::Failed(DirError::Service { .. }) => "service",
        Reply::Refer(_) => "referral",
    }
}

/// Whether the octets are read as such a reply to request 5, which is written as them again.
fn comes_back(
    alloc: Global,
    digits: &str,
    operation: Operation,
    wanted: &str,
) -> Result<bool, Fail> {
    let octets = octets(alloc, digits)?;
    let (id, reply) = decode_answer(alloc, &octets)?;
    let written = encode_answer(alloc, id, operation, &reply);
    let kind = kind(&reply);
    drop(reply);
    Ok(id == 5 && kind == wanted && written?.as_slice() == octets.as_slice())
}

#[test]
fn results_come_back(rt: HostRuntime) -> Result<(), Fail> {
    for (digits, operation, wanted) in [
        (ENTRY, Operation::Read, "entry"),
        (MATCH, Operation::Compare, "match"),
        (LISTED, Operation::List, "listed"),
        (FOUND, Operation::Search, "found"),
        (CHANGED, Operation::RemoveEntry, "changed"),
    ] {
        assert!(rt; comes_back(rt.alloc(), digits, operation, wanted)?);
    }
    Ok(())
}

#[test]
fn errors_and_referrals_come_back(rt: HostRuntime) -> Result<(), Fail> {
    for (digits, operation, wanted) in [
        (NAME, Operation::Read, "name"),
        (ATTRIBUTE, Operation::Read, "attribute"),
        (UPDATE, Operation::ModifyEntry, "update"),
        (SERVICE, Operation::Read, "service"),
        (REFERRAL, Operation::Read, "referral"),
    ] {
        assert!(rt; comes_back(rt.alloc(), digits, operation, wanted)?);
    }
    Ok(())
}
