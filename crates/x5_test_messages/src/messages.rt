//! Octets as values of the types of messages: a request to read /C=NL, and octets that are none, by hand.
use crate::spelled::{front, octets};
use std::alloc::Global;
use std::test::Fail;
use x5_ber::BerFault;
use x5_typed::{Breach, Named, Node, ReadFault, read};

/// A request to read the name /C=NL, with an octet of another one behind it.
const REQUEST: &str = "a1190201010201013111a00f300d310b3009060355040613024e4ca1";

/// A chained request to read the root, which agent A has passed on.
const CHAINED: &str =
    "a13002010102010130283120a0023000a10530030a0101a20e300c300a130141300030030a0101a3030201023104a002\
     3000";

/// The trace of agent A's item, twice.
const COME_ROUND: &str = "3018300a130141300030030a0101300a130141300030030a0101";

/// How many components an argument has whose request is the node.
fn components(node: &Node<'_>) -> usize {
    match node {
        Node::Chosen(1, request) => match request.parts() {
            [Node::Number(1), Node::Number(1), argument] => argument.parts().len(),
            _ => 0,
        },
        _ => 0,
    }
}

fn breach(alloc: Global, form: Named, octets: &[u8]) -> Option<Breach> {
    match read(alloc, form, octets).err() {
        Some(ReadFault::Breach(breach)) => Some(breach),
        _ => None,
    }
}

/// How many components the argument has of the request that the octets are.
fn components_in(alloc: Global, form: Named, octets: &[u8]) -> Result<usize, Fail> {
    let node = read(alloc, form, octets)?;
    let count = components(&node);
    drop(node);
    Ok(count)
}

#[test]
fn a_request_is_read(rt: HostRuntime) -> Result<(), Fail> {
    let octets = front(rt.alloc(), REQUEST, 27)?;
    let count = components_in(rt.alloc(), Named::DapRequest, &octets)?;
    assert_eq!(rt; count, 3);
    Ok(())
}

#[test]
fn a_chained_request_is_read(rt: HostRuntime) -> Result<(), Fail> {
    let octets = octets(rt.alloc(), CHAINED)?;
    let count = components_in(rt.alloc(), Named::DspRequest, &octets)?;
    assert_eq!(rt; count, 2);
    Ok(())
}

#[test]
fn octets_of_requests_have_their_first_breach(rt: HostRuntime) -> Result<(), Fail> {
    for (form, count, wanted) in [
        (Named::DapRequest, 28, BerFault::BadTag(27)),
        (Named::DapRequest, 26, BerFault::Truncated(26)),
        (Named::DapAnswer, 27, BerFault::BadTag(0)),
    ] {
        let octets = front(rt.alloc(), REQUEST, count)?;
        assert_eq!(rt;
            breach(rt.alloc(), form, &octets),
            Some(Breach::Ber(wanted))
        );
    }
    Ok(())
}

#[test]
fn octets_of_parts_have_their_first_breach(rt: HostRuntime) -> Result<(), Fail> {
    for (form, digits, wanted) in [
        (
            Named::DapRequest,
            "a106020101020103",
            Breach::Unrecognised(3),
        ),
        (
            Named::Trace,
            COME_ROUND,
            Breach::Ber(BerFault::BadContent(0)),
        ),
        (
            Named::Value,
            "3306040141130141",
            Breach::Ber(BerFault::BadTag(5)),
        ),
        (
            Named::Selection,
            "3108a1023100a1023100",
            Breach::Ber(BerFault::BadContent(6)),
        ),
    ] {
        let octets = octets(rt.alloc(), digits)?;
        assert_eq!(rt; breach(rt.alloc(), form, &octets), Some(wanted));
    }
    Ok(())
}
