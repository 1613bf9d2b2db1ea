//! Octets from X.690 and by hand; `openssl asn1parse` agrees on what it reads.
use std::alloc::Global;
use std::test::Fail;
use x5_ber::{BerFault, FeedFault, Feeder, LONGEST, Tlv, put_tlv, read_tlv};

/// The name /C=NL.
const NAME: [u8; 15] = [
    0x30, 0x0d, 0x31, 0x0b, 0x30, 0x09, 0x06, 0x03, 0x55, 0x04, 0x06, 0x13, 0x02, 0x4e, 0x4c,
];

/// A request to read it.
const REQUEST: [u8; 27] = [
    0xa1, 0x19, 0x02, 0x01, 0x01, 0x02, 0x01, 0x01, 0x31, 0x11, 0xa0, 0x0f, 0x30, 0x0d, 0x31, 0x0b,
    0x30, 0x09, 0x06, 0x03, 0x55, 0x04, 0x06, 0x13, 0x02, 0x4e, 0x4c,
];

fn read(octets: &[u8], at: usize) -> Result<(Tlv, usize), BerFault> {
    if at > octets.len() {
        return Err(BerFault::Truncated(at));
    }
    read_tlv(octets, at)
}

fn feed(feeder: &mut Feeder, octets: &[u8]) -> Result<usize, FeedFault> {
    feeder.feed(octets)
}

#[test]
fn elements_have_their_first_fault(rt: HostRuntime) {
    for (octets, fault) in [
        ([].as_slice(), BerFault::Truncated(0)),
        ([0x30, 0xff, 0x00].as_slice(), BerFault::BadLength(1)),
        ([0x30, 0x89, 0x00].as_slice(), BerFault::BadLength(1)),
        ([0x04, 0x80, 0x00, 0x00].as_slice(), BerFault::BadLength(1)),
        ([0xbf, 0x1e, 0x00].as_slice(), BerFault::BadTag(0)),
        ([0x1f, 0x80, 0x1f, 0x00].as_slice(), BerFault::BadTag(0)),
        (
            [0x1f, 0x88, 0x80, 0x80, 0x80].as_slice(),
            BerFault::Truncated(5),
        ),
        (
            [0x1f, 0x88, 0x80, 0x80, 0x80, 0x80].as_slice(),
            BerFault::BadTag(0),
        ),
        ([0x00, 0x00].as_slice(), BerFault::BadTag(0)),
        ([0x00].as_slice(), BerFault::Truncated(1)),
        ([0x04, 0x02, 0x01].as_slice(), BerFault::Truncated(3)),
        (
            [0x30, 0x0a, 0x04, 0x20, 0x01].as_slice(),
            BerFault::BadLength(3),
        ),
        (
            [0x30, 0x05, 0x04, 0x82, 0xff].as_slice(),
            BerFault::Truncated(5),
        ),
        ([0x30, 0x05, 0x04, 0x88].as_slice(), BerFault::Truncated(4)),
        (
            [0x30, 0x05, 0x04, 0x88, 0x00, 0x00, 0x00, 0x00].as_slice(),
            BerFault::BadLength(7),
        ),
        (
            [0x30, 0x03, 0x04, 0x82, 0x01].as_slice(),
            BerFault::BadLength(5),
        ),
        (
            [0x30, 0x03, 0x30, 0x80, 0x00].as_slice(),
            BerFault::BadLength(5),
        ),
        (
            [0x30, 0x06, 0x30, 0x80, 0x04, 0x05, 0x01, 0x02].as_slice(),
            BerFault::BadLength(5),
        ),
        ([0x30, 0x02, 0x00, 0x00].as_slice(), BerFault::BadTag(2)),
        (
            [0x30, 0x80, 0x04, 0x01, 0x05, 0x00].as_slice(),
            BerFault::Truncated(6),
        ),
    ] {
        assert_eq!(rt; read(octets, 0), Err(fault));
    }
}

#[test]
fn elements_are_found_with_their_ends(rt: HostRuntime) {
    let nested = [0x30, 0x07, 0x30, 0x80, 0x02, 0x01, 0x05, 0x00, 0x00, 0xff];
    let long = [0x9f, 0x81, 0x49, 0x83, 0x00, 0x00, 0x01, 0xff];
    for (octets, at, class, constructed, tag, start, end, behind) in [
        (NAME.as_slice(), 0, 0, true, 16, 2, 15, 15),
        (NAME.as_slice(), 11, 0, false, 19, 13, 15, 15),
        (nested.as_slice(), 0, 0, true, 16, 2, 9, 9),
        (nested.as_slice(), 2, 0, true, 16, 4, 7, 9),
        (long.as_slice(), 0, 2, false, 201, 7, 8, 8),
        ([0x00, 0x81, 0x00].as_slice(), 0, 0, false, 0, 3, 3, 3),
    ] {
        let wanted = Tlv {
            class,
            constructed,
            tag,
            start,
            end,
        };
        assert_eq!(rt; read(octets, at), Ok((wanted, behind)));
    }
}

/// Constructed elements in one another, 64 deep, without ends.
fn deep(alloc: Global) -> Result<Vec<u8>, Fail> {
    let mut octets = Vec::new(alloc);
    for _ in 0..64 {
        octets.extend_from_slice(&[0x30, 0x80])?;
    }
    Ok(octets)
}

/// These octets behind the 64 headers.
fn deeper(alloc: Global, more: &[u8]) -> Result<Vec<u8>, Fail> {
    let mut octets = deep(alloc)?;
    octets.extend_from_slice(more)?;
    Ok(octets)
}

#[test]
fn the_element_at_depth_65_is_too_deep(rt: HostRuntime) -> Result<(), Fail> {
    let alloc = rt.alloc();
    for (more, fault) in [
        ([].as_slice(), Some(BerFault::Truncated(128))),
        ([0x00].as_slice(), Some(BerFault::Truncated(129))),
        ([0x00, 0x01].as_slice(), Some(BerFault::TooDeep(128))),
        ([0x00; 128].as_slice(), None),
    ] {
        let octets = deeper(alloc, more)?;
        assert_eq!(rt; read(&octets, 0).err(), fault);
    }
    Ok(())
}

/// The rest of the request, and an octet of the next one.
fn rest_and_more(alloc: Global, rest: &[u8]) -> Result<Vec<u8>, Fail> {
    let mut octets = Vec::from_slice(alloc, rest)?;
    octets.push(0x30)?;
    Ok(octets)
}

#[test]
fn a_value_is_one_however_it_is_cut(rt: HostRuntime) -> Result<(), Fail> {
    for cut in 0..27usize {
        let rest = rest_and_more(rt.alloc(), &REQUEST[cut..])?;
        let mut feeder = Feeder::new(rt.alloc());
        assert_eq!(rt; feed(&mut feeder, &REQUEST[..cut]), Ok(cut));
        assert!(rt; feeder.whole().is_none());
        assert_eq!(rt; feed(&mut feeder, &rest), Ok(27 - cut));
        assert_eq!(rt; feeder.whole(), Some(REQUEST.as_slice()));
        assert_eq!(rt; feed(&mut feeder, &rest), Ok(0));
    }
    Ok(())
}

#[test]
fn a_fault_stands_until_it_is_cleared(rt: HostRuntime) {
    let mut feeder = Feeder::new(rt.alloc());
    let fault = FeedFault::Ber(BerFault::BadLength(3));
    assert_eq!(rt; feed(&mut feeder, &[0x30, 0x0a, 0x04]), Ok(3));
    assert_eq!(rt; feed(&mut feeder, &[0x20]), Err(fault));
    assert_eq!(rt; feed(&mut feeder, &[]), Err(fault));
    feeder.clear();
    assert_eq!(rt; feed(&mut feeder, &NAME), Ok(15));
}

/// An octet string of a mebibyte.
fn mebibyte(alloc: Global) -> Result<Vec<u8>, Fail> {
    let content = vec![in alloc; 7u8; 1_048_576]?;
    let mut octets = Vec::new(alloc);
    put_tlv(&mut octets, 0, false, 4, &content)?;
    Ok(octets)
}

fn feed_each(feeder: &mut Feeder, octets: &[u8]) {
    for octet in octets {
        let _ = feeder.feed(&[*octet]);
    }
}

#[test]
fn a_mebibyte_comes_octet_by_octet(rt: HostRuntime) -> Result<(), Fail> {
    let octets = mebibyte(rt.alloc())?;
    assert_eq!(rt; octets.len(), 1_048_581);
    let mut feeder = Feeder::new(rt.alloc());
    feed_each(&mut feeder, &octets);
    assert_eq!(rt; feeder.whole(), Some(octets.as_slice()));
    Ok(())
}

#[test]
fn a_value_past_16_mib_is_too_long(rt: HostRuntime) -> Result<(), Fail> {
    let content = vec![in rt.alloc(); 0u8; LONGEST - 6]?;
    let mut feeder = Feeder::new(rt.alloc());
    assert_eq!(rt;
        feed(&mut feeder, &[0x04, 0x84, 0x01, 0x00, 0x00, 0x00]),
        Ok(6)
    );
    assert_eq!(rt; feed(&mut feeder, &content), Ok(LONGEST - 6));
    assert_eq!(rt; feed(&mut feeder, &[]), Ok(0));
    assert_eq!(rt; feed(&mut feeder, &[0]), Err(FeedFault::TooLong));
    assert_eq!(rt; feed(&mut feeder, &[]), Err(FeedFault::TooLong));
    Ok(())
}
