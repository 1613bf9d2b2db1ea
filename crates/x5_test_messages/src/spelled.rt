//! Octets as hexadecimal digits.
use std::alloc::Global;
use std::test::Fail;

/// The octets that the digits spell.
pub(crate) fn octets(alloc: Global, digits: &str) -> Result<Vec<u8>, Fail> {
    Ok(hex::decode(alloc, digits)?)
}

/// The first of them.
pub(crate) fn front(alloc: Global, digits: &str, count: usize) -> Result<Vec<u8>, Fail> {
    let mut octets = octets(alloc, digits)?;
    octets.truncate(count);
    Ok(octets)
}
