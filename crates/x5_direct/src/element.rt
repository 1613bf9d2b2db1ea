//! Elements as they're usually spelled: an identifier of one octet and a definite length (X.690, 8.1).
ghost use Rattle.std.specs.Prelude.{◌<◌, ◌≤◌, ◌%◌, [], ◌∷◌, IfOk, IfSome, length};
ghost use Rattle.x5_direct.specs.Spelled.{HasLength, Opens};

use crate::unread::Unread;

/// A length of one octet behind 0x81, and the octets behind it.
#[inline]
fn one_octet(octets: &[u8]) -> Option<(usize, &[u8])>
    ensures has { IfSome result (λ r. HasLength r.0 (129 ∷ octets.now) r.1.now) }
    ensures less { IfSome result (λ r. length r.1.now ≤ length octets.now) }
{
    let [low, rest @ ..] = octets else {
        return None;
    };
    Some((*low as usize, rest))
}

/// A length of two octets behind 0x82, and the octets behind it.
#[inline]
fn two_octets(octets: &[u8]) -> Option<(usize, &[u8])>
    ensures has { IfSome result (λ r. HasLength r.0 (130 ∷ octets.now) r.1.now) }
    ensures less { IfSome result (λ r. length r.1.now ≤ length octets.now) }
{
    let [high, low, rest @ ..] = octets else {
        return None;
    };
    Some((*high as usize * 256 + *low as usize, rest))
}

/// A length of three octets behind 0x83, and the octets behind it.
#[inline]
fn three_octets(octets: &[u8]) -> Option<(usize, &[u8])>
    ensures has { IfSome result (λ r. HasLength r.0 (131 ∷ octets.now) r.1.now) }
    ensures less { IfSome result (λ r. length r.1.now ≤ length octets.now) }
{
    let [high, middle, low, rest @ ..] = octets else {
        return None;
    };
    Some((
        *high as usize * 65536 + *middle as usize * 256 + *low as usize,
        rest,
    ))
}

/// The length that the octets begin with, if it's definite and below 2^24, and the octets behind it.
#[inline]
fn length_of(octets: &[u8]) -> Option<(usize, &[u8])>
    ensures has { IfSome result (λ r. HasLength r.0 octets.now r.1.now) }
    ensures less { IfSome result (λ r. length r.1.now < length octets.now) }
{
    let [first, rest @ ..] = octets else {
        return None;
    };
    if *first < 128 {
        return Some((*first as usize, rest));
    }
    if *first == 0x81 {
        return one_octet(rest);
    }
    if *first == 0x82 {
        return two_octets(rest);
    }
    if *first == 0x83 {
        return three_octets(rest);
    }
    None
}

/// The content of the element that the octets begin with, if that octet identifies it, and the octets behind it.
#[inline]
pub fn opened(first: u8, octets: &[u8]) -> Result<(&[u8], &[u8]), Unread>
    requires { first % 32 < 31 }
    ensures opens { IfOk result (λ r. Opens first r.0.now octets.now r.1.now) }
    ensures less { IfOk result (λ r. length r.1.now < length octets.now) }
{
    let [octet, behind @ ..] = octets else {
        return Err(Unread::Unusual);
    };
    if *octet != first {
        return Err(Unread::Unusual);
    }
    let Some((count, behind)) = length_of(behind) else {
        return Err(Unread::Unusual);
    };
    if behind.len() < count {
        return Err(Unread::Unusual);
    }
    Ok((&behind[..count], &behind[count..]))
}

/// The content of the one element that the octets are, if that octet identifies it.
#[inline]
pub fn whole(first: u8, octets: &[u8]) -> Result<&[u8], Unread>
    requires { first % 32 < 31 }
    ensures { IfOk result (λ content. Opens first content.now octets.now []) }
{
    let (content, rest) = opened(first, octets)?;
    if !rest.is_empty() {
        return Err(Unread::Unusual);
    }
    Ok(content)
}
