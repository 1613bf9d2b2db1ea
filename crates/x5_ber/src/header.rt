//! Identifier and length octets (X.690, 8.1.2 and 8.1.3), read from octets that lie in two pieces.
ghost use Rattle.std.specs.Prelude.{◌≡◌, ℕ, List, ◌+◌, ◌-◌, ◌^◌, ◌<◌, ◌≤◌, Bool, [], ◌∷◌, ◌++◌, length, take, drop, MatchOption, MatchResult, Ok, Err};
ghost use Rattle.x5_model_octets.specs.Headers.{groups_at, identifier_at, identifier_of, length_at, big_endian};
ghost use Rattle.x5_model_octets.specs.Faults.{runs_out, begins_with_end, seen, end_fault, may_extend, head_at, outermost};
ghost use Rattle.x5_ber.specs.Views.{stop_of, identifier_view, head_view, around_view, fault_view};

use crate::element::BerFault;

/// Elements lie one in another at most so deep; the outermost has depth 1.
pub(crate) const DEEPEST: usize = 64;

/// Why no identifier or no length was read.
#[derive(Clone, Copy, PartialEq, Eq, Drop)]
pub(crate) enum Stop {
    /// The octets end first.
    Short,
    /// No octets that follow make it right.
    Malformed,
}

/// What identifier octets say: the class (0 universal, 1 application, 2 context-specific, 3 private),
/// whether the content is elements, and the tag number, which is below 2^31.
#[derive(Clone, Copy, PartialEq, Eq)]
pub struct Identifier {
    pub class: u8,
    pub constructed: bool,
    pub tag: u32,
}

/// A header: its identifier, its length or `None` for the indefinite form, and the place of the
/// first content octet.
#[derive(Clone, Copy, PartialEq, Eq)]
pub struct Head {
    pub identifier: Identifier,
    pub extent: Option<u64>,
    pub content: usize,
}

/// Where an element has to begin: its depth, where the content of the nearest enclosing element with
/// a definite length ends, and whether the innermost enclosing one has the indefinite form.
#[derive(Clone, Copy, PartialEq, Eq)]
pub(crate) struct Around {
    pub depth: usize,
    pub limit: Option<u128>,
    pub closes: bool,
}

/// The octet at a place before the end, if there is one.
#[inline(always)]
fn octet(front: &[u8], piece: &[u8], end: usize, place: usize) -> Option<u8>
    requires { end ≤ length front.now + length piece.now }
    ensures { let octets = drop place (take end (front.now ++ piece.now)) in
        MatchOption result (octets ≡ []) (λ o. (place < end) × (octets ≡ o ∷ drop (place + 1) (take end (front.now ++ piece.now)))) }
{
    if place >= end {
        None
    } else if place < front.len() {
        Some(front[place])
    } else {
        Some(piece[place - front.len()])
    }
}

/// Reads the groups of a high tag number: the number, and the place after them.
fn read_groups(front: &[u8], piece: &[u8], end: usize, start: usize) -> Result<(u32, usize), Stop>
    requires { end ≤ length front.now + length piece.now }
    ensures { let octets = take end (front.now ++ piece.now) in
        MatchResult result
        (λ found. groups_at 0 (drop start octets) ≡ Ok (found.0, drop found.1 octets) × (start < found.1) × (found.1 ≤ end))
        (λ stop. groups_at 0 (drop start octets) ≡ Err (stop_of stop)) }
{
    let mut tag: u64 = 0;
    let mut place = start;
    while let Some(group) = octet(front, piece, end, place) {
        tag = tag * 128 + (group % 128) as u64;
        place += 1;
        if tag >= 0x8000_0000 {
            return Err(Stop::Malformed);
        }
        if group < 128 {
            return Ok((tag as u32, place));
        }
    }
    Err(Stop::Short)
}

/// The number that the octets from a place to the end give, the highest first.
fn read_number(front: &[u8], piece: &[u8], end: usize, start: usize) -> u64
    requires few { end ≤ start + 8 }
    requires order { start ≤ end }
    requires there { end ≤ length front.now + length piece.now }
    ensures { result ≡ big_endian 0 (drop start (take end (front.now ++ piece.now))) }
{
    let mut number: u64 = 0;
    let mut place = start;
    while let Some(digit) = octet(front, piece, end, place) {
        number = number * 256 + digit as u64;
        place += 1;
    }
    number
}

/// The identifier that a first octet and a tag number give.
#[inline(always)]
fn made_identifier(first: u8, tag: u32) -> Identifier
    ensures { identifier_view result ≡ identifier_of first tag }
{
    Identifier {
        class: first / 64,
        constructed: first / 32 % 2 == 1,
        tag,
    }
}

/// Reads identifier octets: what they say, and the place after them.
#[inline(always)]
fn read_identifier(
    front: &[u8],
    piece: &[u8],
    end: usize,
    start: usize,
) -> Result<(Identifier, usize), Stop>
    requires { end ≤ length front.now + length piece.now }
    ensures { let octets = take end (front.now ++ piece.now) in
        MatchResult result
        (λ found. identifier_at (drop start octets) ≡ Ok (identifier_view found.0, drop found.1 octets) × (start < found.1) × (found.1 ≤ end))
        (λ stop. identifier_at (drop start octets) ≡ Err (stop_of stop)) }
{
    let first = octet(front, piece, end, start).ok_or(Stop::Short)?;
    if first % 32 != 31 {
        return Ok((made_identifier(first, (first % 32) as u32), start + 1));
    }
    let second = octet(front, piece, end, start + 1).ok_or(Stop::Short)?;
    if second == 128 {
        return Err(Stop::Malformed);
    }
    let (tag, place) = read_groups(front, piece, end, start + 1)?;
    if tag < 31 {
        return Err(Stop::Malformed);
    }
    Ok((made_identifier(first, tag), place))
}

/// Reads length octets: the length, or `None` for the indefinite form, and the place after them.
#[inline(always)]
fn read_length(
    front: &[u8],
    piece: &[u8],
    end: usize,
    start: usize,
) -> Result<(Option<u64>, usize), Stop>
    requires { end ≤ length front.now + length piece.now }
    ensures { let octets = take end (front.now ++ piece.now) in
        MatchResult result
        (λ found. length_at (drop start octets) ≡ Ok (found.0, drop found.1 octets) × (start < found.1) × (found.1 ≤ end))
        (λ stop. length_at (drop start octets) ≡ Err (stop_of stop)) }
{
    let Some(first) = octet(front, piece, end, start) else {
        return Err(Stop::Short);
    };
    if first < 128 {
        return Ok((Some(first as u64), start + 1));
    }
    if first == 128 {
        return Ok((None, start + 1));
    }
    if first > 136 {
        return Err(Stop::Malformed);
    }
    let count = (first - 128) as usize;
    let digits = start + 1;
    if end - digits < count {
        return Err(Stop::Short);
    }
    Ok((
        Some(read_number(front, piece, digits + count, digits)),
        digits + count,
    ))
}

/// Whether no octet is left, or within the indefinite form a single 00 that may begin
/// end-of-contents octets.
#[inline(always)]
fn is_cut_off(front: &[u8], piece: &[u8], end: usize, at: usize, closes: bool) -> bool
    requires { end ≤ length front.now + length piece.now }
    ensures { result ≡ runs_out closes (drop at (take end (front.now ++ piece.now))) }
{
    match octet(front, piece, end, at) {
        None => true,
        Some(first) => octet(front, piece, end, at + 1).is_none() && closes && first == 0,
    }
}

/// Whether end-of-contents octets stand at the place.
#[inline(always)]
pub(crate) fn stands_end(front: &[u8], piece: &[u8], end: usize, at: usize) -> bool
    requires { end ≤ length front.now + length piece.now }
    ensures { result ≡ begins_with_end (drop at (take end (front.now ++ piece.now))) }
{
    match octet(front, piece, end, at) {
        Some(0) => matches!(octet(front, piece, end, at + 1), Some(0)),
        _ => false,
    }
}

impl Around {
    /// What stands around an element that lies in no other.
    pub(crate) const OUTERMOST: Around = Around {
        depth: 1,
        limit: None,
        closes: false,
    };

    /// How many of so many octets stand before the enclosing end.
    #[inline(always)]
    pub(crate) fn end(&self, total: usize) -> usize
        ensures few { result ≤ total }
        ensures seen { (input : List ℕ) → length input ≡ total → seen self.now.limit input ≡ take result input }
    {
        match self.limit {
            Some(limit) if limit < total as u128 => limit as usize,
            _ => total,
        }
    }

    /// The fault where an octet is wanted behind the last one.
    fn end_fault(&self, total: usize) -> BerFault
        ensures { (input : List ℕ) → length input ≡ total → end_fault self.now.limit input ≡ fault_view result }
    {
        match self.limit {
            Some(limit) if limit <= total as u128 => BerFault::BadLength(limit as usize),
            _ => BerFault::Truncated(total),
        }
    }

    /// Whether a header's length may stand here.
    #[inline(always)]
    fn admits(&self, head: Head) -> bool
        ensures { result ≡ may_extend self.now.limit (head_view head) }
    {
        match (head.extent, self.limit) {
            (None, _) => head.identifier.constructed,
            (Some(_), None) => true,
            (Some(extent), Some(limit)) => head.content as u128 + extent as u128 <= limit,
        }
    }
}

/// Reads the header of the element that has to begin at the place, or finds its first fault.
#[inline(always)]
pub(crate) fn read_head(
    front: &[u8],
    piece: &[u8],
    around: &Around,
    at: usize,
) -> Result<Head, BerFault>
    ensures { let input = front.now ++ piece.now in
        MatchResult result
        (λ head. head_at (around_view around.now) input at ≡ Ok (head_view head))
        (λ fault. head_at (around_view around.now) input at ≡ Err (fault_view fault)) }
{
    let total = front.len() + piece.len();
    let end = around.end(total);
    if is_cut_off(front, piece, end, at, around.closes) {
        return Err(around.end_fault(total));
    }
    if around.depth > DEEPEST {
        return Err(BerFault::TooDeep(at));
    }
    if stands_end(front, piece, end, at) {
        return Err(BerFault::BadTag(at));
    }
    let (identifier, place) = match read_identifier(front, piece, end, at) {
        Ok(found) => found,
        Err(Stop::Short) => return Err(around.end_fault(total)),
        Err(Stop::Malformed) => return Err(BerFault::BadTag(at)),
    };
    let (extent, content) = match read_length(front, piece, end, place) {
        Ok(found) => found,
        Err(Stop::Short) => return Err(around.end_fault(total)),
        Err(Stop::Malformed) => return Err(BerFault::BadLength(place)),
    };
    let head = Head {
        identifier,
        extent,
        content,
    };
    if around.admits(head) {
        Ok(head)
    } else {
        Err(BerFault::BadLength(place))
    }
}

/// Reads the header of an element that has to begin at the place, as if it lay in no other: what an
/// element within octets that `read_tlv` has read begins with. The content isn't looked at.
///
/// # Errors
/// The header's first fault.
pub fn read_header(bytes: &[u8], at: usize) -> Result<Head, BerFault>
    ensures { MatchResult result
        (λ head. head_at outermost bytes.now at ≡ Ok (head_view head))
        (λ fault. head_at outermost bytes.now at ≡ Err (fault_view fault)) }
{
    read_head(&[], bytes, &Around::OUTERMOST, at)
}
