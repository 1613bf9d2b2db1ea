//! Elements and faults.
ghost use Rattle.std.specs.Prelude.{◌≡◌, ℕ, ◌+◌, ◌≤◌, List, [], ◌++◌, length, IfOk, IfErr, IsOkAnd, IsErrAnd};
ghost use Rattle.x5_model_octets.specs.Elements.{Element, Spells};
ghost use Rattle.x5_model_octets.specs.Faults.{Fault, FirstFault, outermost};
ghost use Rattle.x5_ber.specs.Views.{head_view, fault_view};
ghost use Rattle.x5_ber.specs.Reading.{Stands};
ghost use Rattle.x5_ber.specs.Found.{IsElementAt, IsTlv};

use crate::header::{Around, Head, Identifier, read_head};
use crate::reader::Reader;
use thiserror::Error;

/// An element: its class (0 universal, 1 application, 2 context-specific, 3 private), whether its
/// content is elements, its tag number, and the places of its content: the first octet, and the
/// first behind it. End-of-contents octets are no part of a content.
#[derive(Clone, Copy, Debug, PartialEq, Eq)]
pub struct Tlv {
    pub class: u8,
    pub constructed: bool,
    pub tag: u32,
    pub start: usize,
    pub end: usize,
}

/// The first fault of octets that are read as an element, and its place. Places count from the first
/// octet that was given.
#[derive(Clone, Copy, Debug, PartialEq, Eq, Error)]
pub enum BerFault {
    /// The octets end inside an element; the place is their number.
    #[error("the octets end at {0}, inside an element")]
    Truncated(usize),
    /// A length that is malformed, or that passes the enclosing element's end.
    #[error("bad length at {0}")]
    BadLength(usize),
    /// A malformed tag number, or end-of-contents octets outside the indefinite form.
    #[error("bad tag at {0}")]
    BadTag(usize),
    /// A content outside its type. Reading elements alone doesn't give it.
    #[error("bad content at {0}")]
    BadContent(usize),
    /// The element at depth 65.
    #[error("elements nested too deep at {0}")]
    TooDeep(usize),
}

/// Reads the element at the place, by the Basic Encoding Rules (X.690, clause 8): the element, and
/// the place after it. It looks into each constructed element, as deep as 64.
///
/// # Errors
/// The first fault, where no element's spelling stands at the place.
pub fn read_tlv(bytes: &[u8], at: usize) -> Result<(Tlv, usize), BerFault>
    requires { at ≤ length bytes.now }
    // What is found is spelled there.
    ensures found { IfOk result (λ found. IsElementAt bytes.now at found.0 found.1) }
    // Where an element is spelled, it is found.
    ensures only { (element : Element) (octets : List ℕ) → Spells 1 element octets → Stands bytes.now at octets → IsOkAnd result (λ found. found.1 ≡ at + length octets) }
    // The fault is the first one of what stands there.
    ensures fault { IfErr result (λ fault. FirstFault bytes.now outermost at (fault_view fault)) }
    // Where there is a first fault, it is answered.
    ensures exact { (first : Fault) → FirstFault bytes.now outermost at first → IsErrAnd result (λ fault. fault_view fault ≡ first) }
{
    read_element(bytes, at)
}

fn read_element(bytes: &[u8], at: usize) -> Result<(Tlv, usize), BerFault>
    requires { at ≤ length bytes.now }
    ensures found { IfOk result (λ found. IsElementAt bytes.now at found.0 found.1) }
    ensures fault { IfErr result (λ fault. FirstFault bytes.now outermost at (fault_view fault)) }
{
    let head = read_head(&[], bytes, &Around::OUTERMOST, at)?;
    let mut reader = Reader::new(at);
    reader.advance(&[], bytes)?;
    let next = reader.at;
    Ok((tlv_of(head, next), next))
}

/// The element of a header, which ends before the place.
fn tlv_of(head: Head, next: usize) -> Tlv
    ensures { IsTlv (head_view head) next result }
{
    let Identifier {
        class,
        constructed,
        tag,
    } = head.identifier;
    let end = if head.extent.is_none() {
        next.saturating_sub(2)
    } else {
        next
    };
    Tlv {
        class,
        constructed,
        tag,
        start: head.content,
        end,
    }
}
