//! Whether a file's octets are values, one after the other.
ghost use Rattle.std.specs.Prelude.{◌≡◌, ℕ, IfOk, MatchOption, string_bytes};
ghost use Rattle.x5_show.specs.Show.{AreValues, FaultyFrom, refusal_text};
ghost use Rattle.x5_ber.specs.Views.{fault_view};

use std::alloc::Global;
use x5_ber::{BerFault, NoMemory, read_tlv};

/// The first fault of the octets, if they aren't values one after the other.
pub(crate) fn first_fault(bytes: &[u8]) -> Option<BerFault>
    ensures { MatchOption result (AreValues bytes.now) (λ fault. (AreValues bytes.now → ⊥) × FaultyFrom bytes.now 0 (fault_view fault)) }
{
    let mut at = 0;
    while at < bytes.len() {
        match read_tlv(bytes, at) {
            Ok((_, next)) => at = next,
            Err(fault) => return Some(fault),
        }
    }
    None
}

/// The line of a fault.
pub(crate) fn refusal(alloc: Global, fault: BerFault) -> Result<String, NoMemory>
    ensures { IfOk result (λ text. string_bytes text ≡ refusal_text (fault_view fault)) }
{
    let (at, reason) = match fault {
        BerFault::Truncated(at) => (at, "truncated"),
        BerFault::BadLength(at) => (at, "badLength"),
        BerFault::BadTag(at) => (at, "badTag"),
        BerFault::BadContent(at) => (at, "badContent"),
        BerFault::TooDeep(at) => (at, "tooDeep"),
    };
    Ok(format!(in alloc; "refused octet {at} {reason}\n")?)
}
