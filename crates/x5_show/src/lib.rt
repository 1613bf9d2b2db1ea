//! The text of `show`: the elements of a file's octets, a line each, or the first fault.
#![tactic(auto)]

mod check;
mod print;

ghost use Rattle.std.specs.Prelude.{IfOk};
ghost use Rattle.x5_show.specs.Show.{Shows};

use std::alloc::Global;
use x5_ber::NoMemory;

/// The text that is printed of a file's octets.
#[derive(Drop)]
pub enum Shown {
    /// They are values, one after the other: a line for each element.
    Elements(String),
    /// They aren't: the line of the first fault.
    Refused(String),
}

/// What is printed for a file's octets: each element of the values that lie in it one after the
/// other, as they begin, or `refused octet AT R` for the first fault, alone.
///
/// # Errors
/// Only where memory runs out.
pub fn show(alloc: Global, bytes: &[u8]) -> Result<Shown, NoMemory>
    ensures { IfOk result (λ shown. Shows bytes.now shown) }
{
    match check::first_fault(bytes) {
        Some(fault) => {
            let line = check::refusal(alloc, fault)?;
            Ok(Shown::Refused(line))
        }
        None => {
            let text = print::elements(alloc, bytes)?;
            Ok(Shown::Elements(text))
        }
    }
}
