//! The stamps of refreshes that suppliers know to be taken (X.525, section 9).

ghost use Rattle.std.specs.Prelude.{◌≡◌, map, None, IfOk};

use std::alloc::Global;
use x5_know::Agreement;
use x5_memory::NoMemory;
use x5_ops::Moment;

/// Before the first refresh: none of any agreement.
pub(crate) fn none_of(
    alloc: Global,
    agreements: &[Agreement],
) -> Result<Vec<Option<Moment>>, NoMemory>
    ensures { IfOk result (λ stamps. stamps.items ≡ map (λ g. None) agreements.now) }
{
    let mut stamps = Vec::new(alloc);
    for _ in agreements {
        stamps.push(None)?;
    }
    Ok(stamps)
}
