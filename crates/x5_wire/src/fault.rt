//! Why octets that were written within the limits of messages aren't read.
ghost use Rattle.std.specs.Prelude.{◌≡◌};
ghost use Rattle.x5_dapber.specs.declared.fault.WireFault.TheVariants as wire;

use x5_dapber::WireFault;
use x5_memory::NoMemory;

/// The one fault that there is in reading such octets. No memory.
pub(crate) fn want(fault: WireFault) -> NoMemory
    requires { fault ≡ wire.NoMemory }
{
    match fault {
        WireFault::NoMemory => NoMemory,
        WireFault::Ber(_) => unreachable!(),
        WireFault::Unrecognised(_) => unreachable!(),
    }
}
