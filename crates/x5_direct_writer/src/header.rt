//! Headers of elements around what was put (X.690, 8.1).
ghost use Rattle.std.specs.Prelude.{◌≡◌, ◌<◌, OnOk};
ghost use Rattle.x5_direct_writer.specs.PutsOf.{Encloses};

use x5_memory::NoMemory;
use x5_writer::Backwards;

/// The header of a constructed element, by its class and tag, around all octets that were put since there were `behind`.
#[inline(always)]
pub fn enclose(out: &mut Backwards, class: u8, tag: u32, behind: usize) -> Result<(), NoMemory>
    requires { class < 4 }
    ensures { OnOk result (Encloses class tag behind out.old out.new) }
{
    out.put_header(class, true, tag, out.len().saturating_sub(behind))
}
