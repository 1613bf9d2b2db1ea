// What a file shows: the elements that its octets spell, or their first fault.
ghost use Rattle.std.specs.Prelude.{string_bytes};
ghost use Rattle.xdir.specs.Asked.{AsksOne};
ghost use Rattle.xdir.specs.Shown.{ShowsOctets, WritesShown};
ghost use Rattle.xdir.specs.Steps.{Prints, ReadsFile};

use crate::top::{MOST_FILE_OCTETS, Status};
use std::alloc::Global;
use x5_port::{Failed, FileFault, Files, NoMemory, Sink, put_all};
use x5_show::{Shown, show};

/// Prints what a file shows. Nothing is printed before the file is read whole.
pub fn show_file<F: Files, K: Sink>(alloc: Global, name: &str, files: &mut F, out: &mut K) -> Status
    ensures asks { AsksOne result name.now (F.names_asked files.old) (F.names_asked files.new) }
    ensures reads { ReadsFile result name.now (F.contents files.old) (F.fault_count files.old) (F.fault_count files.new) (F.last_failed files.new) }
    ensures writes { WritesShown result (F.contents files.old) name.now (K.octets out.old) (K.octets out.new) (K.fault_count out.old) (K.fault_count out.new) }
{
    match files.read_whole(alloc, name, MOST_FILE_OCTETS) {
        Ok(octets) => show_octets(alloc, &octets, out),
        Err(FileFault::Failed) => Status::ReadFault,
        Err(FileFault::TooLong) => Status::TooLong,
        Err(FileFault::NoMemory) => Status::NoMemory,
    }
}

fn show_octets<K: Sink>(alloc: Global, octets: &[u8], out: &mut K) -> Status
    ensures prints { Prints result }
    ensures shows { ShowsOctets result octets.now (K.octets out.old) (K.octets out.new) (K.fault_count out.old) (K.fault_count out.new) }
{
    match show(alloc, octets) {
        Ok(Shown::Elements(lines)) => match put_all(out, lines.as_bytes()) {
            Ok(()) => Status::Done,
            Err(Failed) => Status::WriteFault,
        },
        Ok(Shown::Refused(line)) => match put_all(out, line.as_bytes()) {
            Ok(()) => Status::Refused,
            Err(Failed) => Status::WriteFault,
        },
        Err(NoMemory) => Status::NoMemory,
    }
}
