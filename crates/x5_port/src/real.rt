// Real files, and a sink over a writer such as standard output. They tell nothing.
ghost use Rattle.std.specs.Prelude.{◌≡◌, ◌≤◌, None, IfOk, length, string_bytes};
ghost use Rattle.std.specs.Option.{option_map};
ghost use Rattle.x5_port.specs.Names.{names_in};

use crate::asked::{first_name, put_name};
use crate::fault::{Failed, FileFault, raised};
use crate::port::{Files, Sink};
use std::alloc::Global;
use std::fs::File;
use std::io::{ErrorKind, Read, Write};
use std::rt;

/// The files of the system, by their paths.
#[derive(Drop)]
pub struct RealFiles<R> {
    runtime: R,
    faults: u64,
    failed: Option<String>,
    reason: Option<ErrorKind>,
    asked: Vec<String>,
}

impl<R: rt::Files + Drop> RealFiles<R> {
    ghost use Rattle.x5_port.specs.Real.{IsUntouched};

    /// No call was made yet.
    pub fn new(alloc: Global, runtime: R) -> RealFiles<R>
        ensures { IsUntouched result }
    {
        RealFiles {
            runtime,
            faults: 0,
            failed: None,
            reason: None,
            asked: Vec::new(alloc),
        }
    }

    /// What the system said of the last call that was answered `Failed`, where it said anything. No memory.
    pub fn reason(&self) -> Option<ErrorKind>
        ensures { result ≡ self.now.reason }
    {
        self.reason
    }

    // The octets of the file; or else why not, and what the system says of it.
    fn octets_of(
        &self,
        alloc: Global,
        name: &str,
        limit: usize,
        reason: &mut Option<ErrorKind>,
    ) -> Result<Vec<u8>, FileFault>
        ensures { IfOk result (λ octets. length octets.items ≤ limit) }
    {
        match File::open(&self.runtime, name) {
            Ok(mut file) => read_up_to(alloc, &mut file, limit, reason),
            Err(error) => {
                *reason = Some(error.kind());
                Err(FileFault::Failed)
            }
        }
    }
}

// The octets of a reader to its end, unless they are more than the limit. It reads at most one octet
// more than that.
fn read_up_to<R: Read>(
    alloc: Global,
    reader: &mut R,
    limit: usize,
    reason: &mut Option<ErrorKind>,
) -> Result<Vec<u8>, FileFault>
    ensures { IfOk result (λ octets. length octets.items ≤ limit) }
{
    let mut octets = Vec::new(alloc);
    let mut chunk = [0u8; 4096];
    for _ in 0..u64::MAX {
        let room = limit - octets.len();
        let want = if room < chunk.len() {
            room + 1
        } else {
            chunk.len()
        };
        match reader.read(&mut chunk[..want]) {
            Ok(0) => return Ok(octets),
            Ok(count) if count > room => return Err(FileFault::TooLong),
            Ok(count) => octets.extend_from_slice(&chunk[..count])?,
            Err(error) if error.kind() == ErrorKind::Interrupted => {}
            Err(error) => {
                *reason = Some(error.kind());
                return Err(FileFault::Failed);
            }
        }
    }
    Err(FileFault::Failed)
}

impl<R: rt::Files + Drop> Files for RealFiles<R> {
    ghost contents = { λ _. None };

    ghost fault_count = { λ files. files.faults };

    ghost last_failed = { λ files. option_map string_bytes files.failed };

    ghost names_asked = { λ files. names_in files.asked.items };

    fn faults(&self) -> u64 {
        self.faults
    }

    fn read_whole(
        &mut self,
        alloc: Global,
        name: &str,
        limit: usize,
    ) -> Result<Vec<u8>, FileFault> {
        let kept = String::from_str(alloc, name)?;
        put_name(&mut self.asked, alloc, name)?;
        let mut reason = None;
        let outcome = self.octets_of(alloc, name, limit, &mut reason);
        if matches!(outcome, Err(FileFault::Failed)) {
            self.faults = raised(self.faults);
            self.failed = Some(kept);
            self.reason = reason;
        }
        outcome
    }

    fn failed(&self) -> Option<&str> {
        self.failed.as_ref().map(|name| name.as_str())
    }

    fn asked(&self) -> Option<&str> {
        first_name(&self.asked)
    }
}

/// A sink over a writer.
#[derive(Drop)]
pub struct RealSink<W> {
    writer: W,
    faults: u64,
    is_closed: bool,
}

impl<W: Write + Drop> RealSink<W> {
    ghost use Rattle.x5_port.specs.Real.{IsUnwritten};

    /// No call was made yet.
    pub fn new(writer: W) -> RealSink<W>
        ensures { IsUnwritten result }
    {
        RealSink {
            writer,
            faults: 0,
            is_closed: false,
        }
    }

    /// Whether nobody reads any more what is written: a pipe was closed. No memory.
    pub fn is_closed(&self) -> bool
        ensures { result ≡ self.now.is_closed }
    {
        self.is_closed
    }
}

// Writes a first part of a piece that isn't empty, and answers how many octets that is; 0 is a fault. A pipe that is closed is
// noted.
fn write_some<W: Write>(writer: &mut W, piece: &[u8], is_closed: &mut bool) -> usize
    ensures { result ≤ length piece.now }
{
    for _ in 0..u64::MAX {
        match writer.write(piece) {
            Ok(count) => return count,
            Err(error) if error.kind() == ErrorKind::Interrupted => {}
            Err(error) => {
                *is_closed = error.kind() == ErrorKind::BrokenPipe;
                return 0;
            }
        }
    }
    0
}

impl<W: Write + Drop> Sink for RealSink<W> {
    ghost octets = { λ _. None };

    ghost fault_count = { λ sink. sink.faults };

    fn faults(&self) -> u64 {
        self.faults
    }

    fn put(&mut self, piece: &[u8]) -> Result<usize, Failed> {
        if piece.is_empty() {
            return Ok(0);
        }
        let count = write_some(&mut self.writer, piece, &mut self.is_closed);
        if count == 0 {
            self.faults = raised(self.faults);
            return Err(Failed);
        }
        Ok(count)
    }
}
