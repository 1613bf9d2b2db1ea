// Files and a sink in memory, whose calls fail where their maker says so.
ghost use Rattle.std.specs.Prelude.{◌≡◌, ℕ, ◌+◌, ◌-◌, ◌<◌, ◌≤◌, [], ◌∷◌, length, take, min, Some, None, IfOk, OnOk, OnErr, IsErrOf, IsTrue, ◌⊎◌, string_bytes, false, vec_len, vec_capacity};
ghost use Rattle.std.specs.List.{find};
ghost use Rattle.std.specs.Option.{option_map, option_copied};
ghost use Rattle.std.specs.Str.{bytes_eq};
ghost use Rattle.x5_port.specs.Outside.{IsAsked, IsContent, IsLonger, Rose, failed_after, faults_after, next_count, with_octets};

use crate::asked::{first_name, put_name};
use crate::fault::{Failed, FileFault, raised};
use crate::port::{Files, Sink};
use std::alloc::Global;
use x5_memory::NoMemory;

/// Which calls are to fail, by their numbers from 1.
#[derive(Drop)]
struct Schedule {
    failing: Vec<u64>,
    calls: u64,
}

impl Schedule {
    ghost use Rattle.x5_port.specs.Memory.{is_marked};

    fn new(alloc: Global, failing: &[u64]) -> Result<Schedule, NoMemory>
        ensures { IfOk result (λ schedule. (schedule.failing.items ≡ failing.now) × (schedule.calls ≡ 0)) }
    {
        Ok(Schedule {
            failing: Vec::from_slice(alloc, failing)?,
            calls: 0,
        })
    }

    // Counts a call, and says whether it is to fail.
    fn next_fails(&mut self) -> bool
        ensures marked { result ≡ is_marked self.old.failing.items (next_count self.old.calls) }
        ensures counted { self.new ≡ record self.old { calls = next_count self.old.calls } }
    {
        self.calls = self.calls.saturating_add(1);
        self.failing.contains(&self.calls)
    }
}

#[derive(Drop)]
struct HeldFile {
    name: String,
    content: Vec<u8>,
}

// The first file of this name.
fn first_named<'a>(held: &'a [HeldFile], name: &str) -> Option<&'a HeldFile>
    ensures { option_copied result ≡ find (λ file. bytes_eq (string_bytes file.name) name.now) held.now }
{
    held.iter().find(|file| file.name.as_str() == name)
}

/// Files in memory. They tell their contents.
#[derive(Drop)]
pub struct MemoryFiles {
    alloc: Global,
    held: Vec<HeldFile>,
    schedule: Schedule,
    faults: u64,
    failed: Option<String>,
    asked: Vec<String>,
}

impl MemoryFiles {
    ghost use Rattle.x5_port.specs.Outside.{File, content_of};
    ghost use Rattle.x5_port.specs.Memory.{file_of, files_in, IsNewFiles, SameButFiles, Answers, read_in};

    /// No files yet. The calls of `read_whole` that have these numbers, from 1, fail.
    pub fn new(alloc: Global, failing: &[u64]) -> Result<MemoryFiles, NoMemory>
        ensures { IfOk result (λ files. IsNewFiles files failing.now) }
    {
        Ok(MemoryFiles {
            alloc,
            held: Vec::new(alloc),
            schedule: Schedule::new(alloc, failing)?,
            faults: 0,
            failed: None,
            asked: Vec::new(alloc),
        })
    }

    /// Adds a file, which stands for its name from now on.
    pub fn add(&mut self, name: &str, content: &[u8]) -> Result<(), NoMemory>
        ensures added { OnOk result (files_in self.new ≡ record { name = name.now; content = content.now } ∷ files_in self.old) }
        ensures unchanged { OnErr result (files_in self.new ≡ files_in self.old) }
        ensures others { SameButFiles self.old self.new }
    {
        let file = HeldFile {
            name: String::from_str(self.alloc, name)?,
            content: Vec::from_slice(self.alloc, content)?,
        };
        self.held.insert(0, file)?;
        Ok(())
    }

    // The file that stands for this name.
    fn held_under(&self, name: &str) -> Option<&HeldFile>
        ensures { option_map file_of (option_copied result) ≡ find (λ file. bytes_eq file.name name.now) (files_in self.now) }
    {
        first_named(&self.held, name)
    }

    // The octets of a file, by a call that isn't to fail.
    fn octets_of(&self, alloc: Global, name: &str, limit: usize) -> Result<Vec<u8>, FileFault>
        ensures { Answers result (read_in (content_of (files_in self.now) name.now) limit) }
    {
        match self.held_under(name) {
            None => Err(FileFault::Failed),
            Some(file) if file.content.len() > limit => Err(FileFault::TooLong),
            Some(file) => Ok(Vec::from_slice(alloc, &file.content)?),
        }
    }
}

impl Files for MemoryFiles {
    ghost use Rattle.x5_port.specs.Memory.{files_in, failed_in, asked_in, Answers, answer_of, CountsCall};

    ghost contents = { λ files. Some (files_in files) };

    ghost fault_count = { λ files. files.faults };

    ghost last_failed = { failed_in };

    ghost names_asked = { asked_in };

    fn faults(&self) -> u64 {
        self.faults
    }

    fn read_whole(&mut self, alloc: Global, name: &str, limit: usize) -> Result<Vec<u8>, FileFault>
        ensures content { IfOk result (λ octets. IsContent (Some (files_in self.old)) name.now octets.items) }
        ensures fits { IfOk result (λ octets. length octets.items ≤ limit) }
        ensures too_long { IsErrOf result FileFault.TooLong → IsLonger (Some (files_in self.old)) name.now limit }
        ensures failed { IsErrOf result FileFault.Failed → Rose self.old.faults self.new.faults }
        ensures failed_name { failed_in self.new ≡ failed_after result name.now (failed_in self.old) }
        ensures rising { self.old.faults ≤ self.new.faults }
        ensures faults { self.new.faults ≡ faults_after result self.old.faults }
        ensures same_contents { Some (files_in self.new) ≡ Some (files_in self.old) }
        ensures asked { IsAsked result name.now (asked_in self.old) (asked_in self.new) }

        // Unless memory runs out, the answer is known before the call.
        ensures answer { Answers result (answer_of self.old name.now limit) }
        ensures counted { CountsCall result self.old.schedule.calls self.new.schedule.calls }
        ensures same_marks { self.new.schedule.failing.items ≡ self.old.schedule.failing.items }
    {
        let kept = String::from_str(alloc, name)?;
        put_name(&mut self.asked, alloc, name)?;
        let outcome = if self.schedule.next_fails() {
            Err(FileFault::Failed)
        } else {
            self.octets_of(alloc, name, limit)
        };
        if matches!(outcome, Err(FileFault::Failed)) {
            self.faults = raised(self.faults);
            self.failed = Some(kept);
        }
        outcome
    }

    fn failed(&self) -> Option<&str> {
        self.failed.as_ref().map(|name| name.as_str())
    }

    fn asked(&self) -> Option<&str> {
        first_name(&self.asked)
    }
}

/// A sink in memory. It tells the octets that it took.
#[derive(Drop)]
pub struct MemorySink {
    taken: Vec<u8>,
    room: usize,
    most: usize,
    schedule: Schedule,
    faults: u64,
    ghost takes_some: { 0 < most },
    ghost has_room: { vec_len taken + room ≤ vec_capacity taken },
}

impl MemorySink {
    ghost use Rattle.x5_port.specs.Memory.{IsNewSink, octets_in};

    /// A sink with room for `room` octets, which takes at most `most` of them a call. The calls of
    /// `put` that have these numbers, from 1, fail.
    pub fn new(
        alloc: Global,
        room: usize,
        most: usize,
        failing: &[u64],
    ) -> Result<MemorySink, NoMemory>
        requires { 0 < most }
        ensures { IfOk result (λ sink. IsNewSink sink room most failing.now) }
    {
        Ok(MemorySink {
            taken: Vec::with_capacity(alloc, room)?,
            room,
            most,
            schedule: Schedule::new(alloc, failing)?,
            faults: 0,
        })
    }

    /// The octets taken so far. Takes no memory.
    pub fn taken(&self) -> &[u8]
        ensures { result.now ≡ octets_in self.now }
    {
        &self.taken
    }
}

impl Sink for MemorySink {
    ghost use Rattle.x5_port.specs.Memory.{octets_in, next_is_marked};

    ghost octets = { λ sink. Some (octets_in sink) };

    ghost fault_count = { λ sink. sink.faults };

    fn faults(&self) -> u64 {
        self.faults
    }

    fn put(&mut self, piece: &[u8]) -> Result<usize, Failed>
        ensures taken { IfOk result (λ count. Some (octets_in self.new) ≡ with_octets (take count piece.now) (Some (octets_in self.old))) }
        ensures within { IfOk result (λ count. count ≤ length piece.now) }
        ensures progress { IfOk result (λ count. 0 < length piece.now → 0 < count) }
        ensures failed { OnErr result (Rose self.old.faults self.new.faults) }
        ensures nothing_taken { OnErr result (Some (octets_in self.new) ≡ Some (octets_in self.old)) }
        ensures rising { self.old.faults ≤ self.new.faults }
        ensures no_fault { OnOk result (self.new.faults ≡ self.old.faults) }
        ensures one_fault { OnErr result (self.new.faults ≡ next_count self.old.faults) }

        // It takes what fits, unless this call is to fail.
        ensures count { IfOk result (λ count. count ≡ min (length piece.now) (min self.old.most (self.old.room))) }
        ensures unmarked { OnOk result (next_is_marked self.old ≡ false) }
        ensures counted { self.new.schedule ≡ record self.old.schedule { calls = next_count self.old.schedule.calls } }
        ensures cause { OnErr result (IsTrue (next_is_marked self.old) ⊎ (self.old.room ≡ 0) × (0 < length piece.now)) }
        ensures room { OnOk result (self.new.room + length (octets_in self.new) ≡ self.old.room + length (octets_in self.old)) }
        ensures same_room { OnErr result (self.new.room ≡ self.old.room) }
        ensures same_most { self.new.most ≡ self.old.most }
    {
        let count = piece.len().min(self.most).min(self.room);
        if self.schedule.next_fails() || count == 0 && !piece.is_empty() {
            self.faults = raised(self.faults);
            return Err(Failed);
        }
        self.room -= count;
        match self.taken.extend_from_slice(&piece[..count]) {
            Ok(()) => Ok(count),
            Err(_) => unreachable!(),
        }
    }
}
