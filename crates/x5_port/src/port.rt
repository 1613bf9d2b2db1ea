// The traits of the outside: files that are read whole, and a sink that takes octets.
ghost use Rattle.std.specs.Prelude.{◌≡◌, ◌≢◌, ℕ, ◌+◌, ◌<◌, ◌≤◌, List, length, take, Option, IfOk, IsErrOf, OnOk, OnErr, MatchResult, vec_len};
ghost use Rattle.std.specs.List.{slice_get};
ghost use Rattle.std.specs.Option.{option_copied};
ghost use Rattle.x5_port.specs.Outside.{File, IsAsked, IsContent, IsLonger, Rose, failed_after, faults_after, next_count, with_octets, TookPrefix};

use crate::fault::{Failed, FileFault};
use std::alloc::Global;

/// Files that are read whole, by their names.
///
/// It counts the calls that it answered `Failed`: the count never falls, and stands still at the
/// last value of u64.
pub trait Files {
    /// The files that are there, or nothing where they aren't told.
    ghost contents: { Self → Option (List File) };

    /// How many faults there were.
    ghost fault_count: { Self → ℕ };

    /// The name of the last call that was answered `Failed`.
    ghost last_failed: { Self → Option (List ℕ) };

    /// The names of all calls so far, the last one first.
    ghost names_asked: { Self → List (List ℕ) };

    /// How many faults there were. Takes no memory.
    fn faults(&self) -> u64
        ensures { result ≡ fault_count self.now };

    /// Reads the file `name`, unless it has more than `limit` octets. A missing file is a fault.
    fn read_whole(&mut self, alloc: Global, name: &str, limit: usize) -> Result<Vec<u8>, FileFault>
        ensures content { IfOk result (λ octets. IsContent (contents self.old) name.now octets.items) }
        ensures fits { IfOk result (λ octets. length octets.items ≤ limit) }
        ensures too_long { IsErrOf result FileFault.TooLong → IsLonger (contents self.old) name.now limit }
        ensures failed { IsErrOf result FileFault.Failed → Rose (fault_count self.old) (fault_count self.new) }
        ensures failed_name { last_failed self.new ≡ failed_after result name.now (last_failed self.old) }
        ensures rising { fault_count self.old ≤ fault_count self.new }
        ensures faults { fault_count self.new ≡ faults_after result (fault_count self.old) }
        ensures same_contents { contents self.new ≡ contents self.old }
        ensures asked { IsAsked result name.now (names_asked self.old) (names_asked self.new) };

    /// The name of the last call that was answered `Failed`. Takes no memory.
    fn failed(&self) -> Option<&str>
        ensures { option_copied result ≡ last_failed self.now };

    /// The name of the last call. Takes no memory.
    fn asked(&self) -> Option<&str>
        ensures { option_copied result ≡ slice_get (names_asked self.now) 0 };
}

/// A sink that takes octets.
///
/// It counts the calls that it answered `Failed`: the count never falls, and stands still at the
/// last value of u64.
pub trait Sink {
    /// The octets taken, or nothing where they aren't told.
    ghost octets: { Self → Option (List ℕ) };

    /// How many faults there were.
    ghost fault_count: { Self → ℕ };

    /// How many faults there were. Takes no memory.
    fn faults(&self) -> u64
        ensures { result ≡ fault_count self.now };

    /// Takes a first part of the piece, and answers how many octets that is: at least one where the
    /// piece isn't empty. Nothing is taken at a fault. Takes no memory.
    fn put(&mut self, piece: &[u8]) -> Result<usize, Failed>
        ensures taken { IfOk result (λ count. octets self.new ≡ with_octets (take count piece.now) (octets self.old)) }
        ensures within { IfOk result (λ count. count ≤ length piece.now) }
        ensures progress { IfOk result (λ count. 0 < length piece.now → 0 < count) }
        ensures failed { OnErr result (Rose (fault_count self.old) (fault_count self.new)) }
        ensures nothing_taken { OnErr result (octets self.new ≡ octets self.old) }
        ensures rising { fault_count self.old ≤ fault_count self.new }
        ensures no_fault { OnOk result (fault_count self.new ≡ fault_count self.old) }
        ensures one_fault { OnErr result (fault_count self.new ≡ next_count (fault_count self.old)) };
}

/// Puts all octets into the sink, in as many pieces as it wants. Takes no memory.
pub fn put_all<K: Sink>(sink: &mut K, bytes: &[u8]) -> Result<(), Failed>
    ensures all { OnOk result (K.octets sink.new ≡ with_octets bytes.now (K.octets sink.old)) }
    ensures failed { OnErr result (Rose (K.fault_count sink.old) (K.fault_count sink.new)) }
    ensures taken { OnErr result (TookPrefix bytes.now (K.octets sink.old) (K.octets sink.new)) }
    ensures rising { K.fault_count sink.old ≤ K.fault_count sink.new }
    ensures no_fault { OnOk result (K.fault_count sink.new ≡ K.fault_count sink.old) }
    ensures one_fault { OnErr result (K.fault_count sink.new ≡ next_count (K.fault_count sink.old)) }
{
    let mut done = 0;
    while done < bytes.len() {
        done += sink.put(&bytes[done..])?;
    }
    Ok(())
}
