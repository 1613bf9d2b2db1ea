// A sink that keeps the beginning of what it took, so that a refusal can be told in words besides.
ghost use Rattle.std.specs.Prelude.{◌≡◌, ◌<◌, ◌≤◌, ◌++◌, [], IfOk, OnErr, OnOk, length, take};
ghost use Rattle.x5_port.specs.Outside.{Rose, next_count, with_octets};
ghost use Rattle.std.specs.Str.Lossy.{utf8_valid_len};
ghost use Rattle.xdir.specs.Told.{first_line as line_of, kept, most_kept};

use x5_port::{Failed, Sink};

/// How many octets are kept: no line of a refusal that a person reads is longer.
const KEPT: usize = 512;

/// Another sink, with the first octets that it took.
#[derive(Drop)]
pub struct ToldSink<K> {
    sink: K,
    first: [u8; KEPT],
    count: usize,
}

impl<K: Sink + Drop> ToldSink<K> {
    /// This sink; nothing is kept yet.
    pub fn new(sink: K) -> ToldSink<K>
        ensures sink { result.sink ≡ sink }
        ensures none { kept result ≡ [] }
    {
        ToldSink {
            sink,
            first: [0; KEPT],
            count: 0,
        }
    }

    /// The other sink.
    pub fn sink(&self) -> &K
        ensures { result.now ≡ self.now.sink }
    {
        &self.sink
    }

    /// The first line that was taken, as far as it's kept and is UTF-8.
    pub fn line(&self) -> &str
        ensures { result.now ≡ line_of (kept self.now) }
    {
        first_line(self.first.get(..self.count).unwrap_or(&self.first))
    }
}

// The first line of these octets, as far as it's UTF-8.
fn first_line(octets: &[u8]) -> &str
    ensures { result.now ≡ line_of octets.now }
{
    let text = first_text(octets);
    match text.split_once('\n') {
        Some((line, _)) => line,
        None => text,
    }
}

// The first of these octets, as far as they're UTF-8.
fn first_text(octets: &[u8]) -> &str
    ensures { result.now ≡ take (utf8_valid_len octets.now) octets.now }
{
    match str::from_utf8(octets) {
        Ok(text) => text,
        Err(fault) => str::from_utf8(&octets[..fault.valid_up_to()]).unwrap_or(""),
    }
}

// Keeps the octets behind those that are kept already, as far as there is room, and answers how many are kept then.
fn keep(first: &mut [u8; KEPT], count: usize, piece: &[u8]) -> usize
    ensures { take result first.new ≡ take most_kept (take count first.old ++ piece.now) }
{
    if count >= KEPT {
        return count;
    }
    let taken = (KEPT - count).min(piece.len());
    first[count..count + taken].copy_from_slice(&piece[..taken]);
    count + taken
}

impl<K: Sink + Drop> Sink for ToldSink<K> {
    ghost octets = { λ told. K.octets told.sink };

    ghost fault_count = { λ told. K.fault_count told.sink };

    fn faults(&self) -> u64 {
        self.sink.faults()
    }

    fn put(&mut self, piece: &[u8]) -> Result<usize, Failed>
        ensures taken { IfOk result (λ count. K.octets self.new.sink ≡ with_octets (take count piece.now) (K.octets self.old.sink)) }
        ensures within { IfOk result (λ count. count ≤ length piece.now) }
        ensures progress { IfOk result (λ count. 0 < length piece.now → 0 < count) }
        ensures failed { OnErr result (Rose (K.fault_count self.old.sink) (K.fault_count self.new.sink)) }
        ensures nothing_taken { OnErr result (K.octets self.new.sink ≡ K.octets self.old.sink) }
        ensures rising { K.fault_count self.old.sink ≤ K.fault_count self.new.sink }
        ensures no_fault { OnOk result (K.fault_count self.new.sink ≡ K.fault_count self.old.sink) }
        ensures one_fault { OnErr result (K.fault_count self.new.sink ≡ next_count (K.fault_count self.old.sink)) }
        ensures kept { IfOk result (λ count. kept self.new ≡ take most_kept (kept self.old ++ take count piece.now)) }
        ensures none_kept { OnErr result (kept self.new ≡ kept self.old) }
    {
        let count = self.sink.put(piece)?;
        self.count = keep(&mut self.first, self.count, &piece[..count]);
        Ok(count)
    }
}
