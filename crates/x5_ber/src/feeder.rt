//! One value from octets that come in pieces.
ghost use Rattle.std.specs.Prelude.{◌≡◌, ℕ, ◌+◌, ◌≤◌, List, [], ◌++◌, length, take, IfSome, IsTrue, Err, option_copied};
ghost use Rattle.x5_ber.specs.Reading.{AreOpen};
ghost use Rattle.x5_ber.specs.Sights.{Sees, Shows};
ghost use Rattle.x5_ber.specs.declared.feeder.FeedFault.TheVariants.{NoMemory as NoMemoryFault};

use crate::element::BerFault;
use crate::reader::Reader;
use std::alloc::{AllocError, Global};
use std::marker::Model;
use thiserror::Error;

/// The most octets of one value that a feeder takes: 16 MiB.
pub const LONGEST: usize = 16_777_216;

/// Why a feeder doesn't take a piece.
#[derive(Clone, Copy, Debug, PartialEq, Eq, Error)]
pub enum FeedFault {
    /// The octets so far aren't the beginning of an element.
    #[error("{0}")]
    Ber(BerFault),
    /// The value has more than 16 MiB.
    #[error("a value of more than 16777216 octets")]
    TooLong,
    /// Memory ran out. The feeder is as it was.
    #[error("out of memory")]
    NoMemory,
}

impl From<AllocError> for FeedFault {
    ghost from_gives = { λ _ fault. fault ≡ NoMemoryFault };

    fn from(_: AllocError) -> Self {
        FeedFault::NoMemory
    }
}

/// How far the value is.
#[derive(Clone, Copy, Debug, PartialEq, Eq)]
pub(crate) enum Progress {
    /// More octets are wanted.
    Reading,
    /// The value is whole.
    Whole,
    /// Each call answers this fault.
    Failed(FeedFault),
}

/// Takes octets up to the end of one value, in whatever pieces they come.
#[derive(Drop)]
pub struct Feeder {
    octets: Vec<u8>,
    reader: Reader,
    progress: Progress,
}

impl Model for Feeder {
    ghost use Rattle.x5_ber.specs.States.{State};

    ghost Value = { State };

    ghost use Rattle.x5_ber.specs.Feeding.{IsFeeding, state_of};

    ghost view = { state_of };

    ghost invariant = { IsFeeding };
}

impl Feeder {
    ghost use Rattle.x5_ber.specs.States.{reading, failed, value_of, wants_more};
    ghost use Rattle.x5_ber.specs.Feeding.{IsWhole, Feeds};

    /// A feeder that has taken nothing.
    pub fn new(alloc: Global) -> Feeder
        ensures { result ≡ reading [] }
    {
        Feeder {
            octets: Vec::new(alloc),
            reader: Reader::new(0),
            progress: Progress::Reading,
        }
    }

    /// Takes octets of the piece up to the end of the first whole value, and answers how many. On a
    /// whole value it takes none.
    ///
    /// # Errors
    /// The first fault of the octets so far, or that the value has more than 16 MiB: then the same
    /// until `clear`. Or that memory runs out: then the feeder is as it was.
    pub fn feed(&mut self, piece: &[u8]) -> Result<usize, FeedFault>
        ensures { Feeds self.old piece.now self.new result }
    {
        match self.progress {
            Progress::Reading => self.read(piece),
            Progress::Whole => Ok(0),
            Progress::Failed(fault) => Err(fault),
        }
    }

    /// The value, once it is whole: 16 MiB at most.
    pub fn whole(&self) -> Option<&[u8]>
        ensures value { option_copied result ≡ value_of self.now }
        ensures spelled { IfSome result (λ value. IsWhole value.now) }
    {
        match self.progress {
            Progress::Whole => Some(&self.octets),
            _ => None,
        }
    }

    /// Forgets what was taken, and any fault.
    pub fn clear(&mut self)
        ensures { self.new ≡ reading [] }
    {
        self.octets.clear();
        self.reader = Reader::new(0);
        self.progress = Progress::Reading;
    }

    fn read(&mut self, piece: &[u8]) -> Result<usize, FeedFault>
        requires { IsTrue (wants_more self.old) }
        ensures { Feeds self.old piece.now self.new result }
    {
        let before = self.octets.len();
        let part = &piece[..piece.len().min(LONGEST - before)];
        let mut reader = self.reader;
        match look(&mut reader, &self.octets, part) {
            Sight::Whole => {
                let count = reader.at - before;
                self.octets.extend_from_slice(&part[..count])?;
                self.progress = Progress::Whole;
                Ok(count)
            }
            Sight::Beginning if part.len() == piece.len() => {
                self.octets.extend_from_slice(part)?;
                self.reader = reader;
                Ok(piece.len())
            }
            Sight::Beginning => self.fail(FeedFault::TooLong),
            Sight::Breach(fault) => self.fail(FeedFault::Ber(fault)),
        }
    }

    fn fail(&mut self, fault: FeedFault) -> Result<usize, FeedFault>
        ensures state { self.new ≡ failed fault }
        ensures same { result ≡ Err fault }
    {
        self.progress = Progress::Failed(fault);
        Err(fault)
    }
}

/// What octets are, and as many more.
#[derive(Clone, Copy, PartialEq, Eq)]
enum Sight {
    /// A value stands at the front.
    Whole,
    /// They begin a value.
    Beginning,
    /// They have a fault, whatever follows.
    Breach(BerFault),
}

/// Reads on in the octets and the part behind them.
fn look(reader: &mut Reader, octets: &[u8], part: &[u8]) -> Sight
    requires open_at { AreOpen (octets.now ++ part.now) reader.old.enclosing 0 reader.old.depth reader.old.at }
    requires shallow { reader.old.depth ≤ 64 }
    ensures shallow { reader.new.depth ≤ 64 }
    ensures sees { Sees (octets.now ++ part.now) result reader.new }
{
    match reader.advance(octets, part) {
        Ok(()) => Sight::Whole,
        Err(fault) => sight_of(fault),
    }
}

fn sight_of(fault: BerFault) -> Sight
    ensures { Shows fault result }
{
    match fault {
        BerFault::Truncated(_) => Sight::Beginning,
        BerFault::BadLength(_)
        | BerFault::BadTag(_)
        | BerFault::BadContent(_)
        | BerFault::TooDeep(_) => { Sight::Breach(fault) }
    }
}
