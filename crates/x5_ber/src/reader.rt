//! Reads one element octet by octet, without recursion: what is open around a place lies in an array.
ghost use Rattle.std.specs.Prelude.{◌≡◌, ℕ, List, ◌+◌, ◌-◌, ◌*◌, ◌^◌, ◌<◌, ◌≤◌, Bool, true, false, [], ◌∷◌, ◌++◌, length, take, drop, IsTrue, ◌↔◌, ◌==◌, MatchResult, MatchOption, OnOk, OnErr, IfErr, Ok, Err, Some, None, slice_set, if◌then◌else◌, nat_lt, ◌&&◌};
ghost use Rattle.x5_model_octets.specs.Faults.{FirstFault, head_at, within, outermost, limit_within, is_indefinite};
ghost use Rattle.x5_ber.specs.Views.{head_view, around_view, fault_view};
ghost use Rattle.x5_ber.specs.Reading.{AreOpen, IsRead, ValueAt, around_at, is_over, enclosing_of};

use crate::element::BerFault;
use crate::header::{Around, DEEPEST, Head, read_head, stands_end};

/// What stands around the members of an open element: where the content of the nearest one with a
/// definite length ends, and whether the innermost one has the indefinite form.
#[derive(Clone, Copy, PartialEq, Eq)]
pub(crate) struct Enclosing {
    pub limit: Option<u128>,
    pub closes: bool,
}

/// How many elements can be open at a place, and one more for none.
const LEVELS: usize = DEEPEST + 1;

/// A place of the input, and the elements that are open around it.
#[derive(Clone, Copy)]
pub(crate) struct Reader {
    pub at: usize,
    pub depth: usize,
    pub enclosing: [Enclosing; LEVELS],
}

impl Reader {
    /// A reader that begins at the place.
    pub(crate) fn new(at: usize) -> Reader
        ensures none { result.depth ≡ 0 }
        ensures begins { (input : List ℕ) → at ≤ length input → AreOpen input result.enclosing at result.depth result.at }
    {
        Reader {
            at,
            depth: 0,
            enclosing: [Enclosing {
                limit: None,
                closes: false,
            }; LEVELS],
        }
    }

    /// What stands around the next element.
    fn around(&self) -> Around
        requires { self.now.depth ≤ 64 }
        ensures { around_view result ≡ around_at self.now.enclosing self.now.depth }
    {
        let Enclosing { limit, closes } = self.enclosing[self.depth];
        Around {
            depth: self.depth + 1,
            limit,
            closes,
        }
    }

    /// Closes the innermost open element.
    fn close(&mut self, closes: bool)
        requires some { 0 < self.old.depth }
        requires room { IsTrue closes → self.old.at + 2 < 2 ^ 64 }
        ensures place { self.new.at ≡ (if closes then self.old.at + 2 else self.old.at) }
        ensures depth { self.new.depth + 1 ≡ self.old.depth }
        ensures around { self.new.enclosing ≡ self.old.enclosing }
    {
        if closes {
            self.at += 2;
        }
        self.depth -= 1;
    }

    /// Opens the constructed element of a header.
    fn open(&mut self, around: Around, head: Head)
        requires { self.old.depth < 64 }
        ensures place { self.new.at ≡ head.content }
        ensures depth { self.new.depth ≡ self.old.depth + 1 }
        ensures around { self.new.enclosing ≡ slice_set self.old.enclosing (self.old.depth + 1) (enclosing_of (around_view around) (head_view head)) }
    {
        let limit = match head.extent {
            Some(extent) => Some(head.content as u128 + extent as u128),
            None => around.limit,
        };
        self.at = head.content;
        self.depth += 1;
        self.enclosing[self.depth] = Enclosing {
            limit,
            closes: head.extent.is_none(),
        };
    }

    /// Whether an element is open whose content is over here.
    fn is_over(&self, front: &[u8], piece: &[u8], around: Around) -> bool
        ensures { result ≡ (nat_lt 0 self.now.depth && is_over (around_view around) (front.now ++ piece.now) self.now.at) }
    {
        self.depth > 0 && is_content_over(front, piece, around, self.at)
    }

    /// Goes past the end of one element's content, or past one header and the content of a primitive
    /// element. An `Err` changes nothing.
    fn step(&mut self, front: &[u8], piece: &[u8]) -> Result<(), BerFault>
        requires { self.old.depth ≤ 64 }
        ensures shallow { self.new.depth ≤ 64 }
        ensures kept { OnErr result (self.new ≡ self.old) }
        ensures nearer { let total = length front.now + length piece.now in
            OnOk result (2 * (total - self.new.at) + self.new.depth < 2 * (total - self.old.at) + self.old.depth) }
        ensures reads { let input = front.now ++ piece.now in
            (start : ℕ) → AreOpen input self.old.enclosing start self.old.depth self.old.at → MatchResult result
            (λ _. IsRead input self.new.enclosing start self.new.depth self.new.at)
            (λ fault. FirstFault input outermost start (fault_view fault)) }
    {
        let total = front.len() + piece.len();
        let around = self.around();
        if self.is_over(front, piece, around) {
            self.close(around.closes);
            return Ok(());
        }
        let head = read_head(front, piece, &around, self.at)?;
        if head.identifier.constructed {
            self.open(around, head);
            return Ok(());
        }
        let extent = head.extent.unwrap_or(0) as usize;
        if total - head.content < extent {
            return Err(BerFault::Truncated(total));
        }
        self.at = head.content + extent;
        Ok(())
    }

    /// Reads on to the end of the value that the reader began with. Behind an `Err` it stands where
    /// reading goes on once there are more octets.
    pub(crate) fn advance(&mut self, front: &[u8], piece: &[u8]) -> Result<(), BerFault>
        requires { self.old.depth ≤ 64 }
        ensures shallow { self.new.depth ≤ 64 }
        ensures reads { let input = front.now ++ piece.now in
            (start : ℕ) → AreOpen input self.old.enclosing start self.old.depth self.old.at → MatchResult result
            (λ _. ValueAt input start self.new.at)
            (λ fault. FirstFault input outermost start (fault_view fault) × AreOpen input self.new.enclosing start self.new.depth self.new.at) }
    {
        loop {
            self.step(front, piece)?;
            if self.depth == 0 {
                return Ok(());
            }
        }
    }
}

/// Whether the content of the innermost open element is over at the place.
fn is_content_over(front: &[u8], piece: &[u8], around: Around, at: usize) -> bool
    ensures { result ≡ is_over (around_view around) (front.now ++ piece.now) at }
{
    if around.closes {
        return stands_end(front, piece, around.end(front.len() + piece.len()), at);
    }
    match around.limit {
        Some(limit) => at as u128 == limit,
        None => false,
    }
}
