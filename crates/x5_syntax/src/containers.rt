//! Texts, octets and normal forms: lists of octets, each under a name of its own.

ghost use Rattle.std.specs.Prelude.{◌≡◌, ◌≤◌, [], length, take, IfOk, IfSome, string_bytes};

use std::alloc::{AllocError, Global};
use std::fmt;
use std::marker::Model;
use x5_memory::NoMemory;

/// A text of UTF-8.
#[derive(Drop)]
pub struct Text {
    text: String,
}

impl Model for Text {
    ghost use Rattle.std.specs.Prelude.{ℕ, List, string_bytes};

    ghost Value = { List ℕ };

    ghost view = { λ t. string_bytes t.text };
}

impl Text {
    /// A copy of the text.
    pub fn new(alloc: Global, text: &str) -> Result<Text, NoMemory>
        ensures { IfOk result (λ t. t ≡ text.now) }
    {
        let text = String::from_str(alloc, text)?;
        Ok(Text { text })
    }

    /// The text that the string has. No memory.
    pub fn from_string(text: String) -> Text
        ensures { result ≡ string_bytes text }
    {
        Text { text }
    }

    /// The text as a `str`. No memory.
    pub fn as_str(&self) -> &str
        ensures { result.now ≡ self.now }
    {
        self.text.as_str()
    }

    /// The text as a string. No memory.
    pub fn into_string(self) -> String
        ensures { string_bytes result ≡ self }
    {
        let Text { text } = self;
        text
    }

    /// How many octets it has. No memory.
    pub fn len(&self) -> usize
        ensures { result ≡ length self.now }
    {
        self.text.len()
    }
}

impl Clone for Text {
    ghost is_clone = { λ a b. b ≡ a };

    fn clone(&self) -> Result<Text, AllocError> {
        Ok(Text {
            text: self.text.clone()?,
        })
    }
}

impl fmt::Debug for Text {
    fn fmt<W: fmt::Write>(&self, f: &mut fmt::Formatter<W>) -> fmt::Result {
        fmt::Debug::fmt(self.as_str(), f)
    }
}

/// Octets, of a value of the kind octets or resolved from a text.
#[derive(Drop)]
pub struct Octets {
    octets: Vec<u8>,
}

impl Model for Octets {
    ghost use Rattle.std.specs.Prelude.{ℕ, List};

    ghost Value = { List ℕ };

    ghost view = { λ o. o.octets.items };
}

impl Octets {
    /// The octets of the vector. No memory.
    pub fn new(octets: Vec<u8>) -> Octets
        ensures { result ≡ octets.items }
    {
        Octets { octets }
    }

    /// The octets as a slice. No memory.
    pub fn as_slice(&self) -> &[u8]
        ensures { result.now ≡ self.now }
    {
        self.octets.as_slice()
    }

    /// The octets as a vector. No memory.
    pub fn into_vec(self) -> Vec<u8>
        ensures { result.items ≡ self }
    {
        let Octets { octets } = self;
        octets
    }
}

impl Clone for Octets {
    ghost is_clone = { λ a b. b ≡ a };

    fn clone(&self) -> Result<Octets, AllocError> {
        Ok(Octets {
            octets: self.octets.clone()?,
        })
    }
}

/// How many octets a normal form keeps in place at most: as many as leave it the size that its vector needs anyway.
pub(crate) const MOST_IN_PLACE: usize = 30;

/// Where the octets of a normal form are: few lie in place, as most normal forms have few.
#[derive(Drop)]
enum Kept {
    /// The first `count` of these.
    InPlace {
        count: u8,
        octets: [u8; MOST_IN_PLACE],
    },
    /// More than lie in place.
    Apart(Vec<u8>),
}

/// The normal form of a value, by which values of one type are compared.
#[derive(Drop)]
pub struct Normal {
    kept: Kept,
}

impl Model for Normal {
    ghost use Rattle.std.specs.Prelude.{ℕ, List};
    ghost use Rattle.x5_syntax.specs.Kept.{octets_of, IsKept};

    ghost Value = { List ℕ };

    ghost view = { λ n. octets_of n.kept };

    ghost invariant = { λ n. IsKept n.kept };
}

const _: () = prove!(size_of::<Normal>() == 32);

/// A normal form of these octets in place, if they are few. No memory.
fn in_place(octets: &[u8]) -> Option<Normal>
    ensures { IfSome result (λ normal. normal ≡ octets.now) }
{
    let count = octets.len();
    if count > MOST_IN_PLACE {
        return None;
    }
    let mut copied = [0u8; MOST_IN_PLACE];
    copied[..count].copy_from_slice(octets);
    Some(Normal::from_first(count, copied))
}

impl Normal {
    /// A normal form of the first of these octets. No memory.
    pub(crate) fn from_first(count: usize, octets: [u8; MOST_IN_PLACE]) -> Normal
        requires { count ≤ 30 }
        ensures { result ≡ take count octets }
    {
        Normal {
            kept: Kept::InPlace {
                count: count as u8,
                octets,
            },
        }
    }

    /// A normal form of these octets. No memory.
    pub fn new(octets: Vec<u8>) -> Normal
        ensures { result ≡ octets.items }
    {
        match in_place(octets.as_slice()) {
            Some(normal) => normal,
            None => Normal {
                kept: Kept::Apart(octets),
            },
        }
    }

    /// A normal form of a copy of these octets. Few take no memory.
    pub fn from_slice(alloc: Global, octets: &[u8]) -> Result<Normal, NoMemory>
        ensures { IfOk result (λ normal. normal ≡ octets.now) }
    {
        if let Some(normal) = in_place(octets) {
            return Ok(normal);
        }
        let octets = Vec::from_slice(alloc, octets)?;
        Ok(Normal {
            kept: Kept::Apart(octets),
        })
    }

    /// Its octets. No memory.
    pub fn as_slice(&self) -> &[u8]
        ensures { result.now ≡ self.now }
    {
        match &self.kept {
            Kept::InPlace { count, octets } => &octets[..usize::from(*count)],
            Kept::Apart(octets) => octets.as_slice(),
        }
    }
}

impl Clone for Normal {
    ghost is_clone = { λ a b. b ≡ a };

    fn clone(&self) -> Result<Normal, AllocError> {
        let kept = match &self.kept {
            Kept::InPlace { count, octets } => Kept::InPlace {
                count: *count,
                octets: *octets,
            },
            Kept::Apart(octets) => Kept::Apart(octets.clone()?),
        };
        Ok(Normal { kept })
    }
}
