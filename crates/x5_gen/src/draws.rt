//! Pseudo-random numbers.
ghost use Rattle.std.specs.Prelude.{◌≡◌, ◌<◌};
ghost use Rattle.x5_gen.specs.Draws.{next, below};

/// The number behind another in the sequence.
fn next(x: u64) -> u64
    ensures { result ≡ next x }
{
    x.wrapping_mul(6_364_136_223_846_793_005)
        .wrapping_add(1_442_695_040_888_963_407)
}

/// The sequence of a seed, from which numbers are drawn.
#[derive(Drop)]
pub(crate) struct Draws {
    x: u64,
}

impl Draws {
    /// The sequence that begins behind the seed.
    pub(crate) fn new(seed: u32) -> Draws
        ensures { result.x ≡ seed }
    {
        Draws { x: u64::from(seed) }
    }

    /// The next number, below the given one.
    pub(crate) fn below(&mut self, most: u32) -> u32
        requires { 0 < most }
        ensures step { self.new.x ≡ next self.old.x }
        ensures number { result ≡ below most self.new.x }
        ensures less { result < most }
    {
        self.x = next(self.x);
        ((self.x >> 33) % u64::from(most)) as u32
    }
}
