//! Numbers that look as if they came by chance, the same in each run.

ghost use Rattle.std.specs.Prelude.{◌<◌};

/// A linear congruential generator.
///
/// Source: Knuth 1997, whose multiplier of MMIX it has.
#[derive(Drop)]
pub struct Dice {
    state: u64,
}

impl Dice {
    pub fn new(seed: u64) -> Dice {
        Dice { state: seed }
    }

    /// The next number, of 31 bits.
    fn next(&mut self) -> u64 {
        self.state = self
            .state
            .wrapping_mul(6_364_136_223_846_793_005)
            .wrapping_add(1_442_695_040_888_963_407);
        self.state >> 33
    }

    /// A number below a bound.
    pub fn below(&mut self, bound: u64) -> u64
        requires some { 0 < bound }
        ensures below { result < bound }
    {
        self.next() % bound
    }

    /// A place in a list that is so long.
    pub fn place(&mut self, length: usize) -> usize
        requires some { 0 < length }
        ensures below { result < length }
    {
        (self.next() % (length as u64)) as usize
    }

    /// A number below a small bound.
    pub fn small(&mut self, bound: u16) -> u16
        requires some { 0 < bound }
        ensures below { result < bound }
    {
        (self.next() % u64::from(bound)) as u16
    }
}
