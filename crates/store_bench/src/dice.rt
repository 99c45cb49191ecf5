//! Numbers that look as if they came by chance, the same in each run.

/// A linear congruential generator.
///
/// Source: Knuth 1997, whose multiplier of MMIX it has.
#[derive(Drop)]
pub struct Dice {
    state: u64,
}

impl Dice {
    pub fn new(seed: u64) -> Dice {
        Dice { state: seed }
    }

    /// The next number, of 31 bits.
    fn next(&mut self) -> u64 {
        self.state = self
            .state
            .wrapping_mul(6_364_136_223_846_793_005)
            .wrapping_add(1_442_695_040_888_963_407);
        self.state >> 33
    }

    /// A number below a bound, or 0 where the bound is.
    pub fn below(&mut self, bound: u16) -> u16 {
        if bound == 0 {
            return 0;
        }
        (self.next() % u64::from(bound)) as u16
    }

    /// Whether one of so many faces came up.
    pub fn one_in(&mut self, faces: u16) -> bool {
        self.below(faces) == 0
    }

    /// A change of 1 to 9, either way.
    pub fn change(&mut self) -> i64 {
        let size = i64::from(self.below(9)) + 1;
        if self.one_in(2) { size } else { 0 - size }
    }
}
