//! Numbers that look random, from a written seed.

/// Knuth's linear congruential generator, of which the upper 31 bits of 64 are handed out.
#[derive(Clone, Copy)]
pub struct Random(u64);

impl Random {
    /// The numbers of a seed.
    pub fn new(seed: u64) -> Random {
        Random(seed)
    }

    /// The next number.
    pub fn next(&mut self) -> u64 {
        self.0 = self
            .0
            .wrapping_mul(6_364_136_223_846_793_005)
            .wrapping_add(1_442_695_040_888_963_407);
        self.0 >> 33
    }

    /// A number below this one, or 0.
    pub fn below(&mut self, most: u64) -> u64 {
        self.next().checked_rem(most).unwrap_or(0)
    }

    /// A byte.
    pub fn byte(&mut self) -> u8 {
        (self.next() % 256) as u8
    }

    /// Whether a coin shows its head.
    pub fn truth(&mut self) -> bool {
        self.below(2) == 0
    }
}
