//! The generators that books and texts are drawn with.

use test_random::Xorshift;

/// Numbers that look random and are the same in each run.
pub(crate) trait Numbers {
    fn next(&mut self) -> u64;
}

impl Numbers for Xorshift {
    fn next(&mut self) -> u64 {
        Xorshift::next(self)
    }
}

/// A linear congruential generator, of whose 64 bits of state the upper 31 are the numbers. The books and texts of the rolling hash are
/// drawn with it, so that the counts of their hits that are printed stay as they were: with another one they would be others.
#[derive(Clone, Copy, Debug, PartialEq, Eq)]
pub(crate) struct Congruential {
    state: u64,
}

impl Congruential {
    pub(crate) const FIRST: Congruential = Congruential { state: 1 };
}

impl Numbers for Congruential {
    fn next(&mut self) -> u64 {
        self.state = self
            .state
            .wrapping_mul(6364136223846793005)
            .wrapping_add(1442695040888963407);
        self.state >> 33
    }
}
