use std::alloc::{AllocError, Global};
use test_random::Xorshift;

/// Drawn numbers and letters, the same in each run.
#[derive(Drop)]
pub(crate) struct Random {
    numbers: Xorshift,
}

impl Random {
    pub(crate) fn new() -> Random {
        Random {
            numbers: Xorshift::FIRST,
        }
    }

    /// A number below `n`, or 0 where `n` is 0.
    pub(crate) fn below(&mut self, n: usize) -> usize {
        (self.numbers.next() as usize).checked_rem(n).unwrap_or(0)
    }

    /// A number from `low` to `high`, both among them.
    pub(crate) fn between(&mut self, low: usize, high: usize) -> usize {
        let spread = high.saturating_sub(low).saturating_add(1);
        low.saturating_add(self.below(spread))
    }

    /// Whether it comes, once in `n` times.
    pub(crate) fn one_in(&mut self, n: usize) -> bool {
        self.below(n) == 0
    }

    /// Any byte.
    pub(crate) fn byte(&mut self) -> u8 {
        (self.numbers.next() & 0xff) as u8
    }

    /// One of the first `letters` letters.
    pub(crate) fn letter(&mut self, letters: usize) -> u8 {
        b'A'.wrapping_add((self.below(letters) & 0x1f) as u8)
    }

    /// `len` of the first `letters` letters.
    pub(crate) fn word(
        &mut self,
        alloc: Global,
        len: usize,
        letters: usize,
    ) -> Result<Vec<u8>, AllocError> {
        (0..len).map(|_| self.letter(letters)).collect(alloc)
    }
}
