//! A half as two words of 64 bits.
ghost use Rattle.std.specs.Prelude.{◌≡◌};
ghost use Rattle.vector.specs.Words.{held};
ghost use Rattle.vector.specs.Laws.{words_long, words_bytes};

use crate::array::ArrayHalf;
use crate::half::Half;
use std::simd::prelude::*;

/// Two words, the lanes 0 to 7 in `low`, each the lowest byte first.
#[derive(Clone, Copy, Debug, PartialEq, Eq)]
pub struct WordHalf {
    low: u64,
    high: u64,
}

#[tactic(auto, using(crate::proofs::WordLanes::words))]
impl WordHalf {
    // `pack` and `unpack` are private, which a `From` would not be.
    fn pack(lanes: ArrayHalf) -> WordHalf
        ensures { held result ≡ lanes.bytes }
    {
        WordHalf {
            low: lanes.lane_64(0),
            high: lanes.lane_64(1),
        }
    }

    fn unpack(self) -> ArrayHalf
        ensures { result.bytes ≡ held self }
    {
        ArrayHalf::new(
            u64x2::from_array([self.low, self.high])
                .to_le_bytes()
                .to_array(),
        )
    }
}

#[tactic(auto, using(crate::proofs::WordLanes::words))]
impl Half for WordHalf {
    ghost lanes = { held };

    ghost sixteen = { λ h. words_long _ _ };

    ghost bytes = { λ h i. words_bytes _ _ i };

    fn splat(byte: u8) -> WordHalf {
        // The product puts `byte` into each byte of the word.
        let word = u64::from(byte) * 0x0101_0101_0101_0101;
        WordHalf {
            low: word,
            high: word,
        }
    }

    fn load(s: &[u8], at: usize) -> WordHalf {
        WordHalf::pack(ArrayHalf::load(s, at))
    }

    fn is_zero(self) -> bool {
        self.low | self.high == 0
    }

    fn cmpeq(self, other: WordHalf) -> WordHalf {
        WordHalf::pack(self.unpack().cmpeq(other.unpack()))
    }

    fn and(self, other: WordHalf) -> WordHalf {
        WordHalf {
            low: self.low & other.low,
            high: self.high & other.high,
        }
    }

    fn or(self, other: WordHalf) -> WordHalf {
        WordHalf {
            low: self.low | other.low,
            high: self.high | other.high,
        }
    }

    fn shift_right_four(self) -> WordHalf {
        WordHalf {
            low: self.low >> 4 & 0x0f0f_0f0f_0f0f_0f0f,
            high: self.high >> 4 & 0x0f0f_0f0f_0f0f_0f0f,
        }
    }

    fn shift_in(self, other: WordHalf, count: usize) -> WordHalf {
        WordHalf::pack(self.unpack().shift_in(other.unpack(), count))
    }

    fn shuffle_bytes(self, indices: WordHalf) -> WordHalf {
        WordHalf::pack(self.unpack().shuffle_bytes(indices.unpack()))
    }

    fn lane_64(self, k: usize) -> u64 {
        [self.low, self.high].get(k).copied().unwrap_or(0)
    }
}
