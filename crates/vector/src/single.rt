//! The single vector.
ghost use Rattle.std.proofs.Common.{rules};

use crate::half::Half;
use crate::vector::Vector;

/// A vector of one half: 16 lanes.
#[derive(Clone, Copy, Debug, PartialEq, Eq)]
pub struct Single<H>(H);

impl<H: Half> Vector for Single<H> {
    ghost count = { 16 };

    ghost lanes = { λ v. H.Half.lanes v.0 };

    ghost wide = { Prim.search rules };

    ghost many = { Prim.search rules };

    ghost bytes = { Prim.search rules };

    fn lane_count() -> usize {
        16
    }

    fn splat(byte: u8) -> Single<H> {
        Single(H::splat(byte))
    }

    fn load(s: &[u8], at: usize) -> Single<H> {
        Single(H::load(s, at))
    }

    fn is_zero(self) -> bool {
        self.0.is_zero()
    }

    fn cmpeq(self, other: Single<H>) -> Single<H> {
        Single(self.0.cmpeq(other.0))
    }

    fn and(self, other: Single<H>) -> Single<H> {
        Single(self.0.and(other.0))
    }

    fn or(self, other: Single<H>) -> Single<H> {
        Single(self.0.or(other.0))
    }

    fn shift_right_four(self) -> Single<H> {
        Single(self.0.shift_right_four())
    }

    fn shift_in_one_byte(self, other: Single<H>) -> Single<H> {
        Single(self.0.shift_in(other.0, 1))
    }

    fn shift_in_two_bytes(self, other: Single<H>) -> Single<H> {
        Single(self.0.shift_in(other.0, 2))
    }

    fn shift_in_three_bytes(self, other: Single<H>) -> Single<H> {
        Single(self.0.shift_in(other.0, 3))
    }

    fn shuffle_bytes(self, indices: Single<H>) -> Single<H> {
        Single(self.0.shuffle_bytes(indices.0))
    }

    fn lane_64(self, k: usize) -> u64 {
        self.0.lane_64(k)
    }
}
