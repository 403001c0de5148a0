//! The doubled vector.
ghost use Rattle.std.specs.Prelude.{◌≡◌, ◌≤◌, ◌++◌};
ghost use Rattle.std.proofs.Common.{◌∙◌, arith, rules};
ghost use Rattle.vector.specs.Lanes.{shifted_in};
ghost use Rattle.std.proofs.lemmas.List.{length-append};
ghost use Rattle.vector.specs.Laws.{bytes_join};

use crate::half::Half;
use crate::vector::Vector;

/// A vector of two halves of one kind: 32 lanes, the lanes 0 to 15 in `low`.
#[derive(Clone, Copy, Debug, PartialEq, Eq)]
pub struct Double<H> {
    low: H,
    high: H,
}

#[tactic(auto, using(crate::proofs::Halves::joins))]
impl<H: Half> Double<H> {
    // The low half takes lanes in from the other vector, the high half from the low one.
    fn shift_in(self, other: Double<H>, count: usize) -> Double<H>
        requires { count ≤ 16 }
        ensures { H.lanes result.low ++ H.lanes result.high ≡ shifted_in count 32 (H.lanes self.low ++ H.lanes self.high) (H.lanes other.low ++ H.lanes other.high) }
    {
        Double {
            low: self.low.shift_in(other.high, count),
            high: self.high.shift_in(self.low, count),
        }
    }
}

#[tactic(auto, using(crate::proofs::Halves::joins))]
impl<H: Half> Vector for Double<H> {
    ghost count = { 32 };

    ghost lanes = { λ v. H.Half.lanes v.low ++ H.Half.lanes v.high };

    ghost wide = { Prim.search rules };

    ghost many = { λ v.
        let half = H.Half in
        let long = H.Half.sixteen in
        length-append (half.lanes v.low) (half.lanes v.high) ∙ omega (arith, long v.low, long v.high) };

    ghost bytes = { λ v i.
        let met = H.Half in
        bytes_join _ _ (met.bytes v.low) (met.bytes v.high) i };

    fn lane_count() -> usize {
        32
    }

    fn splat(byte: u8) -> Double<H> {
        let half = H::splat(byte);
        Double {
            low: half,
            high: half,
        }
    }

    fn load(s: &[u8], at: usize) -> Double<H> {
        Double {
            low: H::load(s, at),
            high: H::load(s, at.saturating_add(16)),
        }
    }

    fn is_zero(self) -> bool {
        self.low.is_zero() && self.high.is_zero()
    }

    fn cmpeq(self, other: Double<H>) -> Double<H> {
        Double {
            low: self.low.cmpeq(other.low),
            high: self.high.cmpeq(other.high),
        }
    }

    fn and(self, other: Double<H>) -> Double<H> {
        Double {
            low: self.low.and(other.low),
            high: self.high.and(other.high),
        }
    }

    fn or(self, other: Double<H>) -> Double<H> {
        Double {
            low: self.low.or(other.low),
            high: self.high.or(other.high),
        }
    }

    fn shift_right_four(self) -> Double<H> {
        Double {
            low: self.low.shift_right_four(),
            high: self.high.shift_right_four(),
        }
    }

    fn shift_in_one_byte(self, other: Double<H>) -> Double<H> {
        self.shift_in(other, 1)
    }

    fn shift_in_two_bytes(self, other: Double<H>) -> Double<H> {
        self.shift_in(other, 2)
    }

    fn shift_in_three_bytes(self, other: Double<H>) -> Double<H> {
        self.shift_in(other, 3)
    }

    fn shuffle_bytes(self, indices: Double<H>) -> Double<H> {
        Double {
            low: self.low.shuffle_bytes(indices.low),
            high: self.high.shuffle_bytes(indices.high),
        }
    }

    fn lane_64(self, k: usize) -> u64 {
        if k < 2 {
            self.low.lane_64(k)
        } else {
            self.high.lane_64(k - 2)
        }
    }
}
