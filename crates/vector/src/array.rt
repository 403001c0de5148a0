//! A half as sixteen bytes.
ghost use Rattle.std.specs.Prelude.{◌≡◌, ℕ, ◌<◌, length};
ghost use Rattle.vector.specs.Lanes.{lane, loaded, shifted_in};
ghost use Rattle.std.proofs.Common.{rules};

use crate::half::Half;
use std::array::from_fn;
use std::simd::prelude::*;

/// Sixteen bytes by value, lane i being the byte at i.
#[derive(Clone, Copy, Debug, PartialEq, Eq)]
pub struct ArrayHalf {
    bytes: [u8; 16],
    // Kept with each value: the laws of `Half` speak of every value, and the type of an array says neither.
    ghost long: { length bytes ≡ 16 },
    ghost fit: { (i : ℕ) → lane bytes i < 256 },
}

// The first sixteen bytes of `s`; a lane past the end is 0.
fn front(s: &[u8]) -> [u8; 16]
    ensures { result ≡ loaded 16 s.now 0 }
{
    match s.first_chunk() {
        Some(bytes) => *bytes,
        None => from_fn(|i| s.get(i).copied().unwrap_or(0)),
    }
}

// The last `count` bytes of `b`, then the first of `a`.
fn shifted(a: [u8; 16], b: [u8; 16], count: usize) -> [u8; 16]
    ensures { result ≡ shifted_in count 16 a b }
{
    let kept = 16usize.saturating_sub(count);
    from_fn(|i| if i < count { b[kept + i] } else { a[i - count] })
}

impl ArrayHalf {
    /// The half whose lanes are `bytes`.
    pub fn new(bytes: [u8; 16]) -> ArrayHalf
        ensures { result.bytes ≡ bytes }
    {
        ArrayHalf { bytes }
    }

    // `from_simd` and `to_simd` are private, which a `From` would not be.
    fn from_simd(lanes: u8x16) -> ArrayHalf
        ensures { result.bytes ≡ lanes }
    {
        ArrayHalf::new(lanes.to_array())
    }

    fn to_simd(self) -> u8x16
        ensures { result ≡ self.bytes }
    {
        u8x16::from_array(self.bytes)
    }
}

#[tactic(auto, using(crate::proofs::Simd::simd_rows))]
impl Half for ArrayHalf {
    ghost lanes = { λ h. h.bytes };

    ghost sixteen = { Prim.search rules };

    ghost bytes = { Prim.search rules };

    fn splat(byte: u8) -> ArrayHalf {
        ArrayHalf::from_simd(u8x16::splat(byte))
    }

    fn load(s: &[u8], at: usize) -> ArrayHalf {
        ArrayHalf::new(front(&s[at.min(s.len())..]))
    }

    fn is_zero(self) -> bool {
        self.to_simd().reduce_or() == 0
    }

    fn cmpeq(self, other: ArrayHalf) -> ArrayHalf {
        let equal = self.to_simd().simd_eq(other.to_simd());
        ArrayHalf::from_simd(equal.select(u8x16::splat(0xff), u8x16::splat(0)))
    }

    fn and(self, other: ArrayHalf) -> ArrayHalf {
        ArrayHalf::from_simd(self.to_simd() & other.to_simd())
    }

    fn or(self, other: ArrayHalf) -> ArrayHalf {
        ArrayHalf::from_simd(self.to_simd() | other.to_simd())
    }

    fn shift_right_four(self) -> ArrayHalf {
        ArrayHalf::from_simd(self.to_simd() >> u8x16::splat(4))
    }

    fn shift_in(self, other: ArrayHalf, count: usize) -> ArrayHalf {
        ArrayHalf::new(shifted(self.bytes, other.bytes, count))
    }

    // An index above 15 becomes 128, at which `swizzle_dyn` gives 0.
    fn shuffle_bytes(self, indices: ArrayHalf) -> ArrayHalf {
        let indices = indices.to_simd();
        let small = indices.simd_lt(u8x16::splat(16));
        ArrayHalf::from_simd(
            self.to_simd()
                .swizzle_dyn(small.select(indices, u8x16::splat(128))),
        )
    }

    fn lane_64(self, k: usize) -> u64 {
        let lanes = u64x2::from_le_bytes(self.to_simd()).to_array();
        lanes.get(k).copied().unwrap_or(0)
    }
}
