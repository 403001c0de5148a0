//! Sixteen lanes of a byte each.
ghost use Rattle.std.specs.Prelude.{◌≡◌, ℕ, ◌<◌, List, length};
ghost use Rattle.vector.specs.Lanes.{lane, splatted, loaded, all_zero, anded, ored, compared, shifted_right_4, shifted_in, shuffled, lane64};

/// Half of a doubled vector, or a single vector whole. Its meaning is the list of its lanes, lane 0 first.
pub trait Half: Copy {
    // The lanes, as the words of specs/Lanes.antt see them.
    ghost lanes: { Self → List ℕ };

    /// `byte` in every lane.
    fn splat(byte: u8) -> Self
        ensures { lanes result ≡ splatted 16 byte };

    /// The bytes of `s` from the place `at` on; a lane past the end is 0.
    fn load(s: &[u8], at: usize) -> Self
        ensures { lanes result ≡ loaded 16 s.now at };

    /// Whether all lanes are 0.
    fn is_zero(self) -> bool
        ensures { result ≡ all_zero (lanes self) };

    /// 0xFF where the lanes are equal, and 0 elsewhere.
    fn cmpeq(self, other: Self) -> Self
        ensures { lanes result ≡ compared 16 (lanes self) (lanes other) };

    /// The bits that both have.
    fn and(self, other: Self) -> Self
        ensures { lanes result ≡ anded 16 (lanes self) (lanes other) };

    /// The bits that one of the two has.
    fn or(self, other: Self) -> Self
        ensures { lanes result ≡ ored 16 (lanes self) (lanes other) };

    /// Each lane shifted right by four bits: its high nybble.
    fn shift_right_four(self) -> Self
        ensures { lanes result ≡ shifted_right_4 16 (lanes self) };

    /// The last `count` lanes of `other`, then the first lanes of `self`; from 16 on, `other` whole.
    fn shift_in(self, other: Self, count: usize) -> Self
        ensures { lanes result ≡ shifted_in count 16 (lanes self) (lanes other) };

    /// Lane i is the lane of `self` that lane i of `indices` names; an index above 15 gives 0.
    fn shuffle_bytes(self, indices: Self) -> Self
        ensures { lanes result ≡ shuffled 16 (lanes self) (lanes indices) };

    /// The lanes 8k to 8k + 7 as a number, low byte first; 0 past the last lane.
    fn lane_64(self, k: usize) -> u64
        ensures { result ≡ lane64 (lanes self) k };

    // What a vector of any kind of half may use of it.
    ghost sixteen: { (h : Self) → length (lanes h) ≡ 16 };

    ghost bytes: { (h : Self) (i : ℕ) → lane (lanes h) i < 256 };
}
