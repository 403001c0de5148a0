//! A row of byte lanes: one half, or two of one kind side by side.
ghost use Rattle.std.specs.Prelude.{◌≡◌, ℕ, ◌<◌, ◌⊎◌, List, length};
ghost use Rattle.vector.specs.Lanes.{lane, splatted, loaded, all_zero, anded, ored, compared, shifted_right_4, shifted_in, shuffled, lane64};

// Half and vector are two traits, so that one more kind of half serves single and doubled vectors alike.
/// Lanes of a byte each, on which an operation works at once. Its meaning is the list of its lanes, lane 0 first.
pub trait Vector: Copy {
    // How many lanes there are.
    ghost count: { ℕ };

    // The lanes, as the words of specs/Lanes.antt see them.
    ghost lanes: { Self → List ℕ };

    /// The number of lanes, 16 or 32.
    fn lane_count() -> usize
        ensures { result ≡ count };

    /// `byte` in every lane.
    fn splat(byte: u8) -> Self
        ensures { lanes result ≡ splatted count byte };

    /// The bytes of `s` from the place `at` on; a lane past the end is 0.
    fn load(s: &[u8], at: usize) -> Self
        ensures { lanes result ≡ loaded count s.now at };

    /// Whether all lanes are 0.
    fn is_zero(self) -> bool
        ensures { result ≡ all_zero (lanes self) };

    /// 0xFF where the lanes are equal, and 0 elsewhere.
    fn cmpeq(self, other: Self) -> Self
        ensures { lanes result ≡ compared count (lanes self) (lanes other) };

    /// The bits that both have.
    fn and(self, other: Self) -> Self
        ensures { lanes result ≡ anded count (lanes self) (lanes other) };

    /// The bits that one of the two has.
    fn or(self, other: Self) -> Self
        ensures { lanes result ≡ ored count (lanes self) (lanes other) };

    /// Each lane shifted right by four bits: its high nybble.
    fn shift_right_four(self) -> Self
        ensures { lanes result ≡ shifted_right_4 count (lanes self) };

    // Three methods, as in aho-corasick: with a count, as in `Half`, the doubled vector would demand at most 16 of it.
    /// The last lane of `other`, then all lanes of `self` but its last.
    fn shift_in_one_byte(self, other: Self) -> Self
        ensures { lanes result ≡ shifted_in 1 count (lanes self) (lanes other) };

    /// The last two lanes of `other`, then all lanes of `self` but its last two.
    fn shift_in_two_bytes(self, other: Self) -> Self
        ensures { lanes result ≡ shifted_in 2 count (lanes self) (lanes other) };

    /// The last three lanes of `other`, then all lanes of `self` but its last three.
    fn shift_in_three_bytes(self, other: Self) -> Self
        ensures { lanes result ≡ shifted_in 3 count (lanes self) (lanes other) };

    /// Lane i is the lane of its own half that lane i of `indices` names; an index above 15 gives 0.
    fn shuffle_bytes(self, indices: Self) -> Self
        ensures { lanes result ≡ shuffled count (lanes self) (lanes indices) };

    /// The lanes 8k to 8k + 7 as a number, low byte first; 0 past the last lane.
    fn lane_64(self, k: usize) -> u64
        ensures { result ≡ lane64 (lanes self) k };

    // What any code that is written for every kind may use of it.
    ghost wide: { (count ≡ 16) ⊎ (count ≡ 32) };

    ghost many: { (v : Self) → length (lanes v) ≡ count };

    ghost bytes: { (v : Self) (i : ℕ) → lane (lanes v) i < 256 };
}
