//! The candidates of a window, which is as many bytes of a text as there are lanes.
//!
//! The first mask admits, for each byte, the buckets of which a pattern may have it as its first byte; the second mask those of
//! which a pattern may have it as its second, and so on. A pattern may begin where the first mask admits its bucket for the byte
//! there, the second for the next byte, and so on up to the last mask. To bring these answers into one lane, those of the last mask
//! stay where they are, those of the mask before it are shifted on by one lane, and so on. Lane i then speaks of the place that lies
//! as many bytes before its own byte as there are masks but one. With two masks, and one bucket that has the pattern `DC`:
//!
//! ```text
//! bytes of the window             x  D  C  -  D
//! admitted by the first mask      0  1  0  0  1
//! the same, shifted on by one     ?  0  1  0  0
//! admitted by the second mask     0  0  1  0  0
//! candidates                      0  0  1  0  0     lane 2: a pattern may begin at lane 1
//! ```
//!
//! What is shifted into the first lanes (`?`) is what the first mask admitted for the last bytes of the window before: `Seen` keeps
//! it. The last lane of this window, where `D` was admitted, goes into the next one in the same way.

ghost use Rattle.std.specs.Prelude.{◌≡◌};
ghost use Rattle.vector.specs.Lanes.{splatted, loaded};

use crate::mask::Mask;
use vector::Vector;

/// Four masks, of which the first `count` are used, and all four for any other count than 1 to 3. They are byte tables (`MaskTable`)
/// where they are kept, and vectors (`Mask<V>`) where they are used.
#[derive(Clone, Copy, Debug, PartialEq, Eq)]
pub struct Masks<M> {
    pub count: usize,
    pub first: M,
    pub second: M,
    pub third: M,
    pub fourth: M,
}

/// What the first three masks admitted in the window before, named as the masks are. Nothing is ever shifted out of the fourth.
#[derive(Clone, Copy, Debug, PartialEq, Eq)]
pub struct Seen<V> {
    pub first: V,
    pub second: V,
    pub third: V,
}

impl<V: Vector> Seen<V> {
    ghost use Rattle.teddy.specs.Windows.{IsBlank};

    /// Before the first window: every bucket is admitted in all lanes, so that bytes that were not loaded rule nothing out.
    #[tactic(auto, using(crate::proofs::Exact::blank))]
    pub fn blank() -> Seen<V>
        ensures first { V.lanes result.first ≡ splatted V.count 255 }
        ensures second { V.lanes result.second ≡ splatted V.count 255 }
        ensures third { V.lanes result.third ≡ splatted V.count 255 }
        ensures blank { IsBlank V.count V.lanes result }
    {
        let blank = V::splat(0xff);
        Seen {
            first: blank,
            second: blank,
            third: blank,
        }
    }
}

impl<V: Vector> Masks<Mask<V>> {
    ghost use Rattle.teddy.specs.Candidates.{candidates, seen_after, Tests};
    ghost use Rattle.teddy.specs.Windows.{Exact};

    /// The buckets for which each place of a window is a candidate: lane i speaks of the place `count` - 1 before its byte.
    /// `seen` then holds what each mask leaves for the next window: what it admitted here, but for the last one in use and those behind
    /// it.
    #[tactic(auto, unfolding(crate::specs::Candidates::met))]
    pub fn candidate(&self, chunk: V, seen: &mut Seen<V>) -> V
        ensures found { V.lanes result ≡ candidates V.count V.lanes self.now seen.old (V.lanes chunk) }
        ensures first { V.lanes seen.new.first ≡ (seen_after V.count V.lanes self.now seen.old (V.lanes chunk)).first }
        ensures second { V.lanes seen.new.second ≡ (seen_after V.count V.lanes self.now seen.old (V.lanes chunk)).second }
        ensures third { V.lanes seen.new.third ≡ (seen_after V.count V.lanes self.now seen.old (V.lanes chunk)).third }
    {
        match self.count {
            1 => Mask::members1(chunk, self.first),
            2 => {
                let (one, two) = Mask::members2(chunk, self.first, self.second);
                let all = one.shift_in_one_byte(seen.first).and(two);
                seen.first = one;
                all
            }
            3 => {
                let (one, two, three) = Mask::members3(chunk, self.first, self.second, self.third);
                let all = one
                    .shift_in_two_bytes(seen.first)
                    .and(two.shift_in_one_byte(seen.second))
                    .and(three);
                seen.first = one;
                seen.second = two;
                all
            }
            _ => {
                let (one, two, three, four) = Mask::members4(
                    chunk,
                    self.first,
                    self.second,
                    self.third,
                    self.fourth,
                );
                let early = one
                    .shift_in_three_bytes(seen.first)
                    .and(two.shift_in_two_bytes(seen.second));
                let all = early.and(three.shift_in_one_byte(seen.third)).and(four);
                seen.first = one;
                seen.second = two;
                seen.third = three;
                all
            }
        }
    }

    /// The candidates of the window of a text at a place, for the masks of a book: bit k of lane i is set exactly if mask j
    /// admits the bucket k for the byte j behind the lane's place, for all j below the mask count. Of these bytes only those are
    /// tested that were loaded since `seen` was blank; `seen` then holds what each mask leaves for the next window.
    #[tactic(auto, using(crate::proofs::Exact::exact))]
    pub fn window(&self, text: &[u8], at: usize, seen: &mut Seen<V>) -> V
        ensures tests { Tests V.count V.lanes self.now seen.old (loaded V.count text.now at) result seen.new }
        ensures exact { Exact V.count V.lanes self.now text.now at seen.old result seen.new }
    {
        self.candidate(V::load(text, at), seen)
    }
}
