//! A mask as vectors, and the membership tests.
ghost use Rattle.std.specs.Prelude.{◌≡◌, ◌/◌, ◌%◌};
ghost use Rattle.vector.specs.Lanes.{lane, row};

use crate::mask_table::MaskTable;
use vector::Vector;

/// For each low and each high nybble the buckets that it is admitted for, in each half.
#[derive(Clone, Copy, Debug, PartialEq, Eq)]
pub struct Mask<V> {
    pub lo: V,
    pub hi: V,
}

/// The low and the high nybble of each lane.
#[tactic(auto, using(crate::proofs::LookUps::low_nybbles, crate::proofs::LookUps::high_nybbles))]
fn nybbles<V: Vector>(chunk: V) -> (V, V)
    ensures low { V.lanes result.0 ≡ row V.count (λ i. lane (V.lanes chunk) i % 16) }
    ensures high { V.lanes result.1 ≡ row V.count (λ i. lane (V.lanes chunk) i / 16) }
{
    let lomask = V::splat(0xf);
    let hlo = chunk.and(lomask);
    let hhi = chunk.shift_right_four().and(lomask);
    (hlo, hhi)
}

impl<V: Vector> Mask<V> {
    ghost use Rattle.teddy.specs.Members.{repeated, admitted};

    /// The mask of two byte tables, each in both halves: a look-up in a doubled vector stays within a half.
    #[tactic(auto, using(crate::proofs::LookUps::in_halves))]
    pub fn load(table: &MaskTable) -> Mask<V>
        ensures lo { V.lanes result.lo ≡ repeated V.count table.now.lo }
        ensures hi { V.lanes result.hi ≡ repeated V.count table.now.hi }
    {
        let lo = [table.lo, table.lo];
        let hi = [table.hi, table.hi];
        Mask {
            lo: V::load(lo.as_flattened(), 0),
            hi: V::load(hi.as_flattened(), 0),
        }
    }

    /// The buckets that a mask admits for each byte of a chunk: those that both its low and its high nybble are admitted for. The byte
    /// itself need not be that of any pattern in them.
    #[tactic(auto, using(crate::proofs::LookUps::looked_up))]
    pub fn members1(chunk: V, mask: Mask<V>) -> V
        ensures { V.lanes result ≡ admitted V.count V.lanes mask (V.lanes chunk) }
    {
        let (hlo, hhi) = nybbles(chunk);
        let locand = mask.lo.shuffle_bytes(hlo);
        let hicand = mask.hi.shuffle_bytes(hhi);
        locand.and(hicand)
    }

    /// The same for two masks.
    pub fn members2(chunk: V, first: Mask<V>, second: Mask<V>) -> (V, V)
        ensures one { V.lanes result.0 ≡ admitted V.count V.lanes first (V.lanes chunk) }
        ensures two { V.lanes result.1 ≡ admitted V.count V.lanes second (V.lanes chunk) }
    {
        (Mask::members1(chunk, first), Mask::members1(chunk, second))
    }

    /// The same for three masks.
    pub fn members3(chunk: V, first: Mask<V>, second: Mask<V>, third: Mask<V>) -> (V, V, V)
        ensures one { V.lanes result.0 ≡ admitted V.count V.lanes first (V.lanes chunk) }
        ensures two { V.lanes result.1 ≡ admitted V.count V.lanes second (V.lanes chunk) }
        ensures three { V.lanes result.2 ≡ admitted V.count V.lanes third (V.lanes chunk) }
    {
        let (one, two) = Mask::members2(chunk, first, second);
        (one, two, Mask::members1(chunk, third))
    }

    /// The same for four masks.
    pub fn members4(
        chunk: V,
        first: Mask<V>,
        second: Mask<V>,
        third: Mask<V>,
        fourth: Mask<V>,
    ) -> (V, V, V, V)
        ensures one { V.lanes result.0 ≡ admitted V.count V.lanes first (V.lanes chunk) }
        ensures two { V.lanes result.1 ≡ admitted V.count V.lanes second (V.lanes chunk) }
        ensures three { V.lanes result.2 ≡ admitted V.count V.lanes third (V.lanes chunk) }
        ensures four { V.lanes result.3 ≡ admitted V.count V.lanes fourth (V.lanes chunk) }
    {
        let (one, two, three) = Mask::members3(chunk, first, second, third);
        (one, two, three, Mask::members1(chunk, fourth))
    }
}
