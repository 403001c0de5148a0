ghost use Rattle.std.specs.Prelude.{◌≡◌};
ghost use Rattle.teddy.specs.Masks.{low_mask, high_mask};
ghost use Rattle.teddy.specs.Buckets.{groups_by};

use crate::bucket::{BUCKETS, byte_at};
use pattern::{Book, MAX_PATTERNS};

/// A mask as byte tables: for each low nybble, and for each high nybble, the buckets of which a pattern has it in some byte, the same
/// for all patterns; a bit for each bucket.
///
/// Two tables of 16 bytes fit a look-up by lanes, which one of 256 would not. They admit more than the bytes of the patterns: a bucket
/// with `A` (0x41) and `R` (0x52) is admitted for `B` (0x42) and `Q` (0x51) too. So a candidate is only a place to compare at.
#[derive(Clone, Copy, Debug, PartialEq, Eq)]
pub struct MaskTable {
    pub lo: [u8; 16],
    pub hi: [u8; 16],
}

impl MaskTable {
    /// The mask of byte `j` of the patterns; `buckets` has the bucket of each id, modulo `BUCKETS`.
    #[tactic(auto, using(crate::proofs::Marking::marking))]
    pub fn new(book: &Book, buckets: &[usize; MAX_PATTERNS], j: usize) -> MaskTable
        ensures lo { result.lo ≡ low_mask (groups_by book.now buckets.now) j }
        ensures hi { result.hi ≡ high_mask (groups_by book.now buckets.now) j }
    {
        let mut lo = [0; 16];
        let mut hi = [0; 16];
        for id in book.order() {
            let byte = byte_at(book.get(*id), j);
            let bit = 1 << (buckets[id.as_usize()] % BUCKETS);
            lo[(byte % 16) as usize] |= bit;
            hi[(byte / 16) as usize] |= bit;
        }
        MaskTable { lo, hi }
    }
}
