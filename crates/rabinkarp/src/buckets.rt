ghost use Rattle.std.specs.Prelude.{◌≡◌, ℕ, ◌+◌, ◌%◌, ◌<◌, ◌≤◌, slice_index};
ghost use Rattle.rules.specs.Limits.{hash_buckets, max_patterns};
ghost use Rattle.pattern.specs.Order.{order_in};

use pattern::{Book, MAX_PATTERNS};
use rules::PatternID;

/// How many buckets there are. With more of them, fewer patterns are compared at a place of a text, by their hashes and then by
/// their bytes; with fewer, a searcher takes less memory. It is a power of two, so that the remainder of a key is its low bits
/// and costs no division at each place of a text.
pub const NUM_BUCKETS: usize = 64;

/// The ids of a book in buckets: those of all buckets one after another, and where each bucket starts. A list for each bucket
/// would have to be as long as a book has patterns at the most, since all of them can lie in one bucket: 256 KB. The tables have
/// the bounds of a book, so that neither making nor copying them can refuse.
#[derive(Clone, Copy, Debug)]
pub struct Buckets {
    /// What stands behind the end of the last bucket belongs to none.
    ids: [PatternID; MAX_PATTERNS],
    /// Where each bucket starts, and at last where the last one ends.
    starts: [usize; NUM_BUCKETS + 1],
    ghost rising: { (k : ℕ) → k < hash_buckets → slice_index starts k ≤ slice_index starts (k + 1) },
    ghost within: { (k : ℕ) → k < hash_buckets → slice_index starts (k + 1) ≤ max_patterns },
}

impl Buckets {
    ghost use Rattle.rabinkarp.specs.Buckets.{bucket_ids, Holds};

    /// Puts each id of a book into the bucket that its key is modulo `NUM_BUCKETS`; `keys` has the key of each id, in a table of
    /// fixed size, so that making it cannot refuse. Within a bucket the ids are in the order of the book's kind.
    #[tactic(auto, using(crate::proofs::Slices::bucketing))]
    pub fn new(book: &Book, keys: &[usize; MAX_PATTERNS]) -> Buckets
        ensures { Holds result (λ id. slice_index keys.now id % hash_buckets) (order_in book.now) }
    {
        let order = book.order();
        let mut ids = [PatternID::ZERO; MAX_PATTERNS];
        let mut starts = [0; NUM_BUCKETS + 1];
        let mut filled = 0;
        // Each bucket ends where the next one starts.
        for k in 0..NUM_BUCKETS {
            for id in order {
                if keys[id.as_usize()] % NUM_BUCKETS == k {
                    ids[filled] = *id;
                    filled += 1;
                }
            }
            starts[k + 1] = filled;
        }
        Buckets { ids, starts }
    }

    /// The ids in the bucket that a key is modulo `NUM_BUCKETS`.
    pub fn bucket(&self, key: usize) -> &[PatternID]
        ensures { result.now ≡ bucket_ids self.now (key % hash_buckets) }
    {
        let k = key % NUM_BUCKETS;
        &self.ids.as_slice()[self.starts[k]..self.starts[k + 1]]
    }
}
