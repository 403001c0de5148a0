//! The buckets of a book's patterns. A lane of candidates has a bit for each bucket, so that up to 1,024 patterns share eight.
//!
//! At a place that is a candidate for a bucket its patterns are tried in the kind's order, and the first that occurs there ends the
//! search. So patterns that can occur at one place have to share a bucket: else the one in the lower bucket would be answered, also
//! where the other is preferred. Patterns that occur at one place begin with the same bytes, as far as the shortest pattern reaches,
//! and hence with the same low nybbles. These decide: patterns whose first low nybbles are equal go to one bucket.
//!
//! Whole bytes would do as well. But in ASCII a letter and its capital have one low nybble, so that a search that takes them for
//! equal could keep these buckets.

ghost use Rattle.std.specs.Prelude.{◌≡◌, ℕ, ◌<◌, ◌≤◌, MatchBool, slice_index};
ghost use Rattle.rules.specs.Book.{count_of};
ghost use Rattle.pattern.specs.Order.{order_in};
ghost use Rattle.teddy.specs.Buckets.{Alike, leader, groups_of};

use pattern::{Book, MAX_MASKS, MAX_PATTERNS};
use rules::PatternID;

/// How many buckets there are: as many as a lane has bits.
pub const BUCKETS: usize = 8;

/// A byte of a pattern, 0 past its end.
pub(crate) fn byte_at(pattern: &[u8], j: usize) -> u8
    ensures { result ≡ slice_index pattern.now j }
{
    pattern.get(j).copied().unwrap_or(0)
}

/// Whether the first `n` low nybbles of two patterns are equal.
fn same_front(a: &[u8], b: &[u8], n: usize) -> bool
    ensures { MatchBool result (Alike a.now b.now n) (Alike a.now b.now n → ⊥) }
{
    (0..n).all(|k| byte_at(a, k) % 16 == byte_at(b, k) % 16)
}

/// The index of the first id in the kind's order whose pattern has the low nybbles of a pattern; 0 where there is none.
fn leader_of(book: &Book, pattern: &[u8]) -> usize
    ensures { result ≡ leader book.now (order_in book.now) pattern.now }
{
    let n = book.minimum_len().min(MAX_MASKS);
    book.order()
        .iter()
        .find(|id| same_front(book.get(**id), pattern, n))
        .map_or(0, |id| id.as_usize())
}

/// The bucket of a pattern: that of the first one in the kind's order with its low nybbles. The buckets are taken from the last one
/// down: at one place the bit of the lowest bucket is tried first, so that with rising buckets the first patterns entered would be
/// tried in the order of entry even if each had a bucket of its own, and a mistake in the grouping would hardly show.
fn bucket_of(book: &Book, id: PatternID) -> usize
    ensures { result ≡ (groups_of book.now).bucket id }
{
    BUCKETS - 1 - leader_of(book, book.get(id)) % BUCKETS
}

/// The bucket of each pattern, at its id; 0 at an index that is no id. The table has a fixed size, so that making it cannot
/// refuse.
#[tactic(auto, using(std::proofs::lemmas::Grind::common_steps, std::proofs::lemmas::Grind::elements))]
pub fn assign(book: &Book) -> [usize; MAX_PATTERNS]
    ensures known { (i : ℕ) → i < count_of book.now → slice_index result i ≡ (groups_of book.now).bucket i }
    ensures past { (i : ℕ) → count_of book.now ≤ i → slice_index result i ≡ 0 }
{
    let mut buckets = [0; MAX_PATTERNS];
    for id in book.order() {
        buckets[id.as_usize()] = bucket_of(book, *id);
    }
    buckets
}
