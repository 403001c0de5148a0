ghost use Rattle.std.specs.Prelude.{◌≡◌, ℕ, ◌<◌, ◌≤◌, length, slice_index};
ghost use Rattle.rules.specs.Book.{Within, count_of, shortest};
ghost use Rattle.rules.specs.Search.{found_within};
ghost use Rattle.rabinkarp.specs.Hash.{hash_of, window};
ghost use Rattle.rabinkarp.specs.Prefixes.{prefix_hash};
ghost use Rattle.rabinkarp.specs.Prepared.{Prepared};

use crate::buckets::Buckets;
use crate::rolling::{hash, hash_2pow, update_hash};
use finder::{Finder, Searcher, verify};
use pattern::{Book, MAX_PATTERNS};
use rules::Match;
use std::rc::Rc;

/// The searcher that compares a pattern only where the hash of the text's next bytes is that of the pattern's first ones. The
/// hash moves on with the text, one byte at a time.
///
/// As many bytes are hashed as the shortest pattern has: so one hash of the text serves the patterns of every length, each of
/// which has that many first bytes. The price is that beside a short pattern a hash tells little of the long ones: with a pattern
/// of one byte in the book, all patterns that begin alike have one hash, and are compared wherever that byte stands.
///
/// All patterns that occur at a place have the hash of the bytes there, and so lie in one bucket. The first in it that occurs is
/// the answer, since within a bucket the ids stand in the order in which the book's kind prefers them.
#[derive(Drop)]
pub struct RabinKarp {
    book: Rc<Book>,
    buckets: Buckets,
    /// The hash of each pattern's first bytes, at its id.
    hashes: [usize; MAX_PATTERNS],
    /// How many bytes are hashed: those of the shortest pattern. Kept, as `hash_2pow` is, so that no search computes them.
    hash_len: usize,
    /// By how much the first of them counts.
    hash_2pow: usize,
    ghost within: { Within book.value },
    ghost prepared: { Prepared book.value buckets hashes hash_len hash_2pow },
}

impl RabinKarp {
    /// A searcher over a closed book. One of a book without patterns finds nothing.
    pub fn new(book: Rc<Book>) -> RabinKarp
        ensures { ⟦<RabinKarp as Finder>⟧.book result ≡ book.value }
    {
        let hash_len = book.minimum_len();
        let hash_2pow = hash_2pow(hash_len);
        let hashes = hashes(&book);
        let buckets = Buckets::new(&book, &hashes);
        RabinKarp {
            book,
            buckets,
            hashes,
            hash_len,
            hash_2pow,
        }
    }

    /// The closed book that the searcher holds.
    pub fn book(&self) -> &Book
        ensures { result.now ≡ ⟦<RabinKarp as Finder>⟧.book self.now }
    {
        &self.book
    }

    /// What is found at one place of a text, where the next bytes have a hash: the first pattern of its bucket that occurs there.
    #[tactic(auto, using(crate::proofs::Bucket::first_in_bucket))]
    fn find_here(&self, text: &[u8], start: usize, hash: usize) -> Option<Match>
        requires within { start ≤ length text.now }
        requires hashed { hash ≡ hash_of (window text.now (shortest self.now.book.value) start) }
        ensures { result ≡ found_within self.now.book.value text.now 1 start }
    {
        for id in self.buckets.bucket(hash) {
            if self.hashes[id.as_usize()] != hash {
                continue;
            }
            if let Some(hit) = verify(&self.book, *id, text, start) {
                return Some(hit);
            }
        }
        None
    }
}

/// The hash of each pattern's first bytes, as many as the shortest pattern has, at its id. The table has a fixed size, so that
/// making it cannot refuse.
#[tactic(auto, using(crate::proofs::Prefixes::fronts), unfolding(crate::specs::Prefixes::prefix_hash))]
fn hashes(book: &Book) -> [usize; MAX_PATTERNS]
    ensures { (i : ℕ) → i < count_of book.now → slice_index result i ≡ prefix_hash book.now i }
{
    let len = book.minimum_len();
    let mut hashes = [0; MAX_PATTERNS];
    for id in book.order() {
        hashes[id.as_usize()] = hash(&book.get(*id)[..len]);
    }
    hashes
}

impl Finder for RabinKarp {
    ghost book = { λ x. x.book.value };

    ghost within = { λ x. x.within };

    fn pattern_count(&self) -> usize {
        self.book.len()
    }

    /// Tries place after place.
    #[tactic(auto, using(crate::proofs::Found::place_by_place))]
    fn find(&self, text: &[u8], at: usize) -> Option<Match> {
        let len = self.hash_len;
        let mut hash = hash(text.get(at..)?.get(..len)?);
        // By the place, with which the hash moves on.
        for start in at..text.len() - len {
            if let Some(hit) = self.find_here(text, start, hash) {
                return Some(hit);
            }
            hash = update_hash(hash, self.hash_2pow, text[start], text[start + len]);
        }
        self.find_here(text, text.len() - len, hash)
    }
}

impl Searcher for RabinKarp {
    type Setting = ();

    fn over(closed: Rc<Book>, _setting: ()) -> RabinKarp {
        RabinKarp::new(closed)
    }
}
