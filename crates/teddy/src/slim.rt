ghost use Rattle.std.specs.Prelude.{◌≡◌, ◌+◌, ◌-◌, ◌≤◌, length};
ghost use Rattle.rules.specs.Search.{found};
ghost use Rattle.pattern.specs.Entering.{Ready};
ghost use Rattle.teddy.specs.Teddy.{nearest};

use crate::bits::take_lowest;
use crate::bucket::BUCKETS;
use crate::candidate::Seen;
use crate::teddy::Teddy;
use finder::{Finder, Searcher, verify};
use pattern::Book;
use rabinkarp::RabinKarp;
use rules::Match;
use std::marker::PhantomData;
use std::rc::Rc;
use vector::Vector;

/// The mask searcher over a kind of lanes, which `kind` fixes.
#[derive(Drop)]
pub struct Slim<V> {
    teddy: Teddy,
    kind: PhantomData<V>,
}

impl<V: Vector> Slim<V> {
    ghost use Rattle.teddy.specs.Slim.{mask_count};

    /// A searcher over a closed book with `masks` masks; a count that is not permitted becomes the nearest one, and one that
    /// `Patterns::check` permits stays. One of a book without patterns finds nothing. It is not inlined: so what the making needs of
    /// the stack, several times what the searcher has, is given back before the first search.
    #[inline(never)]
    pub fn new(book: Rc<Book>, masks: usize) -> Slim<V>
        ensures book { ⟦<Slim<V> as Finder>⟧.book result ≡ book.value }
        ensures masks { mask_count result ≡ nearest masks book.value }
        ensures ready { Ready book.value masks → mask_count result ≡ masks }
    {
        Slim {
            teddy: Teddy::new(book, masks),
            kind: PhantomData,
        }
    }

    /// How many bytes a text must have from a place on, to be searched by windows from there.
    fn minimum_len(&self) -> usize
        ensures { result ≡ V.count + mask_count self.now - 1 }
    {
        V::lane_count() + self.teddy.masks.count - 1
    }

    /// Tries the candidates of window after window; the last window is the one that ends with the text.
    #[tactic(auto, using(crate::proofs::Hits::trying))]
    fn find_in_windows(&self, text: &[u8], from: usize) -> Option<Match>
        requires { from + V.count + mask_count self.now ≤ length text.now + 1 }
        ensures { result ≡ found (⟦<RabinKarp as Finder>⟧.book self.now.teddy.rabinkarp) text.now from }
    {
        let book = self.teddy.rabinkarp.book();
        let masks = self.teddy.masks::<V>();
        let lanes = V::lane_count();
        let back = masks.count - 1;
        let end = text.len() - lanes;
        let mut seen = Seen::blank();
        let mut at = from + back;
        // Over the windows, the 64-bit lanes of one, the bits that are set in a lane, and the patterns of a bit's bucket. A hit ends all
        // four loops, whose labels name these steps as the functions of aho-corasick do.
        'find: loop {
            let candidates = masks.window(text, at, &mut seen);
            if !candidates.is_zero() {
                'verify: for k in 0..lanes / 8 {
                    let mut rest = candidates.lane_64(k);
                    'verify64: while let Some(bit) = take_lowest(&mut rest) {
                        let start = at - back + 8 * k + bit / BUCKETS;
                        'verify_bucket: for id in self.teddy.buckets.bucket(bit % BUCKETS) {
                            if let Some(hit) = verify(book, *id, text, start) {
                                break 'find Some(hit);
                            }
                        }
                    }
                }
            }
            if at == end {
                break None;
            }
            if end - at >= lanes {
                at += lanes;
            } else {
                at = end;
                seen = Seen::blank();
            }
        }
    }
}

impl<V: Vector> Finder for Slim<V> {
    ghost book = { λ x. ⟦<RabinKarp as Finder>⟧.book x.teddy.rabinkarp };

    ghost within = { λ x. x.teddy.rabinkarp.within };

    fn pattern_count(&self) -> usize {
        self.teddy.rabinkarp.pattern_count()
    }

    fn find(&self, text: &[u8], at: usize) -> Option<Match> {
        if at > text.len() || text.len() - at < self.minimum_len() {
            return self.teddy.rabinkarp.find(text, at);
        }
        self.find_in_windows(text, at)
    }
}

impl<V: Vector> Searcher for Slim<V> {
    ghost use Rattle.teddy.specs.Slim.{mask_count};

    /// The mask count; one that is not permitted becomes the nearest one.
    type Setting = usize;

    fn over(closed: Rc<Book>, setting: usize) -> Slim<V>
        ensures book { ⟦<Slim<V> as Finder>⟧.book result ≡ closed.value }
        ensures masks { mask_count result ≡ nearest setting closed.value }
    {
        Slim::new(closed, setting)
    }
}
