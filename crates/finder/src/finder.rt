ghost use Rattle.std.specs.Prelude.{◌≡◌};
ghost use Rattle.rules.specs.Book.{Book, Within, count_of};
ghost use Rattle.rules.specs.Search.{found};

use rules::Match;

/// A searcher, by the book that it searches: it owes that book, the number of its patterns and the find, and nothing of how it was
/// made.
pub trait Finder {
    ghost book: { Self → Book };

    /// How many patterns the book has.
    fn pattern_count(&self) -> usize
        ensures { result ≡ count_of (book self.now) };

    /// The first hit in a text from a place on.
    fn find(&self, text: &[u8], at: usize) -> Option<Match>
        ensures { result ≡ found (book self.now) text.now at };

    ghost within: { (x : Self) → Within (book x) };
}
