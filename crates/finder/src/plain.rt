ghost use Rattle.std.specs.Prelude.{◌≡◌};
ghost use Rattle.rules.specs.Book.{Within};
ghost use Rattle.rules.specs.Places.{AnswersAt};

use crate::compare::verify;
use crate::finder::Finder;
use crate::searcher::Searcher;
use pattern::{Book, MAX_PATTERNS};
use rules::Match;
use std::rc::Rc;

/// The searcher that tries each place and each pattern in order.
#[derive(Debug, Drop)]
pub struct Plain {
    book: Rc<Book>,
    ghost within: { Within book.value },
}

impl Plain {
    /// A searcher over a closed book.
    pub fn new(book: Rc<Book>) -> Plain
        ensures { ⟦<Plain as Finder>⟧.book result ≡ book.value }
    {
        // The bounds of a book hold of every closed one, and a searcher owes them of its book.
        prove!(book.len() <= MAX_PATTERNS);
        Plain { book }
    }

    /// The match at one place: that of the first pattern, in the kind's order, which stands there.
    fn find_here(&self, text: &[u8], start: usize) -> Option<Match>
        ensures { AnswersAt self.now.book.value text.now start result }
    {
        let order = self.book.order();
        // By the index of the order table: all ids below it were tried in vain.
        for i in 0..order.len() {
            if let Some(hit) = verify(&self.book, order[i], text, start) {
                return Some(hit);
            }
        }
        None
    }
}

impl Finder for Plain {
    ghost book = { λ x. x.book.value };

    ghost within = { λ x. x.within };

    fn pattern_count(&self) -> usize {
        self.book.len()
    }

    /// Tries place after place.
    #[tactic(auto, using(crate::proofs::Places::found_here, crate::proofs::Places::found_next, crate::proofs::Places::found_end))]
    fn find(&self, text: &[u8], at: usize) -> Option<Match> {
        for start in at..text.len() {
            if let Some(hit) = self.find_here(text, start) {
                return Some(hit);
            }
        }
        None
    }
}

impl Searcher for Plain {
    type Setting = ();

    fn over(closed: Rc<Book>, _setting: ()) -> Plain {
        Plain::new(closed)
    }
}
