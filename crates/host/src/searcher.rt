ghost use Rattle.std.specs.Prelude.{◌≡◌, IfOk};
ghost use Rattle.rules.specs.Search.{found};
ghost use Rattle.host.specs.Searchers.{searcher_of, permits};

use finder::{Plain, Searcher};
use pattern::Book;
use rabinkarp::RabinKarp;
use rules::Match;
use std::alloc::{AllocError, Global};
use std::rc::Rc;
use teddy::Slim;
use vector::{ArrayHalf, Single};

/// A kind of searcher; one with masks has their count. The C interface has numbers for these three.
#[derive(Clone, Copy, Debug, PartialEq, Eq)]
pub(crate) enum SearcherKind {
    Plain,
    RollingHash,
    Masks(usize),
}

impl SearcherKind {
    /// The searcher with a number, if there is one.
    pub(crate) fn new(number: u32, masks: usize) -> Option<SearcherKind>
        ensures { result ≡ searcher_of number masks }
    {
        match number {
            0 => Some(SearcherKind::Plain),
            1 => Some(SearcherKind::RollingHash),
            2 => Some(SearcherKind::Masks(masks)),
            _ => None,
        }
    }

    /// The first hit in a text from a place on.
    pub(crate) fn find(
        self,
        alloc: Global,
        book: Book,
        text: &[u8],
        at: usize,
    ) -> Result<Option<Match>, AllocError>
        ensures { IfOk result (λ o. o ≡ found book text.now at) }
    {
        let shared = Rc::new(alloc, book)?;
        // Three types of searchers, so a match: the C interface has these three.
        Ok(match self {
            SearcherKind::Plain => find_by::<Plain>(shared, (), text, at),
            SearcherKind::RollingHash => find_by::<RabinKarp>(shared, (), text, at),
            SearcherKind::Masks(count) => {
                find_by::<Slim<Single<ArrayHalf>>>(shared, count, text, at)
            }
        })
    }
}

/// The first hit in a text from a place on, by a searcher of the kind `S`, made with a setting. It is not inlined: so the searcher that
/// is asked for takes up the stack, and no other one.
#[inline(never)]
fn find_by<S: Searcher + Drop>(
    book: Rc<Book>,
    setting: S::Setting,
    text: &[u8],
    at: usize,
) -> Option<Match>
    ensures { result ≡ found book.value text.now at }
{
    S::over(book, setting).find(text, at)
}

/// Whether a book permits a searcher, which may have a mask count.
pub(crate) fn permits(book: &Book, searcher: SearcherKind) -> bool
    ensures { result ≡ permits book.now searcher }
{
    match searcher {
        SearcherKind::Masks(count) => book.permits(count),
        _ => true,
    }
}
