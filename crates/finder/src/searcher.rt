ghost use Rattle.std.specs.Prelude.{◌≡◌};

use crate::finder::Finder;
use pattern::Book;
use std::rc::Rc;

/// A finder that can be made of a closed book, and then means that very book. So code over any kind of searcher can make one, and
/// knows whose patterns it finds. It stands above `Finder`, which owes nothing of how it was made.
pub trait Searcher: Finder {
    /// What is chosen at the making besides the book: nothing, or a mask count. It is let go where no searcher comes to be made.
    type Setting: Drop;

    /// A searcher over a closed book.
    fn over(closed: Rc<Book>, setting: Self::Setting) -> Self
        ensures { Self.book result ≡ closed.value };
}
