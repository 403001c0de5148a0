//! Patterns to search for, in a book that is open and then closed.
//!
//! [`Patterns`] is an open book: it takes patterns and a kind, and refuses what would pass the bounds [`MAX_PATTERNS`] and
//! [`MAX_BYTES`]. `check` says whether a search with so many masks is permitted, of which there are at most [`MAX_MASKS`]. `close`
//! makes of it a [`Book`], which takes no more: it lends the patterns by their ids, and the ids in the order in which a search is to
//! try them. Several searchers may share a book.
//!
//! ```
//! let mut patterns = Patterns::new(alloc);
//! patterns.add(b"DC-40")?;
//! patterns.add(b"DC-40-R")?;
//! patterns.set_match_kind(MatchKind::LeftmostLongest);
//! patterns.check(2)?;
//! let book = patterns.close();
//! book.order() // the id 1, then the id 0
//! ```

#![tactic(auto)]

mod book;
mod pattern_table;
mod patterns;
#[cfg(test)]
mod tests;

pub use book::Book;
pub use patterns::{MAX_BYTES, MAX_MASKS, MAX_PATTERNS, Patterns};
