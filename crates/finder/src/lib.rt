//! What a searcher is, and the one that tries each pattern at each place.
//!
//! A [`Finder`] means a closed book, and finds the first hit in a text from a place on. A [`Searcher`] is a finder that can be made of
//! a closed book. All of them find the same: [`Plain`] tries each place and each pattern in order, and the searchers of other crates
//! pass over places and patterns that cannot match, and call [`verify`] for the others.
//!
//! ```
//! let book = Rc::new(alloc, patterns.close())?;
//! let plain = Plain::new(book);
//! let mut at = 0;
//! while let Some(hit) = plain.find(text, at) {
//!     at = hit.end; // text[hit.start..hit.end] is the pattern hit.pattern
//! }
//! ```

#![tactic(auto)]

mod compare;
mod finder;
mod plain;
mod searcher;

pub use compare::{stands, verify};
pub use finder::Finder;
pub use plain::Plain;
pub use searcher::Searcher;
