//! The mask searcher `Slim`, over every kind of lanes. It looks at many bytes of a text at once, by their low and their high four
//! bits, and compares patterns only at the places where that leaves one possible.
//!
//! `assign` puts the patterns of a book into eight buckets. A `MaskTable` says of one byte of the patterns which nybbles it has in
//! which buckets; as vectors it is a `Mask`, which answers for each byte of the text the buckets that it can belong to. `Masks` are
//! up to four of them, for the first bytes of the patterns: they make of the next bytes of a text, a window, the candidates, for
//! each place the buckets of which a pattern may begin there. `Seen` takes what they saw from one window to the next. `Slim` tries
//! the candidates by rising place, a bit at a time (`take_lowest`). What is too short for a window goes to the rolling hash.
//!
//! ```
//! use finder::Finder;
//! use pattern::Patterns;
//! use rules::Fault;
//! use std::alloc::Global;
//! use std::rc::Rc;
//! use teddy::Slim;
//! use vector::{ArrayHalf, Single};
//!
//! /// Where the first of two part numbers stands in a text.
//! fn first_start(alloc: Global, text: &[u8]) -> Result<Option<usize>, Fault> {
//!     let mut patterns = Patterns::new(alloc);
//!     patterns.add(b"DC-40")?;
//!     patterns.add(b"RM-100")?;
//!     let book = Rc::new(alloc, patterns.close())?;
//!     let searcher = Slim::<Single<ArrayHalf>>::new(book, 4);
//!     Ok(searcher.find(text, 0).map(|hit| hit.start))
//! }
//! ```

#![tactic(auto)]

mod bits;
mod bucket;
mod candidate;
mod mask;
mod mask_table;
mod slim;
mod teddy;
mod theorems;

pub use bits::take_lowest;
pub use bucket::{BUCKETS, assign};
pub use candidate::{Masks, Seen};
pub use mask::Mask;
pub use mask_table::MaskTable;
pub use slim::Slim;
pub use theorems::{lines_hold, tables_hold};
