//! The words that every other crate speaks in, and the rules of a search.
//!
//! A [`Match`] says which pattern occurs where, by the pattern's [`PatternID`] and two places. [`MatchKind`] says which of the
//! occurrences with the smallest start is the answer. A call that is refused answers a [`Fault`]: a [`Refusal`], which has a number
//! and a layer, and the place in the job at which it came. What a search, a listing and an intake are to answer is defined in
//! `specs/`, over books and texts as lists of bytes; [`rules_hold`] promises what is true of these definitions.
//!
//! ```
//! let fault = Refusal::UnknownMark.at(7);
//! println!(rt; "{fault}")?; // fault 12 7 3
//! let last = PatternID::from(1023);
//! println!(rt; "{}", last.as_usize())?; // 1023
//! ```

#![tactic(auto)]

mod fault;
mod primitives;
#[cfg(test)]
mod tests;
mod theorems;

pub use fault::{Fault, Refusal};
pub use primitives::{Match, MatchKind, PatternID, SmallIndex};
pub use theorems::rules_hold;
