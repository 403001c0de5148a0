//! An intake: it scans texts with a searcher, tallies the hits of each pattern, and counts the texts.
//!
//! An [`Intake`] is made of a searcher of any kind, with no text accepted and all tallies at 0. A scan writes the hits of a text
//! into the list that it is handed; a text that is accepted raises the count, and each hit the tally of its pattern. A refusal
//! alters nothing. A contract sees an intake as what it holds: the searcher's book, the count, and the tallies by rising id.
//!
//! A call can also be a value: [`Call`] and [`Reply`]. A [`Batch`] is calls with room for their replies, and [`make_and_serve`]
//! makes an intake and then each call of a batch, and cannot fail.
//!
//! ```
//! let mut intake = Intake::new(Plain::new(book));
//! let n = intake.scan(b"2 DC-40-R", &mut hits)?;
//! for hit in &hits[..n] {
//!     let tally = intake.tally(hit.pattern)?;
//!     println!(rt; "{} to {}, tally {tally}", hit.start, hit.end)?;
//! }
//! ```

#![tactic(auto)]

mod batch;
mod calls;
mod hits;
mod intake;
mod tally_table;

pub use batch::Batch;
pub use calls::{Call, Reply, Run, make_and_serve, serve};
pub use intake::{Intake, MAX_TEXT, MAX_TEXTS};
