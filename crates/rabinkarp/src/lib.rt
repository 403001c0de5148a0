//! The rolling-hash searcher.
//!
//! `RabinKarp` finds in a text the patterns of the closed book that it was made of, by the rule that every `Finder` owes. It keeps
//! the hash of each pattern's first bytes, and puts the ids into `Buckets` by it. At each place of a text the hash of the next
//! bytes names the bucket whose patterns are compared, and `update_hash` moves it on by one byte. `Buckets` take any keys: the
//! masks have buckets too, by other keys. `hash_rolls` states the law of the rolling hash.
//!
//! ```
//! let mut patterns = Patterns::new(alloc);
//! patterns.add(b"DC-40")?;
//! let searcher = RabinKarp::new(Rc::new(alloc, patterns.close())?);
//! let hit = searcher.find(b"2 DC-40-R", 0); // the pattern 0, from 2 to 7
//! ```

#![tactic(auto)]

mod buckets;
mod rabinkarp;
mod rolling;

pub use buckets::{Buckets, NUM_BUCKETS};
pub use rabinkarp::RabinKarp;
pub use rolling::{hash, hash_2pow, hash_rolls, update_hash};
