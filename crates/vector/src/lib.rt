//! Vectors of byte lanes, each operation equal to a defined value over the list of lanes (`specs/Lanes.antt`).
//!
//! A `Half` is sixteen lanes: `ArrayHalf` holds them as sixteen bytes in a row, `WordHalf` as two words of 64 bits. A
//! `Vector` is one half, `Single<H>` with 16 lanes, or two of one kind side by side, `Double<H>` with 32. Code over a
//! `V: Vector` serves all of these, and one more kind of half needs its `impl Half` alone.
//!
//! ```
//! use vector::{ArrayHalf, Single, Vector};
//!
//! /// Whether one of the sixteen bytes from the place `at` on is a dash.
//! fn has_dash(text: &[u8], at: usize) -> bool {
//!     let chunk = Single::<ArrayHalf>::load(text, at);
//!     !chunk.cmpeq(Single::splat(b'-')).is_zero()
//! }
//! ```

#![tactic(auto)]

mod array;
mod double;
mod half;
mod single;
mod vector;
mod word;

pub use array::ArrayHalf;
pub use double::Double;
pub use half::Half;
pub use single::Single;
pub use vector::Vector;
pub use word::WordHalf;
