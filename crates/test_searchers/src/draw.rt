//! What is drawn with the numbers of a generator.

use crate::numbers::Numbers;
use pattern::{Book, Patterns};
use rules::{Fault, MatchKind};
use std::alloc::{AllocError, Global};
use std::rc::Rc;

/// One of some values, or none where there are none.
pub(crate) fn pick<'a, N: Numbers, T>(random: &mut N, values: &'a [T]) -> Option<&'a T> {
    let place = (random.next() as usize).checked_rem(values.len())?;
    values.get(place)
}

/// A word of so many of the letters.
pub(crate) fn word<N: Numbers>(
    alloc: Global,
    random: &mut N,
    letters: &[u8],
    len: usize,
) -> Result<Vec<u8>, AllocError> {
    (0..len)
        .filter_map(|_| pick(random, letters).copied())
        .collect(alloc)
}

/// Books of one shape: how many patterns they have, how long these may be, and of which letters.
#[derive(Clone, Copy)]
pub(crate) struct Shape {
    pub(crate) count: usize,
    pub(crate) lens: &'static [usize],
    pub(crate) letters: &'static [u8],
}

/// A closed book of a shape and a kind.
pub(crate) fn book<N: Numbers>(
    alloc: Global,
    random: &mut N,
    shape: &Shape,
    kind: MatchKind,
) -> Result<Rc<Book>, Fault> {
    let mut open = Patterns::new(alloc);
    for _ in 0..shape.count {
        if let Some(len) = pick(random, shape.lens) {
            open.add(&word(alloc, random, shape.letters, *len)?)?;
        }
    }
    open.set_match_kind(kind);
    Ok(Rc::new(alloc, open.close())?)
}
