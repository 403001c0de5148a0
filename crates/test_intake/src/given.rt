//! What the calls are given.

use finder::Plain;
use pattern::Patterns;
use rules::{Match, PatternID};
use std::alloc::Global;
use std::rc::Rc;

/// An entry that no scan writes. (A function, since `From` is no constant.)
pub(crate) fn old() -> Match {
    Match {
        pattern: PatternID::from(9),
        start: 90,
        end: 99,
    }
}

/// A searcher for some patterns.
pub(crate) fn searcher(alloc: Global, patterns: &[&[u8]]) -> anyhow::Result<Plain> {
    let mut open = Patterns::new(alloc);
    for pattern in patterns {
        open.add(pattern)?;
    }
    let book = Rc::new(alloc, open.close())?;
    Ok(Plain::new(book))
}
