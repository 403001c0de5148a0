use pattern::{Book, Patterns};
use rules::{Fault, MatchKind};
use std::alloc::Global;
use std::rc::Rc;

/// A closed book of a kind, with some patterns.
pub(crate) fn closed(
    alloc: Global,
    kind: MatchKind,
    patterns: &[&[u8]],
) -> Result<Rc<Book>, Fault> {
    let mut open = Patterns::new(alloc);
    for pattern in patterns {
        open.add(pattern)?;
    }
    open.set_match_kind(kind);
    Ok(Rc::new(alloc, open.close())?)
}
