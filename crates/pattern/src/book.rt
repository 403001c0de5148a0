ghost use Rattle.std.specs.Prelude.{◌≡◌, ◌↔◌, [], IsTrue};
ghost use Rattle.rules.specs.Book.{Within, count_of, pattern, shortest, permits};
ghost use Rattle.pattern.specs.Order.{order_in, ReadingOrder};
ghost use Rattle.pattern.specs.Contents.{empty};

use crate::pattern_table::PatternTable;
use crate::patterns::MAX_MASKS;
use rules::{MatchKind, PatternID};
use std::alloc::Global;
use std::marker::Model;

/// A closed book, which searchers read: patterns, of which the same may come twice, and a kind. A contract sees it as the book of
/// the rules.
#[derive(Debug, Drop)]
pub struct Book {
    pub(crate) table: PatternTable,
}

impl Model for Book {
    ghost use Rattle.rules.specs.Book.{Book as RulesBook};
    ghost use Rattle.pattern.specs.Contents.{contents, Sound};

    ghost Value = { RulesBook };

    ghost view = { λ b. contents b.table };

    ghost invariant = { λ b. Sound b.table };
}

impl Book {
    /// A book without patterns, of the first kind.
    pub fn empty(alloc: Global) -> Book
        ensures { result ≡ empty }
    {
        Book {
            table: PatternTable {
                kind: MatchKind::LeftmostFirst,
                by_id: Vec::new(alloc),
                entered: Vec::new(alloc),
                order: Vec::new(alloc),
                minimum_len: usize::MAX,
                total_pattern_bytes: 0,
            },
        }
    }

    /// How many patterns there are.
    pub fn len(&self) -> usize
        ensures value { result ≡ count_of self.now }
        ensures within { Within self.now }
    {
        self.table.by_id.len()
    }

    /// Whether there is no pattern.
    pub fn is_empty(&self) -> bool
        ensures { IsTrue result ↔ (self.now.patterns ≡ []) }
    {
        self.table.by_id.is_empty()
    }

    /// The smallest length of a pattern; `usize::MAX` where there is none.
    pub fn minimum_len(&self) -> usize
        ensures value { result ≡ shortest self.now }
        ensures within { Within self.now }
    {
        self.table.minimum_len
    }

    /// The kind, which chooses the order in which patterns are tried.
    pub fn match_kind(&self) -> MatchKind
        ensures { result ≡ self.now.kind }
    {
        self.table.kind
    }

    /// Whether a search with so many masks is permitted: at least one, at most `MAX_MASKS`, and no more than the shortest length.
    pub fn permits(&self, masks: usize) -> bool
        ensures { result ≡ permits self.now masks }
    {
        1 <= masks && masks <= MAX_MASKS && masks <= self.minimum_len()
    }

    /// Every id, in the order in which the kind has patterns tried: a preferred one before the others.
    ///
    /// A search need not ask for the kind. One that goes through the places of a text from the left, tries all patterns at each in this
    /// order, and answers the first that stands there, is right under either kind:
    ///
    /// ```
    /// for start in at..text.len() {
    ///     for id in book.order() {
    ///         let pattern = book.get(*id);
    ///         if text[start..].starts_with(pattern) {
    ///             return Some(Match { pattern: *id, start, end: start + pattern.len() });
    ///         }
    ///     }
    /// }
    /// ```
    ///
    /// The other searchers answer the same, and pass over places and patterns that they know not to match.
    pub fn order(&self) -> &[PatternID]
        ensures same { result.now ≡ order_in self.now }
        ensures order { ReadingOrder self.now result.now }
        ensures within { Within self.now }
    {
        self.table.order()
    }

    /// The bytes of a pattern; no bytes for an id that the book lacks.
    pub fn get(&self, id: PatternID) -> &[u8]
        ensures { result.now ≡ pattern self.now id }
    {
        self.table.pattern(id)
    }
}
