ghost use Rattle.std.specs.Prelude.{◌≡◌, ◌+◌, ◌<◌, ◌≤◌, length, MatchResult};
ghost use Rattle.rules.specs.Limits.{max_patterns, max_bytes};
ghost use Rattle.rules.specs.Book.{count_of, pattern, total};
ghost use Rattle.rules.specs.Entered.{enter};
ghost use Rattle.pattern.specs.Order.{order_in, ReadingOrder};
ghost use Rattle.pattern.specs.Contents.{contents, Sound};

use rules::{MatchKind, PatternID};
use std::alloc::{AllocError, Global};

/// The patterns by id, the ids in both orders, and what is kept of them.
#[derive(Debug, Drop)]
pub struct PatternTable {
    pub(crate) kind: MatchKind,
    pub(crate) by_id: Vec<Vec<u8>>,
    /// The ids in order of entry, 0, 1, 2, ..: a list of them, since the order is lent as a slice.
    pub(crate) entered: Vec<PatternID>,
    /// The ids by falling length, equal lengths by rising id: kept at entry, since the order is lent as a slice.
    pub(crate) order: Vec<PatternID>,
    /// Kept, as the total is, so that no call counts through the patterns.
    pub(crate) minimum_len: usize,
    pub(crate) total_pattern_bytes: usize,
}

impl PatternTable {
    /// Sets the kind. Both orders are kept whichever it is, so nothing else changes.
    pub(crate) fn set_kind(&mut self, kind: MatchKind)
        ensures { self.new ≡ record self.old { kind = kind } }
    {
        self.kind = kind;
    }

    /// Enters a pattern that is within the bounds. Want of memory alters nothing.
    pub(crate) fn enter(&mut self, alloc: Global, bytes: &[u8]) -> Result<PatternID, AllocError>
        requires sound { Sound self.old }
        requires filled { 0 < length bytes.now }
        requires few { count_of (contents self.old) < max_patterns }
        requires within { total (contents self.old) + length bytes.now ≤ max_bytes }
        ensures sound { Sound self.new }
        ensures cases { MatchResult result (λ new. (new ≡ count_of (contents self.old)) × (contents self.new ≡ enter (contents self.old) bytes.now)) (λ _. contents self.new ≡ contents self.old) }
    {
        // Behind all that are at least as long.
        let at = self
            .order
            .partition_point(|id| bytes.len() <= self.pattern(*id).len());
        let id = PatternID::from(self.by_id.len() as u16);
        let kept = Vec::from_slice(alloc, bytes)?;
        self.by_id.try_reserve(1)?;
        self.entered.try_reserve(1)?;
        self.order.insert(at, id)?;
        self.entered.push_reserved(id);
        self.by_id.push_reserved(kept);
        self.minimum_len = self.minimum_len.min(bytes.len());
        self.total_pattern_bytes += bytes.len();
        Ok(id)
    }

    /// Every id, in the order of the kind.
    pub(crate) fn order(&self) -> &[PatternID]
        requires { Sound self.now }
        ensures same { result.now ≡ order_in (contents self.now) }
        ensures order { ReadingOrder (contents self.now) result.now }
    {
        match self.kind {
            MatchKind::LeftmostFirst => self.entered.as_slice(),
            MatchKind::LeftmostLongest => self.order.as_slice(),
        }
    }

    /// The bytes of a pattern; none for an id that is not in. `Book::get` lends them too, but `enter` has no book.
    pub(crate) fn pattern(&self, id: PatternID) -> &[u8]
        ensures { result.now ≡ pattern (contents self.now) id }
    {
        self.by_id.get(id.as_usize()).map_or(&[], |v| v.as_slice())
    }
}
