ghost use Rattle.std.specs.Prelude.{◌≡◌, Some, None, OnOk, OnErr, IfOk, IfErr};
ghost use Rattle.std.specs.Option.{unwrap_or};
ghost use Rattle.rules.specs.declared.fault.Refusal.TheVariants.{Memory};
ghost use Rattle.rules.specs.Book.{Within, count_of, shortest};
ghost use Rattle.rules.specs.Entered.{enter};
ghost use Rattle.rules.specs.Faults.{refused};
ghost use Rattle.pattern.specs.Contents.{empty, of_kind};
ghost use Rattle.pattern.specs.Entering.{entering, Checks, Ready};

use crate::book::Book;
use rules::{Fault, MatchKind, PatternID, Refusal};
use std::alloc::Global;
use std::marker::Model;

/// How many patterns a book takes.
pub const MAX_PATTERNS: usize = 1024;

/// How many bytes the patterns of a book have together at the most.
pub const MAX_BYTES: usize = 16384;

/// How many masks a search uses at the most.
pub const MAX_MASKS: usize = 4;

/// An open book, which takes patterns and a kind. A contract sees it as the book of the rules.
#[derive(Debug, Drop)]
pub struct Patterns {
    book: Book,
    alloc: Global,
}

impl Model for Patterns {
    ghost use Rattle.rules.specs.Book.{Book as RulesBook};

    ghost Value = { RulesBook };

    ghost view = { λ p. p.book };
}

impl Patterns {
    /// An open book without patterns, of the first kind.
    pub fn new(alloc: Global) -> Patterns
        ensures { result ≡ empty }
    {
        Patterns {
            book: Book::empty(alloc),
            alloc,
        }
    }

    /// Enters a pattern, and answers its id. An empty pattern, a full book and too many bytes are refused in this order, at the
    /// place 0; a refusal, and want of memory, alters nothing.
    pub fn add(&mut self, bytes: &[u8]) -> Result<PatternID, Fault>
        ensures id { IfOk result (λ i. i ≡ count_of self.old) }
        ensures ok { OnOk result (self.new ≡ enter self.old bytes.now) }
        ensures taken { OnOk result (entering self.old bytes.now ≡ None) }
        ensures refused { IfErr result (λ f. f ≡ refused 0 (unwrap_or (entering self.old bytes.now) Memory)) }
        ensures err { OnErr result (self.new ≡ self.old) }
    {
        self.add_at(0, bytes)
    }

    /// Enters a pattern that stands at a place in a job, which a refusal names; otherwise as `add`.
    pub fn add_at(&mut self, place: usize, bytes: &[u8]) -> Result<PatternID, Fault>
        ensures id { IfOk result (λ i. i ≡ count_of self.old) }
        ensures ok { OnOk result (self.new ≡ enter self.old bytes.now) }
        ensures taken { OnOk result (entering self.old bytes.now ≡ None) }
        ensures refused { IfErr result (λ f. f ≡ refused place (unwrap_or (entering self.old bytes.now) Memory)) }
        ensures err { OnErr result (self.new ≡ self.old) }
    {
        if bytes.is_empty() {
            return Err(Refusal::EmptyPattern.at(place));
        }
        if self.book.len() >= MAX_PATTERNS {
            return Err(Refusal::TooManyPatterns.at(place));
        }
        if bytes.len() > MAX_BYTES - self.book.table.total_pattern_bytes {
            return Err(Refusal::TooManyBytes.at(place));
        }
        let entered = self.book.table.enter(self.alloc, bytes);
        entered.map_err(|_| Refusal::Memory.at(place))
    }

    /// Sets the kind, which the last call decides.
    pub fn set_match_kind(&mut self, kind: MatchKind)
        ensures { self.new ≡ of_kind kind self.old }
    {
        self.book.table.set_kind(kind);
    }

    /// The smallest length of a pattern; `usize::MAX` where there is none.
    pub fn minimum_len(&self) -> usize
        ensures value { result ≡ shortest self.now }
        ensures within { Within self.now }
    {
        self.book.minimum_len()
    }

    /// Whether the book may be closed and searched with `masks` masks: at the place 0, for callers without a job. After an `Ok`
    /// neither refuses, and the searcher has as many masks.
    pub fn check(&self, masks: usize) -> Result<(), Fault>
        ensures checks { Checks self.now 0 masks result }
        ensures ready { OnOk result (Ready self.now masks) }
    {
        self.check_at(0, masks)
    }

    /// The same at a place in a job, which a fault names.
    pub fn check_at(&self, place: usize, masks: usize) -> Result<(), Fault>
        ensures checks { Checks self.now place masks result }
        ensures ready { OnOk result (Ready self.now masks) }
    {
        if self.book.is_empty() {
            return Err(Refusal::NoPatterns.at(place));
        }
        if !self.book.permits(masks) {
            return Err(Refusal::BadMaskCount.at(place));
        }
        Ok(())
    }

    /// Closes the book, with all that it holds.
    pub fn close(self) -> Book
        ensures { result ≡ self }
    {
        self.book
    }
}
