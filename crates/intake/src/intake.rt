ghost use Rattle.std.specs.Prelude.{◌≡◌, ◌*◌, ◌≤◌, length, sum};
ghost use Rattle.rules.specs.Book.{Within};
ghost use Rattle.rules.specs.Limits.{max_patterns, max_text, max_texts};
ghost use Rattle.rules.specs.Refusals.{number};
ghost use Rattle.rules.specs.Faults.{placed, told};
ghost use Rattle.intake.specs.Ledger.{ask_scan, ask_tally, told_scan, told_tally};
ghost use Rattle.intake.specs.History.{Past, made_over, state, tally_in, Served};
ghost use Rattle.intake.specs.Intakes.{Scans, ServesCall};

use crate::hits::{count_hits, write_hits};
use crate::tally_table::TallyTable;
use finder::Finder;
use rules::{Fault, Match, PatternID, Refusal};
use std::marker::Model;

/// The greatest length of a text that a scan accepts.
pub const MAX_TEXT: usize = 65536;

/// How many texts an intake accepts at the most.
pub const MAX_TEXTS: u32 = 65535;

/// A searcher, the tally of each pattern of its book, and the count of accepted texts.
#[derive(Debug, Drop)]
pub struct Intake<F: Finder> {
    finder: F,
    table: TallyTable,
    accepted: u32,
}

impl<F: Finder> Model for Intake<F> {
    ghost use Rattle.intake.specs.History.{Holding};
    ghost use Rattle.intake.specs.Tallies.{tallies, IsWithinLimits};

    ghost Value = { Holding };

    ghost view = { λ x. record { book = F.book x.finder; accepted = x.accepted; tallies = tallies x.table } };

    ghost invariant = { λ x. IsWithinLimits x.table x.accepted };
}

impl<F: Finder> Intake<F> {
    /// An intake that has accepted no text, with all tallies at 0.
    pub fn new(finder: F) -> Intake<F>
        ensures book { result.book ≡ F.book finder }
        ensures served { Served (made_over (F.book finder)) result }
    {
        Intake {
            finder,
            table: TallyTable::new(),
            accepted: 0,
        }
    }

    /// How often a pattern was hit in the texts accepted so far. An id that the book lacks is refused.
    #[tactic(auto, using(crate::proofs::Histories::answers_tally))]
    pub fn tally(&self, id: PatternID) -> Result<u32, Fault>
        ensures value { result ≡ placed 0 (tally_in self.now id) }
        ensures served { ServesCall self.now (ask_tally id) (told_tally (told result)) self.now }
    {
        if id.as_usize() >= self.finder.pattern_count() {
            return Err(Refusal::UnknownPattern.at(0));
        }
        Ok(self.table.get(id))
    }

    /// How many texts were accepted. A caller to whom an intake is lent learns its bounds here as well.
    pub fn count(&self) -> u32
        ensures value { result ≡ self.now.accepted }
        ensures within { result ≤ max_texts }
        ensures book { Within self.now.book }
        ensures many { length self.now.tallies ≡ max_patterns }
        ensures room { sum self.now.tallies ≤ max_text * self.now.accepted }
        ensures served { (p : Past) → Served p self.now → result ≡ length (state p).texts }
    {
        self.accepted
    }

    /// Scans a text, at the place 0 for callers without a job: its hits go to the front of `hits`, each raises its tally, and
    /// the text counts as accepted. It answers the number of hits. A text that is too long, one too many or without room for
    /// its hits is refused, and nothing is altered.
    pub fn scan(&mut self, text: &[u8], hits: &mut [Match]) -> Result<usize, Fault>
        ensures scans { Scans self.old 0 text.now hits.old result hits.new self.new }
        ensures served { ServesCall self.old (ask_scan text.now hits.old) (told_scan (told result) hits.new) self.new }
    {
        self.scan_at(0, text, hits)
    }

    /// A scan of a text in a job, with its faults at a place there.
    #[tactic(auto, using(crate::proofs::Histories::scan_steps))]
    pub fn scan_at(&mut self, place: usize, text: &[u8], hits: &mut [Match]) -> Result<usize, Fault>
        ensures scans { Scans self.old place text.now hits.old result hits.new self.new }
        ensures served { ServesCall self.old (ask_scan text.now hits.old) (told_scan (told result) hits.new) self.new }
    {
        if text.len() > MAX_TEXT {
            return Err(Refusal::TextTooLong.at(place));
        }
        if self.accepted >= MAX_TEXTS {
            return Err(Refusal::TooManyTexts.at(place));
        }
        let n = count_hits(&self.finder, text);
        if n > hits.len() {
            return Err(Refusal::HitsTooShort.at(place));
        }
        write_hits(&self.finder, text, hits);
        self.table.raise_all(hits.split_at(n).0);
        self.accepted += 1;
        Ok(n)
    }
}
