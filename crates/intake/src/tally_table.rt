ghost use Rattle.std.specs.Prelude.{◌≡◌, ℕ, ◌+◌, ◌^◌, ◌<◌, length, replicate, All, slice_index, slice_set, sum};
ghost use Rattle.rules.specs.Limits.{max_patterns};
ghost use Rattle.rules.specs.Search.{id_of};
ghost use Rattle.intake.specs.Ledger.{hits_with};
ghost use Rattle.intake.specs.Tallies.{tallies};

use pattern::MAX_PATTERNS;
use rules::{Match, PatternID};

/// How often a pattern was hit.
#[derive(Clone, Copy, Debug)]
pub(crate) struct Tally {
    hits: u32,
}

impl Tally {
    /// Raises it by one.
    pub(crate) fn raise(&mut self)
        requires { self.old.hits + 1 < 2 ^ 32 }
        ensures { self.new ≡ record { hits = self.old.hits + 1 } }
    {
        self.hits += 1;
    }
}

/// The tally of each pattern, by its id. It has as many records as a book can have patterns, so that making one cannot fail.
#[derive(Debug, Drop)]
pub(crate) struct TallyTable {
    records: [Tally; MAX_PATTERNS],
}

impl TallyTable {
    pub(crate) fn new() -> TallyTable
        ensures { tallies result ≡ replicate max_patterns 0 }
    {
        TallyTable {
            records: [Tally { hits: 0 }; MAX_PATTERNS],
        }
    }

    /// The tally of a pattern.
    #[tactic(auto, using(crate::proofs::Raises::tally_at))]
    pub(crate) fn get(&self, id: PatternID) -> u32
        requires { id < max_patterns }
        ensures { result ≡ slice_index (tallies self.now) id }
    {
        self.records[id.as_usize()].hits
    }

    /// Raises the tally of a pattern, in its record.
    #[tactic(auto, using(crate::proofs::Raises::tally_at, crate::proofs::Raises::tallies_set))]
    fn raise(&mut self, id: PatternID)
        requires known { id < max_patterns }
        requires room { slice_index (tallies self.old) id + 1 < 2 ^ 32 }
        ensures len { length (tallies self.old) ≡ max_patterns }
        ensures set { tallies self.new ≡ slice_set (tallies self.old) id (slice_index (tallies self.old) id + 1) }
    {
        let record = &mut self.records[id.as_usize()];
        record.raise();
    }

    /// Raises the tally of each hit's pattern, once for each hit.
    pub(crate) fn raise_all(&mut self, hits: &[Match])
        requires known { All (λ m. id_of m < max_patterns) hits.now }
        requires room { sum (tallies self.old) + length hits.now < 2 ^ 32 }
        ensures len { length (tallies self.new) ≡ length (tallies self.old) }
        ensures total { sum (tallies self.new) ≡ sum (tallies self.old) + length hits.now }
        ensures raised { (k : ℕ) → slice_index (tallies self.new) k ≡ slice_index (tallies self.old) k + hits_with k hits.now }
    {
        for m in hits {
            self.raise(m.pattern);
        }
    }
}
