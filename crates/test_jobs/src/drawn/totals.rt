use crate::drawn::model::Expected;
use std::fmt;

/// What the jobs came to.
#[derive(Drop)]
pub(crate) struct Totals {
    jobs: usize,
    texts: usize,
    hits: usize,
    /// The faults by their numbers.
    faults: [usize; 15],
    pub(crate) disagreements: usize,
}

impl Totals {
    pub(crate) fn new() -> Totals {
        Totals {
            jobs: 0,
            texts: 0,
            hits: 0,
            faults: [0; 15],
            disagreements: 0,
        }
    }

    /// Notes what the model says of a job.
    pub(crate) fn note(&mut self, expected: &Expected) {
        self.jobs = self.jobs.saturating_add(1);
        self.texts = self.texts.saturating_add(expected.texts);
        self.hits = self.hits.saturating_add(expected.hits);
        if let Some(number) = expected.fault
            && number < self.faults.len()
        {
            self.faults[number] = self.faults[number].saturating_add(1);
        }
    }

    /// Notes a disagreement.
    pub(crate) fn disagree(&mut self) {
        self.disagreements = self.disagreements.saturating_add(1);
    }

    /// How many faults there are, of each number.
    fn faults(&self) -> usize {
        self.faults.iter().fold(0, |sum, n| n.saturating_add(sum))
    }
}

impl fmt::Display for Totals {
    fn fmt<W: fmt::Write>(&self, f: &mut fmt::Formatter<W>) -> fmt::Result {
        let jobs = self.jobs;
        let texts = self.texts;
        let hits = self.hits;
        let faults = self.faults();
        write!(
            f,
            "jobs {jobs}, texts {texts}, hits {hits}, faults {faults} (by number"
        )?;
        for (number, n) in self.faults.iter().enumerate() {
            if *n > 0 {
                write!(f, " {number}: {n}")?;
            }
        }
        let disagreements = self.disagreements;
        write!(f, "), disagreements {disagreements}")
    }
}
