ghost use Rattle.std.specs.Prelude.{◌≡◌, Ok, OnOk, IfOk, IfErr};
ghost use Rattle.rules.specs.Book.{Within};
ghost use Rattle.job.specs.Record.{entry};
ghost use Rattle.job.specs.Reading.{reading};
ghost use Rattle.job.specs.Texts.{texts, texts_at};
ghost use Rattle.job.specs.Opening.{takes, closes, read_book, opened};
ghost use Rattle.job.specs.Memory.{MemoryFaultAt, MemoryFaultIn, MemoryFault, Refuses};

use crate::reader::Reader;
use crate::record::Record;
use pattern::{Book, MAX_MASKS, Patterns};
use rules::{Fault, MatchKind, Refusal};
use std::alloc::Global;

/// How many bytes a job has at the most.
pub const MAX_JOB: usize = 65536;

/// An open book with the records up to the first text, and the place of that text, or else the job's length: places are those in
/// the whole job, which a fault names.
#[derive(Drop)]
struct Filled {
    patterns: Patterns,
    at: usize,
}

/// A record before the texts.
#[tactic(auto, using(crate::proofs::Openings::lacks_or))]
fn take(patterns: &mut Patterns, place: usize, it: Record<'_>) -> Result<(), Fault>
    ensures ok { OnOk result (takes patterns.old place (entry it.entry) ≡ Ok patterns.new) }
    ensures err { IfErr result (Refuses (takes patterns.old place (entry it.entry))
        (MemoryFaultAt patterns.old place (entry it.entry))) }
{
    match it {
        Record::Pattern(bytes) => {
            patterns.add_at(place, bytes)?;
        }
        Record::First => patterns.set_match_kind(MatchKind::LeftmostFirst),
        Record::Longest => patterns.set_match_kind(MatchKind::LeftmostLongest),
        Record::Text(_) => {}
    }
    Ok(())
}

/// Enters the records up to the first text.
fn fill(alloc: Global, job: &[u8]) -> Result<Filled, Fault>
    ensures book { IfOk result (λ f. read_book job.now ≡ closes f.patterns f.at) }
    ensures left { IfOk result (λ f. reading job.now f.at ≡ texts (reading job.now 0)) }
    ensures at { IfOk result (λ f. f.at ≡ texts_at job.now) }
    ensures err { IfErr result (Refuses (read_book job.now) (MemoryFaultIn job.now)) }
{
    let mut patterns = Patterns::new(alloc);
    let mut reader = Reader::new(job);
    // No `for`: a fault leaves the reader where it is, so that as an iterator it would not end.
    while let Some(placed) = reader.next()? {
        if let Record::Text(_) = placed.record {
            return Ok(Filled {
                patterns,
                at: placed.place,
            });
        }
        take(&mut patterns, placed.place, placed.record)?;
    }
    Ok(Filled {
        patterns,
        at: job.len(),
    })
}

/// A job whose book is closed, and a reader at its first text, or else at the job's end.
#[derive(Drop)]
pub struct Opened<'a> {
    pub book: Book,
    pub texts: Reader<'a>,
}

/// Reads a job up to its first text, and closes its book there, or else at the job's end. It answers the first fault up to there,
/// or want of memory for a pattern that would have been entered.
#[tactic(auto, using(crate::proofs::Closings::closing_fault))]
pub fn open<'a>(alloc: Global, job: &'a [u8]) -> Result<Opened<'a>, Fault>
    ensures book { IfOk result (λ o. opened job.now ≡ Ok o.book) }
    ensures within { IfOk result (λ o. Within o.book) }
    ensures job { IfOk result (λ o. o.texts.job.now ≡ job.now) }
    ensures left { IfOk result (λ o. reading job.now o.texts.at ≡ texts (reading job.now 0)) }
    ensures at { IfOk result (λ o. o.texts.at ≡ texts_at job.now) }
    ensures err { IfErr result (Refuses (opened job.now) (MemoryFault job.now)) }
{
    if job.len() > MAX_JOB {
        return Err(Refusal::JobTooLong.at(0));
    }
    let filled = fill(alloc, job)?;
    let Filled { patterns, at } = filled;
    patterns.check_at(at, patterns.minimum_len().min(MAX_MASKS))?;
    Ok(Opened {
        book: patterns.close(),
        texts: Reader { job, at },
    })
}
