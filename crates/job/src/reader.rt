ghost use Rattle.std.specs.Prelude.{◌≡◌, OnErr};
ghost use Rattle.job.specs.Format.{step, made_of, empty_kind};
ghost use Rattle.job.specs.Record.{as_step, place_in, entry, entries};

use crate::record::{Placed, Record};
use rules::{Fault, Refusal};

/// A job and the place of the next record, which a fault names.
#[derive(Clone, Debug, Drop)]
pub struct Reader<'a> {
    pub job: &'a [u8],
    pub at: usize,
}

impl<'a> Reader<'a> {
    /// A reader at a job's start.
    pub fn new(job: &'a [u8]) -> Reader<'a>
        ensures job { result.job.now ≡ job.now }
        ensures at { result.at ≡ 0 }
    {
        Reader { job, at: 0 }
    }

    /// The next record, or none at the end. A fault leaves the reader where it is, so that as an iterator it would not end.
    pub fn next(&mut self) -> Result<Option<Placed<'a>>, Fault>
        ensures step { as_step result self.new.at ≡ step self.old.job.now self.old.at }
        ensures place { place_in result self.old.at ≡ self.old.at }
        ensures job { self.new.job.now ≡ self.old.job.now }
        ensures stays { OnErr result (self.new.at ≡ self.old.at) }
        ensures ends { result ≡ Ok None → self.new.at ≡ self.old.at }
    {
        let at = self.at;
        if self.job.len() <= at {
            return Ok(None);
        }
        let truncated = Refusal::Truncated.at(at);
        let [x, y, low, high, rest @ ..] = &self.job[at..] else {
            return Err(truncated);
        };
        let size = usize::from(u16::from_le_bytes([*low, *high]));
        let Some(body) = rest.get(..size) else {
            return Err(truncated);
        };
        match record_of([*x, *y], body) {
            Ok(record) => {
                self.at = at + 4 + size;
                Ok(Some(Placed { record, place: at }))
            }
            Err(refusal) => Err(refusal.at(at)),
        }
    }
}

/// The record that a mark and the bytes behind its length make.
fn record_of<'a>(mark: [u8; 2], body: &'a [u8]) -> Result<Record<'a>, Refusal>
    ensures { entries result ≡ made_of mark body.now }
{
    match &mark {
        b"PN" => Ok(Record::Pattern(body)),
        b"KF" => empty_kind(Record::First, body),
        b"KL" => empty_kind(Record::Longest, body),
        b"TX" => Ok(Record::Text(body)),
        _ => Err(Refusal::UnknownMark),
    }
}

/// A kind record, which has no bytes.
fn empty_kind<'a>(kind: Record<'a>, body: &[u8]) -> Result<Record<'a>, Refusal>
    ensures { entries result ≡ empty_kind (entry kind.entry) body.now }
{
    if body.is_empty() {
        Ok(kind)
    } else {
        Err(Refusal::KindLength)
    }
}
