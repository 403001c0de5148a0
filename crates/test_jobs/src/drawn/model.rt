//! What must be printed of a job, worked out from the rules in the plainest way: every place, every pattern, every rule by a
//! test of its own. It shares nothing with the crates that the program stands on.

use std::alloc::{AllocError, Global};

/// A hit, and the number of its text.
#[derive(Clone, Copy)]
struct Hit {
    text: usize,
    start: usize,
    end: usize,
    id: usize,
}

/// A record: its mark, its bytes, and what stands behind it.
#[derive(Clone, Copy)]
struct Record<'a> {
    mark: &'a [u8; 2],
    bytes: &'a [u8],
    rest: &'a [u8],
}

/// A fault by its number, and its place.
#[derive(Clone, Copy)]
struct Fault {
    number: usize,
    place: usize,
}

/// What a job has said so far.
#[derive(Drop)]
struct Model<'a> {
    patterns: Vec<&'a [u8]>,
    longest: bool,
    texts: usize,
    hits: Vec<Hit>,
}

/// What must be printed of a job, and what of it is counted.
#[derive(Drop)]
pub(crate) struct Expected {
    pub(crate) printed: Vec<u8>,
    pub(crate) texts: usize,
    pub(crate) hits: usize,
    /// The number of its fault, if it has one.
    pub(crate) fault: Option<usize>,
}

/// The record at the head of what is left, unless it is cut off.
fn head(rest: &[u8]) -> Option<Record<'_>> {
    let (mark, rest) = rest.split_first_chunk::<2>()?;
    let (len, rest) = rest.split_first_chunk::<2>()?;
    let (bytes, rest) = rest.split_at_checked(usize::from(u16::from_le_bytes(*len)))?;
    Some(Record { mark, bytes, rest })
}

/// A number in decimals.
fn decimal(alloc: Global, n: usize) -> Result<Vec<u8>, AllocError> {
    let mut digits = Vec::new(alloc);
    let mut left = n;
    for _ in 0..20 {
        digits.push(b'0' + (left % 10) as u8)?;
        left /= 10;
        if left == 0 {
            break;
        }
    }
    digits.reverse();
    Ok(digits)
}

/// Prints a line: a word, if there is one, and numbers, with blanks between.
fn line(
    alloc: Global,
    out: &mut Vec<u8>,
    word: &[u8],
    numbers: &[usize],
) -> Result<(), AllocError> {
    out.extend_from_slice(word)?;
    let mut between = !word.is_empty();
    for n in numbers {
        if between {
            out.push(b' ')?;
        }
        out.extend_from_slice(&decimal(alloc, *n)?)?;
        between = true;
    }
    out.push(b'\n')?;
    Ok(())
}

/// Which layer refuses with a number.
fn layer(number: usize) -> usize {
    match number {
        1..=5 => 1,
        6..=9 => 2,
        _ => 3,
    }
}

/// Whether a pattern stands at a place of a text.
fn occurs(pattern: &[u8], text: &[u8], start: usize) -> bool {
    text.get(start..)
        .is_some_and(|rest| rest.starts_with(pattern))
}

impl<'a> Model<'a> {
    fn new(alloc: Global) -> Model<'a> {
        Model {
            patterns: Vec::new(alloc),
            longest: false,
            texts: 0,
            hits: Vec::new(alloc),
        }
    }

    /// Why a pattern may not be entered.
    fn refused(&self, pattern: &[u8]) -> Option<usize> {
        let bytes = self
            .patterns
            .iter()
            .fold(pattern.len(), |sum, p| p.len().saturating_add(sum));
        if pattern.is_empty() {
            Some(1)
        } else if self.patterns.len() >= 1024 {
            Some(2)
        } else if bytes > 16384 {
            Some(3)
        } else {
            None
        }
    }

    /// What is wrong with a record, but for the hits of a text.
    fn wrong(&self, record: Record<'_>) -> Option<usize> {
        match record.mark {
            b"KF" | b"KL" if !record.bytes.is_empty() => Some(13),
            b"PN" | b"KF" | b"KL" if self.texts > 0 => Some(14),
            b"PN" => self.refused(record.bytes),
            b"TX" if self.patterns.is_empty() => Some(4),
            b"KF" | b"KL" | b"TX" => None,
            _ => Some(12),
        }
    }

    /// Whether a pattern is preferred to another that begins at the same place, each by its length and its id.
    fn prefers(&self, one: (usize, usize), other: (usize, usize)) -> bool {
        if self.longest && one.0 != other.0 {
            one.0 > other.0
        } else {
            one.1 < other.1
        }
    }

    /// The preferred pattern at a place of a text, by its length and its id.
    fn preferred(&self, text: &[u8], start: usize) -> Option<(usize, usize)> {
        let mut best = None;
        for (id, pattern) in self.patterns.iter().enumerate() {
            let one = (pattern.len(), id);
            if occurs(pattern, text, start) && best.is_none_or(|other| self.prefers(one, other)) {
                best = Some(one);
            }
        }
        best
    }

    /// What a search of a text from a place finds.
    fn found(&self, text: &[u8], from: usize) -> Option<Hit> {
        for start in from..text.len() {
            if let Some((len, id)) = self.preferred(text, start) {
                return Some(Hit {
                    text: self.texts,
                    start,
                    end: start.saturating_add(len),
                    id,
                });
            }
        }
        None
    }

    /// The hits of a text.
    fn listing(&self, alloc: Global, text: &[u8]) -> Result<Vec<Hit>, AllocError> {
        let mut hits = Vec::new(alloc);
        let mut at = 0;
        for _ in 0..text.len() {
            let Some(hit) = self.found(text, at) else {
                break;
            };
            at = hit.end;
            hits.push(hit)?;
        }
        Ok(hits)
    }

    /// Scans a text, or says why it is refused.
    fn scan(&mut self, alloc: Global, text: &[u8]) -> Result<Option<usize>, AllocError> {
        let hits = self.listing(alloc, text)?;
        if hits.len() > 4096 {
            return Ok(Some(8));
        }
        self.hits.extend_from_slice(&hits)?;
        self.texts = self.texts.saturating_add(1);
        Ok(None)
    }

    /// Takes a record in, or says what is wrong with it.
    fn take(&mut self, alloc: Global, record: Record<'a>) -> Result<Option<usize>, AllocError> {
        let wrong = self.wrong(record);
        if wrong.is_some() {
            return Ok(wrong);
        }
        match record.mark {
            b"PN" => self.patterns.push(record.bytes)?,
            b"TX" => return self.scan(alloc, record.bytes),
            mark => self.longest = mark == b"KL",
        }
        Ok(None)
    }

    /// Reads a job, and answers its fault.
    fn read(&mut self, alloc: Global, job: &'a [u8]) -> Result<Option<Fault>, AllocError> {
        if job.len() > 65536 {
            return Ok(Some(Fault {
                number: 10,
                place: 0,
            }));
        }
        let mut rest = job;
        for _ in 0..job.len() {
            if rest.is_empty() {
                break;
            }
            let place = job.len().saturating_sub(rest.len());
            let Some(record) = head(rest) else {
                return Ok(Some(Fault { number: 11, place }));
            };
            if let Some(number) = self.take(alloc, record)? {
                return Ok(Some(Fault { number, place }));
            }
            rest = record.rest;
        }
        if self.patterns.is_empty() {
            return Ok(Some(Fault {
                number: 4,
                place: job.len(),
            }));
        }
        Ok(None)
    }

    /// Prints the number of texts and the tallies.
    fn print_tallies(&self, alloc: Global, out: &mut Vec<u8>) -> Result<(), AllocError> {
        line(alloc, out, b"texts", &[self.texts])?;
        for id in 0..self.patterns.len() {
            let tally = self.hits.iter().filter(|hit| hit.id == id).count();
            line(alloc, out, b"tally", &[id, tally])?;
        }
        Ok(())
    }

    /// Prints what was read.
    fn print(&self, alloc: Global, fault: Option<Fault>) -> Result<Vec<u8>, AllocError> {
        let mut out = Vec::new(alloc);
        out.extend_from_slice(b"text start end id\n")?;
        for hit in &self.hits {
            line(
                alloc,
                &mut out,
                b"",
                &[hit.text, hit.start, hit.end, hit.id],
            )?;
        }
        match fault {
            None => self.print_tallies(alloc, &mut out)?,
            Some(fault) => line(
                alloc,
                &mut out,
                b"fault",
                &[fault.number, fault.place, layer(fault.number)],
            )?,
        }
        Ok(out)
    }
}

/// What must be printed of a job.
pub(crate) fn expect(alloc: Global, job: &[u8]) -> Result<Expected, AllocError> {
    let mut model = Model::new(alloc);
    let fault = model.read(alloc, job)?;
    Ok(Expected {
        printed: model.print(alloc, fault)?,
        texts: model.texts,
        hits: model.hits.len(),
        fault: fault.map(|fault| fault.number),
    })
}
