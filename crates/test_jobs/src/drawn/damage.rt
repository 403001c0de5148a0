//! Jobs with something wrong.

use crate::drawn::random::Random;
use crate::drawn::record::{Written, write};
use std::alloc::{AllocError, Global};

/// The place of one of the records, or the job's end.
fn some_place(random: &mut Random, job: &Written) -> usize {
    let number = random.below(job.places.len().saturating_add(1));
    job.places.get(number).copied().unwrap_or(job.bytes.len())
}

/// A record that is out of place wherever it stands, or at some places.
fn stray(alloc: Global, random: &mut Random) -> Result<Vec<u8>, AllocError> {
    let mut record = Vec::new(alloc);
    let len = random.below(3);
    let word = random.word(alloc, len, 2)?;
    match random.below(10) {
        0 => write(&mut record, b"PN", b"")?,
        1 | 2 => write(&mut record, b"PN", &word)?,
        3 => write(&mut record, b"KF", &word)?,
        4 => write(&mut record, b"KL", &word)?,
        5 => write(&mut record, b"TX", &word)?,
        6 => write(&mut record, b"NP", &word)?,
        7 => write(&mut record, b"kl", &word)?,
        8 => write(&mut record, b"TN", &word)?,
        _ => write(&mut record, &[random.byte(), random.byte()], &word)?,
    }
    Ok(record)
}

/// The job with a stray record before one of its records, or behind all.
fn with_stray(alloc: Global, random: &mut Random, job: &Written) -> Result<Vec<u8>, AllocError> {
    let stray = stray(alloc, random)?;
    let end = job.bytes.len();
    let place = if random.one_in(3) {
        end
    } else {
        some_place(random, job).min(end)
    };
    let (before, behind) = job.bytes.split_at(place);
    let mut bytes = before.to_vec(alloc)?;
    bytes.extend_from_slice(&stray)?;
    bytes.extend_from_slice(behind)?;
    Ok(bytes)
}

/// The job behind the pattern `A`, and then a text with about as many hits as a text may have, and one more text.
fn with_many_hits(
    alloc: Global,
    random: &mut Random,
    job: &Written,
) -> Result<Vec<u8>, AllocError> {
    let mut bytes = Vec::new(alloc);
    write(&mut bytes, b"PN", b"A")?;
    bytes.extend_from_slice(&job.bytes)?;
    let text = vec![in alloc; b'A'; random.between(4094, 4098)]?;
    write(&mut bytes, b"TX", &text)?;
    write(&mut bytes, b"TX", b"A")?;
    Ok(bytes)
}

/// The job with its bytes from a place on left out.
fn cut(random: &mut Random, job: Written) -> Vec<u8> {
    let mut bytes = job.bytes;
    bytes.truncate(random.below(bytes.len()));
    bytes
}

/// The job with another byte, `offset` bytes behind the place of one of its records.
fn with_byte(random: &mut Random, job: Written, offset: usize) -> Vec<u8> {
    let place = some_place(random, &job).saturating_add(offset);
    let mut bytes = job.bytes;
    if place < bytes.len() {
        bytes[place] = random.byte();
    }
    bytes
}

/// The job as it is, or with something wrong.
pub(crate) fn perhaps(
    alloc: Global,
    random: &mut Random,
    job: Written,
) -> Result<Vec<u8>, AllocError> {
    match random.below(128) {
        0 => with_many_hits(alloc, random, &job),
        1..=12 => Ok(cut(random, job)),
        // a byte of a mark, of a length, or of what stands behind them
        13..=36 => {
            let offset = random.below(6);
            Ok(with_byte(random, job, offset))
        }
        37..=64 => with_stray(alloc, random, &job),
        _ => Ok(job.bytes),
    }
}
