//! Jobs at the bounds of what is accepted.

use crate::drawn::random::Random;
use crate::drawn::record::write;
use std::alloc::{AllocError, Global};

/// So many patterns of a length, and a text.
fn patterns(
    alloc: Global,
    random: &mut Random,
    count: usize,
    len: usize,
) -> Result<Vec<u8>, AllocError> {
    let mut job = Vec::new(alloc);
    for _ in 0..count {
        let word = random.word(alloc, len, 26)?;
        write(&mut job, b"PN", &word)?;
    }
    let text = random.word(alloc, 300, 26)?;
    write(&mut job, b"TX", &text)?;
    Ok(job)
}

/// Patterns of these lengths, of the one letter `A`.
fn long_patterns(alloc: Global, lens: &[usize]) -> Result<Vec<u8>, AllocError> {
    let mut job = Vec::new(alloc);
    for len in lens {
        let word = vec![in alloc; b'A'; *len]?;
        write(&mut job, b"PN", &word)?;
    }
    Ok(job)
}

/// The pattern `A`, and a text of dots with `hits` letters `A` in front.
fn with_text(alloc: Global, hits: usize, dots: usize) -> Result<Vec<u8>, AllocError> {
    let mut job = Vec::new(alloc);
    write(&mut job, b"PN", b"A")?;
    let mut text = vec![in alloc; b'A'; hits]?;
    for _ in 0..dots {
        text.push(b'.')?;
    }
    write(&mut job, b"TX", &text)?;
    Ok(job)
}

/// The pattern `A`, and so many empty texts.
fn with_empty_texts(alloc: Global, count: usize) -> Result<Vec<u8>, AllocError> {
    let mut job = Vec::new(alloc);
    write(&mut job, b"PN", b"A")?;
    for _ in 0..count {
        write(&mut job, b"TX", b"")?;
    }
    Ok(job)
}

/// All of them: each at its bound, and one above.
pub(crate) fn jobs(alloc: Global, random: &mut Random) -> Result<Vec<Vec<u8>>, AllocError> {
    let mut jobs = Vec::new(alloc);
    for more in 0..2 {
        // 1,024 patterns, 16,384 bytes, and both at once
        jobs.push(patterns(alloc, random, 1024 + more, 3)?)?;
        jobs.push(long_patterns(alloc, &[16000, 384 + more])?)?;
        jobs.push(patterns(alloc, random, 1024 + more, 16)?)?;
        // for a full book an empty pattern, or one byte more
        jobs.push(long_patterns(alloc, &[16384, more])?)?;
        // 4,096 hits
        jobs.push(with_text(alloc, 4096 + more, 0)?)?;
        // a job of 65,536 bytes: 9 before the text's own, which are 100 letters and dots
        jobs.push(with_text(alloc, 100, 65427 + more)?)?;
    }
    jobs.push(with_empty_texts(alloc, 1000)?)?;
    Ok(jobs)
}
