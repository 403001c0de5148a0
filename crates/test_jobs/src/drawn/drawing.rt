//! Jobs as a person might write them, over few letters, so that patterns begin alike, contain one another and overlap.

use crate::drawn::random::Random;
use crate::drawn::record::Written;
use std::alloc::{AllocError, Global};

/// How long a pattern is: mostly short, so that it occurs.
fn pattern_len(random: &mut Random) -> usize {
    match random.below(16) {
        0 => random.between(13, 72),
        1..=9 => random.between(1, 4),
        _ => random.between(1, 12),
    }
}

/// A pattern: letters, or an earlier pattern once more, its beginning, or it with letters behind it.
fn pattern(
    alloc: Global,
    random: &mut Random,
    letters: usize,
    earlier: &[Vec<u8>],
) -> Result<Vec<u8>, AllocError> {
    let len = pattern_len(random);
    let word = random.word(alloc, len, letters)?;
    let Some(old) = earlier.get(random.below(earlier.len())) else {
        return Ok(word);
    };
    match random.below(8) {
        0 => old.clone(),
        1 => {
            let mut beginning = old.clone()?;
            beginning.truncate(random.between(1, old.len()));
            Ok(beginning)
        }
        2 => {
            let mut longer = old.clone()?;
            longer.extend_from_slice(&word)?;
            Ok(longer)
        }
        _ => Ok(word),
    }
}

/// How long a text is.
fn text_len(random: &mut Random) -> usize {
    match random.below(32) {
        0 => 0,
        1 => random.between(1000, 4000),
        2..=7 => random.below(20),
        _ => random.below(201),
    }
}

/// A text: letters, dots, which no pattern has, and patterns.
fn text(
    alloc: Global,
    random: &mut Random,
    letters: usize,
    patterns: &[Vec<u8>],
) -> Result<Vec<u8>, AllocError> {
    let len = text_len(random);
    let dots = random.below(4);
    let mut text = Vec::new(alloc);
    for _ in 0..len {
        if random.below(4) < dots {
            text.push(b'.')?;
        } else if random.one_in(8) {
            if let Some(pattern) = patterns.get(random.below(patterns.len())) {
                text.extend_from_slice(pattern)?;
            }
        } else {
            text.push(random.letter(letters))?;
        }
    }
    text.truncate(len);
    Ok(text)
}

/// How many patterns a job has.
fn pattern_count(random: &mut Random) -> usize {
    match random.below(32) {
        0 => 0,
        1 => random.between(20, 100),
        2..=7 => random.between(8, 20),
        _ => random.between(1, 8),
    }
}

/// Now and then a kind.
fn kind(random: &mut Random, job: &mut Written) -> Result<(), AllocError> {
    match random.below(8) {
        0 => job.record(b"KF", b""),
        1 | 2 => job.record(b"KL", b""),
        _ => Ok(()),
    }
}

/// A job without a fault, unless it has no patterns.
pub(crate) fn job(alloc: Global, random: &mut Random) -> Result<Written, AllocError> {
    let letters = random.between(2, 4);
    let mut patterns = Vec::new(alloc);
    let mut job = Written::new(alloc);
    for _ in 0..pattern_count(random) {
        kind(random, &mut job)?;
        let pattern = pattern(alloc, random, letters, &patterns)?;
        job.record(b"PN", &pattern)?;
        patterns.push(pattern)?;
    }
    kind(random, &mut job)?;
    for _ in 0..random.below(6) {
        let text = text(alloc, random, letters, &patterns)?;
        job.record(b"TX", &text)?;
    }
    Ok(job)
}
