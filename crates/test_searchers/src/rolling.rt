//! The rolling hash beside the plain searcher.

use crate::book::closed;
use crate::draw::{self, Shape, pick, word};
use crate::numbers::{Congruential, Numbers};
use anyhow::ensure;
use finder::{Finder, Plain, stands};
use pattern::{Book, MAX_PATTERNS};
use rabinkarp::{Buckets, NUM_BUCKETS, RabinKarp, hash, hash_2pow, update_hash};
use rules::MatchKind;
use std::alloc::Global;

const ALL: &[u8] = b"ABCDEFGHIJKLMNOPQRSTUVWXYZ";

const SHAPES: [Shape; 9] = [
    Shape {
        count: 0,
        lens: &[1],
        letters: b"AB",
    },
    Shape {
        count: 3,
        lens: &[1, 2, 3],
        letters: b"AB",
    },
    Shape {
        count: 12,
        lens: &[2, 3, 4, 5, 6, 7],
        letters: b"ABC",
    },
    Shape {
        count: 200,
        lens: &[3, 4, 5, 6],
        letters: ALL,
    },
    Shape {
        count: 1024,
        lens: &[4, 5, 6, 7, 8, 9, 10, 11],
        letters: b"ABCD",
    },
    Shape {
        count: 8,
        lens: &[63, 64, 65, 66],
        letters: b"AB",
    },
    Shape {
        count: 8,
        lens: &[64, 65, 66, 67],
        letters: b"AB",
    },
    Shape {
        count: 8,
        lens: &[65, 66, 67, 68],
        letters: b"AB",
    },
    Shape {
        count: 8,
        lens: &[
            300, 301, 302, 303, 304, 305, 306, 307, 308, 309, 310, 311, 312, 313, 314, 315, 316,
            317, 318, 319,
        ],
        letters: ALL,
    },
];

/// Letters, with patterns of the book among them.
fn drawn_text(
    alloc: Global,
    random: &mut Congruential,
    book: &Book,
    letters: &[u8],
) -> anyhow::Result<Vec<u8>> {
    let mut text = Vec::new(alloc);
    for _ in 0..60 {
        let len = (random.next() % 6) as usize;
        text.extend_from_slice(&word(alloc, random, letters, len)?)?;
        if let Some(id) = pick(random, book.order()) {
            text.extend_from_slice(book.get(*id))?;
        }
    }
    Ok(text)
}

/// At how many places both searchers find a hit, whose pattern stands where it starts; an error where they differ.
fn hits(plain: &Plain, rolling: &RabinKarp, text: &[u8]) -> anyhow::Result<usize> {
    let end = text.len();
    ensure!(
        (0..=end).all(|at| rolling.find(text, at) == plain.find(text, at)),
        "the searchers differ"
    );
    ensure!(
        [end.saturating_add(1), usize::MAX]
            .iter()
            .all(|at| rolling.find(text, *at).is_none()),
        "a hit behind the end"
    );
    Ok(
        (0..=end)
            .filter_map(|at| rolling.find(text, at))
            .filter(|hit| stands(rolling.book().get(hit.pattern), text, hit.start))
            .count(),
    )
}

/// At how many places both find a hit, over some books of a shape, of each kind, and a text for each.
fn hits_of(alloc: Global, random: &mut Congruential, shape: &Shape) -> anyhow::Result<usize> {
    let mut all = 0usize;
    for _ in 0..5 {
        for kind in [MatchKind::LeftmostFirst, MatchKind::LeftmostLongest] {
            let book = draw::book(alloc, random, shape, kind)?;
            let text = drawn_text(alloc, random, &book, shape.letters)?;
            let plain = Plain::new(book.clone()?);
            let rolling = RabinKarp::new(book);
            // a `+` would need a bound on the lengths of the texts
            all = all
                .saturating_add(hits(&plain, &rolling, &text)?)
                .saturating_add(hits(&plain, &rolling, &[])?);
        }
    }
    Ok(all)
}

/// Two words with one hash, and a window that moves on.
fn show_hashes(rt: &(impl Print + AllocGlobal)) -> anyhow::Result<()> {
    let ab = hash(b"AB");
    let rolled = update_hash(ab, hash_2pow(2), b'A', b'C');
    println!(rt; "AB {ab}, then BC {rolled}, alone {}", hash(b"BC"))?;
    println!(rt; "AC {}, BA {}", hash(b"AC"), hash(b"BA"))?;

    let book = closed(rt.alloc(), MatchKind::LeftmostFirst, &[b"AC"])?;
    let rolling = RabinKarp::new(book);
    let none = rolling.find(b"BA", 0).is_none();
    let some = rolling.find(b"BAC", 0).is_some();
    println!(rt; "AC in BA: none {none}; in BAC: some {some}")?;
    Ok(())
}

/// Copies of buckets have the same ids as those that they are made of; an error where they differ. It is not inlined: so the copies
/// take up the stack here alone.
#[inline(never)]
fn copy_buckets(alloc: Global) -> anyhow::Result<()> {
    let book = closed(alloc, MatchKind::LeftmostFirst, &[b"AC", b"BA", b"CA"])?;
    let buckets = Buckets::new(&book, &[70; MAX_PATTERNS]);
    let copied = buckets;
    let cloned = buckets.clone()?;
    ensure!(buckets.bucket(6) == book.order(), "not all in bucket 6");
    ensure!(
        (0..NUM_BUCKETS).all(|k| copied.bucket(k) == buckets.bucket(k)
            && cloned.bucket(k) == buckets.bucket(k)),
        "the copies differ"
    );
    Ok(())
}

pub(crate) fn run(rt: &(impl Print + AllocGlobal)) -> anyhow::Result<()> {
    show_hashes(rt)?;
    copy_buckets(rt.alloc())?;
    let mut random = Congruential::FIRST;
    for shape in &SHAPES {
        let count = shape.count;
        let shortest = shape.lens.iter().min().copied().unwrap_or(0);
        let hits = hits_of(rt.alloc(), &mut random, shape)?;
        println!(rt; "{count} patterns from {shortest} bytes on: {hits} hits, the same")?;
    }
    Ok(())
}
