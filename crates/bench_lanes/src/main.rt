//! Times the mask searcher over every kind of lanes and every mask count, and the rolling hash, on the same book and text.
//! It prints to the error output, since times differ from run to run.

#![tactic(auto)]

use anyhow::ensure;
use finder::Finder;
use pattern::{Book, Patterns};
use rabinkarp::RabinKarp;
use rules::Fault;
use std::alloc::Global;
use std::rc::Rc;
use std::time::Instant;
use teddy::Slim;
use test_random::Xorshift;
use vector::{ArrayHalf, Double, Single, Vector, WordHalf};

/// How many bytes the text has.
const LEN: usize = 60000;

/// How often a text is searched, each time from another place.
const ROUNDS: usize = 20;

/// Eight patterns with a digit, which the text lacks.
const PATTERNS: [&[u8]; 8] = [
    b"DC-40", b"DC-40-R", b"RM-100", b"LS-7", b"QX-220", b"TK-9-B", b"VO-31", b"AZ-5-KL",
];

/// The letters of the text.
const LETTERS: &[u8; 32] = b"ABCDEFGHIJKLMNOPQRSTUVWXYZ-- ...";

/// The book. (Each program that makes one has other patterns, and another error.)
fn book(alloc: Global) -> Result<Book, Fault> {
    let mut patterns = Patterns::new(alloc);
    for pattern in PATTERNS {
        patterns.add(pattern)?;
    }
    Ok(patterns.close())
}

fn text(alloc: Global) -> anyhow::Result<Vec<u8>> {
    let mut random = Xorshift::FIRST;
    Ok(
        (0..LEN)
            .map(|_| LETTERS[(random.next() % 32) as usize])
            .collect(alloc)?,
    )
}

/// Searches the text again and again, and prints the time of a search; the text has no hit.
fn time<F: Finder>(rt: &HostRuntime, name: &str, finder: &F, text: &[u8]) -> anyhow::Result<()> {
    let start = Instant::now(rt)?;
    let none = (0..ROUNDS).all(|at| finder.find(text, at).is_none());
    let micros = start.elapsed(rt)?.as_micros() / ROUNDS as u128;
    ensure!(none, "a hit in a text that has none");
    eprintln!(rt; "{name}: {micros} microseconds a search")?;
    Ok(())
}

/// Times one kind of lanes with each mask count.
fn time_masks<V: Vector>(
    rt: &HostRuntime,
    name: &str,
    book: &Rc<Book>,
    text: &[u8],
) -> anyhow::Result<()> {
    for masks in 1..5usize {
        let line = format!(in rt.alloc(); "{name}, {masks} masks")?;
        time(
            rt,
            line.as_str(),
            &Slim::<V>::new(book.clone()?, masks),
            text,
        )?;
    }
    Ok(())
}

fn main(rt: HostRuntime) -> anyhow::Result<()> {
    let alloc = rt.alloc();
    let book = Rc::new(alloc, book(alloc)?)?;
    let text = text(alloc)?;
    let text = text.as_slice();
    time(&rt, "rolling hash", &RabinKarp::new(book.clone()?), text)?;
    time_masks::<Single<ArrayHalf>>(&rt, "one array half", &book, text)?;
    time_masks::<Single<WordHalf>>(&rt, "one word half", &book, text)?;
    time_masks::<Double<ArrayHalf>>(&rt, "two array halves", &book, text)?;
    time_masks::<Double<WordHalf>>(&rt, "two word halves", &book, text)
}
