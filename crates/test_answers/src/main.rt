//! Replays a stored list of the Rust's answers: each call has to answer the same number and write the same bytes.
//! `tools/compare/run --record crates/test_answers/data/answers` made the list.

#![tactic(auto)]

ghost use Rattle.std.specs.Prelude.{length};
ghost use Rattle.std.specs.Iterator.{at_most};

use host::{ANSWER_BYTES, find};
use std::alloc::Global;
use std::{fs, io};

/// A call, the number that is answered, and the twelve bytes that are then in its buffer, which begins as zeros.
#[derive(Clone, Copy)]
struct Entry<'a> {
    job: &'a [u8],
    place: usize,
    searcher: u32,
    masks: usize,
    number: u32,
    written: &'a [u8; ANSWER_BYTES],
}

/// What is left of a list. An entry is a job's length and a place in two bytes each, low byte first, a searcher's number, a
/// mask count and the number that is answered in one each, the twelve bytes, and the job.
#[derive(Drop)]
struct Entries<'a> {
    rest: &'a [u8],
}

impl<'a> Iterator for Entries<'a> {
    type Item = Entry<'a>;

    ghost remaining = { λ entries. at_most (length entries.rest.now) };

    fn next(&mut self) -> Option<Entry<'a>> {
        let (head, rest) = self.rest.split_first_chunk::<7>()?;
        let [a, b, c, d, searcher, masks, number] = *head;
        let (written, rest) = rest.split_first_chunk::<ANSWER_BYTES>()?;
        let size = u16::from_le_bytes([a, b]);
        let place = u16::from_le_bytes([c, d]);
        let (job, rest) = rest.split_at_checked(usize::from(size))?;
        self.rest = rest;
        Some(Entry {
            job,
            place: usize::from(place),
            searcher: u32::from(searcher),
            masks: usize::from(masks),
            number: u32::from(number),
            written,
        })
    }
}

fn agrees(alloc: Global, entry: Entry<'_>) -> bool {
    let mut out = [0; ANSWER_BYTES];
    let number = find(
        alloc,
        entry.job,
        entry.place,
        entry.searcher,
        entry.masks,
        &mut out,
    );
    number == entry.number && out == *entry.written
}

fn main(rt: HostRuntime) -> io::Result<()> {
    let alloc = rt.alloc();
    let list = fs::read(&rt, "answers")?;
    let mut entries = Entries { rest: &list };
    let agree: Vec<bool> = entries
        .by_ref()
        .map(|entry| agrees(alloc, entry))
        .collect(alloc)?;
    let same = agree.iter().filter(|same| **same).count();
    let others = agree.iter().filter(|same| !**same).count();
    let read = list.len().saturating_sub(entries.rest.len());
    println!(rt; "{same} answers are the Rust's, {others} are not; {read} bytes read")
}
