//! Prints what calls answer, and what an intake then holds.

use finder::Plain;
use intake::Intake;
use rules::{Fault, PatternID};
use std::io;

/// What a scan of a text answers, into a list with room for so many hits.
pub(crate) fn scanned(
    rt: &impl Print,
    len: usize,
    room: usize,
    answer: Result<usize, Fault>,
) -> io::Result<()> {
    match answer {
        Ok(n) => println!(rt; "{len} bytes, room for {room}: {n} hits"),
        Err(fault) => println!(rt; "{len} bytes, room for {room}: {fault}"),
    }
}

/// A tally, or the fault of the call for it.
pub(crate) fn tally(rt: &impl Print, intake: &Intake<Plain>, id: PatternID) -> io::Result<()> {
    let index = id.as_usize();
    match intake.tally(id) {
        Ok(tally) => println!(rt; "  tally {index}: {tally}"),
        Err(fault) => println!(rt; "  tally {index}: {fault}"),
    }
}

/// The number of texts, and some tallies.
pub(crate) fn counts(rt: &impl Print, intake: &Intake<Plain>, ids: &[PatternID]) -> io::Result<()> {
    println!(rt; "  texts {}", intake.count())?;
    for id in ids {
        tally(rt, intake, *id)?;
    }
    Ok(())
}
