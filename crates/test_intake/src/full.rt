//! An intake that accepts as many texts as it may, and refuses one more.

use crate::given::{old, searcher};
use crate::show;
use finder::Plain;
use intake::{Intake, MAX_TEXT, MAX_TEXTS};
use rules::{Fault, Match, PatternID};
use std::io;

fn scan(
    rt: &impl Print,
    intake: &mut Intake<Plain>,
    text: &[u8],
    hits: &mut [Match],
) -> io::Result<()> {
    let room = hits.len();
    let answer = intake.scan(text, hits);
    show::scanned(rt, text.len(), room, answer)?;
    show::counts(rt, intake, &[PatternID::ZERO])
}

/// Has all texts but one accepted.
fn fill(intake: &mut Intake<Plain>, hits: &mut [Match]) -> Result<(), Fault> {
    for _ in 0..MAX_TEXTS - 1 {
        intake.scan(b"AA", hits)?;
    }
    Ok(())
}

pub(crate) fn run(rt: &(impl Print + AllocGlobal)) -> anyhow::Result<()> {
    let alloc = rt.alloc();
    let mut intake = Intake::new(searcher(alloc, &[b"A"])?);
    let mut hits = vec![in alloc; old(); 2]?;
    fill(&mut intake, &mut hits)?;
    // the last text that is accepted, and one more
    scan(rt, &mut intake, b"AA", &mut hits)?;
    scan(rt, &mut intake, b"AA", &mut hits)?;
    // too many texts is said before that the list is too short, and after that the text is too long
    scan(rt, &mut intake, b"AA", &mut [])?;
    let long = vec![in alloc; b'A'; MAX_TEXT + 1]?;
    scan(rt, &mut intake, &long, &mut hits)?;
    Ok(())
}
