//! Scans at the edges of what is refused.

use crate::given::{old, searcher};
use crate::show;
use finder::Plain;
use intake::{Intake, MAX_TEXT};
use rules::PatternID;
use std::io;

/// A scan at a place into a list of `room` old entries.
fn scan(
    rt: &(impl Print + AllocGlobal),
    intake: &mut Intake<Plain>,
    place: usize,
    text: &[u8],
    room: usize,
) -> io::Result<()> {
    let mut hits = vec![in rt.alloc(); old(); room]?;
    let answer = intake.scan_at(place, text, &mut hits);
    show::scanned(rt, text.len(), room, answer)?;
    for hit in &hits {
        println!(rt; "  {} {} {}", hit.start, hit.end, hit.pattern.as_usize())?;
    }
    show::counts(rt, intake, &[PatternID::ZERO, PatternID::from(1)])
}

pub(crate) fn run(rt: &(impl Print + AllocGlobal)) -> anyhow::Result<()> {
    let alloc = rt.alloc();
    let mut intake = Intake::new(searcher(alloc, &[b"A", b"BC"])?);
    let mut longest = vec![in alloc; b'.'; MAX_TEXT - 1]?;
    longest.push(b'A')?;
    let mut too_long = longest.clone()?;
    too_long.push(b'A')?;
    let scans: [(usize, &[u8], usize); 8] = [
        (0, b"", 0),
        // as many entries as hits, one less, and two more
        (0, b"ABC.A", 3),
        (0, b"ABC.A", 2),
        (17, b"ABC.A", 2),
        (0, b"ABC.A", 5),
        // the longest text, and one byte more, which is said before that the list is too short
        (0, &longest, 1),
        (0, &longest, 0),
        (0, &too_long, 0),
    ];
    for (place, text, room) in scans {
        scan(rt, &mut intake, place, text, room)?;
    }
    // ids that the book lacks
    for id in [PatternID::from(2), PatternID::from(1024), PatternID::MAX] {
        show::tally(rt, &intake, id)?;
    }
    Ok(())
}
