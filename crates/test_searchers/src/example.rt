//! The example of docs/TEDDY.md: the buckets of its book, and the candidates of the first window of its text.

use crate::book::closed;
use anyhow::ensure;
use pattern::Book;
use rules::MatchKind;
use teddy::{BUCKETS, Mask, MaskTable, Masks, Seen, assign, take_lowest};
use vector::{ArrayHalf, Single, Vector};

const TEXT: &[u8] = b"2 DC-40-R, 5 LC-80.";

/// The four masks of a book, over one array half.
fn masks(book: &Book) -> Masks<Mask<Single<ArrayHalf>>> {
    let buckets = assign(book);
    Masks {
        count: 4,
        first: Mask::load(&MaskTable::new(book, &buckets, 0)),
        second: Mask::load(&MaskTable::new(book, &buckets, 1)),
        third: Mask::load(&MaskTable::new(book, &buckets, 2)),
        fourth: Mask::load(&MaskTable::new(book, &buckets, 3)),
    }
}

/// Whether one test of all four masks gives what the tests of fewer masks give.
fn tests_agree(masks: &Masks<Mask<Single<ArrayHalf>>>) -> bool {
    let chunk = Single::load(TEXT, 3);
    let Masks {
        first,
        second,
        third,
        fourth,
        ..
    } = *masks;
    let all = Mask::members4(chunk, first, second, third, fourth);
    Mask::members1(chunk, first) == all.0
        && Mask::members2(chunk, first, second) == (all.0, all.1)
        && Mask::members3(chunk, first, second, third) == (all.0, all.1, all.2)
}

/// Prints each pattern's bucket, and each candidate by its place and bucket.
pub(crate) fn run(rt: &HostRuntime) -> anyhow::Result<()> {
    let book = closed(
        rt.alloc(),
        MatchKind::LeftmostLongest,
        &[b"DC-40", b"DC-40-R", b"LC-8"],
    )?;
    let [zero, one, two, ..] = assign(&book);
    println!(rt; "example: buckets {zero} {one} {two}")?;
    let masks = masks(&book);
    let candidates = masks.window(TEXT, 3, &mut Seen::blank());
    ensure!(masks.candidate(Single::load(TEXT, 3), &mut Seen::blank()) == candidates);
    ensure!(tests_agree(&masks));
    for k in 0..2usize {
        let mut rest = candidates.lane_64(k);
        // No more bits than a lane of 64 has.
        for _ in 0..64u32 {
            let Some(bit) = take_lowest(&mut rest) else {
                break;
            };
            let place = 8 * k + bit / BUCKETS;
            let bucket = bit % BUCKETS;
            println!(rt; "example: place {place}, bucket {bucket}")?;
        }
    }
    Ok(())
}
