//! The masks over every kind of vectors, with every mask count, beside the other searchers.

ghost use Rattle.std.specs.Prelude.{◌≤◌, IfOk};

use crate::book::closed;
use crate::draw::{self, Shape};
use finder::{Finder, Plain};
use pattern::Book;
use rabinkarp::RabinKarp;
use rules::MatchKind::{LeftmostFirst, LeftmostLongest};
use rules::{Fault, Match, MatchKind};
use std::alloc::Global;
use std::rc::Rc;
use std::{array, io, iter};
use teddy::Slim;
use test_random::Xorshift;
use vector::{ArrayHalf, Double, Single, Vector, WordHalf};

/// What the mask searcher over one kind of vectors answers with each mask count from 1 to 4; those above the shortest length
/// become that. It is not inlined: so one searcher at a time takes up the stack.
#[inline(never)]
fn slim<V: Vector>(book: &Rc<Book>, text: &[u8], at: usize) -> Result<[Option<Match>; 4], Fault> {
    array::try_from_fn(|i| Ok(Slim::<V>::new(book.clone()?, i + 1).find(text, at)))
}

/// What the rolling hash answers. It is not inlined either.
#[inline(never)]
fn rolling(book: Rc<Book>, text: &[u8], at: usize) -> Option<Match> {
    RabinKarp::new(book).find(text, at)
}

/// How many of the sixteen mask searchers and the rolling hash answer `want`.
fn agree(book: &Rc<Book>, text: &[u8], at: usize, want: Option<Match>) -> Result<usize, Fault>
    ensures { IfOk result (λ n. n ≤ 17) }
{
    let slim = [
        slim::<Single<ArrayHalf>>(book, text, at)?,
        slim::<Single<WordHalf>>(book, text, at)?,
        slim::<Double<ArrayHalf>>(book, text, at)?,
        slim::<Double<WordHalf>>(book, text, at)?,
    ];
    let rolling = [rolling(book.clone()?, text, at)];
    let hits = slim.as_flattened().iter().chain(&rolling);
    Ok(hits.filter(|hit| **hit == want).count())
}

/// A search by its name.
#[derive(Clone, Copy)]
struct Case<'a> {
    name: &'a str,
    kind: MatchKind,
    patterns: &'a [&'a [u8]],
    text: &'a [u8],
    at: usize,
}

const CASES: [Case<'static>; 12] = [
    Case {
        name: "across two windows",
        kind: LeftmostFirst,
        patterns: &[b"AB"],
        text: b"................AB..................",
        at: 0,
    },
    Case {
        name: "in the tail",
        kind: LeftmostFirst,
        patterns: &[b"X"],
        text: b"...................X",
        at: 0,
    },
    Case {
        name: "first entered",
        kind: LeftmostFirst,
        patterns: &[b"DC-40", b"DC-40-R"],
        text: b"2 DC-40-R",
        at: 0,
    },
    Case {
        name: "longest",
        kind: LeftmostLongest,
        patterns: &[b"DC-40", b"DC-40-R"],
        text: b"2 DC-40-R",
        at: 0,
    },
    Case {
        name: "first entered, far",
        kind: LeftmostFirst,
        patterns: &[b"DC-40", b"DC-40-R"],
        text: b".................................................DC-40-R....",
        at: 3,
    },
    Case {
        name: "longest, far",
        kind: LeftmostLongest,
        patterns: &[b"DC-40", b"DC-40-R"],
        text: b".................................................DC-40-R....",
        at: 3,
    },
    Case {
        name: "entered twice",
        kind: LeftmostLongest,
        patterns: &[b"RM", b"RM"],
        text: b"................................................RM",
        at: 0,
    },
    Case {
        name: "equal low nybbles",
        kind: LeftmostFirst,
        patterns: &[b"AB", b"QR"],
        text: b"................................QRAB............",
        at: 0,
    },
    Case {
        name: "from the hit's end",
        kind: LeftmostFirst,
        patterns: &[b"AA"],
        text: b"AAAA............................................",
        at: 2,
    },
    Case {
        name: "past the end",
        kind: LeftmostFirst,
        patterns: &[b"AA"],
        text: b"AAAA",
        at: 5,
    },
    Case {
        name: "no text",
        kind: LeftmostFirst,
        patterns: &[b"AA"],
        text: b"",
        at: 0,
    },
    Case {
        name: "no patterns",
        kind: LeftmostFirst,
        patterns: &[],
        text: b".................................................",
        at: 0,
    },
];

impl Case<'_> {
    /// What the plain searcher answers, and how many of the others answer the same.
    fn answer(&self, alloc: Global) -> Result<(Option<Match>, usize), Fault> {
        let book = closed(alloc, self.kind, self.patterns)?;
        let want = Plain::new(book.clone()?).find(self.text, self.at);
        let same = agree(&book, self.text, self.at, want)?;
        Ok((want, same))
    }

    fn show(&self, rt: &(impl Print + AllocGlobal)) -> io::Result<()> {
        let name = self.name;
        match self.answer(rt.alloc()) {
            Ok((Some(m), same)) => {
                let id = m.pattern.as_usize();
                println!(rt; "{name}: id {id}, {} to {}, {same} of 17", m.start, m.end)
            }
            Ok((None, same)) => println!(rt; "{name}: none, {same} of 17"),
            Err(fault) => println!(rt; "{name}: {fault}"),
        }
    }
}

/// Blanks, then a pattern, then blanks.
fn behind_blanks(
    alloc: Global,
    pattern: &[u8],
    before: usize,
    after: usize,
) -> Result<Vec<u8>, Fault> {
    let mut text = vec![in alloc; b' '; before]?;
    text.extend_from_slice(pattern)?;
    text.extend(iter::repeat_n(b' ', after))?;
    Ok(text)
}

/// How many searchers find a pattern at each start from 0 to 70.
fn starts(alloc: Global, after: usize) -> Result<usize, Fault> {
    let book = closed(alloc, LeftmostFirst, &[b"WXYZ"])?;
    let mut same = 0;
    for start in 0..71 {
        let text = behind_blanks(alloc, b"WXYZ", start, after)?;
        let want = Plain::new(book.clone()?).find(&text, 0);
        if want.is_some_and(|m| m.start == start) {
            same += agree(&book, &text, 0, want)?;
        }
    }
    Ok(same)
}

/// Letters of which two share their low nybble.
const LETTERS: &[u8; 3] = b"AQb";

/// Whether all searchers agree on one drawn book, text and place.
fn drawn_agree(alloc: Global, random: &mut Xorshift) -> Result<bool, Fault> {
    let shape = Shape {
        count: (1 + random.next() % 12) as usize,
        lens: &[1, 2, 3, 4, 5, 6, 7],
        letters: LETTERS,
    };
    let kind = if random.next() % 2 == 0 {
        LeftmostLongest
    } else {
        LeftmostFirst
    };
    let book = draw::book(alloc, random, &shape, kind)?;
    let len = (random.next() % 90) as usize;
    let text = draw::word(alloc, random, LETTERS, len)?;
    let at = (random.next() % 40) as usize;
    let want = Plain::new(book.clone()?).find(&text, at);
    Ok(agree(&book, &text, at, want)? == 17)
}

/// On how many of 300 drawn books, texts and places all searchers agree.
fn draws(alloc: Global) -> Result<usize, Fault> {
    let mut random = Xorshift::FIRST;
    let agree: Vec<bool> = (0..300)
        .map(|_| drawn_agree(alloc, &mut random))
        .try_collect(alloc)?;
    Ok(agree.iter().filter(|all| **all).count())
}

pub(crate) fn run(rt: &(impl Print + AllocGlobal)) -> anyhow::Result<()> {
    for case in &CASES {
        case.show(rt)?;
    }
    for after in [0, 40] {
        let same = starts(rt.alloc(), after)?;
        println!(rt; "starts 0 to 70, {after} blanks behind: {same} of 1207")?;
    }
    let same = draws(rt.alloc())?;
    println!(rt; "random: {same} of 300")?;
    Ok(())
}
