//! Runs every operation on every kind of vector, and compares the answers with one another.

#![tactic(auto)]

use std::{array, fmt, io};
use test_random::Xorshift;
use vector::{ArrayHalf, Double, Half, Single, Vector, WordHalf};

/// An operation of a vector. It runs on four types of vectors, and a closure has one.
#[derive(Clone, Copy)]
enum Operation {
    Splat,
    Load,
    IsZero,
    CmpEq,
    And,
    Or,
    ShiftRightFour,
    ShiftInOneByte,
    ShiftInTwoBytes,
    ShiftInThreeBytes,
    ShuffleBytes,
}

const OPERATIONS: [Operation; 11] = [
    Operation::Splat,
    Operation::Load,
    Operation::IsZero,
    Operation::CmpEq,
    Operation::And,
    Operation::Or,
    Operation::ShiftRightFour,
    Operation::ShiftInOneByte,
    Operation::ShiftInTwoBytes,
    Operation::ShiftInThreeBytes,
    Operation::ShuffleBytes,
];

/// The number of lanes, and the 64-bit lanes past the last, which are to be 0.
fn ends<V: Vector>() -> (usize, u64) {
    let full = V::splat(0xff);
    (
        V::lane_count(),
        full.lane_64(V::lane_count() / 8) | full.lane_64(usize::MAX),
    )
}

/// What an operation answers on two vectors.
fn applied<V: Vector>(operation: Operation, a: V, b: V) -> V {
    match operation {
        Operation::Splat => V::splat(0xa5),
        Operation::Load => a,
        Operation::IsZero => V::splat(u8::from(a.is_zero())),
        Operation::CmpEq => a.cmpeq(b),
        Operation::And => a.and(b),
        Operation::Or => a.or(b),
        Operation::ShiftRightFour => a.shift_right_four(),
        Operation::ShiftInOneByte => a.shift_in_one_byte(b),
        Operation::ShiftInTwoBytes => a.shift_in_two_bytes(b),
        Operation::ShiftInThreeBytes => a.shift_in_three_bytes(b),
        Operation::ShuffleBytes => a.shuffle_bytes(b),
    }
}

/// The 64-bit lanes of what an operation answers on the lanes of `s` from the place `i` on and those of `t` from `j` on; 0
/// past the last.
fn answer<V: Vector>(operation: Operation, s: &[u8], i: usize, t: &[u8], j: usize) -> [u64; 4] {
    let v = applied(operation, V::load(s, i), V::load(t, j));
    array::from_fn(|k| v.lane_64(k))
}

/// What a doubled vector has to answer, made of what single vectors answer on its halves.
fn doubled<H: Half>(operation: Operation, s: &[u8], t: &[u8]) -> [u64; 4] {
    let ([a, b, ..], [c, d, ..]) = match operation {
        Operation::ShiftInOneByte | Operation::ShiftInTwoBytes | Operation::ShiftInThreeBytes => (
            answer::<Single<H>>(operation, s, 0, t, 16),
            answer::<Single<H>>(operation, s, 16, s, 0),
        ),
        _ => (
            answer::<Single<H>>(operation, s, 0, t, 0),
            answer::<Single<H>>(operation, s, 16, t, 16),
        ),
    };
    match operation {
        Operation::IsZero => [a & c; 4],
        _ => [a, b, c, d],
    }
}

/// Whether all kinds of vectors answer alike.
fn agree(operation: Operation, s: &[u8], t: &[u8]) -> bool {
    let single = answer::<Single<ArrayHalf>>(operation, s, 0, t, 0);
    let double = answer::<Double<ArrayHalf>>(operation, s, 0, t, 0);
    single == answer::<Single<WordHalf>>(operation, s, 0, t, 0)
        && double == answer::<Double<WordHalf>>(operation, s, 0, t, 0)
        && double == doubled::<ArrayHalf>(operation, s, t)
        && double == doubled::<WordHalf>(operation, s, t)
}

/// A name, an operation, and the two slices of bytes that it runs on.
#[derive(Clone, Copy)]
struct Case<'a>(&'a str, Operation, &'a [u8], &'a [u8]);

impl fmt::Display for Case<'_> {
    fn fmt<W: fmt::Write>(&self, f: &mut fmt::Formatter<W>) -> fmt::Result {
        let Case(name, operation, s, t) = *self;
        let verdict = if agree(operation, s, t) {
            "agree"
        } else {
            "DIFFER"
        };
        let [p, q, ..] = answer::<Single<WordHalf>>(operation, s, 0, t, 0).map(u64::to_le_bytes);
        let [a, b, c, d] = answer::<Double<WordHalf>>(operation, s, 0, t, 0).map(u64::to_le_bytes);
        write!(
            f,
            "{name}: all kinds {verdict}\n  single {p:?} {q:?}\n  double {a:?} {b:?} {c:?} {d:?}"
        )
    }
}

/// Forty bytes, of which most are below 20.
fn some_bytes(random: &mut Xorshift) -> [u8; 40] {
    array::from_fn(|_| {
        let n = random.next();
        let byte = (n & 0xff) as u8;
        if n & 0x300 == 0 { byte } else { byte % 20 }
    })
}

/// On how many of `turns` random inputs all kinds agree in all operations.
fn agreements(turns: usize) -> usize {
    let mut random = Xorshift::FIRST;
    (0..turns)
        .filter(|_| {
            let s = some_bytes(&mut random);
            let t = some_bytes(&mut random);
            let from = (random.next() % 40) as usize;
            OPERATIONS
                .iter()
                .all(|operation| agree(*operation, &s[from..], &t))
        })
        .count()
}

/// The numbers from `first` on.
fn rising(first: u8) -> [u8; 32] {
    array::from_fn(|i| first.wrapping_add((i & 0xff) as u8))
}

/// Equal lanes, nybbles of all ones, and indices below and above 15.
const MIXED: &[u8; 32] =
    b"\x00\x0f\x10\x11\x7f\x80\x8f\xff\x07\x07\x07\x07\x01\x02\x03\x04\x1f\x1e\x1d\x1c\x0e\x0d\x0c\x0b\xf0\x0f\x55\xaa\x00\x00\x09\xc8";

fn main(rt: HostRuntime) -> io::Result<()> {
    let low = rising(0);
    let high = rising(100);
    let cases = [
        Case("splat", Operation::Splat, &low, MIXED),
        Case("load", Operation::Load, MIXED, &low),
        Case("load past the end", Operation::Load, &[1, 2, 3], &low),
        Case("is_zero", Operation::IsZero, MIXED, &low),
        Case("is_zero of nothing", Operation::IsZero, &[], &low),
        Case("cmpeq", Operation::CmpEq, MIXED, &[7; 32]),
        Case("and", Operation::And, MIXED, &high),
        Case("or", Operation::Or, MIXED, &high),
        Case("shift_right_four", Operation::ShiftRightFour, MIXED, &low),
        Case("shift_in_one_byte", Operation::ShiftInOneByte, &low, &high),
        Case(
            "shift_in_two_bytes",
            Operation::ShiftInTwoBytes,
            &low,
            &high,
        ),
        Case(
            "shift_in_three_bytes",
            Operation::ShiftInThreeBytes,
            &low,
            &high,
        ),
        Case("shuffle_bytes", Operation::ShuffleBytes, &high, MIXED),
    ];
    for case in cases {
        println!(rt; "{case}")?;
    }
    let (single, past_single) = ends::<Single<ArrayHalf>>();
    let (double, past_double) = ends::<Double<ArrayHalf>>();
    let same = ends::<Single<WordHalf>>() == (single, past_single)
        && ends::<Double<WordHalf>>() == (double, past_double);
    println!(rt;
        "lanes {single} and {double}, past the last {past_single} and {past_double}, the same of both halves: {same}"
    )?;
    let made = ArrayHalf::new([7; 16]) == ArrayHalf::splat(7);
    println!(rt; "a half made of its bytes has them as its lanes: {made}")?;
    println!(rt; "random: {} of 300 agree", agreements(300))
}
