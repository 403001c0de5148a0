//! Drawn jobs beside a plain model of the rules. The first job for which they differ is printed in hex, with what is printed
//! of it and what the model says.

use account::{Account, report, run, run_with};
use anyhow::ensure;
use finder::Plain;
use model::Expected;
use rabinkarp::RabinKarp;
use random::Random;
use totals::Totals;

mod bounds;
mod damage;
mod drawing;
mod model;
mod random;
mod record;
mod totals;

/// Prints a job in hex, what the model says of it, and what is printed of it instead.
fn show(
    rt: &(impl Print + AllocGlobal),
    job: &[u8],
    expected: &[u8],
    printed: &[u8],
) -> anyhow::Result<()> {
    print!(rt; "job ")?;
    for byte in job {
        print!(rt; "{byte:02x}")?;
    }
    println!(rt; "")?;
    println!(rt; "expected")?;
    println!(rt; "{}", String::from_utf8_lossy(rt.alloc(), expected)?)?;
    println!(rt; "printed")?;
    println!(rt; "{}", String::from_utf8_lossy(rt.alloc(), printed)?)?;
    Ok(())
}

/// Compares what is printed of an account with what the model says.
fn compare(
    rt: &(impl Print + AllocGlobal),
    totals: &mut Totals,
    job: &[u8],
    expected: &Expected,
    account: &Account,
) -> anyhow::Result<()> {
    let printed = report(rt.alloc(), account)?;
    let printed = printed.as_str().as_bytes();
    let same = printed == expected.printed.as_slice();
    if !same {
        if totals.disagreements == 0 {
            show(rt, job, &expected.printed, printed)?;
        }
        totals.disagree();
    }
    Ok(())
}

/// Runs a job through the model, and then as `pnscan` does, with the plain searcher and with the rolling hash.
fn try_job(rt: &(impl Print + AllocGlobal), totals: &mut Totals, job: &[u8]) -> anyhow::Result<()> {
    let alloc = rt.alloc();
    let expected = model::expect(alloc, job)?;
    totals.note(&expected);
    compare(rt, totals, job, &expected, &run(alloc, job))?;
    compare(
        rt,
        totals,
        job,
        &expected,
        &run_with::<Plain>(alloc, job, ()),
    )?;
    compare(
        rt,
        totals,
        job,
        &expected,
        &run_with::<RabinKarp>(alloc, job, ()),
    )
}

/// Runs so many drawn jobs, and those at the bounds.
pub(crate) fn run_all(rt: &(impl Print + AllocGlobal), count: usize) -> anyhow::Result<()> {
    let alloc = rt.alloc();
    let mut random = Random::new();
    let mut totals = Totals::new();
    for _ in 0..count {
        let job = drawing::job(alloc, &mut random)?;
        let job = damage::perhaps(alloc, &mut random, job)?;
        try_job(rt, &mut totals, &job)?;
    }
    for job in &bounds::jobs(alloc, &mut random)? {
        try_job(rt, &mut totals, job)?;
    }
    println!(rt; "{totals}")?;
    ensure!(totals.disagreements == 0, "the model says otherwise");
    Ok(())
}
