//! Runs jobs, and compares what is printed of each: of stored jobs with what stands beside them, then of many drawn jobs with
//! what a plain model of the rules says.
//!
//! The argument, if there is one, says how many jobs are drawn. The stored jobs lie in the folder where the program runs, as
//! in `(cd data && ../out/test_jobs 200000)`.

#![tactic(auto)]

use anyhow::ensure;
use job::{jobs_open, jobs_read_back};
use std::env;
use std::rt::Env;

mod drawn;
mod stored;

/// How many jobs are drawn where no number is given: few enough for `rt try`, which runs a program some hundred times slower.
const JOBS: usize = 500;

/// How many jobs are to be drawn.
fn job_count(rt: &(impl Env + AllocGlobal)) -> anyhow::Result<usize> {
    match env::args(rt)?.nth(1) {
        Some(number) => Ok(number.as_str().parse::<usize>()?),
        None => Ok(JOBS),
    }
}

fn main(rt: HostRuntime) -> anyhow::Result<()> {
    // Laws of the definitions, which hold of every job: each is called once.
    ensure!(jobs_open() && jobs_read_back());
    let count = job_count(&rt)?;
    stored::run_all(&rt)?;
    drawn::run_all(&rt, count)
}
