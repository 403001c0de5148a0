//! Reads a job on standard input, and prints its hits, and then the number of texts and the tallies, or its fault.

#![tactic(auto)]

use account::{report, run};
use job::MAX_JOB;
use std::io::Read;

/// How many bytes are read at the most: a job of more than `MAX_JOB` bytes is refused, so one byte more tells.
const LIMIT: u64 = MAX_JOB as u64 + 1;

fn main(rt: HostRuntime) -> anyhow::Result<()> {
    let alloc = rt.alloc();
    let mut job = Vec::new(alloc);
    rt.stdin().take(LIMIT).read_to_end(&mut job)?;
    let account = run(alloc, job.as_slice());
    let text = report(alloc, &account)?;
    rt.print(text.as_str())?;
    account.end?;
    Ok(())
}
