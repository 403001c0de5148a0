//! An intake over the plain searcher: scans at the edges of what it refuses, batches of calls, and scans when it is full.
//! Prints what each call answers, and what its list, the count and the tallies are then.

#![tactic(auto)]

mod batches;
mod edges;
mod full;
mod given;
mod show;

fn main(rt: HostRuntime) -> anyhow::Result<()> {
    edges::run(&rt)?;
    batches::run(&rt)?;
    full::run(&rt)
}
