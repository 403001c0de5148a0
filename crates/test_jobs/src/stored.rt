//! The stored jobs, each beside what must be printed of it.

use account::{report, run};
use std::rt::Files;
use std::{fs, io};

/// Whether a job prints what it must.
fn agrees(rt: &(impl Files + AllocGlobal), name: &str) -> io::Result<bool> {
    let alloc = rt.alloc();
    let job = fs::read(rt, format!(in alloc; "{name}.job")?)?;
    let expected = fs::read(rt, format!(in alloc; "{name}.out")?)?;
    let text = report(alloc, &run(alloc, &job))?;
    Ok(text.as_str().as_bytes() == expected.as_slice())
}

/// Runs each job that the file `names` lists.
pub(crate) fn run_all(rt: &(impl Files + Print + AllocGlobal)) -> io::Result<()> {
    let names = fs::read_to_string(rt, "names")?;
    for name in names.lines() {
        let verdict = if agrees(rt, name)? { "ok" } else { "DIFFERS" };
        println!(rt; "{name} {verdict}")?;
    }
    Ok(())
}
