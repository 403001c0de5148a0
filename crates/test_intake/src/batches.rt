//! Batches of calls, each at a new intake, and one more at an intake in use.

use crate::given::{old, searcher};
use intake::{Batch, Call, Reply, make_and_serve};
use rules::PatternID;
use std::alloc::{AllocError, Global};
use std::io;

/// A scan with as many entries as hits, one with too few, a tally, and one of an id that the book lacks.
fn calls(alloc: Global) -> Result<Vec<Call<'static>>, AllocError> {
    let mut calls = Vec::new(alloc);
    for room in [3, 2] {
        calls.push(Call::Scan {
            text: b"ABC.A",
            hits: vec![in alloc; old(); room]?,
        })?;
    }
    calls.push(Call::Tally(PatternID::ZERO))?;
    calls.push(Call::Tally(PatternID::from(2)))?;
    Ok(calls)
}

/// The calls, with a list for their replies that is handed in and has room for so many, if that is enough.
fn batch_over(alloc: Global, room: usize) -> anyhow::Result<Option<Batch<'static>>> {
    let batch = Batch::over(calls(alloc)?, Vec::with_capacity(alloc, room)?);
    Ok(batch.ok())
}

/// The calls, with a new list for their replies.
fn batch_new(alloc: Global) -> anyhow::Result<Option<Batch<'static>>> {
    let batch = Batch::new(alloc, calls(alloc)?);
    Ok(batch.ok())
}

fn show_reply(rt: &impl Print, reply: &Reply) -> io::Result<()> {
    match reply {
        Reply::Scanned(Ok(n), hits) => println!(rt;
            "  scanned: {n} hits in a list of {}",
            hits.len()
        ),
        Reply::Scanned(Err(fault), _) => println!(rt; "  scanned: {fault}"),
        Reply::Tallied(Ok(tally)) => println!(rt; "  tallied: {tally}"),
        Reply::Tallied(Err(fault)) => println!(rt; "  tallied: {fault}"),
    }
}

fn show(rt: &impl Print, replies: &[Reply], texts: u32) -> io::Result<()> {
    println!(rt; "a batch: {} replies, {texts} texts", replies.len())?;
    for reply in replies {
        show_reply(rt, reply)?;
    }
    Ok(())
}

/// Makes the calls of a batch at a new intake, and those of another one, if there is one, behind them.
fn serve(
    rt: &(impl Print + AllocGlobal),
    batch: Option<Batch<'static>>,
    more: Option<Batch<'static>>,
) -> anyhow::Result<()> {
    let Some(batch) = batch else {
        println!(rt; "no batch: too little room for the replies")?;
        return Ok(());
    };
    let mut run = make_and_serve(searcher(rt.alloc(), &[b"A", b"BC"])?, batch);
    show(rt, &run.replies, run.intake.count())?;
    if let Some(more) = more {
        let replies = more.serve_all(&mut run.intake);
        show(rt, &replies, run.intake.count())?;
    }
    Ok(())
}

pub(crate) fn run(rt: &(impl Print + AllocGlobal)) -> anyhow::Result<()> {
    let alloc = rt.alloc();
    // four calls, with room for no reply, for four, and with a list of their own
    serve(rt, batch_over(alloc, 0)?, None)?;
    serve(rt, batch_over(alloc, 4)?, None)?;
    serve(rt, batch_new(alloc)?, batch_new(alloc)?)
}
