//! The find that a host program calls, with numbers in place of types: a job as bytes, the number of a searcher, and a buffer.
//!
//! [`find`] opens the job, makes the searcher and searches the first text. What may stand in the way of a hit is a `Miss`, which has
//! a number; a hit is written as an id, a start and an end. The crate `host_c` gives the same function to C.
//!
//! ```
//! let mut out = [0; host::ANSWER_BYTES];
//! let number = host::find(alloc, b"PN\x02\x00RMTX\x05\x00no RM", 0, 2, 2, &mut out);
//! assert!(number == 0);
//! // the pattern 0, from 3 to 5
//! assert!(out == [0, 0, 0, 0, 3, 0, 0, 0, 5, 0, 0, 0]);
//! ```

#![tactic(auto)]

ghost use Rattle.std.specs.Prelude.{◌≡◌, length, OnOk, IfErr};
ghost use Rattle.host.specs.Answer.{called, answer, SmallAnswer, Replies};
ghost use Rattle.host.specs.Misses.{number_of};

mod match_bytes;
mod miss;
mod search;
mod searcher;

use crate::match_bytes::match_bytes;
use crate::miss::Miss;
use crate::search::search;
use crate::searcher::SearcherKind;
pub use match_bytes::ANSWER_BYTES;
pub use miss::{MISCALLED, NO_HIT, NO_MEMORY, NO_TEXT};
use std::alloc::Global;

/// Searches a job's first text from a place on, with the searcher that has a number (0 plain, 1 rolling hash, 2 masks over
/// one array half) and, for 2, a mask count. It answers 0 with the hit in `out`: id, start and end, four bytes each, low byte
/// first. Otherwise it writes nothing and answers, in this order: `MISCALLED` (101) for another number or a buffer of another length
/// than `ANSWER_BYTES` (twelve), the number of the job's first refusal up to that text, `NO_TEXT` (102) for no text, `NO_HIT` (100)
/// for no hit; and `NO_MEMORY` (103) for want of memory, which comes only where a pattern before that text is to be entered and
/// nothing is refused before it. The parameters are those of the function that C calls.
pub fn find(
    alloc: Global,
    job: &[u8],
    place: usize,
    searcher: u32,
    masks: usize,
    out: &mut [u8],
) -> u32
    ensures answer { Replies job.now place (called searcher masks (length out.old)) result out.old out.new }
    ensures small { result ≡ 0 → SmallAnswer (answer job.now place (called searcher masks (length out.old))) }
{
    match reply(alloc, job, place, searcher, masks, out) {
        Ok(()) => 0,
        Err(miss) => miss.number(),
    }
}

/// Writes the hit of a call, whose parameters these are.
fn reply(
    alloc: Global,
    job: &[u8],
    place: usize,
    searcher: u32,
    masks: usize,
    out: &mut [u8],
) -> Result<(), Miss>
    ensures ok { OnOk result (Replies job.now place (called searcher masks (length out.old)) 0 out.old out.new) }
    ensures small { OnOk result (SmallAnswer (answer job.now place (called searcher masks (length out.old)))) }
    ensures err { IfErr result (λ e. Replies job.now place (called searcher masks (length out.old)) (number_of e) out.old out.new) }
{
    if out.len() != ANSWER_BYTES {
        return Err(Miss::Miscalled);
    }
    let chosen = SearcherKind::new(searcher, masks).ok_or(Miss::Miscalled)?;
    out.copy_from_slice(match_bytes(search(alloc, job, place, chosen)?).as_flattened());
    Ok(())
}
