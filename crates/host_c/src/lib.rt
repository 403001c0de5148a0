//! The find of the crate `host`, as a static library for a host program.
//!
//! A host program declares the function with a pointer and a length for each of `job` and `out`, and nothing for `alloc`:
//!
//! ```
//! unsafe extern "C" {
//!     fn find(
//!         job: *const u8, job_len: usize, place: usize, searcher: u32, masks: usize, out: *mut u8, out_len: usize,
//!     ) -> u32;
//! }
//! let mut out = [0; 12];
//! let number = unsafe { find(job.as_ptr(), job.len(), 0, 2, 2, out.as_mut_ptr(), out.len()) };
//! ```

#![tactic(auto)]

ghost use Rattle.std.specs.Prelude.{◌≡◌, length};
ghost use Rattle.host.specs.Answer.{called, answer, SmallAnswer, Replies};

use std::alloc::Global;

/// Searches a job's first text from a place on: `host::find`, whose contract is stated again, since a crate is a library or a
/// static library.
#[unsafe(no_mangle)]
pub extern "C" fn find(
    alloc: Global,
    job: &[u8],
    place: usize,
    searcher: u32,
    masks: usize,
    out: &mut [u8],
) -> u32
    ensures answer { Replies job.now place (called searcher masks (length out.old)) result out.old out.new }
    ensures small { result ≡ 0 → SmallAnswer (answer job.now place (called searcher masks (length out.old))) }
{
    host::find(alloc, job, place, searcher, masks, out)
}
