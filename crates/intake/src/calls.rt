ghost use Rattle.std.specs.Prelude.{◌≡◌, map, length, vec_len, vec_capacity, All};
ghost use Rattle.intake.specs.History.{made_over, Served};
ghost use Rattle.intake.specs.Batches.{calls_of, room_of};
ghost use Rattle.intake.specs.Calls.{asks, tell, pairs, following, Outside};
ghost use Rattle.intake.specs.Intakes.{ServesCall};

use crate::batch::Batch;
use crate::intake::Intake;
use finder::Finder;
use rules::{Fault, Match, PatternID};

/// A call of an intake.
#[derive(Debug, Drop, PartialEq, Eq)]
pub enum Call<'a> {
    /// A text, and a list for its hits, which every scan is asked with.
    Scan { text: &'a [u8], hits: Vec<Match> },
    /// The tally of a pattern.
    Tally(PatternID),
}

/// What a call came back with. A fault in it is outside a job, at the place 0.
#[derive(Debug, Drop, PartialEq, Eq)]
pub enum Reply {
    /// The answer to a scan, and the list that was handed in, as the scan left it.
    Scanned(Result<usize, Fault>, Vec<Match>),
    /// A tally.
    Tallied(Result<u32, Fault>),
}

/// Makes one call. A refusal is a reply as well, and alters nothing.
pub fn serve<F: Finder>(intake: &mut Intake<F>, call: Call<'_>) -> Reply
    ensures book { intake.new.book ≡ intake.old.book }
    ensures outside { Outside result }
    ensures served { ServesCall intake.old (asks call.entry) (tell result) intake.new }
{
    match call {
        Call::Scan { text, mut hits } => {
            let answer = intake.scan(text, hits.as_mut_slice());
            Reply::Scanned(answer, hits)
        }
        Call::Tally(id) => Reply::Tallied(intake.tally(id)),
    }
}

/// What a batch of calls leaves: the intake, and the reply to each call in turn.
#[derive(Debug, Drop)]
pub struct Run<F: Finder> {
    pub intake: Intake<F>,
    pub replies: Vec<Reply>,
}

/// Makes an intake of a searcher, and then each call of a batch in turn. It cannot fail.
pub fn make_and_serve<F: Finder>(finder: F, batch: Batch<'_>) -> Run<F>
    ensures book { result.intake.book ≡ F.book finder }
    ensures list { vec_capacity result.replies ≡ room_of batch.entry }
    ensures each { vec_len result.replies ≡ length (calls_of batch.entry) }
    ensures outside { All Outside result.replies.items }
    ensures served { Served (following (made_over (F.book finder)) (pairs (map asks (calls_of batch.entry)) (map tell result.replies.items))) result.intake }
{
    let mut intake = Intake::new(finder);
    let replies = batch.serve_all(&mut intake);
    Run { intake, replies }
}
