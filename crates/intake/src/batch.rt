ghost use Rattle.std.specs.Prelude.{◌≡◌, ◌≤◌, ◌↔◌, [], map, length, vec_len, vec_capacity, All, IsOk, IfOk, MatchResult};
ghost use Rattle.intake.specs.History.{Past, Served};
ghost use Rattle.intake.specs.Calls.{asks, tell, pairs, following, Outside};

use crate::calls::{Call, Reply, serve};
use crate::intake::Intake;
use finder::Finder;
use std::alloc::Global;

/// Calls that are to be made in turn, and a list with room for the reply to each: so that making them needs no memory.
#[derive(Debug, Drop)]
pub struct Batch<'a> {
    calls: Vec<Call<'a>>,
    replies: Vec<Reply>,
    ghost blank: { replies.items ≡ [] },
    ghost room: { vec_len calls ≤ vec_capacity replies },
}

impl<'a> Batch<'a> {
    ghost use Rattle.intake.specs.Batches.{calls_of, room_of};

    /// A batch of calls, with a new list for their replies. Where there is no memory for that list the calls are given back;
    /// without calls it needs none.
    pub fn new(alloc: Global, calls: Vec<Call<'a>>) -> Result<Batch<'a>, Vec<Call<'a>>>
        ensures calls { MatchResult result (λ batch. calls_of batch ≡ calls.entry.items) (λ back. back ≡ calls.entry) }
        ensures no_calls { vec_len calls.entry ≡ 0 → IsOk result }
    {
        let Ok(replies) = Vec::with_capacity(alloc, calls.len()) else {
            return Err(calls);
        };
        Ok(Batch { calls, replies })
    }

    /// A batch of calls, with a list for their replies that is handed in. That list must be empty and have room for a reply to
    /// each call; else both are given back as they were.
    pub fn over(
        calls: Vec<Call<'a>>,
        replies: Vec<Reply>,
    ) -> Result<Batch<'a>, (Vec<Call<'a>>, Vec<Reply>)>
        ensures room { IsOk result ↔ ((replies.items ≡ []) × (vec_len calls.entry ≤ vec_capacity replies)) }
        ensures calls { MatchResult result (λ batch. calls_of batch ≡ calls.entry.items) (λ back. (back.0 ≡ calls.entry) × (back.1 ≡ replies)) }
        ensures list { IfOk result (λ batch. room_of batch ≡ vec_capacity replies) }
    {
        if !replies.is_empty() || calls.len() > replies.capacity() {
            return Err((calls, replies));
        }
        Ok(Batch { calls, replies })
    }

    /// Makes each call in turn, and answers the reply to each, in the list that the batch has for them, which keeps its room. It
    /// cannot fail: a refusal is a reply as well.
    pub fn serve_all<F: Finder>(self, intake: &mut Intake<F>) -> Vec<Reply>
        ensures book { intake.new.book ≡ intake.old.book }
        ensures list { vec_capacity result ≡ room_of self.entry }
        ensures each { vec_len result ≡ length (calls_of self.entry) }
        ensures outside { All Outside result.items }
        ensures served { (p : Past) → Served p intake.old → Served (following p (pairs (map asks (calls_of self.entry)) (map tell result.items))) intake.new }
    {
        let Batch { calls, mut replies } = self;
        let mut left = calls.into_iter();
        // A `for` may drop what it has not come to. Here each call is made, and none is dropped.
        while let Some(call) = left.next() {
            replies.push_reserved(serve(intake, call));
        }
        left.destroy_empty();
        replies
    }
}
