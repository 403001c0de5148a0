ghost use Rattle.std.specs.Prelude.{MatchBool};
ghost use Rattle.rules.specs.Search.{Stands};
ghost use Rattle.rules.specs.Places.{Verified};

use pattern::Book;
use rules::{Match, PatternID};

/// Whether the bytes of a pattern stand in a text from a place on.
pub fn stands(pattern: &[u8], text: &[u8], start: usize) -> bool
    ensures { MatchBool result (Stands pattern.now text.now start) (Stands pattern.now text.now start → ⊥) }
{
    if start > text.len() || text.len() - start < pattern.len() {
        return false;
    }
    for (k, b) in pattern.iter().enumerate() {
        if text[start + k] != *b {
            return false;
        }
    }
    true
}

/// The match of a pattern at a place, if it occurs there. An id that the book lacks occurs nowhere.
pub fn verify(book: &Book, id: PatternID, text: &[u8], start: usize) -> Option<Match>
    ensures { Verified book.now id text.now start result }
{
    let pattern = book.get(id);
    // For an id that the book lacks the bytes are none, and an empty pattern stands at every place of the text: so the id is tested
    // too, behind the bytes, which at most places do not stand.
    let occurs = stands(pattern, text, start) && id.as_usize() < book.len();
    occurs.then(|| Match {
        pattern: id,
        start,
        end: start + pattern.len(),
    })
}
