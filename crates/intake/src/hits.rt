ghost use Rattle.std.specs.Prelude.{◌≡◌, ◌≤◌, ◌++◌, length, drop};
ghost use Rattle.std.specs.Iterator.{YieldsFirst, item_count};
ghost use Rattle.rules.specs.Listing.{rest, listing};

use finder::Finder;
use rules::Match;

/// The hits of a text from a place on: a search from there, then from each hit's end. A hit names its places in the whole text.
#[derive(Drop)]
pub(crate) struct Hits<'a, F: Finder> {
    finder: &'a F,
    text: &'a [u8],
    at: usize,
}

impl<'a, F: Finder> Hits<'a, F> {
    pub(crate) fn new(finder: &'a F, text: &'a [u8]) -> Hits<'a, F>
        ensures finder { result.finder.now ≡ finder.now }
        ensures text { result.text.now ≡ text.now }
        ensures at { result.at ≡ 0 }
    {
        Hits {
            finder,
            text,
            at: 0,
        }
    }
}

impl<F: Finder> Iterator for Hits<'_, F> {
    type Item = Match;

    ghost next_gives = { YieldsFirst (λ s. rest (F.book s.finder.now) s.text.now s.at) };

    ghost remaining = { item_count (λ s. rest (F.book s.finder.now) s.text.now s.at) };

    fn next(&mut self) -> Option<Match> {
        let m = self.finder.find(self.text, self.at)?;
        self.at = m.end;
        Some(m)
    }
}

/// How many hits a text has.
#[tactic(auto, using(crate::proofs::Scans::listing_short))]
pub(crate) fn count_hits<F: Finder>(finder: &F, text: &[u8]) -> usize
    ensures { result ≡ length (listing (F.book finder.now) text.now) }
{
    Hits::new(finder, text).count()
}

/// Writes the hits of a text to the front of a list that has room for them; its later entries stay.
pub(crate) fn write_hits<F: Finder>(finder: &F, text: &[u8], hits: &mut [Match])
    requires { length (listing (F.book finder.now) text.now) ≤ length hits.old }
    ensures { hits.new ≡ listing (F.book finder.now) text.now ++ drop (length (listing (F.book finder.now) text.now)) hits.old }
{
    for (n, m) in Hits::new(finder, text).enumerate() {
        hits[n] = m;
    }
}
