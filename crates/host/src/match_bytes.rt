ghost use Rattle.std.specs.Prelude.{◌≡◌, flat_map};
ghost use Rattle.host.specs.MatchBytes.{low, match_bytes};

use rules::Match;

/// How many bytes a buffer for a hit has.
pub const ANSWER_BYTES: usize = 12;

/// An id, a start and an end, four bytes each, low byte first.
pub(crate) fn match_bytes(hit: Match) -> [[u8; 4]; 3]
    ensures { flat_map (λ x. x) result ≡ match_bytes hit }
{
    [hit.pattern.as_usize(), hit.start, hit.end].map(low)
}

/// The low four bytes of a number, low byte first.
fn low(n: usize) -> [u8; 4]
    ensures { result ≡ low n }
{
    let [a, b, c, d, ..] = n.to_le_bytes();
    [a, b, c, d]
}
