//! The rolling hash.

ghost use Rattle.std.specs.Prelude.{◌≡◌, ◌+◌, ◌*◌, ◌%◌, ◌^◌, true};
ghost use Rattle.rabinkarp.specs.Hash.{hash_of, leading, moved, Rolling};

/// The hash of some bytes and one more behind them.
fn push(hash: usize, byte: u8) -> usize
    ensures { result ≡ (hash * 2 + byte) % 2 ^ 64 }
{
    hash.wrapping_shl(1).wrapping_add(usize::from(byte))
}

/// The hash of some bytes.
#[tactic(auto, using(crate::proofs::Windows::hashed))]
pub fn hash(bytes: &[u8]) -> usize
    ensures { result ≡ hash_of bytes.now }
{
    bytes.iter().fold(0, |hash, b| push(hash, *b))
}

/// By how much the first of `len` bytes counts in their hash. There is no loop, since `len` may be 2^64 - 1, the shortest
/// length of a book without patterns.
#[tactic(auto, using(crate::proofs::Windows::leading_far))]
pub fn hash_2pow(len: usize) -> usize
    ensures { result ≡ leading len }
{
    match len {
        0 => 1,
        1..=64 => 1 << (len - 1),
        _ => 0,
    }
}

/// The hash of the window one byte further on: without its first byte `old`, and with the byte `new` behind it.
pub fn update_hash(prev: usize, hash_2pow: usize, old: u8, new: u8) -> usize
    ensures { result ≡ moved prev hash_2pow old new }
{
    push(
        prev.wrapping_sub(usize::from(old).wrapping_mul(hash_2pow)),
        new,
    )
}

/// Whether moving on from the hash of the `len` bytes at a place of a text gives the hash of those one byte further on; also
/// where there are no such bytes. It answers `true`: for every text and every length, above 64 too, it does.
#[tactic(auto, using(crate::proofs::Windows::rolling, crate::proofs::Windows::rolls_slices))]
pub fn hash_rolls(text: &[u8], at: usize, len: usize) -> bool
    ensures rolls { Rolling }
    ensures value { result ≡ true }
{
    if len == 0 || text.len() <= len || text.len() - len <= at {
        return true;
    }
    let window = &text[at..at + len];
    let next = &text[at + 1..at + 1 + len];
    update_hash(hash(window), hash_2pow(len), text[at], text[at + len]) == hash(next)
}
