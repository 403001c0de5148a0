//! The bits that are set in a number, one after another.

ghost use Rattle.std.specs.Prelude.{◌≡◌, MatchOption};
ghost use Rattle.teddy.specs.Bits.{Taken};

/// Clears the lowest bit that is set, and answers which it was; `None` for 0, which stays. The number falls.
#[tactic(auto, using(crate::proofs::Clears::taken))]
pub fn take_lowest(rest: &mut u64) -> Option<usize>
    ensures { MatchOption result ((rest.old ≡ 0) × (rest.new ≡ 0)) (λ bit. Taken rest.old bit rest.new) }
{
    if *rest == 0 {
        return None;
    }
    let bit = rest.trailing_zeros() as usize;
    *rest &= *rest - 1;
    Some(bit)
}
