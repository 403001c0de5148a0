ghost use Rattle.std.specs.Prelude.{◌≡◌, true};
ghost use Rattle.teddy.specs.Rules.{BucketsStand, MasksStand};
ghost use Rattle.teddy.specs.Examples.{Lines};

/// The buckets and the masks follow their rules, for every book and every order of its ids. It answers `true`.
#[tactic(auto, using(crate::proofs::Standing::buckets_stand, crate::proofs::Standing::masks_stand))]
pub fn tables_hold() -> bool
    ensures buckets { BucketsStand }
    ensures masks { MasksStand }
    ensures value { result ≡ true }
{
    true
}

/// The eleven worked examples of a search, of the rolling hash and of the lanes hold of the definitions. It answers `true`.
#[tactic(auto, using(crate::proofs::Examples::lines))]
pub fn lines_hold() -> bool
    ensures lines { Lines }
    ensures value { result ≡ true }
{
    true
}
