ghost use Rattle.std.specs.Prelude.{◌≡◌, true};
ghost use Rattle.job.specs.Written.{ReadsBack, ReadsAll};
ghost use Rattle.job.specs.Opens.{OpensSo, TooLong};

/// A job that is records in a row, and then nothing or a record that is refused, reads as just that; and every run of bytes is such
/// a job. It answers `true`.
#[tactic(auto, using(crate::proofs::Written::reads_back, crate::proofs::Converse::reads_all))]
pub fn jobs_read_back() -> bool
    ensures back { ReadsBack }
    ensures all { ReadsAll }
    ensures value { result ≡ true }
{
    true
}

/// Which book such a job opens to, and which fault comes of it instead. It answers `true`.
#[tactic(auto, using(crate::proofs::Books::opens_so, crate::proofs::Books::too_long))]
pub fn jobs_open() -> bool
    ensures opens { OpensSo }
    ensures long { TooLong }
    ensures value { result ≡ true }
{
    true
}
