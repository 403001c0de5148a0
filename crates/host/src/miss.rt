ghost use Rattle.std.specs.Prelude.{◌≡◌, ◌<◌};
ghost use Rattle.host.specs.declared.miss.Miss.TheVariants.{Refused};
ghost use Rattle.rules.specs.declared.fault.Refusal.TheVariants.{Memory};
ghost use Rattle.host.specs.Misses.{number_of};

use rules::{Fault, Refusal};
use std::alloc::AllocError;

/// What is answered where the text has no hit.
pub const NO_HIT: u32 = 100;

/// What is answered for another searcher number, or a buffer of another length than `ANSWER_BYTES`.
pub const MISCALLED: u32 = 101;

/// What is answered where the job has no text.
pub const NO_TEXT: u32 = 102;

/// What is answered for want of memory.
pub const NO_MEMORY: u32 = 103;

/// Why a call writes no hit.
#[derive(Clone, Copy, Debug, PartialEq, Eq)]
pub(crate) enum Miss {
    /// There is no searcher with that number, or the buffer has another length.
    Miscalled,
    /// The job was refused, or there is no memory.
    Refused(Refusal),
    /// The job has no text.
    NoText,
    /// The text has no hit.
    NoHit,
}

impl Miss {
    /// The number that a host is answered.
    pub(crate) fn number(self) -> u32
        ensures value { result ≡ number_of self }
        ensures positive { 0 < result }
    {
        match self {
            Miss::Miscalled => MISCALLED,
            Miss::Refused(Refusal::Memory) => NO_MEMORY,
            Miss::Refused(refusal) => u32::from(refusal.number()),
            Miss::NoText => NO_TEXT,
            Miss::NoHit => NO_HIT,
        }
    }
}

impl From<Fault> for Miss {
    ghost from_gives = { λ f r. r ≡ Refused f.refusal };

    fn from(fault: Fault) -> Miss {
        Miss::Refused(fault.refusal)
    }
}

impl From<AllocError> for Miss {
    ghost from_gives = { λ _ r. r ≡ Refused Memory };

    fn from(_e: AllocError) -> Miss {
        Miss::Refused(Refusal::Memory)
    }
}
