ghost use Rattle.std.specs.Prelude.{◌≡◌, Some};
ghost use Rattle.rules.specs.declared.fault.Refusal.TheVariants.{Memory};
ghost use Rattle.rules.specs.Refusals.{number, layer, fault_line};
ghost use Rattle.rules.specs.Faults.{refused};

use std::alloc::{AllocError, AllocFailed};
use std::error::Error;
use std::fmt;

/// Why a call was refused. The discriminants are the numbers that are reported.
#[derive(Clone, Copy, Debug, PartialEq, Eq, Hash)]
pub enum Refusal {
    /// The pattern has no bytes.
    EmptyPattern = 1,
    /// 1,024 patterns are in.
    TooManyPatterns,
    /// The patterns would have more than 16,384 bytes together.
    TooManyBytes,
    /// The book has no patterns.
    NoPatterns,
    /// The mask count is 0, above 4, or above the shortest length.
    BadMaskCount,
    /// The text is above 65,536 bytes.
    TextTooLong,
    /// 65,535 texts were accepted.
    TooManyTexts,
    /// The list of hits is shorter than the text's listing.
    HitsTooShort,
    /// The book lacks the id.
    UnknownPattern,
    /// The job is above 65,536 bytes.
    JobTooLong,
    /// The first four bytes of a record, or the bytes that it announces, are not all there.
    Truncated,
    /// The mark of a record is none of the four.
    UnknownMark,
    /// A kind record has a length other than 0.
    KindLength,
    /// A pattern or kind record comes after a text.
    AfterText,
    /// There is no memory.
    Memory = 0,
}

impl Refusal {
    /// The number by which a refusal is reported.
    pub fn number(self) -> u8
        ensures { result ≡ number self }
    {
        self as u8
    }

    /// The layer that refused: 1 the book, 2 the intake, 3 the job, 0 the memory.
    pub fn layer(self) -> u8
        ensures { result ≡ layer self }
    {
        match self {
            Refusal::Memory => 0,
            Refusal::EmptyPattern
            | Refusal::TooManyPatterns
            | Refusal::TooManyBytes
            | Refusal::NoPatterns
            | Refusal::BadMaskCount => 1,
            Refusal::TextTooLong
            | Refusal::TooManyTexts
            | Refusal::HitsTooShort
            | Refusal::UnknownPattern => 2,
            _ => 3,
        }
    }

    /// The refusal at a place of a job, or at 0 outside one.
    pub fn at(self, place: usize) -> Fault
        ensures { result ≡ refused place self }
    {
        Fault {
            refusal: self,
            place,
        }
    }
}

/// A refusal with the place in the job at which it came; outside a job the place is 0.
#[derive(Clone, Copy, Debug, PartialEq, Eq, Hash)]
pub struct Fault {
    pub refusal: Refusal,
    pub place: usize,
}

impl Error for Fault {}

// Two impls with one body, since `?` meets both errors.
impl From<AllocError> for Fault {
    ghost from_gives = { λ _ r. r ≡ refused 0 Memory };

    fn from(_e: AllocError) -> Fault {
        Refusal::Memory.at(0)
    }
}

impl<T: Drop> From<AllocFailed<T>> for Fault {
    ghost from_gives = { λ _ r. r ≡ refused 0 Memory };

    fn from(_e: AllocFailed<T>) -> Fault {
        Refusal::Memory.at(0)
    }
}

impl fmt::Display for Fault {
    ghost output = { λ f. Some (fault_line f) };

    fn fmt<W: fmt::Write>(&self, f: &mut fmt::Formatter<W>) -> fmt::Result {
        let number = self.refusal.number();
        let place = self.place;
        let layer = self.refusal.layer();
        write!(f, "fault {number} {place} {layer}")
    }
}
