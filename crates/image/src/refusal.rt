// The refusals of every call, in the order of their numbers.
ghost use Rattle.std.specs.Prelude.{◌≡◌};
ghost use Rattle.image.specs.Call.{number_of_refusal};

use std::fmt;

// Why a call is refused.
#[derive(Clone, Copy, Debug, PartialEq, Eq)]
pub enum Refusal {
    // A side is 0.
    EmptyDimensions = 1,
    // A side exceeds `Gray8View::MAX_SIDE`.
    DimensionsTooLarge,
    // The stride is below the width.
    StrideTooSmall,
    // The slice is shorter than its layout.
    BufferTooSmall,
    // The destination's own layout has one of these four.
    InvalidDestination,
    // The destination has not the sides that it must have.
    DimensionMismatch,
    // The length of the blur is out of range, or the angle has no direction.
    InvalidLine,
    // The factor is out of range, or there is no iteration.
    InvalidStrength,
    TooManyIterations,
    // What is lent is too short: scratch, records, or a place for the answer.
    LentTooSmall,
    // The picture does not show how long its smear is.
    NoLength,
    // The smear is too long for the picture.
    LengthTooLarge,
    // No record, or one that is no job.
    InvalidRecord,
    // No header of a P5.
    InvalidHeader,
    // A maximum other than 255.
    UnsupportedMaximum,
    // Fewer or more pixel bytes than pixels.
    PixelCountMismatch,
    // The direction is less clear than was asked.
    LowConfidence,
    // More halvings than there may be, or one of a side below 2.
    CannotHalve,
}

impl Refusal {
    // The refusal's number, by which C and the records know it.
    pub fn number(self) -> u8
        ensures { result ≡ number_of_refusal self }
    {
        self as u8
    }
}

impl fmt::Display for Refusal {
    fn fmt<W: fmt::Write>(&self, f: &mut fmt::Formatter<W>) -> fmt::Result {
        write!(f, "refused {}", self.number())
    }
}
