// How a picture lies in a slice, and what a call refuses of that: numbers 1 to 6.
ghost use Rattle.std.specs.Prelude.{◌<◌, IfOk};
ghost use Rattle.image.specs.Call.{Checks};
ghost use Rattle.image.specs.Refusal.{sides_refusal, layout_refusal, sized_refusal, pair_refusal};
ghost use Rattle.image.specs.Refusal.{Laid, LaidAt, LaidPair};

use crate::{Gray8View, Refusal};

// A picture in a slice of `len` bytes: rows of `width` pixels, each `stride` bytes behind the one before.
#[derive(Clone, Copy, Debug, PartialEq, Eq)]
pub struct Layout {
    pub len: usize,
    pub width: usize,
    pub height: usize,
    pub stride: usize,
}

// Refusals 1 and 2 of a picture's sides.
#[tactic(auto, unfolding(crate::specs::Refusal::sides_refusal))]
pub fn check_sides(width: usize, height: usize) -> Result<(), Refusal>
    ensures number { Checks (sides_refusal width height) result }
    ensures some { IfOk result (λ _. (0 < width) × (0 < height)) }
{
    if width == 0 || height == 0 {
        return Err(Refusal::EmptyDimensions);
    }
    if width > Gray8View::MAX_SIDE || height > Gray8View::MAX_SIDE {
        return Err(Refusal::DimensionsTooLarge);
    }
    Ok(())
}

impl Layout {
    // Refusals 1 to 4.
    pub fn check(self) -> Result<(), Refusal>
        ensures number { Checks (layout_refusal self.len self.width self.height self.stride) result }
        ensures laid { IfOk result (λ _. Laid self.len self.width self.height self.stride) }
    {
        check_sides(self.width, self.height)?;
        if self.stride < self.width {
            return Err(Refusal::StrideTooSmall);
        }
        // A quotient, since stride * (height - 1) could wrap.
        if self.len < self.width || (self.len - self.width) / self.stride < self.height - 1 {
            return Err(Refusal::BufferTooSmall);
        }
        Ok(())
    }

    // Refusals 5 and 6 of a destination: its layout, and sides that are not the ones asked for.
    #[tactic(auto, unfolding(crate::specs::Refusal::sized_refusal, crate::specs::Refusal::destination_refusal, crate::specs::Refusal::sizes_refusal))]
    pub fn check_destination(self, width: usize, height: usize) -> Result<(), Refusal>
        ensures number { Checks (sized_refusal self.len self.width self.height self.stride width height) result }
        ensures laid { IfOk result (λ _. LaidAt self.len self.width self.height self.stride width height) }
    {
        if self.check().is_err() {
            return Err(Refusal::InvalidDestination);
        }
        if self.width != width || self.height != height {
            return Err(Refusal::DimensionMismatch);
        }
        Ok(())
    }

    // Refusals 1 to 6 of a source and a destination of its size.
    #[tactic(auto, unfolding(crate::specs::Refusal::pair_refusal))]
    pub fn check_pair(self, dst: Layout) -> Result<(), Refusal>
        ensures number { Checks (pair_refusal self.len self.width self.height self.stride
            dst.len dst.width dst.height dst.stride) result }
        ensures laid { IfOk result (λ _. LaidPair self.len self.width self.height self.stride
            dst.len dst.width dst.height dst.stride) }
    {
        self.check()?;
        dst.check_destination(self.width, self.height)
    }
}
