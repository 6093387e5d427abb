// Half-size pictures: each pixel the mean of two by two, once or as many times as stated.
#![tactic(auto)]

ghost use Rattle.image.specs.View.{seen, lent};
ghost use Rattle.resize.specs.Call.{BoxHalved, Halved};

use image::{Gray8View, Gray8ViewMut, Refusal};

mod half;
mod refusal;
mod times;

pub use refusal::MAX_HALVINGS;

// Halve src into dst, once. Refusals 1 to 4, 18 for a side below 2, then 5 and 6; dst has half of each side, floored.
#[tactic(auto, using(crate::proofs::Refusals::halving_one))]
pub fn box_downscale_half<'a, 'b>(src: Gray8View<'a>, dst: Gray8ViewMut<'b>) -> Result<(), Refusal>
    ensures { BoxHalved (seen src.entry) (lent dst.entry) dst.exit.0.now result }
{
    refusal::check_halving(src.layout(), dst.layout(), 1)?;
    let Gray8ViewMut { data, stride, .. } = dst;
    half::half_rows(src, data, stride);
    Ok(())
}

// Halve src into dst as often as stated; a count of 0 copies. Refusals 1 to 4, 18 for more than 10 halvings or one
// that would start from a side below 2, then 5 and 6; 10 for a scratch shorter than width × height.
#[tactic(auto, unfolding(crate::specs::Call::halve_refusal))]
pub fn halve<'a, 'b>(
    src: Gray8View<'a>,
    dst: Gray8ViewMut<'b>,
    count: usize,
    scratch: &mut [u8],
) -> Result<(), Refusal>
    ensures { Halved count (seen src.entry) (lent dst.entry) dst.exit.0.now scratch.old scratch.new result }
{
    refusal::check_halving(src.layout(), dst.layout(), count)?;
    if scratch.len() < src.width * src.height {
        return Err(Refusal::LentTooSmall);
    }
    let Gray8ViewMut { data, stride, .. } = dst;
    times::halve_times(src, data, stride, count, scratch);
    Ok(())
}
