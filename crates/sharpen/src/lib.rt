// The binomial unsharp: 2 × pixel − blur, with weights 1 4 6 4 1 both ways.
#![tactic(auto)]

ghost use Rattle.image.specs.View.{seen, lent};
ghost use Rattle.sharpen.specs.Call.{Sharpened};

use image::{Gray8View, Gray8ViewMut, Refusal};
use kernel::Blurred;

mod kernel;

// Apply the mask to src, into dst. Refusals 1 to 6, and 10 for a scratch shorter than width × height.
#[tactic(auto, unfolding(crate::specs::Call::binomial_refusal))]
pub fn fixed_binomial_unsharp_into<'a, 'b>(
    src: Gray8View<'a>,
    dst: Gray8ViewMut<'b>,
    scratch: &mut [u16],
) -> Result<(), Refusal>
    ensures { Sharpened (seen src.entry) (lent dst.entry) dst.exit.0.now scratch.old scratch.new result }
{
    src.layout().check_pair(dst.layout())?;
    if scratch.len() < src.width * src.height {
        return Err(Refusal::LentTooSmall);
    }
    let blurred = Blurred::new(src, scratch);
    let Gray8ViewMut { data, stride, .. } = dst;
    blurred.sharpen(data, stride);
    Ok(())
}
