// The binomial unsharp.
ghost use Rattle.image.specs.Call.{gray8};
ghost use Rattle.smear_c.specs.Sharpening.{SharpenedC};

use crate::number_of;
use image::{Gray8View, Gray8ViewMut};

#[unsafe(no_mangle)]
pub extern "C" fn smear_fixed_binomial_unsharp(
    src: &[u8],
    width: usize,
    height: usize,
    stride: usize,
    dst: &mut [u8],
    dst_width: usize,
    dst_height: usize,
    dst_stride: usize,
    scratch: &mut [u16],
) -> u8
    ensures { SharpenedC (gray8 src.now width height stride)
        (gray8 dst.old dst_width dst_height dst_stride)
        dst.new scratch.old scratch.new result }
{
    let from = Gray8View::new(src, width, height, stride);
    let to = Gray8ViewMut::new(dst, dst_width, dst_height, dst_stride);
    number_of(sharpen::fixed_binomial_unsharp_into(from, to, scratch))
}
