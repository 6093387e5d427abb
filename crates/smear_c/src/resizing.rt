// Half-size pictures.
ghost use Rattle.image.specs.Call.{gray8};
ghost use Rattle.smear_c.specs.Resizing.{BoxHalvedC, HalvedC};

use crate::number_of;
use image::{Gray8View, Gray8ViewMut};

#[unsafe(no_mangle)]
pub extern "C" fn smear_box_downscale_half(
    src: &[u8],
    width: usize,
    height: usize,
    stride: usize,
    dst: &mut [u8],
    dst_width: usize,
    dst_height: usize,
    dst_stride: usize,
) -> u8
    ensures { BoxHalvedC (gray8 src.now width height stride)
        (gray8 dst.old dst_width dst_height dst_stride) dst.new result }
{
    let from = Gray8View::new(src, width, height, stride);
    let to = Gray8ViewMut::new(dst, dst_width, dst_height, dst_stride);
    number_of(resize::box_downscale_half(from, to))
}

#[unsafe(no_mangle)]
pub extern "C" fn smear_halve(
    src: &[u8],
    width: usize,
    height: usize,
    stride: usize,
    dst: &mut [u8],
    dst_width: usize,
    dst_height: usize,
    dst_stride: usize,
    count: usize,
    scratch: &mut [u8],
) -> u8
    ensures { HalvedC count (gray8 src.now width height stride)
        (gray8 dst.old dst_width dst_height dst_stride)
        dst.new scratch.old scratch.new result }
{
    let from = Gray8View::new(src, width, height, stride);
    let to = Gray8ViewMut::new(dst, dst_width, dst_height, dst_stride);
    number_of(resize::halve(from, to, count, scratch))
}
