// The binomial unsharp through views, on a picture of 5 by 3 pixels that lies inside a text of 5 lines of 8 bytes. The
// pixels are letters, so the text can be printed; all that lies around the picture, the line feeds among it, stays.
#![tactic(auto)]

ghost use Rattle.image.specs.Call.{gray8};
ghost use Rattle.sharpen.specs.Call.{Sharpened};

use image::{Gray8View, Gray8ViewMut, Refusal};
use std::io;
use std::io::Write;

// From slices to views. Its contract says nothing of a view.
fn sharpen_in_views(
    src: &[u8],
    dst: &mut [u8],
    width: usize,
    height: usize,
    stride: usize,
    scratch: &mut [u16],
) -> Result<(), Refusal>
    ensures { Sharpened (gray8 src.now width height stride)
        (gray8 dst.old width height stride)
        dst.new scratch.old scratch.new result }
{
    let from = Gray8View::new(src, width, height, stride);
    let to = Gray8ViewMut::new(dst, width, height, stride);
    views::fixed_binomial_unsharp_into(from, to, scratch)
}

fn main(rt: HostRuntime) -> io::Result<()> {
    let text = *b"+-----+\n|KKKKK|\n|KKUKK|\n|KKKKK|\n+-----+\n";
    let mut out = *b".......\n.......\n.......\n.......\n.......\n";
    let mut scratch = [0u16; 15];
    let answer = sharpen_in_views(&text[9..], &mut out[9..], 5, 3, 8, &mut scratch);
    if let Err(refusal) = answer {
        println!(&rt; "{refusal}")?;
    }
    let mut to = io::writer(&rt);
    to.write_all(&text)?;
    to.write_all(&out)
}
