// What a number of halvings refuses, before its scratch.
ghost use Rattle.std.specs.Prelude.{◌≡◌, IfOk};
ghost use Rattle.image.specs.Call.{Checks};
ghost use Rattle.resize.specs.Halving.{side_after};
ghost use Rattle.resize.specs.Call.{count_refusal, left_refusal, halving_refusal};
ghost use Rattle.resize.specs.Conditions.{Resizes};

use image::{Layout, Refusal};

pub const MAX_HALVINGS: usize = 10;

// A side after some halvings.
fn side_after(side: usize, count: usize) -> usize
    ensures { result ≡ side_after count side }
{
    let mut now = side;
    for _ in 0..count {
        now /= 2;
    }
    now
}

// 18, by what the halvings leave of the sides: one starts from a side below 2 exactly where nothing is left of it.
#[tactic(auto, unfolding(crate::specs::Call::left_refusal))]
fn check_left(width: usize, height: usize) -> Result<(), Refusal>
    ensures { Checks (left_refusal width height) result }
{
    if width == 0 || height == 0 {
        return Err(Refusal::CannotHalve);
    }
    Ok(())
}

// 1 to 4 of the source, 18, then 5 and 6 of the destination.
#[tactic(auto, unfolding(crate::specs::Call::halving_refusal))]
pub(crate) fn check_halving(src: Layout, dst: Layout, count: usize) -> Result<(), Refusal>
    ensures number { Checks (halving_refusal src.len src.width src.height src.stride
        dst.len dst.width dst.height dst.stride count) result }
    ensures laid { IfOk result (λ _. Resizes src.len src.width src.height src.stride
        dst.len dst.width dst.height dst.stride (count_refusal count src.width src.height)
        (side_after count src.width) (side_after count src.height)) }
{
    src.check()?;
    if count > MAX_HALVINGS {
        return Err(Refusal::CannotHalve);
    }
    let width = side_after(src.width, count);
    let height = side_after(src.height, count);
    check_left(width, height)?;
    dst.check_destination(width, height)
}
