// The C interface (include/smear.h), a module for each subject. A slice is a pointer and its length; an answer goes to
// out-parameters, which a refusal leaves unchanged; the result is 0 or the number of the refusal.
#![tactic(auto)]

ghost use Rattle.std.specs.Prelude.{◌≡◌};
ghost use Rattle.image.specs.Call.{told, number_of};

use image::Refusal;

pub mod direction;
pub mod length;
pub mod pictures;
pub mod program;
pub mod resizing;
pub mod restoration;
pub mod sharpening;
pub mod sheet;
pub mod whole_job;

// 0, or the refusal's number.
fn number_of<T: Drop>(answer: Result<T, Refusal>) -> u8
    ensures { result ≡ number_of (told answer) }
{
    match answer {
        Ok(_) => 0,
        Err(refusal) => refusal.number(),
    }
}
