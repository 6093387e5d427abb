// The texts that the program prints, at the front of a slice; 10 where it has no room for them.
ghost use Rattle.image.specs.Call.{number_of_refusal};
ghost use Rattle.smear_run.specs.Output.{refused_text, too_large};
ghost use Rattle.smear_run.specs.Parts.{Put};

use image::Refusal;

fn put_text(text: &[u8], out: &mut [u8]) -> Result<usize, Refusal>
    ensures { Put text.now out.old out.new result }
{
    if out.len() < text.len() {
        return Err(Refusal::LentTooSmall);
    }
    out[..text.len()].copy_from_slice(text);
    Ok(text.len())
}

pub(crate) fn put_too_large(out: &mut [u8]) -> Result<usize, Refusal>
    ensures { Put too_large out.old out.new result }
{
    put_text(b"too large\n", out)
}

// By hand: no contract says that printing into a buffer with room succeeds. The number has one digit or two.
pub(crate) fn put_refusal(refusal: Refusal, out: &mut [u8]) -> Result<usize, Refusal>
    ensures { Put (refused_text (number_of_refusal refusal)) out.old out.new result }
{
    let number = refusal.number();
    let low = b'0' + number % 10;
    if number < 10 {
        let mut text = *b"refused 0\n";
        text[8] = low;
        return put_text(&text, out);
    }
    let mut text = *b"refused 00\n";
    text[8] = b'0' + number / 10;
    text[9] = low;
    put_text(&text, out)
}
