// The program's work for C.
ghost use Rattle.smear_c.specs.Program.{RanC};

use crate::number_of;

#[unsafe(no_mangle)]
pub extern "C" fn smear_run(job: &[u8], picture: &[u8], out: &mut [u8], written: &mut usize) -> u8
    ensures { RanC job.now picture.now out.old out.new
        written.old written.new result }
{
    let answer = smear_run::run(job, picture, out);
    if let Ok(n) = answer {
        *written = n;
    }
    number_of(answer)
}
