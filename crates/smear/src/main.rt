// The program: `job.rec` and `picture.raw` of the folder that it is run in, and what they give to standard output. All
// but the reading and writing is `smear_run::run`.
#![tactic(auto)]

ghost use Rattle.std.specs.Prelude.{◌≡◌, ◌≤◌, length, take};

use reading::read_full;
use smear_run::{MOST_PIXELS, MOST_PRINTED};
use std::fs::File;
use std::io;
use std::io::Write;
use std::rt::Files;

// As much of the file as the slice holds, and how much that is. A file that is missing counts as empty, and so does a
// folder, of which nothing can be read.
fn read_file<R: Files>(rt: &R, path: &str, bytes: &mut [u8]) -> usize
    ensures within { result ≤ length bytes.new }
    ensures front { result ≡ length (take result bytes.new) }
{
    match File::open(rt, path) {
        Ok(mut file) => read_full(&mut file, bytes),
        Err(_) => 0,
    }
}

// A record has 32 bytes, so that 33 tell a longer file; a picture that is not too large has at most `MOST_PIXELS`. On
// the stack: 8,257 bytes here, and what `smear_run::run` owns. Where standard output takes nothing, the program ends
// as where it does.
fn main(rt: HostRuntime) {
    let mut job = [0u8; 33];
    let mut picture = [0u8; MOST_PIXELS];
    let mut out = [0u8; MOST_PRINTED];
    let job_len = read_file(&rt, "job.rec", &mut job);
    let picture_len = read_file(&rt, "picture.raw", &mut picture);
    let answer = smear_run::run(&job[..job_len], &picture[..picture_len], &mut out);
    // Never refused: MOST_PRINTED is room for all that is printed (smear_run/proofs/Most).
    if let Ok(n) = answer {
        let _ = io::writer(&rt).write_all(&out[..n]);
    }
}
