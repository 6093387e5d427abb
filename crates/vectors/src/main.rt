// Replays the Rust's answers: each case of the file `rust.vec` through the stage's own calls. `oracle/vectors` makes
// the file from the Rust original. Prints each case that fails, and last how many passed and failed.
#![tactic(auto)]

use crate::calls::{agrees, call};
use crate::case::{Case, case_in, destination_in, size_at, source_in};
use reading::read_full;
use std::fs::File;
use std::io::Read;
use std::{fmt, io};

mod calls;
mod case;
mod lengths;

// Whether the call answers and writes what the case has.
fn holds(c: Case, source: &[u8], expected: &[u8], destination: &mut [u8]) -> bool {
    let answer = call(c, source, destination);
    agrees(answer, c) & (*destination == *expected)
}

// Replays one case. Its destination, which is never larger than this one, holds 165 before the call.
fn passes(bytes: &[u8]) -> bool {
    let c = case_in(bytes);
    let expected = destination_in(bytes, c);
    let mut destination = [165u8; 512];
    match destination.get_mut(..expected.len()) {
        Some(front) => holds(c, source_in(bytes, c), expected, front),
        None => false,
    }
}

// How many passed and failed.
#[derive(Clone, Copy, Debug, PartialEq, Eq)]
struct Tally {
    passed: u64,
    failed: u64,
}

impl fmt::Display for Tally {
    fn fmt<W: fmt::Write>(&self, f: &mut fmt::Formatter<W>) -> fmt::Result {
        write!(f, "{} passed, {} failed", self.passed, self.failed)
    }
}

// Prints where a case starts that fails.
fn print_failed(rt: &impl Print, at: usize, why: &str) -> io::Result<()> {
    println!(rt; "the case at byte {at} {why}")
}

// Replays the cases one after the other. One that the list's end cuts off has failed.
fn replay(rt: &impl Print, list: &[u8]) -> io::Result<Tally> {
    let mut tally = Tally {
        passed: 0,
        failed: 0,
    };
    let mut at: usize = 0;
    // A while: each case says how long it is.
    while at < list.len() {
        let rest = &list[at..];
        let size = size_at(rest);
        if rest.len() < size {
            print_failed(rt, at, "is cut off")?;
            tally.failed += 1;
            return Ok(tally);
        }
        if passes(&rest[..size]) {
            tally.passed += 1;
        } else {
            print_failed(rt, at, "fails")?;
            tally.failed += 1;
        }
        at += size;
    }
    Ok(tally)
}

// Replays an open file, which has at most 65,535 bytes.
fn replay_file<R: Read>(rt: &impl Print, file: &mut R) -> io::Result<Tally> {
    let mut list = [0u8; 65536];
    let n = read_full(file, &mut list);
    if n == list.len() {
        println!(rt; "the list is too long")?;
        return Ok(Tally {
            passed: 0,
            failed: 1,
        });
    }
    replay(rt, &list[..n])
}

fn main(rt: HostRuntime) -> io::Result<()> {
    let mut file = File::open(&rt, "rust.vec")?;
    let tally = replay_file(&rt, &mut file)?;
    println!(&rt; "{tally}")
}
