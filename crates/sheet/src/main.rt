// The program: the round sheet over the records that stand back to back on standard input. It prints a line of five
// numbers a direction (count, total, largest, mean, remainder) and the number of binomials; for a file that has a
// fault, `refused 13` and the index of the first. All but the reading and printing is `summary`.
#![tactic(auto)]

use reading::read_full;
use std::io;
use std::io::Read;
use summary::kernel::Tally;
use summary::{FaultyRecord, RecordSummary};

// A line a write: an output that takes only some has whole lines.
fn print_sheet(rt: &impl Print, sheet: RecordSummary) -> io::Result<()> {
    println!(rt; "{}", sheet.horizontal)?;
    println!(rt; "{}", sheet.down_right)?;
    println!(rt; "{}", sheet.vertical)?;
    println!(rt; "{}", sheet.down_left)?;
    println!(rt; "{}", sheet.binomials)
}

// The tally of the input, 2,048 records at a time. A failed read counts as its end. On the stack: 65,536 bytes.
fn tally_input<R: Read>(input: &mut R) -> Result<Tally, FaultyRecord> {
    let mut bytes = [0u8; 65536];
    let mut tally = Tally::empty();
    // A loop: an input does not say how long it is.
    loop {
        let n = read_full(input, &mut bytes);
        if n == 0 {
            return Ok(tally);
        }
        tally = tally.add_all(&bytes[..n])?;
    }
}

fn main(rt: HostRuntime) -> io::Result<()> {
    match tally_input(&mut rt.stdin()) {
        Ok(tally) => print_sheet(&rt, tally.sheet()),
        Err(fault) => println!(&rt; "{fault}"),
    }
}
