// The round sheet for C.
ghost use Rattle.std.specs.Prelude.{◌≡◌, ◌+◌, ◌≤◌, length};
ghost use Rattle.std.proofs.lemmas.List.Edits.{sets};
ghost use Rattle.smear_c.specs.Sheet.{sheet_length, direction_numbers, sheet_numbers, leaves, summarized_c};

use image::Refusal;
use summary::{DirectionSummary, RecordSummary, summarize};

// How many numbers a sheet has.
const NUMBERS: usize = 21;

// A direction's five numbers, from `at` on.
fn put_direction(direction: DirectionSummary, at: usize, sheet: &mut [u64])
    requires { at + 5 ≤ length sheet.old }
    ensures { sheet.new ≡ sets sheet.old at (direction_numbers direction) }
{
    sheet[at] = direction.count;
    sheet[at + 1] = direction.total;
    sheet[at + 2] = direction.largest;
    sheet[at + 3] = direction.mean;
    sheet[at + 4] = direction.remainder;
}

fn put_summary(summary: RecordSummary, sheet: &mut [u64])
    requires { sheet_length ≤ length sheet.old }
    ensures { sheet.new ≡ sets sheet.old 0 (sheet_numbers summary) }
{
    let horizontal = summary.horizontal;
    let down_right = summary.down_right;
    let vertical = summary.vertical;
    let down_left = summary.down_left;
    put_direction(horizontal, 0, sheet);
    put_direction(down_right, 5, sheet);
    put_direction(vertical, 10, sheet);
    put_direction(down_left, 15, sheet);
    sheet[20] = summary.binomials;
}

#[unsafe(no_mangle)]
pub extern "C" fn smear_summarize(records: &[u8], sheet: &mut [u64], index: &mut usize) -> u8
    ensures { leaves result sheet.new index.new
        ≡ summarized_c records.now sheet.old index.old }
{
    if sheet.len() < NUMBERS {
        return Refusal::LentTooSmall.number();
    }
    match summarize(records) {
        Ok(summary) => {
            put_summary(summary, sheet);
            0
        }
        Err(fault) => {
            *index = fault.index;
            fault.refusal().number()
        }
    }
}
