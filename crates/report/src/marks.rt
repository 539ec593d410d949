// The marks under a window of a line: one under each byte of a span.
ghost use Rattle.std.specs.Prelude.{◌≡◌, length};
ghost use Rattle.report.specs.Marks.{mark_under, marks, in_window};

use crate::WIDTH;

const BLANK: u8 = b' ';

// What stands under a column.
fn sign(mark: u8, from: u64, to: u64, column: u64) -> u8
    ensures { result ≡ mark_under mark from to column }
{
    if column < from {
        return BLANK;
    }
    if column < to { mark } else { BLANK }
}

// Marks a span under as many columns as `out` has room for, from one on.
pub fn mark(with: u8, from: u32, to: u32, column: u32, out: &mut [u8])
    ensures { out.new ≡ marks with from to column (length out.old) }
{
    for i in 0..out.len() {
        out[i] = sign(with, from as u64, to as u64, column as u64 + i as u64);
    }
}

// Whether a span has something to show in the window that begins at a column.
pub fn touches(from: u32, to: u32, column: u32) -> bool
    ensures { result ≡ in_window from to column }
{
    let end = column as u64 + WIDTH as u64;
    if from == to {
        if from < column {
            return false;
        }
        return from as u64 <= end;
    }
    if to <= column {
        return false;
    }
    (from as u64) < end
}
