// Noting a reading: a row for it, if its start had not met it. Whether it is new is asked of an index over the rows of its start, so that a reading
// costs the same however many there are; the index is never cleared.
ghost use Rattle.std.specs.Prelude.{◌≡◌, ℕ, ◌+◌, ◌-◌, ◌*◌, ◌≤◌, ◌<◌, length, take, drop, Some};
ghost use Rattle.syntax.specs.Limits.{spans_length, row_length};
ghost use Rattle.index.specs.Rows.{row_of};
ghost use Rattle.index.specs.Index.{words, Indexed};
ghost use Rattle.noting.specs.Noting.{Notes};

use index::{ROW_LENGTH, write_row};

// Writes a row for a reading that this start had not met; the rows of earlier starts come first. It tells how many rows there are now, or nothing where the
// reading is new and no row is left. The index of this start's rows stands in the work area from `half` on.
pub fn note(
    results: &mut [u32],
    work: &mut [u32],
    half: usize,
    heads: usize,
    spans: usize,
    earlier: usize,
    rows: usize,
    start: u32,
    stop: u32,
    registers: &[u32],
) -> Option<usize>
    requires earlier_le_rows { (earlier ≤ rows) × (rows * row_length ≤ length results.old) × (spans_length ≤ length «registers».now) }
    requires heads_nonzero { (0 < heads) × (heads ≤ words) × (spans ≤ spans_length) × (rows - earlier < words) × (half + (heads + (rows - earlier)) < length work.old) }
    requires indexed { Indexed results.old (drop half work.old) heads spans earlier rows }
    ensures notes { Notes results.old earlier rows (row_of start stop «registers».now) results.new result }
    ensures by_index { (n : ℕ) → result ≡ Some n → Indexed results.new (drop half work.new) heads spans earlier n }
    ensures work_unchanged { take half work.new ≡ take half work.old }
{
    let bucket = index::bucket(stop, registers, heads, spans);
    if index::find(
        results,
        &work[half..],
        heads,
        bucket,
        earlier,
        rows,
        start,
        stop,
        registers,
    ) {
        return Some(rows);
    }
    if results.len() / ROW_LENGTH <= rows {
        return None;
    }
    let base = rows * ROW_LENGTH;
    write_row(results, base, start, stop, registers);
    index::insert(&mut work[half..], heads, bucket, earlier, rows);
    Some(rows + 1)
}
