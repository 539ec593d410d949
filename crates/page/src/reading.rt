// The readings of a line, one under the other.
ghost use Rattle.std.specs.Prelude.{◌≤◌, length};

use crate::colours::put_line;
use crate::fields::put_fields;
use office::{ROOM, put, put_number};
use syntax::{NAME_INDEX_NEED, ROW_LENGTH};

// How many readings of a line are shown.
const MOST: usize = 20;

// A reading: the line in its colours, and its fields.
fn put_reading(
    rt: &HostRuntime,
    out: &mut [u8; ROOM],
    at: usize,
    number: usize,
    names: &[u8; NAME_INDEX_NEED],
    line: &[u8],
    row: &[u32],
) -> usize
    requires { length line.now ≤ 65536 }
{
    let p = put_number(rt, out, at, b"<h4>Reading ", number as u64, b"</h4>\n");
    let q = put_line(rt, out, p, row, line);
    put_fields(rt, out, q, names, line, row)
}

// The readings of rows, up to as many as are shown.
pub fn put_readings(
    rt: &HostRuntime,
    out: &mut [u8; ROOM],
    at: usize,
    names: &[u8; NAME_INDEX_NEED],
    line: &[u8],
    rows: &[u32],
) -> usize
    requires { length line.now ≤ 65536 }
{
    let mut p = at;
    for (number, row) in (1..=MOST).zip(rows.chunks_exact(ROW_LENGTH)) {
        p = put_reading(rt, out, p, number, names, line, row);
    }
    let left = (rows.len() / ROW_LENGTH).saturating_sub(MOST);
    if left == 0 {
        return p;
    }
    put_number(
        rt,
        out,
        p,
        b"<p>Readings that are not shown here: ",
        left as u64,
        b"</p>\n",
    )
}

// A line with no reading.
pub fn put_plain(rt: &HostRuntime, out: &mut [u8; ROOM], at: usize, line: &[u8]) -> usize
    requires { length line.now ≤ 65536 }
{
    // a span behind every line
    let nothing = [u32::MAX; 2];
    put_line(rt, out, at, &nothing, line)
}
