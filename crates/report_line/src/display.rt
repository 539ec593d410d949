// A line and its readings as they are shown.
//
//               1,500 L
//    reading 1  -------  0-7
//       litres  ^^^^^    0-5
//
// A reading and each of its set groups have lines of their own, so that groups in groups cannot be taken for one another. A line of more
// than one window is shown window by window, each with its first column named and with all readings under it, where one sees in what they
// differ.
ghost use Rattle.std.specs.Prelude.{◌≤◌, length};

use crate::labels::{put_label, put_numbered, put_span_label};
use office::{ROOM, put, put_number};
use syntax::{NAME_INDEX_NEED, ROW_LENGTH};

// What stands under the bytes of the span that stands at a place of the rows.
fn sign_of(place: usize) -> u8 {
    if place % ROW_LENGTH == 0 { b'-' } else { b'^' }
}

// The span that stands at a place of the rows, if there is something of it in the window that begins at a column and shows so many bytes: what
// a reading took, or a group of it. A group that is not set has its span behind every window.
fn put_span(
    rt: &HostRuntime,
    out: &mut [u8; ROOM],
    at: usize,
    margin: usize,
    names: &[u8; NAME_INDEX_NEED],
    place: usize,
    from: u32,
    to: u32,
    column: u32,
    shown: usize,
) -> usize
    requires { shown ≤ 64 }
{
    if !report::touches(from, to, column) {
        return at;
    }
    let mut p = put_span_label(rt, out, at, margin, names, place);
    let mut marks = [0u8; report::WIDTH];
    report::mark(sign_of(place), from, to, column, &mut marks);
    p = put(rt, out, p, &marks[..shown]);
    p = put_number(rt, out, p, b"  ", from as u64, b"-");
    if from == to {
        return put_number(rt, out, p, b"", to as u64, b" empty\n");
    }
    put_number(rt, out, p, b"", to as u64, b"\n")
}

// The spans of all rows, under a window.
fn put_spans(
    rt: &HostRuntime,
    out: &mut [u8; ROOM],
    at: usize,
    margin: usize,
    names: &[u8; NAME_INDEX_NEED],
    rows: &[u32],
    column: u32,
    shown: usize,
) -> usize
    requires { shown ≤ 64 }
{
    let mut p = at;
    for i in 0..rows.len() / 2 {
        p = put_span(
            rt,
            out,
            p,
            margin,
            names,
            2 * i,
            rows[2 * i],
            rows[2 * i + 1],
            column,
            shown,
        );
    }
    p
}

// The window of a text that begins at a position. It is labelled by its first column; a text of one window needs no column named.
pub(crate) fn put_text(
    rt: &HostRuntime,
    out: &mut [u8; ROOM],
    at: usize,
    margin: usize,
    whole: &[u8],
    column: &[u8],
    text: &[u8],
    from: usize,
) -> usize
    requires { from ≤ length text.now }
{
    let mut p = at;
    if text.len() <= report::WIDTH {
        p = put_label(rt, out, at, margin, whole);
    } else {
        p = put_numbered(rt, out, at, margin, column, from as u64);
    }
    let mut shown = [0u8; report::WIDTH];
    let n = report::show(&text[from..], &mut shown);
    p = put(rt, out, p, &shown[..n]);
    put(rt, out, p, b"\n")
}

// The window of a line that begins at a position, with the spans of all rows.
fn put_window(
    rt: &HostRuntime,
    out: &mut [u8; ROOM],
    at: usize,
    margin: usize,
    names: &[u8; NAME_INDEX_NEED],
    line: &[u8],
    from: usize,
    rows: &[u32],
) -> usize
    requires { (from ≤ length line.now) × (length line.now ≤ 65536) }
{
    let p = put_text(rt, out, at, margin, b"", b"column ", line, from);
    let n = (line.len() - from).min(report::WIDTH);
    put_spans(rt, out, p, margin, names, rows, from as u32, n)
}

// A line, in windows, with the readings of the rows under it.
pub fn put_line(
    rt: &HostRuntime,
    out: &mut [u8; ROOM],
    at: usize,
    margin: usize,
    names: &[u8; NAME_INDEX_NEED],
    line: &[u8],
    rows: &[u32],
) -> usize
    requires { length line.now ≤ 65536 }
{
    let mut p = at;
    // an empty line has one window
    for from in (0..line.len().max(1)).step_by(report::WIDTH) {
        p = put_window(rt, out, p, margin, names, line, from, rows);
    }
    p
}
