// The bytes of a line in the colours of the fields that took them.
//
// A row has a span for what a reading took and one for each group, two numbers each; that of a group that is not set lies behind every line. A byte
// is of the last group whose span has it, since an inner group comes behind the one that it is in.
ghost use Rattle.std.specs.Prelude.{◌+◌, ◌≤◌, ◌<◌, length};

use crate::shown::{put_left_out, put_shown};
use office::{ROOM, put, put_number};

// How many colours there are.
pub(crate) const COLOURS: usize = 8;

// How many bytes of a line are shown at most, and how many of them before the place that is looked for.
const MOST: usize = 2000;

const BEFORE: usize = 1000;

// A number of a row.
pub(crate) fn place_of(n: u32) -> usize {
    n as usize
}

// Which of a row's spans gives the byte at a place of the line its colour, if one has it.
fn span_at(row: &[u32], place: u32) -> Option<usize> {
    for k in (0..row.len() / 2).rev() {
        if row[2 * k] <= place && place < row[2 * k + 1] {
            return Some(k);
        }
    }
    None
}

// Where the bytes of one colour end that begin at a place.
fn run_end(row: &[u32], from: usize, to: usize) -> usize
    requires { (from < to) × (to ≤ 65536) }
    ensures { (from < result) × (result ≤ to) }
{
    let span = span_at(row, from as u32);
    for i in from + 1..to {
        if span_at(row, i as u32) != span {
            return i;
        }
    }
    to
}

// Bytes of one colour. What the reading took and no field has is underlined.
fn put_run(
    rt: &HostRuntime,
    out: &mut [u8; ROOM],
    at: usize,
    span: Option<usize>,
    text: &[u8],
) -> usize {
    let Some(span) = span else {
        return put_shown(rt, out, at, text);
    };
    let mut p = at;
    if span == 0 {
        p = put(rt, out, at, b"<span class=\"t\">");
    } else {
        let colour = (span - 1) % COLOURS;
        p = put_number(rt, out, at, b"<span class=\"f", colour as u64, b"\">");
    }
    let q = put_shown(rt, out, p, text);
    put(rt, out, q, b"</span>")
}

// A part of a line.
fn put_runs(
    rt: &HostRuntime,
    out: &mut [u8; ROOM],
    at: usize,
    row: &[u32],
    line: &[u8],
    from: usize,
    to: usize,
) -> usize
    requires { (from ≤ to) × (to ≤ length line.now) × (length line.now ≤ 65536) }
{
    let mut p = at;
    let mut i = from;
    // the place moves by as many bytes as have one colour: a `for` would be no plainer
    while i < to {
        let end = run_end(row, i, to);
        let span = span_at(row, i as u32);
        p = put_run(rt, out, p, span, &line[i..end]);
        i = end;
    }
    p
}

// Where the bytes begin that are shown of a line, so that a place is among them.
pub(crate) fn shown_from(place: usize) -> usize
    ensures { (result ≤ place) × (place ≤ result + 1000) }
{
    place.saturating_sub(BEFORE)
}

// Where they end.
pub(crate) fn shown_to(from: usize, size: usize) -> usize
    requires { from ≤ size }
    ensures { (from ≤ result) × (result ≤ size) × (result ≤ from + 2000) }
{
    from + (size - from).min(MOST)
}

// A line in the colours of a row, or a part of it in which the row's first span begins.
pub(crate) fn put_line(
    rt: &HostRuntime,
    out: &mut [u8; ROOM],
    at: usize,
    row: &[u32],
    line: &[u8],
) -> usize
    requires { length line.now ≤ 65536 }
{
    let mut from: usize = 0;
    if 0 < row.len() {
        let place = place_of(row[0]);
        // a reading begins within the line
        if place <= line.len() {
            from = shown_from(place);
        }
    }
    let p = put(rt, out, at, b"<p class=\"line\">");
    put_line_from(rt, out, p, row, line, from)
}

fn put_line_from(
    rt: &HostRuntime,
    out: &mut [u8; ROOM],
    at: usize,
    row: &[u32],
    line: &[u8],
    from: usize,
) -> usize
    requires { length line.now ≤ 65536 }
{
    if line.len() < from {
        return at;
    }
    let to = shown_to(from, line.len());
    let p = put_left_out(rt, out, at, from);
    let q = put_runs(rt, out, p, row, line, from, to);
    let r = put_left_out(rt, out, q, line.len() - to);
    put(rt, out, r, b"</p>\n")
}
