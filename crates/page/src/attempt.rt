// Why a line does not fit: the line with what fits of it and the place where that ends, and the rule with what was expected there.
ghost use Rattle.std.specs.Prelude.{◌≡◌, ◌≤◌, ◌<◌, length};

use crate::colours::{shown_from, shown_to};
use crate::shown::{put_left_out, put_shown, put_within};
use office::{ROOM, put};

// What stands under a byte of a rule that belongs to an item that was expected.
const SIGN: u8 = b'^';

// The place where an attempt ended, and what is shown of the line behind it.
fn put_stop(
    rt: &HostRuntime,
    out: &mut [u8; ROOM],
    at: usize,
    line: &[u8],
    stop: usize,
    to: usize,
) -> usize
    requires { (stop ≤ length line.now) × (to ≤ length line.now) }
{
    if stop == line.len() {
        return put(
            rt,
            out,
            at,
            b"<mark class=\"stop\">the line&#8217;s end</mark>",
        );
    }
    let next = stop + 1;
    let p = put_within(
        rt,
        out,
        at,
        b"<mark class=\"stop\">",
        &line[stop..next],
        b"</mark>",
    );
    if to <= next {
        return p;
    }
    put_shown(rt, out, p, &line[next..to])
}

// What is shown of the line before an attempt, and what the attempt took.
fn put_taken(
    rt: &HostRuntime,
    out: &mut [u8; ROOM],
    at: usize,
    line: &[u8],
    from: usize,
    start: usize,
    stop: usize,
) -> usize
    requires { (from ≤ stop) × (start ≤ stop) × (stop ≤ length line.now) }
{
    if start <= from {
        return put_within(
            rt,
            out,
            at,
            b"<span class=\"fit\">",
            &line[from..stop],
            b"</span>",
        );
    }
    let p = put_shown(rt, out, at, &line[from..start]);
    put_within(
        rt,
        out,
        p,
        b"<span class=\"fit\">",
        &line[start..stop],
        b"</span>",
    )
}

// A line with an attempt.
pub fn put_attempt(
    rt: &HostRuntime,
    out: &mut [u8; ROOM],
    at: usize,
    line: &[u8],
    start: usize,
    stop: usize,
) -> usize
    requires { (start ≤ stop) × (stop ≤ length line.now) }
{
    let from = shown_from(stop);
    let to = shown_to(from, line.len());
    let mut p = put(rt, out, at, b"<p class=\"line\">");
    p = put_left_out(rt, out, p, from);
    p = put_taken(rt, out, p, line, from, start, stop);
    p = put_stop(rt, out, p, line, stop, to);
    p = put_left_out(rt, out, p, line.len() - to);
    put(rt, out, p, b"</p>\n")
}

// Where the bytes end that begin at a place and have one sign.
fn signs_end(signs: &[u8], from: usize) -> usize
    requires { from < length signs.now }
    ensures { (from < result) × (result ≤ length signs.now) }
{
    for i in from + 1..signs.len() {
        if signs[i] != signs[from] {
            return i;
        }
    }
    signs.len()
}

// Bytes of a rule that have one sign.
fn put_signed(rt: &HostRuntime, out: &mut [u8; ROOM], at: usize, sign: u8, text: &[u8]) -> usize {
    if sign == SIGN {
        return put_within(rt, out, at, b"<mark>", text, b"</mark>");
    }
    put_shown(rt, out, at, text)
}

// A rule, in which the items are marked that have a sign.
pub fn put_marked(
    rt: &HostRuntime,
    out: &mut [u8; ROOM],
    at: usize,
    rule: &[u8],
    signs: &[u8],
) -> usize
    requires { length signs.now ≡ length rule.now }
{
    let mut p = put(rt, out, at, b"<p class=\"line\"><b>rule </b>");
    let mut i: usize = 0;
    // std has no `chunk_by`, and the place moves by as many bytes as have one sign: a `for` would be no plainer
    while i < signs.len() {
        let end = signs_end(signs, i);
        p = put_signed(rt, out, p, signs[i], &rule[i..end]);
        i = end;
    }
    put(rt, out, p, b"</p>\n")
}
