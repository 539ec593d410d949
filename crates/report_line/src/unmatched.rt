// A line that is not matched, and why it does not fit.
//
//               tank A1 820 L
//   fits up to  -------^
//         rule  ^tank (\w+): (\d+) L$
//     expected         ^^^ ^
//               It fits up to `tank A1`; then `\w+` or `:` was expected, and a blank was found.
//
// What is told is the attempt that came furthest from where it began: - stands under what it took, and ^ under the place to which it came, which may be the
// line's end. Under the rule ^ stands under the whole text of each item that was tried there, of which none fitted.
ghost use Rattle.std.specs.Prelude.{◌≡◌, ◌≤◌, length};

use crate::display::put_text;
use crate::labels::put_label;
use crate::sentence::put_sentence;
use office::{ROOM, put};
use reasons::underline;

// One byte more than the longest rule: a rule that fills this is too long, whatever follows.
pub const RULE: usize = refusals::RULE_LIMIT + 1;

const BLANK: u8 = b' ';

// The first columns of a window, with - under what an attempt took, and what ends them.
fn put_dashes(
    rt: &HostRuntime,
    out: &mut [u8; ROOM],
    at: usize,
    margin: usize,
    start: u32,
    stop: u32,
    column: u32,
    columns: usize,
    end: &[u8],
) -> usize
    requires { columns ≤ 64 }
{
    let mut marks = [0u8; report::WIDTH];
    report::mark(b'-', start, stop, column, &mut marks);
    let p = put_label(rt, out, at, margin, b"fits up to");
    let q = put(rt, out, p, &marks[..columns]);
    put(rt, out, q, end)
}

// What an attempt took and the place to which it came, if there is something of them under the window that begins at a column, where so many bytes
// are left of the line. Behind its last byte the last window has the line's end.
fn put_reach(
    rt: &HostRuntime,
    out: &mut [u8; ROOM],
    at: usize,
    margin: usize,
    start: u32,
    stop: u32,
    column: u32,
    rest: usize,
) -> usize {
    if stop < column {
        return at;
    }
    let ahead = (stop - column) as usize;
    if ahead < report::WIDTH {
        return put_dashes(rt, out, at, margin, start, stop, column, ahead, b"^\n");
    }
    if rest <= report::WIDTH {
        return put_dashes(
            rt,
            out,
            at,
            margin,
            start,
            stop,
            column,
            rest.min(report::WIDTH),
            b"^\n",
        );
    }
    if column as u64 + report::WIDTH as u64 <= start as u64 {
        return at;
    }
    put_dashes(
        rt,
        out,
        at,
        margin,
        start,
        stop,
        column,
        report::WIDTH,
        b"\n",
    )
}

// A line, in windows, with an attempt under it.
fn put_attempt(
    rt: &HostRuntime,
    out: &mut [u8; ROOM],
    at: usize,
    margin: usize,
    line: &[u8],
    start: u32,
    stop: u32,
) -> usize
    requires { length line.now ≤ 65536 }
{
    let mut p = at;
    // an empty line has one window
    for from in (0..line.len().max(1)).step_by(report::WIDTH) {
        p = put_text(rt, out, p, margin, b"", b"column ", line, from);
        let rest = line.len() - from;
        p = put_reach(rt, out, p, margin, start, stop, from as u32, rest);
    }
    p
}

// How many columns there are of a window's signs up to the last that is no blank.
fn signs_end(signs: &[u8]) -> usize
    ensures { result ≤ length signs.now }
{
    for i in (0..signs.len()).rev() {
        if signs[i] != BLANK {
            return i + 1;
        }
    }
    0
}

// The signs under a window of the rule, if there are any.
fn put_signs(
    rt: &HostRuntime,
    out: &mut [u8; ROOM],
    at: usize,
    margin: usize,
    signs: &[u8],
) -> usize {
    let n = signs_end(signs);
    if n == 0 {
        return at;
    }
    let p = put_label(rt, out, at, margin, b"expected");
    let q = put(rt, out, p, &signs[..n]);
    put(rt, out, q, b"\n")
}

// The rule, in windows, with the signs under it.
fn put_rule(
    rt: &HostRuntime,
    out: &mut [u8; ROOM],
    at: usize,
    margin: usize,
    rule: &[u8],
    signs: &[u8],
) -> usize
    requires { (length signs.now ≡ length rule.now) × (length rule.now ≤ 1001) }
{
    let mut p = at;
    // an empty rule has one window
    for from in (0..rule.len().max(1)).step_by(report::WIDTH) {
        p = put_text(rt, out, p, margin, b"rule", b"rule ", rule, from);
        let to = rule.len().min(from + report::WIDTH);
        p = put_signs(rt, out, p, margin, &signs[from..to]);
    }
    p
}

// The rule, with signs under the marked items, in as many bytes that are lent for them.
fn put_underlined(
    rt: &HostRuntime,
    out: &mut [u8; ROOM],
    at: usize,
    margin: usize,
    rule: &[u8],
    flags: u32,
    marks: &[u8],
    signs: &mut [u8],
) -> usize
    requires { (length marks.now ≡ length rule.now) × (length signs.old ≡ length rule.now) × (length rule.now ≤ 1001) }
{
    underline(rule, flags, marks, signs);
    put_rule(rt, out, at, margin, rule, signs)
}

// The same, in more bytes than are needed.
fn put_marked(
    rt: &HostRuntime,
    out: &mut [u8; ROOM],
    at: usize,
    margin: usize,
    rule: &[u8],
    flags: u32,
    marks: &[u8],
    signs: &mut [u8],
) -> usize
    requires { (length marks.now ≡ length rule.now) × (length rule.now ≤ 1001) × (1001 ≤ length signs.old) }
{
    let n = rule.len();
    put_underlined(rt, out, at, margin, rule, flags, marks, &mut signs[..n])
}

// Why a line does not fit: an attempt, and the items that are marked at the beginning of the marks.
pub fn put_reason(
    rt: &HostRuntime,
    out: &mut [u8; ROOM],
    at: usize,
    margin: usize,
    rule: &[u8],
    flags: u32,
    marks: &[u8],
    line: &[u8],
    start: u32,
    stop: u32,
) -> usize
    requires rule_len_bound { (length rule.now ≤ 1001) × (1001 ≤ length marks.now) }
    requires start_le_stop { (start ≤ stop) × (stop ≤ length line.now) × (length line.now ≤ 65536) }
{
    let n = rule.len();
    let marked = &marks[..n];
    let mut signs = [0u8; RULE];
    let mut p = put_attempt(rt, out, at, margin, line, start, stop);
    p = put_marked(rt, out, p, margin, rule, flags, marked, &mut signs);
    p = put_label(rt, out, p, margin, b"");
    put_sentence(
        rt,
        out,
        p,
        rule,
        flags,
        marked,
        line,
        start as usize,
        stop as usize,
    )
}
