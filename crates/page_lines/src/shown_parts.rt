// What the page shows of a line below its head; the markup, and how a line's bytes are shown, are the crate `page`'s.
ghost use Rattle.std.specs.Prelude.{◌≡◌, ◌≤◌, length};

use frame::NAME_INDEX_NEED;
use index::ROW_LENGTH;
use listing::Listing;
use office::ROOM;
use page::{
    put_attempt, put_card_end, put_marked, put_more, put_paragraph, put_plain, put_readings,
    put_spent,
};
use reasons::underline;
use report_line::{RULE, put_sentence};

// Shows the readings of so many rows, and ends the line's part. A line with none is shown as it is.
fn show_rows(
    rt: &HostRuntime,
    out: &mut [u8; ROOM],
    at: usize,
    names: &[u8; NAME_INDEX_NEED],
    line: &[u8],
    results: &[u32],
    rows: usize,
) -> usize
    requires { length line.now ≤ 65536 }
{
    if rows == 0 {
        let p = put_plain(rt, out, at, line);
        return put_card_end(rt, out, p);
    }
    // a listing has written as many rows as it says, so that this does not happen
    if results.len() / ROW_LENGTH < rows {
        return put_card_end(rt, out, at);
    }
    let n = rows * ROW_LENGTH;
    let p = put_readings(rt, out, at, names, line, &results[..n]);
    put_card_end(rt, out, p)
}

// Shows what a listing tells of a line, and ends the line's part.
pub(crate) fn show_listing(
    rt: &HostRuntime,
    out: &mut [u8; ROOM],
    at: usize,
    names: &[u8; NAME_INDEX_NEED],
    line: &[u8],
    results: &[u32],
    listing: Listing,
) -> usize
    requires { length line.now ≤ 65536 }
{
    match listing {
        Listing::Complete(rows, _) => show_rows(rt, out, at, names, line, results, rows),
        Listing::Full(rows, _) => {
            let p = put_more(rt, out, at, rows);
            show_rows(rt, out, p, names, line, results, rows)
        }
        Listing::Exhausted(start, rows, _) => {
            let p = put_spent(rt, out, at, start, rows);
            show_rows(rt, out, p, names, line, results, rows)
        }
    }
}

// Puts signs under the marked items, in more bytes than the rule has.
fn sign_items(rule: &[u8], flags: u32, marks: &[u8], signs: &mut [u8])
    requires { (length marks.now ≡ length rule.now) × (length rule.now ≤ length signs.old) }
{
    let n = rule.len();
    underline(rule, flags, marks, &mut signs[..n]);
}

// Shows the first of so many bytes but the last, which is a sentence's line end.
fn show_said(rt: &HostRuntime, out: &mut [u8; ROOM], at: usize, text: &[u8], n: usize) -> usize {
    // a sentence is far shorter than the buffer, and ends its line
    if text.len() < n {
        return at;
    }
    if n == 0 {
        return at;
    }
    let end = n - 1;
    put_paragraph(rt, out, at, &text[..end])
}

// Shows a sentence that stands at the beginning of a buffer.
fn show_written(
    rt: &HostRuntime,
    out: &mut [u8; ROOM],
    at: usize,
    text: &[u8; ROOM],
    n: usize,
) -> usize {
    show_said(rt, out, at, text, n)
}

// The sentence that says why a line does not fit. It is written as the report has it, and then shown.
fn show_sentence(
    rt: &HostRuntime,
    out: &mut [u8; ROOM],
    at: usize,
    rule: &[u8],
    flags: u32,
    marks: &[u8],
    line: &[u8],
    start: usize,
    stop: usize,
) -> usize
    requires marks_len { length marks.now ≡ length rule.now }
    requires start_le_stop { (start ≤ stop) × (stop ≤ length line.now) }
{
    let mut text = io::large_buffer();
    let n = put_sentence(rt, &mut text, 0, rule, flags, marks, line, start, stop);
    show_written(rt, out, at, &text, n)
}

// Why a line does not fit: an attempt, and the items that are marked at the beginning of the marks.
pub(crate) fn show_reason(
    rt: &HostRuntime,
    out: &mut [u8; ROOM],
    at: usize,
    rule: &[u8],
    flags: u32,
    marks: &[u8],
    line: &[u8],
    start: u32,
    stop: u32,
) -> usize
    requires rule_len_bound { (length rule.now ≤ 1001) × (1001 ≤ length marks.now) }
    requires start_le_stop { (start ≤ stop) × (stop ≤ length line.now) }
{
    let n = rule.len();
    let marked = &marks[..n];
    let mut signs = [0u8; RULE];
    sign_items(rule, flags, marked, &mut signs);
    let mut p = put_attempt(rt, out, at, line, start as usize, stop as usize);
    p = put_marked(rt, out, p, rule, &signs[..n]);
    show_sentence(
        rt,
        out,
        p,
        rule,
        flags,
        marked,
        line,
        start as usize,
        stop as usize,
    )
}
