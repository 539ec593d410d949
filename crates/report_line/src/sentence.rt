// Why a line does not fit, in one sentence: how far it does, which items of the rule could have come next, and what stands there instead.
ghost use Rattle.std.specs.Prelude.{◌≡◌, ◌≤◌, ◌<◌, length};

use office::{ROOM, put, put_number};
use reasons::{item_end, next_new};
use text::hex_digit;

// How much of a text is quoted.
const QUOTED: usize = 32;

// How many items are named; that there are more is said.
const NAMED: usize = 3;

const BLANK: u8 = b' ';

const TAB: u8 = b'\t';

// A text in quotes, as it is shown, or its beginning.
fn put_quoted(rt: &HostRuntime, out: &mut [u8; ROOM], at: usize, text: &[u8]) -> usize {
    let mut shown = [0u8; QUOTED];
    let n = report::show(text, &mut shown);
    let p = put(rt, out, at, b"`");
    let q = put(rt, out, p, &shown[..n]);
    put(rt, out, q, b"`")
}

// The end of what fits. The dots that stand for what comes before are outside the quotes, where they cannot be taken for bytes of the line.
fn put_end(rt: &HostRuntime, out: &mut [u8; ROOM], at: usize, text: &[u8]) -> usize {
    if text.len() <= QUOTED {
        return put_quoted(rt, out, at, text);
    }
    let from = text.len() - QUOTED;
    let p = put(rt, out, at, b"..");
    put_quoted(rt, out, p, &text[from..])
}

// A byte, by what it is called or shown as.
fn put_byte(rt: &HostRuntime, out: &mut [u8; ROOM], at: usize, b: u8) -> usize {
    if b == BLANK {
        return put(rt, out, at, b"a blank");
    }
    if b == TAB {
        return put(rt, out, at, b"a tab");
    }
    let one = [b; 1];
    if !report::is_odd(&one) {
        return put_quoted(rt, out, at, &one);
    }
    let digits = [hex_digit(b / 16), hex_digit(b % 16)];
    let p = put(rt, out, at, b"the byte ");
    put(rt, out, p, &digits)
}

// The item at a place of the rule, or the beginning of its text. One that is a byte is called as such: a blank in quotes would hardly be seen.
fn put_item(
    rt: &HostRuntime,
    out: &mut [u8; ROOM],
    at: usize,
    rule: &[u8],
    flags: u32,
    place: usize,
) -> usize
    requires { place < length rule.now }
{
    let end = item_end(rule, flags, place);
    if end - place == 1 {
        return put_byte(rt, out, at, rule[place]);
    }
    let p = put_quoted(rt, out, at, &rule[place..end]);
    if end - place <= QUOTED {
        return p;
    }
    put(rt, out, p, b"..")
}

// What stands before an item, by how many are named before it and whether it is the last.
fn put_joint(rt: &HostRuntime, out: &mut [u8; ROOM], at: usize, named: usize, last: bool) -> usize {
    if named == 0 {
        return at;
    }
    if last {
        return put(rt, out, at, b" or ");
    }
    put(rt, out, at, b", ")
}

// The items that could have come next. Where two have the same text, it is said once.
fn put_items(
    rt: &HostRuntime,
    out: &mut [u8; ROOM],
    at: usize,
    rule: &[u8],
    flags: u32,
    marks: &[u8],
) -> usize
    requires { length marks.now ≡ length rule.now }
{
    let mut p = at;
    let mut named: usize = 0;
    let mut place = next_new(rule, flags, marks, 0);
    // each item is looked for behind the one before, and the last is known by the next: a `for` would be no plainer
    while place < rule.len() {
        if named == NAMED {
            return put(rt, out, p, b", or another item marked above");
        }
        let next = next_new(rule, flags, marks, place + 1);
        p = put_joint(rt, out, p, named, next == rule.len());
        p = put_item(rt, out, p, rule, flags, place);
        named += 1;
        place = next;
    }
    p
}

// What stands at a place of the line.
fn put_found(rt: &HostRuntime, out: &mut [u8; ROOM], at: usize, line: &[u8], place: usize) -> usize
    requires { place ≤ length line.now }
{
    if place == line.len() {
        return put(rt, out, at, b"the line's end");
    }
    put_byte(rt, out, at, line[place])
}

// What fits, from the start of an attempt up to where it ended.
fn put_fit(
    rt: &HostRuntime,
    out: &mut [u8; ROOM],
    at: usize,
    line: &[u8],
    start: usize,
    stop: usize,
) -> usize
    requires { (start ≤ stop) × (stop ≤ length line.now) }
{
    if start == stop {
        return put(rt, out, at, b"Nothing of it fits: ");
    }
    let mut p = at;
    if start == 0 {
        p = put(rt, out, at, b"It fits up to ");
    } else {
        p = put_number(
            rt,
            out,
            at,
            b"From column ",
            start as u64,
            b" it fits up to ",
        );
    }
    p = put_end(rt, out, p, &line[start..stop]);
    put(rt, out, p, b"; then ")
}

// The whole sentence.
pub fn put_sentence(
    rt: &HostRuntime,
    out: &mut [u8; ROOM],
    at: usize,
    rule: &[u8],
    flags: u32,
    marks: &[u8],
    line: &[u8],
    start: usize,
    stop: usize,
) -> usize
    requires marks_len { length marks.now ≡ length rule.now }
    requires start_le_stop { (start ≤ stop) × (stop ≤ length line.now) }
{
    let mut p = put_fit(rt, out, at, line, start, stop);
    p = put_items(rt, out, p, rule, flags, marks);
    p = put(rt, out, p, b" was expected, and ");
    p = put_found(rt, out, p, line, stop);
    put(rt, out, p, b" was found.\n")
}
