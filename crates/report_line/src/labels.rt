// The labels in front of the columns of a line, right-aligned in a margin of their own: `reading 1`, and for a group its name, or `group 2` where it
// has none.
//
// The names are those of the name index, an entry for each group: the length of its name, and room for the longest. The margin is settled once, from all
// of them, so that the columns of every line of a report stand under one another. Without names it is as wide as it needs to be for other labels.
ghost use Rattle.std.specs.Prelude.{◌≤◌, ◌<◌, length, IfSome};
ghost use Rattle.syntax.specs.Limits.{group_limit, name_limit};

use office::{ROOM, put, put_number};
use syntax::{NAME_ENTRY, NAME_INDEX_NEED, NAME_LIMIT, ROW_LENGTH};

const GROUPS: usize = syntax::GROUP_LIMIT as usize;

// The longest label that is no name is `column 65472`.
const LEAST_MARGIN: usize = 12;

// The name of the group that so many others come before, if it has one.
fn name_of(names: &[u8; NAME_INDEX_NEED], passed: usize) -> Option<&[u8]>
    requires { passed < group_limit }
    ensures { IfSome result (λ name. length name.now ≤ name_limit) }
{
    let from = passed * NAME_ENTRY;
    let to = from + NAME_ENTRY;
    let entry = &names[from..to];
    let [size, name @ ..] = entry else {
        return None;
    };
    // the entries of a rule hold no longer ones
    match *size {
        0 => None,
        n => name.get(..n as usize),
    }
}

// How wide the labels of a rule with these names are.
pub fn margin_for(names: &[u8; NAME_INDEX_NEED]) -> usize {
    let mut margin = LEAST_MARGIN;
    for passed in 0..GROUPS {
        if let Some(name) = name_of(names, passed) {
            margin = margin.max(name.len());
        }
    }
    margin
}

// The blanks in front of a label of so many bytes. No label is wider than the margin, which is no wider than a name.
fn put_blanks(
    rt: &HostRuntime,
    out: &mut [u8; ROOM],
    at: usize,
    margin: usize,
    size: usize,
) -> usize {
    let blanks = [b' '; NAME_LIMIT];
    match blanks.get(..margin.saturating_sub(size)) {
        Some(some) => put(rt, out, at, some),
        None => at,
    }
}

// A label.
pub(crate) fn put_label(
    rt: &HostRuntime,
    out: &mut [u8; ROOM],
    at: usize,
    margin: usize,
    text: &[u8],
) -> usize {
    let p = put_blanks(rt, out, at, margin, text.len());
    let q = put(rt, out, p, text);
    put(rt, out, q, b"  ")
}

// A label that ends in a number.
pub(crate) fn put_numbered(
    rt: &HostRuntime,
    out: &mut [u8; ROOM],
    at: usize,
    margin: usize,
    text: &[u8],
    n: u64,
) -> usize {
    let mut digits = [0u8; 20];
    let k = io::decimal(n, &mut digits);
    // no number of a report is as wide
    if margin < k {
        return at;
    }
    let p = put_blanks(rt, out, at, margin - k, text.len());
    put_number(rt, out, p, text, n, b"  ")
}

// The label of the group that so many others come before.
fn put_group(
    rt: &HostRuntime,
    out: &mut [u8; ROOM],
    at: usize,
    margin: usize,
    names: &[u8; NAME_INDEX_NEED],
    passed: usize,
) -> usize
    requires { passed < group_limit }
{
    match name_of(names, passed) {
        Some(name) => put_label(rt, out, at, margin, name),
        None => put_numbered(rt, out, at, margin, b"group ", passed as u64 + 1),
    }
}

// The label of the span that stands at a place of the rows: a reading's, or that of a group of it.
pub(crate) fn put_span_label(
    rt: &HostRuntime,
    out: &mut [u8; ROOM],
    at: usize,
    margin: usize,
    names: &[u8; NAME_INDEX_NEED],
    place: usize,
) -> usize {
    let group = place % ROW_LENGTH / 2;
    if group == 0 {
        let reading = (place / ROW_LENGTH) as u64 + 1;
        return put_numbered(rt, out, at, margin, b"reading ", reading);
    }
    put_group(rt, out, at, margin, names, group - 1)
}
