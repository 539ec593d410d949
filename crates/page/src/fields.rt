// The fields of a reading, each with its name and what it took; and the fields of a rule.
ghost use Rattle.std.specs.Prelude.{◌≤◌, ◌<◌, length};
ghost use Rattle.syntax.specs.Limits.{group_limit};

use crate::colours::{COLOURS, place_of};
use crate::names::put_name;
use crate::shown::{put_left_out, put_shown};
use office::{ROOM, put, put_number};
use syntax::NAME_INDEX_NEED;

const GROUPS: usize = syntax::GROUP_LIMIT as usize;

// How many bytes of what a field took are shown.
const MOST: usize = 200;

// What a field took, or the beginning of it.
fn put_value(rt: &HostRuntime, out: &mut [u8; ROOM], at: usize, value: &[u8]) -> usize {
    if value.len() == 0 {
        return put(rt, out, at, b"<i>empty</i>");
    }
    let p = put(rt, out, at, b"<code>");
    if value.len() <= MOST {
        let q = put_shown(rt, out, p, value);
        return put(rt, out, q, b"</code>");
    }
    let q = put_shown(rt, out, p, &value[..MOST]);
    let r = put_left_out(rt, out, q, value.len() - MOST);
    put(rt, out, r, b"</code>")
}

// The name of the group that so many others come before, in its colour.
fn put_named(
    rt: &HostRuntime,
    out: &mut [u8; ROOM],
    at: usize,
    names: &[u8; NAME_INDEX_NEED],
    passed: usize,
) -> usize
    requires { passed < group_limit }
{
    let p = put_number(
        rt,
        out,
        at,
        b"<li class=\"f",
        (passed % COLOURS) as u64,
        b"\"><b>",
    );
    let q = put_name(rt, out, p, names, passed);
    put(rt, out, q, b"</b>")
}

// The group that so many others come before, with its span. One that is not set has its span behind every line.
fn put_field(
    rt: &HostRuntime,
    out: &mut [u8; ROOM],
    at: usize,
    names: &[u8; NAME_INDEX_NEED],
    passed: usize,
    line: &[u8],
    from: usize,
    to: usize,
) -> usize
    requires { passed < group_limit }
{
    if line.len() < to {
        return at;
    }
    if to < from {
        return at;
    }
    let p = put_named(rt, out, at, names, passed);
    let q = put(rt, out, p, b" ");
    let r = put_value(rt, out, q, &line[from..to]);
    put(rt, out, r, b"</li>\n")
}

// The groups of a row.
pub(crate) fn put_fields(
    rt: &HostRuntime,
    out: &mut [u8; ROOM],
    at: usize,
    names: &[u8; NAME_INDEX_NEED],
    line: &[u8],
    row: &[u32],
) -> usize {
    let mut p = put(rt, out, at, b"<ul>\n");
    for passed in 0..GROUPS {
        let k = 2 * passed + 2;
        if row.len() <= k + 1 {
            break;
        }
        p = put_field(
            rt,
            out,
            p,
            names,
            passed,
            line,
            place_of(row[k]),
            place_of(row[k + 1]),
        );
    }
    put(rt, out, p, b"</ul>\n")
}

// The fields of a rule that has so many groups.
pub fn put_legend(
    rt: &HostRuntime,
    out: &mut [u8; ROOM],
    at: usize,
    names: &[u8; NAME_INDEX_NEED],
    groups: u32,
) -> usize {
    if groups == 0 {
        return put(rt, out, at, b"<p>It has no fields.</p>\n");
    }
    let mut p = put(rt, out, at, b"<ul>\n");
    for passed in 0..GROUPS.min(groups as usize) {
        p = put_named(rt, out, p, names, passed);
        p = put(rt, out, p, b"</li>\n");
    }
    put(rt, out, p, b"</ul>\n")
}
