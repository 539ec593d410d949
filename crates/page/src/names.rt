// What a rule's groups are called, by the name index.
ghost use Rattle.std.specs.Prelude.{◌≤◌, ◌<◌};
ghost use Rattle.syntax.specs.Limits.{group_limit};

use crate::shown::{put_shown, put_within};
use fields_columns::column;
use office::{ROOM, put, put_number};
use syntax::NAME_INDEX_NEED;

// What the group is called that so many others come before.
pub(crate) fn put_name(
    rt: &HostRuntime,
    out: &mut [u8; ROOM],
    at: usize,
    names: &[u8; NAME_INDEX_NEED],
    passed: usize,
) -> usize
    requires { passed < group_limit }
{
    let name = column(names, passed);
    if name.len() == 0 {
        return put_number(rt, out, at, b"group ", passed as u64 + 1, b"");
    }
    put_shown(rt, out, at, name)
}

// The names of the columns in which the readings of a line have to agree: there is one at least.
fn put_listed(
    rt: &HostRuntime,
    out: &mut [u8; ROOM],
    at: usize,
    columns: &[u8; NAME_INDEX_NEED],
    count: usize,
) -> usize
    requires { count ≤ group_limit }
{
    let mut p = put(
        rt,
        out,
        at,
        b"<p>A line is ambiguous if another reading of what the rule took has another value in one of:",
    );
    for i in 0..count {
        p = put_within(rt, out, p, b" <b>", column(columns, i), b"</b>");
    }
    put(rt, out, p, b"</p>\n")
}

// In which columns the readings of a line have to agree. Where there are none, no line is ambiguous.
pub fn put_columns(
    rt: &HostRuntime,
    out: &mut [u8; ROOM],
    at: usize,
    columns: &[u8; NAME_INDEX_NEED],
    count: usize,
) -> usize
    requires { count ≤ group_limit }
{
    if count == 0 {
        return put(
            rt,
            out,
            at,
            b"<p>The table has no columns, so that no line is ambiguous.</p>\n",
        );
    }
    put_listed(rt, out, at, columns, count)
}
