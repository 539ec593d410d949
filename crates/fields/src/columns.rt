// The columns of the table: the names that are asked for, or all of the rule.
ghost use Rattle.std.specs.Prelude.{◌≤◌, ◌<◌, IfSome};
ghost use Rattle.syntax.specs.Limits.{group_limit};

use fields_columns::{COLUMN_LIMIT, add_column, all_columns};
use frame::NAME_INDEX_NEED;
use index::{ROW_LENGTH, UNSET};
use lookup::{Found, find};
use office::{arg, arg_count, say};
use syntax::NAME_LIMIT;

// The room for all names, in the layout of a name index.
pub const COLUMNS: usize = NAME_INDEX_NEED;

// Whether the rule has a name: with a row in which no group is set, the lookup finds the standing text for each name that there is.
fn is_named(name: &[u8], names: &[u8; NAME_INDEX_NEED]) -> bool {
    let mut row = [UNSET; ROW_LENGTH];
    row[0] = 0;
    row[1] = 0;
    !matches!(find(name, names, b"", 0, &row), Found::Nothing)
}

// Says that the rule has no such name.
fn say_unknown(rt: &HostRuntime, name: &[u8]) {
    say(rt, b"fields: the rule has no name ");
    say(rt, name);
    say(rt, b"\n");
}

// The name that an argument asks for, put behind so many others: how many there are then. Where that cannot be, it is said why.
fn ask_for(
    rt: &HostRuntime,
    argument: usize,
    names: &[u8; NAME_INDEX_NEED],
    columns: &mut [u8; COLUMNS],
    count: usize,
) -> Option<usize>
    requires { count ≤ group_limit }
    ensures { IfSome result (λ n. n ≤ group_limit) }
{
    let mut text = io::buffer();
    let n = arg(rt, argument, &mut text);
    if NAME_LIMIT < n || !is_named(&text[..n], names) {
        say_unknown(rt, &text[..n]);
        return None;
    }
    if count == COLUMN_LIMIT {
        let _ = eprintln!(rt; "fields: more than {COLUMN_LIMIT} names");
        return None;
    }
    Some(add_column(&text[..n], columns, count))
}

// The columns: the names that the arguments from one on ask for, or all of the rule where there are none. It says how many there are, if they can be had.
pub(crate) fn collect(
    rt: &HostRuntime,
    first: usize,
    names: &[u8; NAME_INDEX_NEED],
    columns: &mut [u8; COLUMNS],
) -> Option<usize>
    requires { first < 300 }
    ensures { IfSome result (λ n. n ≤ group_limit) }
{
    let end = arg_count(rt);
    if end <= first {
        return Some(all_columns(names, columns));
    }
    let mut count = 0;
    for argument in first..end {
        count = ask_for(rt, argument, names, columns, count)?;
    }
    Some(count)
}
