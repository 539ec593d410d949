// The lookup itself.
ghost use Rattle.std.specs.Prelude.{◌≡◌};
ghost use Rattle.lookup.specs.Lookup.{of_span, lookup, Lent};

use crate::Found;
use crate::names::group_named;
use crate::rows::{is_row, is_unset};
use index::ROW_LENGTH;

// What the two numbers of a group say.
fn of_span(from: u32, to: u32) -> Found
    ensures { result ≡ of_span from to }
{
    if is_unset(from, to) {
        return Found::Standing;
    }
    Found::Taken(from as usize, to as usize)
}

// Finds a field. The kind is that of a match's answer: 0 is matched, and every other is not.
pub fn find(name: &[u8], names: &[u8], line: &[u8], kind: u32, row: &[u32]) -> Found
    ensures { result ≡ lookup name.now names.now line.now kind row.now }
{
    if kind != 0 {
        return Found::Nothing;
    }
    if row.len() < ROW_LENGTH {
        return Found::Nothing;
    }
    let numbers = &row[..ROW_LENGTH];
    if !is_row(numbers, line.len()) {
        return Found::Nothing;
    }
    match group_named(name, names) {
        Some(group) => of_span(numbers[2 * group], numbers[2 * group + 1]),
        None => Found::Nothing,
    }
}

// Looks a field up. It may be a part of either text, so that both are lent for the same time: a caller that is lent them names one lifetime for
// the two.
pub fn field<'a>(
    name: &[u8],
    names: &[u8],
    line: &'a [u8],
    kind: u32,
    row: &[u32],
    standing: &'a [u8],
) -> &'a [u8]
    ensures { Lent line.entry standing.entry (lookup name.now names.now line.now kind row.now) result }
{
    match find(name, names, line, kind, row) {
        Found::Taken(from, to) => &line[from..to],
        Found::Standing => standing,
        Found::Nothing => &standing[..0],
    }
}
