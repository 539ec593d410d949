// Whether numbers are a row for a line: whoever lent them may have written anything there.
ghost use Rattle.std.specs.Prelude.{◌≡◌, length};
ghost use Rattle.syntax.specs.Limits.{group_limit, row_length};
ghost use Rattle.lookup.specs.Rows.{is_unset, span_holds, spans_hold, is_row};

use crate::names::GROUPS;
use index::{ROW_LENGTH, UNSET};

// Whether two numbers are those of a group that is not set.
pub fn is_unset(from: u32, to: u32) -> bool
    ensures { result ≡ is_unset from to }
{
    if from != UNSET {
        return false;
    }
    to == UNSET
}

// Whether two numbers are a span within a line of so many bytes, or those of a group that is not set.
fn span_holds(line: usize, from: u32, to: u32) -> bool
    ensures { result ≡ span_holds line from to }
{
    if is_unset(from, to) {
        return true;
    }
    if to < from {
        return false;
    }
    to as usize <= line
}

// Whether every pair of a row is such a span.
fn spans_hold(row: &[u32], line: usize) -> bool
    requires { length row.now ≡ row_length }
    ensures { result ≡ spans_hold group_limit line row.now 1 }
{
    for passed in 0..GROUPS {
        let from = row[2 + 2 * passed];
        let to = row[3 + 2 * passed];
        if !span_holds(line, from, to) {
            return false;
        }
    }
    true
}

// Whether numbers are a row for a line of so many bytes.
pub fn is_row(row: &[u32], line: usize) -> bool
    ensures { result ≡ is_row line row.now }
{
    if row.len() != ROW_LENGTH {
        return false;
    }
    let start = row[0];
    let end = row[1];
    if end < start {
        return false;
    }
    if line < end as usize {
        return false;
    }
    spans_hold(row, line)
}
