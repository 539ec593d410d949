// The head of the table.
ghost use Rattle.std.specs.Prelude.{◌+◌, ◌*◌, ◌≤◌, length};
ghost use Rattle.fields_text.specs.Table.{head_line};
ghost use Rattle.fields_text.specs.Promises.{WroteUpTo};
ghost use Rattle.fields_columns.specs.Columns.{names_from};
ghost use Rattle.fields_columns.specs.Promises.{Columned, column_room, head_room, Named};

use crate::columns::column;
use fields_text::{TAB, write_escaped};
use text::{NEWLINE, append, append_byte};

// Writes the names, each behind a tab.
fn write_names(columns: &[u8], count: usize, out: &mut [u8], at: usize) -> usize
    requires columned { Columned columns.now count }
    requires count_in_bounds { at + column_room * count ≤ length out.old }
    ensures { Named columns.now count count out.old at out.new result }
{
    let mut end = at;
    for i in 0..count {
        let tab = append_byte(out, end, TAB);
        end = write_escaped(column(columns, i), out, tab);
    }
    end
}

// Writes the head.
pub fn write_head(columns: &[u8], count: usize, out: &mut [u8], at: usize) -> usize
    requires columned { Columned columns.now count }
    requires head_room_in_bounds { at + head_room ≤ length out.old }
    ensures { WroteUpTo head_room out.old at (head_line (names_from columns.now 0 count)) out.new result }
{
    let first = append(out, at, b"line\tanswer");
    let last = write_names(columns, count, out, first);
    append_byte(out, last, NEWLINE)
}
