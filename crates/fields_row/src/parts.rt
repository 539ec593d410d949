// The fields of a row, written part by part, since a field may be longer than the buffer.
ghost use Rattle.std.specs.Prelude.{◌≡◌, ◌+◌, ◌≤◌, ◌<◌, length};
ghost use Rattle.text.specs.Writing.{Wrote};
ghost use Rattle.fields_columns.specs.Promises.{Columned};
ghost use Rattle.fields_row.specs.Parts.{before};
ghost use Rattle.fields_row.specs.Promises.{part_room, Onward, fields_from, Spoken};

use fields_columns::column;
use fields_text::{TAB, write_escaped};
use lookup::field;
use text::append_byte;

// How many bytes of a field are written at once, and the bytes that this takes at most, with a tab.
const CHUNK: usize = 4096;

pub const PART_ROOM: usize = 1 + fields_text::ESCAPE_ROOM * CHUNK;

// How far a row is: the column, how many bytes of its field are written, and the position in the output.
#[derive(Clone, Copy, Debug, PartialEq, Eq)]
pub struct Place {
    pub column: usize,
    pub taken: usize,
    pub put: usize,
}

// Writes the tab before a field, if nothing of the field is written yet.
fn write_tab(taken: usize, out: &mut [u8], at: usize) -> usize
    requires { at < length out.old }
    ensures { Wrote out.old at (before taken) out.new result }
{
    if taken == 0 {
        return append_byte(out, at, TAB);
    }
    at
}

// Writes the next part of a row. The kind is that of the line's answer, and the row that of its match.
pub fn write_part<'a>(
    columns: &[u8],
    count: usize,
    names: &[u8],
    line: &'a [u8],
    standing: &'a [u8],
    kind: u32,
    row: &[u32],
    out: &mut [u8],
    p: Place,
) -> Place
    requires columned { Columned columns.now count }
    requires column_lt_count { (p.column < count) × (p.put + part_room ≤ length out.old) }
    ensures onward { Onward count p result }
    ensures spoken { Spoken (fields_from columns.now count names.now line.now standing.now kind row.now) out.old p out.new result }
{
    let Place {
        column: at,
        taken,
        put,
    } = p;
    let tab = write_tab(taken, out, put);
    let text = field(column(columns, at), names, line, kind, row, standing);
    if text.len() <= taken {
        return Place {
            column: at + 1,
            taken: 0,
            put: tab,
        };
    }
    if text.len() - taken <= CHUNK {
        let whole = write_escaped(&text[taken..], out, tab);
        return Place {
            column: at + 1,
            taken: 0,
            put: whole,
        };
    }
    let end = taken + CHUNK;
    let put = write_escaped(&text[taken..end], out, tab);
    Place {
        column: at,
        taken: end,
        put,
    }
}
