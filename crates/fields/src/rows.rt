// A row of the table, put into the buffer.
ghost use Rattle.std.specs.Prelude.{◌≤◌};

use fields_row::{OPENING_ROOM, PART_ROOM, Place, Word, open_row, write_part};
use frame::NAME_INDEX_NEED;
use index::ROW_LENGTH;
use office::{CLOSED, ROOM, flush, put};
use page_lines::Table;

// Makes room for so many bytes behind those that wait, and says how many wait then; more than there is room for if nothing can be written any more.
fn make_room(rt: &HostRuntime, out: &[u8; ROOM], at: usize, need: usize) -> usize
    requires { need ≤ 65536 }
{
    if at <= ROOM - need {
        return at;
    }
    if flush(rt, out, at) {
        return 0;
    }
    CLOSED
}

// Puts the fields of a row.
fn put_fields<'a>(
    rt: &HostRuntime,
    table: Table<'a>,
    names: &[u8; NAME_INDEX_NEED],
    line: &'a [u8],
    kind: u32,
    row: &[u32; ROW_LENGTH],
    out: &mut [u8; ROOM],
    at: usize,
) -> usize {
    let columns = table.columns;
    let mut p = Place {
        column: 0,
        taken: 0,
        put: at,
    };
    // no `for` over the columns: a part may end within a field, and the place that it answers says where the next one begins
    while p.column < table.count {
        let put = make_room(rt, out, p.put, PART_ROOM);
        if ROOM - PART_ROOM < put {
            return CLOSED;
        }
        let from = Place { put, ..p };
        p = write_part(
            columns,
            table.count,
            names,
            line,
            table.standing,
            kind,
            row,
            out,
            from,
        );
    }
    p.put
}

// Puts the row of a line under its number.
pub(crate) fn put_row<'a>(
    rt: &HostRuntime,
    number: u64,
    word: Word,
    table: Table<'a>,
    names: &[u8; NAME_INDEX_NEED],
    line: &'a [u8],
    row: &[u32; ROW_LENGTH],
    out: &mut [u8; ROOM],
    at: usize,
) -> usize {
    let put_at = make_room(rt, out, at, OPENING_ROOM);
    if ROOM - OPENING_ROOM < put_at {
        return CLOSED;
    }
    let opened = open_row(number, word, out, put_at);
    let kind = word.kind();
    let filled = put_fields(rt, table, names, line, kind, row, out, opened);
    put(rt, out, filled, b"\n")
}
