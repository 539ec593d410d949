// The lines of a file, one after another.
ghost use Rattle.page_lines.specs.Rules.{Holds};

use crate::rows::put_row;
use fields_columns::write_head;
use fields_line::ask;
use index::ROW_LENGTH;
use office::{CLOSED, Lines, ROOM, Told, report_progress};
use page_lines::{Job, LINE, RESULT_AREA, Table, WORK_AREA};
use std::fs::File;
use std::io::Error;

// Puts the row of a line, or of one that is too long and of which the beginning is there.
fn tell_line<'a>(
    rt: &HostRuntime,
    number: u64,
    job: Job<'_>,
    table: Table<'a>,
    line: &'a [u8],
    work: &mut [u32; WORK_AREA],
    results: &mut [u32; RESULT_AREA],
    out: &mut [u8; ROOM],
    at: usize,
) -> usize
    requires { Holds job.area.now job.entry job.budget }
{
    report_progress(rt, b"fields", number, b"");
    let Job { area, names, .. } = job;
    let columns = table.columns;
    let mut row = [0u32; ROW_LENGTH];
    let word = ask(
        area,
        job.entry,
        job.groups,
        job.budget,
        columns,
        table.count,
        names,
        line,
        table.standing,
        work,
        &mut row,
        results,
    );
    put_row(rt, number, word, table, names, line, &row, out, at)
}

// The file could not be read: what was told comes before the message that says so, and of no line nothing is written, not even the head.
fn break_off(rt: &HostRuntime, why: Error, number: u64, out: &[u8; ROOM], at: usize) -> Told {
    if number == 1 {
        return Told {
            at: 0,
            failed: Some(why),
        };
    }
    Told::broken_off(rt, why, out, at)
}

// Puts the head, and the rows of all lines of a file, up to its end or to where nothing can be written any more.
pub(crate) fn tell_lines(
    rt: &HostRuntime,
    lines: &mut Lines<File>,
    job: Job<'_>,
    table: Table<'_>,
    work: &mut [u32; WORK_AREA],
    results: &mut [u32; RESULT_AREA],
    out: &mut [u8; ROOM],
) -> Told
    requires { Holds job.area.now job.entry job.budget }
{
    let mut line = [0u8; LINE];
    let columns = table.columns;
    let mut at = write_head(columns, table.count, out, 0);
    // nothing says that a file ends: the lines are counted
    for number in 1..u64::MAX {
        match lines.next(&mut line) {
            Ok(Some(n)) => {
                at = tell_line(rt, number, job, table, &line[..n], work, results, out, at);
            }
            Ok(None) => return Told::ended(at),
            Err(cut) => return break_off(rt, cut.why, number, out, at),
        }
        if at == CLOSED {
            return Told::ended(at);
        }
    }
    Told::endless(at)
}
