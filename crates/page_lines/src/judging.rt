// The word for a line: that of a table, or that of the report.
ghost use Rattle.std.specs.Prelude.{◌≤◌, length};
ghost use Rattle.page_lines.specs.Rules.{Holds};

use crate::job::{Job, RESULT_AREA, Table, WORK_AREA};
use fields_line::ask;
use fields_row::Word;
use index::ROW_LENGTH;
use listing::{Listing, list_held};

// The program that writes the page.
pub(crate) fn program(table: Option<Table<'_>>) -> &'static [u8] {
    if table.is_some() {
        b"fields"
    } else {
        b"readings"
    }
}

// The word for a line by the listing of all its readings, as the report has it.
fn word_of(listing: Listing) -> Word {
    match listing {
        Listing::Complete(0, _) => Word::NotMatched,
        Listing::Complete(1, _) => Word::Matched,
        Listing::Complete(_, _) => Word::Ambiguous,
        Listing::Full(_, _) => Word::Ambiguous,
        Listing::Exhausted(_, _, _) => Word::Exhausted,
    }
}

// The word for a line by its fields.
fn word_by_fields<'a>(
    job: Job<'_>,
    table: Table<'a>,
    line: &'a [u8],
    work: &mut [u32; WORK_AREA],
    results: &mut [u32; RESULT_AREA],
) -> Word
    requires { Holds job.area.now job.entry job.budget }
{
    let Job { area, names, .. } = job;
    let columns = table.columns;
    let mut row = [0u32; ROW_LENGTH];
    ask(
        area,
        job.entry,
        job.groups,
        job.budget,
        columns,
        table.count,
        names,
        line,
        table.standing,
        work,
        &mut row,
        results,
    )
}

// The word for a line: that of the table, if there is one, or that of the report.
pub(crate) fn judge<'a>(
    job: Job<'_>,
    table: Option<Table<'a>>,
    line: &'a [u8],
    work: &mut [u32; WORK_AREA],
    results: &mut [u32; RESULT_AREA],
) -> Word
    requires holds { Holds job.area.now job.entry job.budget }
    requires line_len_bound { length line.now ≤ 65535 }
{
    if let Some(table) = table {
        return word_by_fields(job, table, line, work, results);
    }
    let area = job.area;
    let listing = list_held(area, job.entry, job.groups, line, job.budget, work, results);
    word_of(listing)
}
