// The page as a whole: what stands above its lines, the lines, and its end.
ghost use Rattle.page_lines.specs.Rules.{Holds};

use crate::counted::count_lines;
use crate::job::{Job, RESULT_AREA, Table, WORK_AREA};
use crate::judging::program;
use crate::shown_lines::show_lines;
use office::{CLOSED, Counts, Lines, ROOM, fail_at, flush, say};
use page::{put_columns, put_counts, put_head, put_legend, put_note, put_rule, put_tail};
use std::fs::File;
use std::io::Error;

// By which columns lines are judged, if they are.
fn put_judged(
    rt: &HostRuntime,
    out: &mut [u8; ROOM],
    at: usize,
    table: Option<Table<'_>>,
) -> usize {
    match table {
        Some(table) => put_columns(rt, out, at, table.columns, table.count),
        None => at,
    }
}

// The page up to its lines.
fn put_opening(
    rt: &HostRuntime,
    job: Job<'_>,
    table: Option<Table<'_>>,
    counts: Counts,
    out: &mut [u8; ROOM],
) -> usize {
    let by_fields = table.is_some();
    let mut p = put_head(rt, out, 0);
    p = put_counts(
        rt,
        out,
        p,
        by_fields,
        counts.lines,
        counts.once,
        counts.ambiguous,
        counts.undecided,
        counts.unmatched,
        counts.exhausted,
        counts.too_long,
    );
    p = put_rule(rt, out, p, job.rule, job.flags, job.budget);
    p = put_legend(rt, out, p, job.names, job.groups);
    p = put_judged(rt, out, p, table);
    put_note(rt, out, p, by_fields, counts.lines, counts.once)
}

// Says why the lines could not be read to their end.
fn say_cut_short(rt: &HostRuntime, table: Option<Table<'_>>, why: Error) {
    let what = b"the lines could not be read to their end";
    fail_at(rt, program(table), what, why);
}

// Counts the lines of a file, if they can be read to their end, and again. Where that cannot be, it is said why.
fn count_first(
    rt: &HostRuntime,
    lines: &mut Lines<File>,
    job: Job<'_>,
    table: Option<Table<'_>>,
    work: &mut [u32; WORK_AREA],
    results: &mut [u32; RESULT_AREA],
) -> Option<Counts>
    requires { Holds job.area.now job.entry job.budget }
{
    // before the lines are counted, which may take long
    if let Err(why) = lines.rewind() {
        let what = b"a page needs lines that can be read twice";
        fail_at(rt, program(table), what, why);
        return None;
    }
    match count_lines(rt, lines, job, table, work, results) {
        Ok(counts) => {
            lines.rewind().ok()?;
            Some(counts)
        }
        Err(why) => {
            say_cut_short(rt, table, why);
            None
        }
    }
}

// Shows the lines that need a person, and ends the page. It says whether the page could be written.
fn show_and_end(
    rt: &HostRuntime,
    lines: &mut Lines<File>,
    job: Job<'_>,
    table: Option<Table<'_>>,
    work: &mut [u32; WORK_AREA],
    results: &mut [u32; RESULT_AREA],
    counted: u64,
    out: &mut [u8; ROOM],
) -> bool
    requires { Holds job.area.now job.entry job.budget }
{
    let shown = show_lines(rt, lines, job, table, work, results, out);
    if shown.told.at == CLOSED {
        return false;
    }
    if let Some(why) = shown.told.failed {
        say_cut_short(rt, table, why);
    }
    if shown.lines != counted {
        say(rt, program(table));
        say(rt, b": the lines changed while the page was written\n");
    }
    let end = put_tail(rt, out, shown.told.at, counted, shown.lines);
    flush(rt, out, end)
}

// Writes a page of the lines of a file, with a rule that stands compiled: judged by the columns of a table, or by all their readings. It says whether all
// of it could be written.
pub fn write_page(
    rt: &HostRuntime,
    lines: &mut Lines<File>,
    job: Job<'_>,
    table: Option<Table<'_>>,
    work: &mut [u32; WORK_AREA],
    results: &mut [u32; RESULT_AREA],
) -> bool
    requires { Holds job.area.now job.entry job.budget }
{
    let mut out = io::large_buffer();
    let Some(counts) = count_first(rt, lines, job, table, work, results) else {
        // nothing is written, and why was said
        return true;
    };
    let opened = put_opening(rt, job, table, counts, &mut out);
    if !flush(rt, &out, opened) {
        return false;
    }
    show_and_end(rt, lines, job, table, work, results, counts.lines, &mut out)
}
