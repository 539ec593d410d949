// The lines of a file that need a person.
ghost use Rattle.std.specs.Prelude.{◌≤◌, length};
ghost use Rattle.page_lines.specs.Rules.{Holds};

use crate::job::{Job, LINE, RESULT_AREA, Table, WORK_AREA};
use crate::judging::{judge, program};
use crate::shown_parts::{show_listing, show_reason};
use explaining::{Explanation, explain_held};
use fields_row::Word;
use listing::list_held;
use office::{CLOSED, Lines, ROOM, Told, report_progress};
use page::{put_card, put_card_end};
use report_line::RULE;
use std::fs::File;

// Shows a line that has no readings, and why it does not fit.
fn show_unmatched(
    rt: &HostRuntime,
    job: Job<'_>,
    line: &[u8],
    work: &mut [u32; WORK_AREA],
    out: &mut [u8; ROOM],
    at: usize,
) -> usize
    requires holds { Holds job.area.now job.entry job.budget }
    requires line_len_bound { length line.now ≤ 65535 }
{
    let area = job.area;
    let mut marks = [0u8; RULE];
    let told = explain_held(
        area,
        job.entry,
        job.rule.len(),
        line,
        job.budget,
        work,
        &mut marks,
    );
    match told {
        Explanation::NotMatched(_, _, closest) => show_reason(
            rt,
            out,
            at,
            job.rule,
            job.flags,
            &marks,
            line,
            closest.start,
            closest.at,
        ),
        // a line that has no readings is not matched
        Explanation::Matched(_) => at,
        Explanation::Exhausted(_, _) => at,
    }
}

// Shows a line with all its readings.
fn show_read(
    rt: &HostRuntime,
    job: Job<'_>,
    line: &[u8],
    work: &mut [u32; WORK_AREA],
    results: &mut [u32; RESULT_AREA],
    out: &mut [u8; ROOM],
    at: usize,
) -> usize
    requires holds { Holds job.area.now job.entry job.budget }
    requires line_len_bound { length line.now ≤ 65535 }
{
    let area = job.area;
    let listing = list_held(area, job.entry, job.groups, line, job.budget, work, results);
    show_listing(rt, out, at, job.names, line, results, listing)
}

// Shows a line under its number by its word, if it needs a person.
fn show_word(
    rt: &HostRuntime,
    word: Word,
    job: Job<'_>,
    line: &[u8],
    work: &mut [u32; WORK_AREA],
    results: &mut [u32; RESULT_AREA],
    number: u64,
    out: &mut [u8; ROOM],
    at: usize,
) -> usize
    requires holds { Holds job.area.now job.entry job.budget }
    requires line_len_bound { length line.now ≤ 65535 }
{
    match word {
        Word::Matched => at,
        Word::Ambiguous => {
            let p = put_card(rt, out, at, b"a", number, b"ambiguous");
            show_read(rt, job, line, work, results, out, p)
        }
        Word::Undecided => {
            let p = put_card(rt, out, at, b"e", number, b"undecided");
            show_read(rt, job, line, work, results, out, p)
        }
        Word::NotMatched => {
            let p = put_card(rt, out, at, b"n", number, b"not matched");
            let q = show_unmatched(rt, job, line, work, out, p);
            put_card_end(rt, out, q)
        }
        Word::Exhausted => {
            let p = put_card(rt, out, at, b"e", number, b"exhausted");
            show_read(rt, job, line, work, results, out, p)
        }
        // a line that is too long is not judged
        Word::TooLong => at,
    }
}

// Shows a line under its number, if it needs a person.
fn show_line<'a>(
    rt: &HostRuntime,
    job: Job<'_>,
    table: Option<Table<'a>>,
    line: &'a [u8],
    work: &mut [u32; WORK_AREA],
    results: &mut [u32; RESULT_AREA],
    number: u64,
    out: &mut [u8; ROOM],
    at: usize,
) -> usize
    requires holds { Holds job.area.now job.entry job.budget }
    requires line_len_bound { length line.now ≤ 65536 }
{
    report_progress(rt, program(table), number, b" shown");
    if line.len() == LINE {
        let p = put_card(rt, out, at, b"e", number, b"too long, over 65535 bytes");
        return put_card_end(rt, out, p);
    }
    let word = judge(job, table, line, work, results);
    show_word(rt, word, job, line, work, results, number, out, at)
}

// How many lines were gone through, and how that ended.
#[derive(Drop)]
pub struct Shown {
    pub lines: u64,
    pub told: Told,
}

// Shows the lines of a file that need a person, up to its end or to where nothing can be written any more.
pub(crate) fn show_lines(
    rt: &HostRuntime,
    lines: &mut Lines<File>,
    job: Job<'_>,
    table: Option<Table<'_>>,
    work: &mut [u32; WORK_AREA],
    results: &mut [u32; RESULT_AREA],
    out: &mut [u8; ROOM],
) -> Shown
    requires { Holds job.area.now job.entry job.budget }
{
    let mut line = [0u8; LINE];
    let mut at: usize = 0;
    // nothing says that a file ends: the lines are counted
    for before in 0..u64::MAX {
        match lines.next(&mut line) {
            Ok(Some(n)) => {
                at = show_line(
                    rt,
                    job,
                    table,
                    &line[..n],
                    work,
                    results,
                    before + 1,
                    out,
                    at,
                );
            }
            Ok(None) => {
                return Shown {
                    lines: before,
                    told: Told::ended(at),
                };
            }
            Err(cut) => {
                return Shown {
                    lines: before,
                    told: Told::broken_off(rt, cut.why, out, at),
                };
            }
        }
        if at == CLOSED {
            return Shown {
                lines: before + 1,
                told: Told::ended(at),
            };
        }
    }
    Shown {
        lines: u64::MAX,
        told: Told::endless(at),
    }
}
