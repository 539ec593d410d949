// The lines of a file, one after another.
ghost use Rattle.std.specs.Prelude.{◌≤◌, length};
ghost use Rattle.page_lines.specs.Rules.{Holds};

use crate::telling::{is_unmatched, tell};
use explaining::{Explanation, explain_held};
use listing::list_held;
use office::{CLOSED, Counts, Lines, ROOM, Told, count, put, put_number, report_progress};
use page_lines::{Job, LINE, RESULT_AREA, WORK_AREA};
use report_line::{RULE, put_reason};
use std::fs::File;

// Tells of a line that has no readings, and why it does not fit.
fn tell_unmatched(
    rt: &HostRuntime,
    job: Job<'_>,
    margin: usize,
    line: &[u8],
    work: &mut [u32; WORK_AREA],
    counts: &mut Counts,
    out: &mut [u8; ROOM],
    at: usize,
) -> usize
    requires holds { Holds job.area.now job.entry job.budget }
    requires line_len_bound { length line.now ≤ 65535 }
{
    count(&mut counts.unmatched);
    if report::is_odd(line) {
        count(&mut counts.dotted);
    }
    let p = put(rt, out, at, b"not matched\n");
    let area = job.area;
    let mut marks = [0u8; RULE];
    let told = explain_held(
        area,
        job.entry,
        job.rule.len(),
        line,
        job.budget,
        work,
        &mut marks,
    );
    match told {
        Explanation::NotMatched(_, _, closest) => put_reason(
            rt,
            out,
            p,
            margin,
            job.rule,
            job.flags,
            &marks,
            line,
            closest.start,
            closest.at,
        ),
        // a line that has no readings is not matched
        Explanation::Matched(_) => p,
        Explanation::Exhausted(_, _) => p,
    }
}

// Tells of a line under its number, from 1, or of one that is too long and of which the beginning is there.
fn tell_line(
    rt: &HostRuntime,
    job: Job<'_>,
    margin: usize,
    line: &[u8],
    work: &mut [u32; WORK_AREA],
    results: &mut [u32; RESULT_AREA],
    counts: &mut Counts,
    out: &mut [u8; ROOM],
    at: usize,
) -> usize
    requires holds { Holds job.area.now job.entry job.budget }
    requires line_len_bound { length line.now ≤ 65536 }
{
    count(&mut counts.lines);
    let number = counts.lines;
    report_progress(rt, b"readings", number, b"");
    let p = put_number(rt, out, at, b"line ", number, b": ");
    if line.len() == LINE {
        count(&mut counts.too_long);
        return put(rt, out, p, b"too long, over 65535 bytes\n");
    }
    let area = job.area;
    let r = list_held(area, job.entry, job.groups, line, job.budget, work, results);
    if is_unmatched(r) {
        return tell_unmatched(rt, job, margin, line, work, counts, out, p);
    }
    tell(rt, out, p, margin, job.names, line, results, r, counts)
}

// Tells of all lines of a file, up to its end or to where nothing can be written any more.
pub(crate) fn tell_lines(
    rt: &HostRuntime,
    lines: &mut Lines<File>,
    job: Job<'_>,
    margin: usize,
    work: &mut [u32; WORK_AREA],
    results: &mut [u32; RESULT_AREA],
    counts: &mut Counts,
    out: &mut [u8; ROOM],
) -> Told
    requires { Holds job.area.now job.entry job.budget }
{
    let mut line = [0u8; LINE];
    let mut at: usize = 0;
    // nothing says that a file ends: the lines are counted
    for _ in 0..u64::MAX {
        match lines.next(&mut line) {
            Ok(Some(n)) => {
                at = tell_line(rt, job, margin, &line[..n], work, results, counts, out, at);
            }
            Ok(None) => return Told::ended(at),
            Err(cut) => return Told::broken_off(rt, cut.why, out, at),
        }
        if at == CLOSED {
            return Told::ended(at);
        }
    }
    Told::endless(at)
}
