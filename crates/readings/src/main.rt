// The office report: how many readings a rule has of each line of a file, which they are where there are two or more, and why a line has none; as text, or
// as a page that shows the lines that need a person.
#![tactic(auto)]

mod counts;
mod lines;
mod messages;
mod telling;

ghost use Rattle.std.specs.Prelude.{◌≤◌, length};
ghost use Rattle.page_lines.specs.Rules.{Holds};

use frame::{BUDGET_LIMIT, Compiled, NAME_INDEX_NEED, prepare};
use office::{
    Counts, Lines, arg_count, asks_for_page, budget_at, fail, flags_at, open, put, read_rule,
    say_refusal,
};
use page_lines::{Job, RESULT_AREA, RULE_AREA, WORK_AREA, write_page};
use report_line::{RULE, margin_for};
use std::fs::File;

// Where the arguments stand. Those of a page stand one place further, behind the word that asks for it.
const RULE_FILE: usize = 1;

const LINES_FILE: usize = 2;

const FLAGS: usize = 3;

const BUDGET: usize = 4;

// Reports on the lines of a file, with a rule that stands compiled.
fn report_lines(
    rt: &HostRuntime,
    lines: &mut Lines<File>,
    job: Job<'_>,
    work: &mut [u32; WORK_AREA],
    results: &mut [u32; RESULT_AREA],
)
    requires { Holds job.area.now job.entry job.budget }
{
    let margin = margin_for(job.names);
    let mut counts = Counts::default();
    let mut out = io::large_buffer();
    let told = lines::tell_lines(rt, lines, job, margin, work, results, &mut counts, &mut out);
    let mut at = told.at;
    if let Some(why) = told.failed {
        fail(
            rt,
            b"readings: the lines could not be read to their end",
            why,
        );
        at = put(
            rt,
            &mut out,
            at,
            b"\nThe lines could not be read to their end. Up to there:",
        );
    }
    if !counts::summarize(rt, counts, &mut out, at) {
        messages::unwritten(rt);
    }
}

// Writes a page of the lines of a file, which are judged by all their readings.
fn report_as_page(
    rt: &HostRuntime,
    lines: &mut Lines<File>,
    job: Job<'_>,
    work: &mut [u32; WORK_AREA],
    results: &mut [u32; RESULT_AREA],
)
    requires { Holds job.area.now job.entry job.budget }
{
    if !write_page(rt, lines, job, None, work, results) {
        messages::unwritten(rt);
    }
}

// Reports with a rule, if it is not refused. It is compiled once, and then held over all lines.
fn run(
    rt: &HostRuntime,
    shift: usize,
    rule: &[u8],
    flags: u32,
    budget: u32,
    area: &mut [u32; RULE_AREA],
    work: &mut [u32; WORK_AREA],
    results: &mut [u32; RESULT_AREA],
)
    requires { (length rule.now ≤ 1001) × (shift ≤ 1) }
{
    let mut names = [0u8; NAME_INDEX_NEED];
    match prepare(rule, flags, false, 0, budget, area, work, false, &mut names) {
        Err(f) => say_refusal(rt, b"readings", f, rule),
        Ok(Compiled { entry, groups }) => {
            let Some(file) = open(rt, b"readings", LINES_FILE + shift) else {
                return;
            };
            let mut lines = Lines::new(file);
            let job = Job {
                rule,
                area,
                names: &names,
                entry,
                groups,
                flags,
                budget,
            };
            if shift == 1 {
                report_as_page(rt, &mut lines, job, work, results);
            } else {
                report_lines(rt, &mut lines, job, work, results);
            }
        }
    }
}

// With the flags and the budget, and the areas that are lent. The rule is the first line of its file, or all of it.
fn start(rt: &HostRuntime, shift: usize, flags: u32, budget: u32)
    requires { shift ≤ 1 }
{
    let mut buffer = [0u8; RULE];
    let Some((_file, rule)) = read_rule(rt, b"readings", RULE_FILE + shift, &mut buffer) else {
        return;
    };
    let mut area = [0u32; RULE_AREA];
    let mut work = [0u32; WORK_AREA];
    let mut results = [0u32; RESULT_AREA];
    run(
        rt,
        shift,
        rule,
        flags,
        budget,
        &mut area,
        &mut work,
        &mut results,
    );
}

// With arguments that stand so many places further.
fn begin(rt: &HostRuntime, shift: usize)
    requires { shift ≤ 1 }
{
    let count = arg_count(rt);
    if count <= LINES_FILE + shift || BUDGET + 1 + shift < count {
        messages::usage(rt);
        return;
    }
    let flags = flags_at(rt, FLAGS + shift);
    let budget = budget_at(rt, BUDGET + shift, BUDGET_LIMIT);
    let (Some(flags), Some(budget)) = (flags, budget) else {
        messages::usage(rt);
        return;
    };
    start(rt, shift, flags, budget);
}

fn main(rt: HostRuntime) {
    begin(&rt, usize::from(asks_for_page(&rt)));
}
