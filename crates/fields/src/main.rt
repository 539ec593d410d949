// The table of fields: for each line of a file its number, a word and the named fields that a rule picks out, in columns for a spreadsheet; or a page of the
// lines that need a person.
#![tactic(auto)]

mod columns;
mod lines;
mod messages;
mod options;
mod rows;

ghost use Rattle.std.specs.Prelude.{◌≤◌, ◌<◌, length};
ghost use Rattle.page_lines.specs.Rules.{Holds};

use columns::{COLUMNS, collect};
use frame::{Compiled, NAME_INDEX_NEED, prepare};
use office::{Lines, arg, arg_count, fail, flush, open, read_rule, say, say_refusal};
use options::Options;
use page_lines::{Job, RESULT_AREA, RULE_AREA, Table, WORK_AREA, write_page};
use std::fs::File;

// One byte more than the longest rule: a rule that fills this is too long, whatever follows.
const RULE: usize = frame::RULE_LIMIT + 1;

// Writes the table of the lines of a file, with a rule that stands compiled, and says what went wrong.
fn write_table(
    rt: &HostRuntime,
    lines: &mut Lines<File>,
    job: Job<'_>,
    table: Table<'_>,
    work: &mut [u32; WORK_AREA],
    results: &mut [u32; RESULT_AREA],
)
    requires { Holds job.area.now job.entry job.budget }
{
    let mut out = io::large_buffer();
    let told = lines::tell_lines(rt, lines, job, table, work, results, &mut out);
    if let Some(why) = told.failed {
        fail(rt, b"fields: the lines could not be read to their end", why);
    }
    if !flush(rt, &out, told.at) {
        say(rt, b"fields: the table could not be written\n");
    }
}

// Writes the page of the lines of a file.
fn write_as_page(
    rt: &HostRuntime,
    lines: &mut Lines<File>,
    job: Job<'_>,
    table: Table<'_>,
    work: &mut [u32; WORK_AREA],
    results: &mut [u32; RESULT_AREA],
)
    requires { Holds job.area.now job.entry job.budget }
{
    if !write_page(rt, lines, job, Some(table), work, results) {
        say(rt, b"fields: the page could not be written\n");
    }
}

// Reads the standing text from its place among the arguments; with none it is empty.
fn read_text(rt: &HostRuntime, argument: Option<usize>, text: &mut [u8]) -> usize
    ensures { result ≤ length text.old }
{
    match argument {
        Some(argument) => arg(rt, argument, text),
        None => 0,
    }
}

// Looks at the names that are asked for and at the lines, with a rule that stands compiled, and writes the table or the page if there are such.
fn look_on(
    rt: &HostRuntime,
    o: Options,
    job: Job<'_>,
    work: &mut [u32; WORK_AREA],
    results: &mut [u32; RESULT_AREA],
)
    requires { Holds job.area.now job.entry job.budget × (o.at < 200) }
{
    let mut columns = [0u8; COLUMNS];
    let Some(count) = collect(rt, o.at + 2, job.names, &mut columns) else {
        return;
    };
    let Some(file) = open(rt, b"fields", o.at + 1) else {
        return;
    };
    let mut lines = Lines::new(file);
    let mut text = io::buffer();
    let n = read_text(rt, o.text, &mut text);
    let table = Table {
        columns: &columns,
        count,
        standing: &text[..n],
    };
    if o.paged {
        write_as_page(rt, &mut lines, job, table, work, results);
    } else {
        write_table(rt, &mut lines, job, table, work, results);
    }
}

// Goes on with a rule, if it is not refused. It is compiled once, and then held over all lines.
fn run(
    rt: &HostRuntime,
    o: Options,
    rule: &[u8],
    area: &mut [u32; RULE_AREA],
    work: &mut [u32; WORK_AREA],
    results: &mut [u32; RESULT_AREA],
)
    requires { (length rule.now ≤ 1001) × (o.at < 200) }
{
    let mut names = [0u8; NAME_INDEX_NEED];
    match prepare(
        rule, o.flags, false, 0, o.budget, area, work, false, &mut names,
    ) {
        Err(f) => say_refusal(rt, b"fields", f, rule),
        Ok(Compiled { entry, groups }) => {
            let job = Job {
                rule,
                area,
                names: &names,
                entry,
                groups,
                flags: o.flags,
                budget: o.budget,
            };
            look_on(rt, o, job, work, results);
        }
    }
}

// With the options, and the areas that are lent. The rule is the first line of its file, or all of it.
fn start(rt: &HostRuntime, o: Options)
    requires { o.at < 200 }
{
    let mut buffer = [0u8; RULE];
    let Some((_file, rule)) = read_rule(rt, b"fields", o.at, &mut buffer) else {
        return;
    };
    let mut area = [0u32; RULE_AREA];
    let mut work = [0u32; WORK_AREA];
    let mut results = [0u32; RESULT_AREA];
    run(rt, o, rule, &mut area, &mut work, &mut results);
}

fn main(rt: HostRuntime) {
    let Some(o) = options::read_options(&rt) else {
        messages::usage(&rt);
        return;
    };
    if arg_count(&rt) < o.at + 2 {
        messages::usage(&rt);
        return;
    }
    start(&rt, o);
}
