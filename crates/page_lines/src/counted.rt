// How many lines of a file there are of each kind.
ghost use Rattle.std.specs.Prelude.{◌≤◌, length};
ghost use Rattle.page_lines.specs.Rules.{Holds};

use crate::job::{Job, LINE, RESULT_AREA, Table, WORK_AREA};
use crate::judging::{judge, program};
use fields_row::Word;
use office::{Counts, Lines, count, report_progress};
use std::fs::File;
use std::io;
use std::io::ErrorKind;

// Counts a line by its word.
fn count_word(counts: &mut Counts, word: Word) {
    match word {
        Word::Matched => count(&mut counts.once),
        Word::Ambiguous => count(&mut counts.ambiguous),
        Word::Undecided => count(&mut counts.undecided),
        Word::NotMatched => count(&mut counts.unmatched),
        Word::Exhausted => count(&mut counts.exhausted),
        Word::TooLong => count(&mut counts.too_long),
    }
}

// Counts a line.
fn count_line<'a>(
    rt: &HostRuntime,
    job: Job<'_>,
    table: Option<Table<'a>>,
    line: &'a [u8],
    work: &mut [u32; WORK_AREA],
    results: &mut [u32; RESULT_AREA],
    counts: &mut Counts,
)
    requires holds { Holds job.area.now job.entry job.budget }
    requires line_len_bound { length line.now ≤ 65536 }
{
    count(&mut counts.lines);
    report_progress(rt, program(table), counts.lines, b" counted");
    if line.len() == LINE {
        count(&mut counts.too_long);
        return;
    }
    let word = judge(job, table, line, work, results);
    count_word(counts, word);
}

// Counts all lines of a file.
pub(crate) fn count_lines(
    rt: &HostRuntime,
    lines: &mut Lines<File>,
    job: Job<'_>,
    table: Option<Table<'_>>,
    work: &mut [u32; WORK_AREA],
    results: &mut [u32; RESULT_AREA],
) -> io::Result<Counts>
    requires { Holds job.area.now job.entry job.budget }
{
    let mut line = [0u8; LINE];
    let mut counts = Counts::default();
    // nothing says that a file ends: the lines are counted
    for _ in 0..u64::MAX {
        match lines.next(&mut line) {
            Ok(Some(n)) => count_line(rt, job, table, &line[..n], work, results, &mut counts),
            Ok(None) => return Ok(counts),
            Err(cut) => return Err(cut.why),
        }
    }
    Err(io::Error::from(ErrorKind::TimedOut))
}
