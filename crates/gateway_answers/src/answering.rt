// The answer to one line.
ghost use Rattle.std.specs.Prelude.{◌+◌, ◌≤◌, length};
ghost use Rattle.syntax.specs.Limits.{row_length, group_limit};
ghost use Rattle.finding.specs.Outcomes.{outcome_of};
ghost use Rattle.gateway_text.specs.Limits.{answer_room};
ghost use Rattle.gateway_text.specs.Promises.{WroteLine};
ghost use Rattle.gateway_answers.specs.Promises.{Lent, told_line, Answered, Left};

use finding::{Outcome, match_held};
use gateway_text::{
    write_exhausted, write_matched, write_not_matched, write_refusal, write_too_long,
};
use index::ROW_LENGTH;

pub const BUDGET: u32 = 1000;

// How many bytes a line may have.
pub const LINE_LIMIT: usize = 256;

// Writes what a match tells. The row counts only if it is one that matched.
fn tell(outcome: Outcome, row: &[u32], groups: u32, out: &mut [u8], at: usize) -> usize
    requires { (row_length ≤ length row.now) × (groups ≤ group_limit) × (at + answer_room ≤ length out.old) }
    ensures { WroteLine out.old at (told_line groups (outcome_of outcome) row.now) out.new result }
{
    match outcome {
        Outcome::Matched(_steps) => write_matched(row, groups, out, at),
        Outcome::NotMatched(_steps) => write_not_matched(out, at),
        Outcome::Exhausted(start, _steps) => write_exhausted(start, out, at),
        Outcome::Refused(f) => write_refusal(f, out, at),
    }
}

// Writes the answer to a line, by a rule that stands compiled and has so many groups.
pub fn answer(
    code: &[u32],
    entry: u32,
    groups: u32,
    line: &[u8],
    work_area: &mut [u32],
    results: &mut [u32],
    out: &mut [u8],
    at: usize,
) -> usize
    requires lent { Lent code.now entry groups work_area.old results.old }
    requires answer_room_in_bounds { at + answer_room ≤ length out.old }
    ensures answered { Answered code.now entry groups line.now out.old at out.new result }
    ensures left { Left code.now entry line.now work_area.old results.old work_area.new results.new }
{
    if LINE_LIMIT < line.len() {
        return write_too_long(out, at);
    }
    let outcome = match_held(code, entry, line, BUDGET, work_area, results);
    tell(outcome, &results[..ROW_LENGTH], groups, out, at)
}
