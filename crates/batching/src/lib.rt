// A day's lines in one call (02, request h): one rule, a buffer of lines split at 0A, and for each line its part of the result area, a row and then
// four numbers that tell its outcome. `match_lines` is the call. Its inside `match_lines_held`, for a rule that stands compiled, stands in `batch_lines`.
// The rule is compiled once, and what was lent is cleared once.
//
// The buffer is gone over twice. That the lines outnumber the parts is a refusal in its place among the others, before the rule is read, so the lines are
// counted first (`counting`): a small part of what their matches cost. No line counts for the refusals of the call, since one that is too long is told in its
// own part.
#![tactic(auto)]

ghost use Rattle.semantics.specs.Batches.{batch_call};
ghost use Rattle.frame.specs.Inputs.{call_of, Returned};
ghost use Rattle.batching.specs.Batches.{batch_of};

pub use batch_lines::{PART_LENGTH, high_half, low_half, match_lines_held};
pub use counting::count_lines;
use frame::{RULE_AREA_NEED, finish, prepare};
use syntax::Refusal;

// Matches a rule against each line of a buffer, and tells how many there are. The parts of the lines are written into the results, each with its line's
// outcome, and the name index is filled.
pub fn match_lines(
    rule: &[u8],
    flags: u32,
    buffer: &[u8],
    budget: u32,
    rule_area: &mut [u32],
    work_area: &mut [u32],
    results: &mut [u32],
    names: &mut [u8],
) -> Result<usize, Refusal>
    ensures { Returned (batch_call (call_of rule.now flags buffer.now budget rule_area.old work_area.old results.old names.old)) (batch_of result) rule_area.new work_area.new results.new names.new }
{
    let lines = count_lines(buffer);
    let short = results.len() / PART_LENGTH < lines;
    // no line counts for the call itself: one that is too long is told in its own part
    let compiled = prepare(
        rule, flags, false, 0, budget, rule_area, work_area, short, names,
    )?;
    match_lines_held(
        &rule_area[..RULE_AREA_NEED],
        compiled.entry,
        compiled.groups,
        buffer,
        budget,
        work_area,
        results,
    );
    finish(rule_area, work_area, budget);
    Ok(lines)
}
