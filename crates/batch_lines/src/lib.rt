// The lines of a buffer, one after another, over a rule that stands compiled (02, request h), and for each its part of the result area: a row, and then
// four numbers that tell its outcome.
//
// The rule's opening is found once, and the registers are written once. Beyond that a line costs the search for its end, its match and four stores, and its row
// only if it is matched: whatever stands before it, so that the whole grows in proportion to the buffer.
//
// Before each line the parts of those before it stand, everything behind them is as it was lent, and what is left of the buffer has the lines that are
// left. What a line's match leaves in the work area is never looked at by the next, so that nothing is cleared between them and no line can change what
// is told of another.
#![tactic(auto)]

mod halves;
mod line_parts;

ghost use Rattle.std.specs.Prelude.{◌≡◌, [], ◌≤◌, length, drop};
ghost use Rattle.syntax.specs.Limits.{group_limit};
ghost use Rattle.syntax.specs.Tree.{Rule};
ghost use Rattle.syntax.specs.WellFormed.{Proper};
ghost use Rattle.semantics.specs.Calls.{work_area_need};
ghost use Rattle.semantics.specs.Batches.{lines_of, parts_need};
ghost use Rattle.machine.specs.Theorem.{Stands};
ghost use Rattle.frame.specs.Inputs.{Held};
ghost use Rattle.batch_lines.specs.Parts.{Fills};

use frame::REGISTERS;
pub use halves::{high_half, low_half};
use index::UNSET;
pub use line_parts::PART_LENGTH;
use line_parts::match_part;
use openings::find_opening;
use text::line_end;

// Writes the parts of all lines of a buffer, by a rule that stands compiled and has so many groups. The registers are written once, and then only those of
// the rule's groups for each line.
pub fn match_lines_held(
    code: &[u32],
    entry: u32,
    groups: u32,
    buffer: &[u8],
    budget: u32,
    work: &mut [u32],
    results: &mut [u32],
)
    requires held { Held code.now [] work.old entry budget × (parts_need (lines_of buffer.now) ≤ length results.old) × (groups ≤ group_limit) }
    requires stands { (x : Rule) × Stands code.now x entry × Proper groups x }
    ensures fills { Fills code.now (lines_of buffer.now) results.old results.new entry budget }
    ensures work_unchanged { drop (work_area_need budget) work.new ≡ drop (work_area_need budget) work.old }
{
    let opening = find_opening(code, entry, budget, buffer.len());
    let mut regs = [UNSET; REGISTERS];
    let mut from: usize = 0;
    let mut at: usize = 0;
    // two places step side by side, in the buffer and in the results, and a line is named by its ends: an iterator over lines would be no plainer
    while from < buffer.len() {
        let to = line_end(buffer, from);
        let behind = at + PART_LENGTH;
        match_part(
            code,
            entry,
            groups,
            opening,
            buffer,
            from,
            to,
            budget,
            &mut regs,
            work,
            &mut results[at..behind],
        );
        at = behind;
        from = to + 1;
    }
}
