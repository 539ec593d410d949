// A line's part of the result area: its row, which its match writes or leaves, and four numbers behind it. A line that is too long is not matched, and
// told as refused; its row stays.
ghost use Rattle.std.specs.Prelude.{◌≡◌, ◌∷◌, [], ◌≤◌, ◌<◌, length, drop, set};
ghost use Rattle.syntax.specs.Limits.{group_limit, row_length, part_length};
ghost use Rattle.semantics.specs.Calls.{work_area_need};
ghost use Rattle.semantics.specs.Batches.{low, high, outcome_numbers};
ghost use Rattle.openings.specs.Openings.{Opens};
ghost use Rattle.frame.specs.Inputs.{between, Held};
ghost use Rattle.finding.specs.Outcomes.{outcome_of};
ghost use Rattle.finding.specs.Registers.{Fresh, Keeps};
ghost use Rattle.batch_lines.specs.Parts.{Answers, Tells};

use crate::halves::{high_half, low_half};
use finding::{Outcome, match_opened};
use frame::SUBJECT_LIMIT;
use index::ROW_LENGTH;
use openings::Opening;
use syntax::{Reason, Refusal};

// all numbers of a part; the four behind the row tell the outcome, as numbers for C
pub const PART_LENGTH: usize = ROW_LENGTH + 4;

// Writes a number, unless it stands there. It is read first because the processor foresees what is read at even distances, and has the next part near by
// when it comes to be written; what is only written waits for the memory, line after line.
fn change(numbers: &mut [u32], i: usize, value: u32)
    requires { i < length numbers.old }
    ensures { numbers.new ≡ set numbers.old i value }
{
    if numbers[i] == value {
        return;
    }
    numbers[i] = value;
}

// Writes the four numbers behind a row: the kind, the start or the reason, and the steps in two halves.
fn put(numbers: &mut [u32], kind: u32, which: u32, steps: u64)
    requires { length numbers.old ≡ 4 }
    ensures { numbers.new ≡ kind ∷ which ∷ low steps ∷ high steps ∷ [] }
{
    change(numbers, 0, kind);
    change(numbers, 1, which);
    change(numbers, 2, low_half(steps));
    change(numbers, 3, high_half(steps));
}

// Writes an outcome in four numbers.
fn tell(numbers: &mut [u32], outcome: Outcome)
    requires { length numbers.old ≡ 4 }
    ensures { numbers.new ≡ outcome_numbers (outcome_of outcome) }
{
    match outcome {
        Outcome::Matched(steps) => put(numbers, 0, 0, steps),
        Outcome::NotMatched(steps) => put(numbers, 1, 0, steps),
        Outcome::Exhausted(start, steps) => put(numbers, 2, start, steps),
        Outcome::Refused(f) => put(numbers, 3, u32::from(f.reason), 0),
    }
}

// The match of one line, which stands in the buffer from one position up to another, with its row written; or its refusal, if it is too long.
fn match_one(
    code: &[u32],
    entry: u32,
    groups: u32,
    opening: Opening,
    buffer: &[u8],
    from: usize,
    to: usize,
    budget: u32,
    regs: &mut [u32],
    work: &mut [u32],
    row: &mut [u32],
) -> Outcome
    requires { Held code.now [] work.old entry budget × Opens code.now entry budget opening × (from ≤ to) × (to ≤ length buffer.now) × (length row.old ≡ row_length) × (groups ≤ group_limit) × Fresh groups regs.old }
    ensures answers { Answers code.now (between buffer.now from to) row.old row.new entry budget result }
    ensures work_unchanged { drop (work_area_need budget) work.new ≡ drop (work_area_need budget) work.old }
    ensures keeps { Keeps code.now entry groups regs.new }
{
    if SUBJECT_LIMIT < to - from {
        return Outcome::Refused(Refusal::at(0, Reason::SubjectTooLong));
    }
    match_opened(
        code, entry, groups, opening, buffer, from, to, budget, regs, work, row,
    )
}

// The part of one line.
pub fn match_part(
    code: &[u32],
    entry: u32,
    groups: u32,
    opening: Opening,
    buffer: &[u8],
    from: usize,
    to: usize,
    budget: u32,
    regs: &mut [u32],
    work: &mut [u32],
    part: &mut [u32],
)
    requires { Held code.now [] work.old entry budget × Opens code.now entry budget opening × (from ≤ to) × (to ≤ length buffer.now) × (length part.old ≡ part_length) × (groups ≤ group_limit) × Fresh groups regs.old }
    ensures tells { Tells code.now (between buffer.now from to) part.old part.new entry budget }
    ensures work_unchanged { drop (work_area_need budget) work.new ≡ drop (work_area_need budget) work.old }
    ensures keeps { Keeps code.now entry groups regs.new }
{
    let outcome = match_one(
        code,
        entry,
        groups,
        opening,
        buffer,
        from,
        to,
        budget,
        regs,
        work,
        &mut part[..ROW_LENGTH],
    );
    tell(&mut part[ROW_LENGTH..PART_LENGTH], outcome);
}
