// The marks: for each byte of the rule, as far as there is room, 1 where an item begins that failed at the closest attempt's position in that attempt,
// else 0. Its start is walked once more, and each failure that it tells there is marked.
ghost use Rattle.std.specs.Prelude.{◌≡◌, List, [], ℕ, ◌≤◌, ◌<◌, ◌^◌, length};
ghost use Rattle.syntax.specs.Limits.{registers};
ghost use Rattle.syntax.specs.Tree.{Rule};
ghost use Rattle.semantics.specs.Walk.{Trace};
ghost use Rattle.semantics.specs.Explanations.{failures, marks as marks_of};
ghost use Rattle.machine.specs.Moves.{go};
ghost use Rattle.machine.specs.Theorem.{Stands, Clear};
ghost use Rattle.failures.specs.Accounts.{marked_if, marked_by, marking};
ghost use Rattle.greatest.specs.Best.{failure_of, Finds};
ghost use Rattle.failures.specs.Walks.{Plain, Fruitless, Sized};

use crate::walking::{try_next, walk_all};
use greatest::{Best, Failed};
use machine::start;
use plain::Told;

// Marks the place of an item that failed at the position `there`, if that is `at` and there is room for it.
fn mark(marks: &mut [u8], at: u32, there: u32, place: u32)
    ensures { marks.new ≡ marked_if at marks.old place there }
{
    if there != at {
        return;
    }
    let place = place as usize;
    if marks.len() <= place {
        return;
    }
    marks[place] = 1;
}

// Marks what a move told. The note of a `(?!` is the position where it was entered.
fn mark_told(marks: &mut [u8], at: u32, told: Told)
    ensures { marks.new ≡ marked_by at marks.old told }
{
    match told {
        Told::Item(Some(missed)) => mark(marks, at, missed.at, missed.place),
        Told::Item(None) => {}
        Told::Refuted(refuted) => mark(marks, at, refuted.note, refuted.place),
    }
}

// Marks what failed at the position `at` in the walk from `begin`.
fn mark_start(
    code: &[u32],
    sub: &[u8],
    regs: &mut [u32],
    work: &mut [u32],
    entry: u32,
    begin: u32,
    at: u32,
    budget: u32,
    marks: &mut [u8],
)
    requires regs_len { (length regs.old ≡ registers) × (length sub.now < 2 ^ 31) × (length code.now < 2 ^ 32) }
    requires by_index { (first : List ℕ) × (t : Trace) × (final : List ℕ) × Plain code.now sub.now (marking at) final (length work.old) budget first marks.old (go entry begin regs.old []) t }
    ensures { (first : List ℕ) (t : Trace) (final : List ℕ) → Plain code.now sub.now (marking at) final (length work.old) budget first marks.old (go entry begin regs.old []) t
        → marks.new ≡ final }
{
    let mut rest = budget;
    let mut head = start(entry, begin);
    while head.live {
        let turn = try_next(code, sub, regs, work, head, head.at);
        mark_told(marks, at, turn.told);
        head = turn.head;
        rest -= 1;
    }
}

// The marks of an attempt, in bytes that may have had anything.
fn mark_attempt(
    code: &[u32],
    sub: &[u8],
    regs: &mut [u32],
    work: &mut [u32],
    entry: u32,
    budget: u32,
    attempt: Failed,
    marks: &mut [u8],
)
    requires sized { Sized code.now sub.now work.old budget × Clear regs.old × (attempt.start ≤ length sub.now) }
    requires stands { (x : Rule) × Stands code.now x entry }
    requires fruitless { (x : Rule) → Stands code.now x entry → Fruitless sub.now x budget }
    ensures { (x : Rule) → Stands code.now x entry → marks.new ≡ marks_of sub.now x (failure_of attempt) (length marks.old) }
{
    marks.fill(0);
    mark_start(
        code,
        sub,
        regs,
        work,
        entry,
        attempt.start,
        attempt.at,
        budget,
        marks,
    );
}

// The failures that are told of a line that isn't matched, with the closest attempt's marks in bytes that may have had anything.
pub fn find_failures(
    code: &[u32],
    sub: &[u8],
    regs: &mut [u32],
    work: &mut [u32],
    entry: u32,
    budget: u32,
    marks: &mut [u8],
) -> Best
    requires sized { Sized code.now sub.now work.old budget × Clear regs.old }
    requires stands { (x : Rule) × Stands code.now x entry }
    requires fruitless { (x : Rule) → Stands code.now x entry → Fruitless sub.now x budget }
    ensures { (x : Rule) → Stands code.now x entry → Finds (failures sub.now x) result × (marks.new ≡ marks_of sub.now x (failure_of result.closest) (length marks.old)) }
{
    let best = walk_all(code, sub, regs, work, entry, budget);
    mark_attempt(code, sub, regs, work, entry, budget, best.closest, marks);
    best
}
