// Why a line does not fit (02, request f): the furthest failure, the closest attempt, and which items failed where that one ended. A line that is
// matched, or whose walk is exhausted, is told as a match tells it.
//
// `explain` is the call, which compiles its rule and clears what it was lent. `explain_held` is its inside, for a rule that stands compiled. It costs a
// match; where that says "not matched", one plain walk of all starts more, and one of the closest attempt's start. The plain walks go over the same
// events as the match's, so that they reach no end and the budget and the work area are enough for them: each is at a part of a trace that the match
// has been through.
#![tactic(auto)]

ghost use Rattle.std.specs.Prelude.{◌≡◌, min, length, drop};
ghost use Rattle.semantics.specs.Calls.{work_area_need, explain_call};
ghost use Rattle.frame.specs.Inputs.{call_of, Returned, Held};
ghost use Rattle.explaining.specs.Explanations.{explanation_of, Unmatched, Explains};

use failures::{Failed, find_failures};
use finding::{Outcome, match_held};
use frame::{REGISTERS, RULE_AREA_NEED, WORK_PER_STEP, finish, prepare};
use index::{ROW_LENGTH, UNSET};
use syntax::Refusal;

// What an explanation tells: matched, with the steps; or not matched, with the steps, the furthest failure and the closest attempt; or the start at
// which the budget was used up, and the steps.
#[derive(Clone, Copy)]
pub enum Explanation {
    Matched(u64),
    NotMatched(u64, Failed, Failed),
    Exhausted(u32, u64),
}

// What is told of a line that a match did not match in so many steps.
fn tell_why(
    code: &[u32],
    entry: u32,
    rule_len: usize,
    subject: &[u8],
    budget: u32,
    work: &mut [u32],
    marks: &mut [u8],
    steps: u64,
) -> Explanation
    requires held { Held code.now subject.now work.old entry budget }
    requires unmatched { Unmatched code.now subject.now entry budget steps }
    ensures explains { Explains code.now subject.now (min rule_len (length marks.old)) marks.old marks.new entry budget result }
    ensures work_unchanged { drop (work_area_need budget) work.new ≡ drop (work_area_need budget) work.old }
{
    let mut regs = [UNSET; REGISTERS];
    let need = WORK_PER_STEP * budget as usize;
    // as many bytes of the rule as there is room to mark
    let many = rule_len.min(marks.len());
    let best = find_failures(
        code,
        subject,
        &mut regs,
        &mut work[..need],
        entry,
        budget,
        &mut marks[..many],
    );
    Explanation::NotMatched(steps, best.furthest, best.closest)
}

// Explains a rule that stands compiled, of a text of `rule_len` bytes.
pub fn explain_held(
    code: &[u32],
    entry: u32,
    rule_len: usize,
    subject: &[u8],
    budget: u32,
    work: &mut [u32],
    marks: &mut [u8],
) -> Explanation
    requires { Held code.now subject.now work.old entry budget }
    ensures explains { Explains code.now subject.now (min rule_len (length marks.old)) marks.old marks.new entry budget result }
    ensures work_unchanged { drop (work_area_need budget) work.new ≡ drop (work_area_need budget) work.old }
{
    let mut row = [UNSET; ROW_LENGTH];
    match match_held(code, entry, subject, budget, work, &mut row) {
        Outcome::Matched(steps) => Explanation::Matched(steps),
        Outcome::NotMatched(steps) => tell_why(
            code, entry, rule_len, subject, budget, work, marks, steps,
        ),
        Outcome::Exhausted(begin, steps) => Explanation::Exhausted(begin, steps),
        // a rule that stands is not refused
        Outcome::Refused(_why) => unreachable!(),
    }
}

// Explains why a rule does not fit a subject. The marks are written if it does not, and the name index is filled.
pub fn explain(
    rule: &[u8],
    flags: u32,
    subject: &[u8],
    budget: u32,
    rule_area: &mut [u32],
    work_area: &mut [u32],
    names: &mut [u8],
    marks: &mut [u8],
) -> Result<Explanation, Refusal>
    ensures { Returned (explain_call (call_of rule.now flags subject.now budget rule_area.old work_area.old marks.old names.old)) (explanation_of result) rule_area.new work_area.new marks.new names.new }
{
    // No result area is lent, so that none is too short.
    let short = false;
    let compiled = prepare(
        rule,
        flags,
        false,
        subject.len(),
        budget,
        rule_area,
        work_area,
        short,
        names,
    )?;
    let told = explain_held(
        &rule_area[..RULE_AREA_NEED],
        compiled.entry,
        rule.len(),
        subject,
        budget,
        work_area,
        marks,
    );
    finish(rule_area, work_area, budget);
    Ok(told)
}
