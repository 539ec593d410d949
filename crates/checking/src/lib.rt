// The check of a proposed reading (02, request m): two bytes name a start, and the path that the choices behind them tell is followed from there (`following`).
//
// `check` is the call, which compiles its rule and clears what it was lent. `check_held` is its inside, for a rule that stands compiled, and costs the path and the
// writing of all registers.
#![tactic(auto)]

mod verdicts;

ghost use Rattle.semantics.specs.Checks.{check_call};
ghost use Rattle.frame.specs.Inputs.{call_of, Returned};
ghost use Rattle.checking.specs.Verdicts.{verdict_of};

use frame::{RULE_AREA_NEED, finish, prepare};
use index::ROW_LENGTH;
use syntax::Refusal;
pub use verdicts::check_held;

// What a check tells: a reading or none, and the steps; or the start, if the budget was used up, and the steps.
#[derive(Clone, Copy, Debug, PartialEq, Eq)]
pub enum Verdict {
    Reading(u64),
    Nothing(u64),
    Exhausted(u32, u64),
}

// Checks a reading that is proposed for a rule and a subject: the start as two bytes, then a byte for each choice. The row of a reading is written into the
// results, and the name index is filled.
pub fn check(
    rule: &[u8],
    flags: u32,
    subject: &[u8],
    budget: u32,
    proposal: &[u8],
    rule_area: &mut [u32],
    work_area: &mut [u32],
    results: &mut [u32],
    names: &mut [u8],
) -> Result<Verdict, Refusal>
    ensures { Returned (check_call proposal.now (call_of rule.now flags subject.now budget rule_area.old work_area.old results.old names.old)) (verdict_of result) rule_area.new work_area.new results.new names.new }
{
    let short = results.len() < ROW_LENGTH;
    let compiled = prepare(
        rule,
        flags,
        true,
        subject.len(),
        budget,
        rule_area,
        work_area,
        short,
        names,
    )?;
    let told = check_held(
        &rule_area[..RULE_AREA_NEED],
        compiled.entry,
        subject,
        budget,
        proposal,
        results,
    );
    finish(rule_area, work_area, budget);
    Ok(told)
}
