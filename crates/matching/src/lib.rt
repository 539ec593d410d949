// The match: `match_line` is the call, which compiles its rule and clears what it was lent. `match_held` is its inside, for a rule that stands compiled
// (`finding`).
#![tactic(auto)]

ghost use Rattle.semantics.specs.Calls.{match_call};
ghost use Rattle.frame.specs.Inputs.{call_of, Returned};
ghost use Rattle.finding.specs.Outcomes.{outcome_of};

pub use finding::Outcome;
use finding::match_held;
use frame::{RULE_AREA_NEED, finish, prepare};
use index::ROW_LENGTH;

// Matches a rule against a subject. A row for the first match is written into the results, and the name index is filled.
pub fn match_line(
    rule: &[u8],
    flags: u32,
    subject: &[u8],
    budget: u32,
    rule_area: &mut [u32],
    work_area: &mut [u32],
    results: &mut [u32],
    names: &mut [u8],
) -> Outcome
    ensures { Returned (match_call (call_of rule.now flags subject.now budget rule_area.old work_area.old results.old names.old)) (outcome_of result) rule_area.new work_area.new results.new names.new }
{
    let short = results.len() < ROW_LENGTH;
    match prepare(
        rule,
        flags,
        false,
        subject.len(),
        budget,
        rule_area,
        work_area,
        short,
        names,
    ) {
        Err(f) => Outcome::Refused(f),
        Ok(compiled) => {
            let told = match_held(
                &rule_area[..RULE_AREA_NEED],
                compiled.entry,
                subject,
                budget,
                work_area,
                results,
            );
            finish(rule_area, work_area, budget);
            told
        }
    }
}
