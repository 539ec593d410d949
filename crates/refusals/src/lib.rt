// What is refused before the rule is read: the limits on what is handed in, tested in the order of the refusals' numbers.
//
// All calls share it. It looks at lengths, flags and budget alone, and stands by itself, so that a wrong limit or a wrong order is refused without
// looking at what is made of a rule.
#![tactic(auto)]

ghost use Rattle.std.specs.Prelude.{◌≡◌, ℕ};
ghost use Rattle.semantics.specs.Calls.{Call, unacceptable};
ghost use Rattle.refusals.specs.Fitness.{fitness_of, Sized};

use syntax::{NAME_INDEX_NEED, Reason};

pub const RULE_LIMIT: usize = 1000;

pub const SUBJECT_LIMIT: usize = 65535;
// the least number that no flags have
pub const FLAGS_LIMIT: u32 = 32;

pub const BUDGET_LIMIT: u32 = 100000;

pub const RULE_AREA_NEED: usize = 16384;

pub const WORK_PER_STEP: usize = 16;

// Whether a call is acceptable, and if not, why: by the lengths of what is handed in, the flags and the budget, and by whether the result area is too short.
pub fn unfit(
    rule: usize,
    flags: u32,
    subject: usize,
    budget: u32,
    rule_area: usize,
    work_area: usize,
    short: bool,
    names: usize,
) -> Result<(), Reason>
    ensures { (need : ℕ) (c : Call) → Sized need c rule flags subject budget rule_area work_area short names → fitness_of result ≡ unacceptable need c }
{
    if RULE_LIMIT < rule {
        return Err(Reason::RuleTooLong);
    }
    if SUBJECT_LIMIT < subject {
        return Err(Reason::SubjectTooLong);
    }
    if FLAGS_LIMIT <= flags {
        return Err(Reason::UnknownFlag);
    }
    if BUDGET_LIMIT < budget {
        return Err(Reason::BudgetTooLarge);
    }
    if rule_area < RULE_AREA_NEED {
        return Err(Reason::RuleAreaShort);
    }
    if work_area < WORK_PER_STEP * budget as usize {
        return Err(Reason::WorkAreaShort);
    }
    if short {
        return Err(Reason::ResultAreaShort);
    }
    if names < NAME_INDEX_NEED {
        return Err(Reason::NameIndexShort);
    }
    Ok(())
}
