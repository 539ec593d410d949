// What both calls do with a rule: the refusals before it is read, and its own; or the number of its groups.
ghost use Rattle.std.specs.Prelude.{◌≡◌, ◌≤◌, length};
ghost use Rattle.syntax.specs.Limits.{rule_limit, rule_area_need};
ghost use Rattle.semantics.specs.Calls.{cleared};
ghost use Rattle.refusals.specs.Fitness.{fitness_of};
ghost use Rattle.card_format.specs.Cards.{unfit as unfitting};
ghost use Rattle.cards.specs.Answers.{Counts};

use frame::{FLAGS_LIMIT, RULE_AREA_NEED, RULE_LIMIT, clear};
use reader::compile;
use syntax::{Reason, Refusal};

// the greatest budget that two bytes have room for
pub const CARD_BUDGET_LIMIT: u32 = 65535;

// Whether a rule can be read, by its length, its flags and budget and the length of the rule area. The tests of a call (`refusals::unfit`) have another limit
// of the budget, and stand between tests of what no card has: one function for both would be handed five numbers that mean nothing here.
pub fn unfit(size: usize, flags: u32, budget: u32, rule_area: usize) -> Result<(), Reason>
    ensures { fitness_of result ≡ unfitting size flags budget rule_area }
{
    if RULE_LIMIT < size {
        return Err(Reason::RuleTooLong);
    }
    if FLAGS_LIMIT <= flags {
        return Err(Reason::UnknownFlag);
    }
    if CARD_BUDGET_LIMIT < budget {
        return Err(Reason::BudgetTooLarge);
    }
    if rule_area < RULE_AREA_NEED {
        return Err(Reason::RuleAreaShort);
    }
    Ok(())
}

// Compiles a rule for the number of its groups, and clears what it was compiled into.
pub fn count_groups(rule: &[u8], flags: u32, rule_area: &mut [u32]) -> Result<u32, Refusal>
    requires { (length rule.now ≤ rule_limit) × (rule_area_need ≤ length rule_area.old) }
    ensures counts { Counts rule.now flags result }
    ensures rule_area_after { rule_area.new ≡ cleared rule_area_need rule_area.old }
{
    let compiled = compile(rule, flags, false, rule_area);
    clear(rule_area, RULE_AREA_NEED);
    Ok(compiled?.groups)
}
