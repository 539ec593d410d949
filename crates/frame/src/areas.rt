// Clearing the areas that a call is lent.
ghost use Rattle.std.specs.Prelude.{◌≡◌, ◌≤◌, length};
ghost use Rattle.syntax.specs.Limits.{rule_area_need};
ghost use Rattle.semantics.specs.Calls.{work_area_need, cleared};

use refusals::{RULE_AREA_NEED, WORK_PER_STEP};

// Sets the first n numbers to 0.
pub fn clear(area: &mut [u32], n: usize)
    requires { n ≤ length area.old }
    ensures { area.new ≡ cleared n area.old }
{
    area[..n].fill(0);
}

// Ends a call: the needed part of both areas is cleared.
pub fn finish(rule_area: &mut [u32], work_area: &mut [u32], budget: u32)
    requires { (rule_area_need ≤ length rule_area.old) × (work_area_need budget ≤ length work_area.old) }
    ensures rule_area_after { rule_area.new ≡ cleared rule_area_need rule_area.old }
    ensures work_area_after { work_area.new ≡ cleared (work_area_need budget) work_area.old }
{
    clear(rule_area, RULE_AREA_NEED);
    clear(work_area, WORK_PER_STEP * budget as usize);
}
