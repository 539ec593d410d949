// Preparing a call: what refuses it, or its rule compiled.
ghost use Rattle.std.specs.Prelude.{◌≡◌, List, ℕ, length, ltb};
ghost use Rattle.std.proofs.Math.Option.{none};
ghost use Rattle.semantics.specs.Calls.{unacceptable};
ghost use Rattle.frame.specs.Inputs.{call_of};
ghost use Rattle.frame.specs.Preparing.{Lends, Prepares};

use crate::areas::finish;
use naming::fill;
use reader::{Compiled, TABLE_START, compile};
use refusals::{RULE_AREA_NEED, unfit};
use syntax::Refusal;

// Compiles the rule of a call that is acceptable so far, and fills the name index from the table that compiling leaves.
fn compile_or_clear(
    rule: &[u8],
    flags: u32,
    checked: bool,
    budget: u32,
    rule_area: &mut [u32],
    work_area: &mut [u32],
    names: &mut [u8],
) -> Result<Compiled, Refusal>
    requires { Lends rule.now budget rule_area.old work_area.old names.old }
    ensures { (need : ℕ) (line results : List ℕ) → none ≡ unacceptable need (call_of rule.now flags line budget rule_area.old work_area.old results names.old)
        → Prepares checked need (call_of rule.now flags line budget rule_area.old work_area.old results names.old) result rule_area.new work_area.new names.new }
{
    match compile(rule, flags, checked, rule_area) {
        Ok(compiled) => {
            fill(
                rule,
                &rule_area[TABLE_START..RULE_AREA_NEED],
                compiled.groups,
                names,
            );
            Ok(compiled)
        }
        Err(f) => {
            finish(rule_area, work_area, budget);
            Err(f)
        }
    }
}

// Prepares a call, which may be a check: its rule then stands compiled in its area. Or why the call is refused, with its areas already as they are left. Of the
// subject its length is enough, and of the result area whether it is too short for what the call writes.
pub fn prepare(
    rule: &[u8],
    flags: u32,
    checked: bool,
    subject: usize,
    budget: u32,
    rule_area: &mut [u32],
    work_area: &mut [u32],
    short: bool,
    names: &mut [u8],
) -> Result<Compiled, Refusal>
    ensures { (need : ℕ) (line results : List ℕ) → length line ≡ subject → ltb (length results) need ≡ short
        → Prepares checked need (call_of rule.now flags line budget rule_area.old work_area.old results names.old) result rule_area.new work_area.new names.new }
{
    match unfit(
        rule.len(),
        flags,
        subject,
        budget,
        rule_area.len(),
        work_area.len(),
        short,
        names.len(),
    ) {
        Err(reason) => Err(Refusal::at(0, reason)),
        Ok(()) => compile_or_clear(rule, flags, checked, budget, rule_area, work_area, names),
    }
}
