// The rule, before a line is read.
ghost use Rattle.std.specs.Prelude.{◌≡◌, length};
ghost use Rattle.syntax.specs.Limits.{rule_area_need};
ghost use Rattle.gateway_answers.specs.Promises.{Prepares};

use frame::RULE_LIMIT;
use reader::{Compiled, compile};
use syntax::{Reason, Refusal};

pub const FLAGS: u32 = 0;

// Reads a rule. If it is sound, and if a check that asks for it can follow it, it stands compiled in the area, and serves for all lines. Or why it is refused.
pub fn prepare(rule: &[u8], checked: bool, rule_area: &mut [u32]) -> Result<Compiled, Refusal>
    requires { length rule_area.old ≡ rule_area_need }
    ensures { Prepares checked rule.now rule_area.new result }
{
    if RULE_LIMIT < rule.len() {
        return Err(Refusal::at(0, Reason::RuleTooLong));
    }
    compile(rule, FLAGS, checked, rule_area)
}
