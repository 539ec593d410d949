// Following a whole path: turn after turn, within the budget.
ghost use Rattle.std.specs.Prelude.{◌≡◌, ◌<◌, ◌^◌, length};
ghost use Rattle.semantics.specs.Proposals.{Trail};
ghost use Rattle.turns.specs.Turns.{Treads};
ghost use Rattle.following.specs.Paths.{Follows};

use crate::Followed;
use syntax::node::END;
use turns::{Lost, take_turn};

// Follows the choices from a start of the subject, where the rule is entered at `entry`; no group is set in the registers.
pub fn follow_path(
    code: &[u32],
    sub: &[u8],
    choices: &[u8],
    regs: &mut [u32],
    entry: u32,
    start: u32,
    budget: u32,
) -> Followed
    requires { ((path : Trail) × Treads code.now sub.now entry start regs.old choices.now path) × (length sub.now < 2 ^ 31) }
    ensures { Follows code.now sub.now entry start budget choices.now regs.old regs.new result }
{
    let mut pc = entry;
    let mut at = start;
    let mut read: usize = 0;
    let mut left = budget;
    loop {
        let kind = code[pc as usize];
        if kind == END {
            if left == 0 {
                return Followed::Spent;
            }
            if read < choices.len() {
                return Followed::Missed(budget - left + 1);
            }
            return Followed::Arrived(at, budget - left + 1);
        }
        match take_turn(code, sub, choices, regs, pc, at, read) {
            Err(Lost { steps }) => {
                if left < steps {
                    return Followed::Spent;
                }
                return Followed::Missed(budget - left + steps);
            }
            Ok(step) => {
                if left <= step.more {
                    return Followed::Spent;
                }
                left = left - step.more - 1;
                pc = step.pc;
                at = step.at;
                read = step.read;
            }
        }
    }
}
