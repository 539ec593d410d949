// Items: a byte of a set, an assertion, a reference.
ghost use Rattle.std.specs.Prelude.{◌≡◌, List, ℕ, ◌+◌, ◌≤◌, ◌<◌, ◌^◌, length, get_or, drop};
ghost use Rattle.syntax.specs.Limits.{spans_length};
ghost use Rattle.turns.specs.Paces.{said_by, turn_as};

use crate::{Lost, Step};
use nodes::{Compared, assertion_holds, byte_holds, compare};

// More steps than any reference makes: what is beyond the budget is seen by its cost.
const ALL_STEPS: u32 = u32::MAX;

// A byte of a set.
pub fn take_byte(code: &[u32], sub: &[u8], pc: usize, at: u32, read: usize) -> Result<Step, Lost>
    requires { (pc + 11 ≤ length code.now) × (length sub.now < 2 ^ 31) × (at ≤ length sub.now) }
    ensures { (regs choices : List ℕ) → said_by result regs choices ≡ turn_as 0 code.now sub.now pc at regs (drop read choices) }
{
    if byte_holds(code, sub, pc, at as usize) {
        let next = code[pc + 1];
        return Ok(Step {
            more: 0,
            pc: next,
            at: at + 1,
            read,
        });
    }
    Err(Lost { steps: 1 })
}

// An assertion.
pub fn test_assertion(
    code: &[u32],
    sub: &[u8],
    pc: usize,
    at: u32,
    read: usize,
) -> Result<Step, Lost>
    requires { pc + 4 ≤ length code.now }
    ensures { (regs choices : List ℕ) → said_by result regs choices ≡ turn_as 1 code.now sub.now pc at regs (drop read choices) }
{
    let which = code[pc + 3];
    if assertion_holds(sub, which, at as usize) {
        let next = code[pc + 1];
        return Ok(Step {
            more: 0,
            pc: next,
            at,
            read,
        });
    }
    Err(Lost { steps: 1 })
}

// A reference: it pays for the bytes that it compares.
pub fn take_reference(
    code: &[u32],
    sub: &[u8],
    regs: &[u32],
    pc: usize,
    at: u32,
    read: usize,
) -> Result<Step, Lost>
    requires { (pc + 5 ≤ length code.now) × (get_or code.now (pc + 3) 0 + 2 ≤ spans_length) × (spans_length ≤ length regs.now) × (length sub.now < 2 ^ 31) }
    ensures { (choices : List ℕ) → said_by result regs.now choices ≡ turn_as 11 code.now sub.now pc at regs.now (drop read choices) }
{
    let slot = code[pc + 3] as usize;
    let from = regs[slot];
    let to = regs[slot + 1];
    if from == machine::unset_position() {
        return Err(Lost { steps: 1 });
    }
    let n = to.saturating_sub(from);
    let folded = code[pc + 4] == 1;
    match compare(sub, n, from, at, ALL_STEPS, folded) {
        Compared::Same => {
            let next = code[pc + 1];
            Ok(Step {
                more: n,
                pc: next,
                at: at + n,
                read,
            })
        }
        Compared::Unlike(k) => Err(Lost { steps: 1 + k }),
        Compared::TooMany => Err(Lost { steps: 0 }),
    }
}
