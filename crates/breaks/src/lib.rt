// `\R` (02, request l), which is taken as a whole: a return with a feed behind it, or else one byte that breaks a line, with the steps of the held part that it stands for.
#![tactic(auto)]

ghost use Rattle.std.specs.Prelude.{◌≡◌, true, List, ℕ, ◌+◌, ◌*◌, ◌≤◌, ◌<◌, ◌^◌, length, get_or};
ghost use Rattle.syntax.specs.Limits.{registers};
ghost use Rattle.machine.specs.Words.{stack_of, now_of};
ghost use Rattle.machine.specs.Ready.{StackFits, RanBy};
ghost use Rattle.breaks.specs.Breaks.{BreaksAs};

use machine::{Machine, Ran, fall_back};

const RETURN: u8 = 0x0D;

const FEED: u8 = 0x0A;

const NEXT_LINE: u8 = 0x85;

// The steps that `\R` makes, and the bytes that it takes, none if it fails. 0 stands for none and no `Option`: `break_bytes` of specs/Breaks gives that number.
#[derive(Clone, Copy, Debug, PartialEq, Eq)]
pub struct Break {
    pub steps: u32,
    pub bytes: u32,
}

// At a return: a feed behind it is taken too.
fn break_at_return(sub: &[u8], at: usize) -> Break
    requires { (at < length sub.now) × (get_or sub.now at 0 ≡ 13) }
    ensures { BreaksAs sub.now at result }
{
    let alone = Break { steps: 7, bytes: 1 };
    let next = at + 1;
    if next < sub.len() {
        if sub[next] == FEED {
            return Break { steps: 5, bytes: 2 };
        }
        return alone;
    }
    alone
}

// At a byte that is no return.
fn break_at_other(b: u8) -> Break
    requires { b ≡ 13 → ⊥ }
    ensures { (sub : List ℕ) (at : ℕ) → at < length sub → b ≡ get_or sub at 0 → BreaksAs sub at result }
{
    let one = Break { steps: 6, bytes: 1 };
    let none = Break { steps: 5, bytes: 0 };
    if b == NEXT_LINE {
        return one;
    }
    if b < FEED {
        return none;
    }
    if RETURN < b {
        return none;
    }
    one
}

// What `\R` does at a position.
pub fn break_at(sub: &[u8], at: usize) -> Break
    ensures { BreaksAs sub.now at result }
{
    let fails = Break { steps: 5, bytes: 0 };
    if at < sub.len() {
        let b = sub[at];
        if b == RETURN {
            return break_at_return(sub, at);
        }
        return break_at_other(b);
    }
    fails
}

// `\R`, if the steps that are left are enough.
pub fn take_break(
    code: &[u32],
    sub: &[u8],
    regs: &mut [u32],
    work: &mut [u32],
    m: Machine,
    left: u32,
) -> Ran
    requires pc_value { (get_or code.now m.pc 0 ≡ 12) × (m.live ≡ true) × (m.pc + 3 ≤ length code.now) × (length regs.old ≡ registers) × (4 * m.height ≤ length work.old) × (length sub.now < 2 ^ 32) }
    requires stack_fits { StackFits code.now (stack_of work.old m.height) }
    ensures { RanBy code.now sub.now (now_of regs.old work.old m) left regs.new work.new result }
{
    let pc = m.pc as usize;
    let next = code[pc + 1];
    let found = break_at(sub, m.at as usize);
    if left < found.steps {
        return Ran::TooLong;
    }
    if found.bytes == 0 {
        let back = fall_back(code, regs, work, m.height);
        return Ran::Made(found.steps, back);
    }
    Ran::Made(
        found.steps,
        Machine {
            pc: next,
            at: m.at + found.bytes,
            height: m.height,
            live: true,
        },
    )
}
