// Branches. Those whose first item is a byte that is not there are passed over.
//
// A branch that is passed over counts the two steps that the plain walk makes, its own and the byte's, to the last one of the budget. It costs
// one look at the byte, and no frame is written for it. The last branch keeps nothing for later: where it is come to so, it begins in the same turn.
#![tactic(auto)]

ghost use Rattle.std.specs.Prelude.{◌≡◌, List, ◌∷◌, true, ℕ, ◌+◌, ◌*◌, ◌≤◌, ◌<◌, ◌^◌, length, get_or};
ghost use Rattle.semantics.specs.Walk.{Trace};
ghost use Rattle.machine.specs.Code.{Fits};
ghost use Rattle.machine.specs.Moves.{explore, go};
ghost use Rattle.machine.specs.Words.{stack_of, now_of};
ghost use Rattle.machine.specs.Ready.{Leads, Ready};
ghost use Rattle.branches.specs.Onward.{Onward};

use machine::{Machine, Walked, push_explore};
use syntax::node::{BRANCH, BYTE, LAST};

// So many steps led to a node, with the position and the stack as they were.
fn come_to(m: Machine, pc: u32, used: u32) -> Walked
    ensures { (result.used ≡ used) × ((regs work : List ℕ) → now_of regs work result.head ≡ go pc m.at regs (stack_of work m.height)) }
{
    Walked {
        used: used,
        head: Machine {
            pc: pc,
            at: m.at,
            height: m.height,
            live: true,
        },
    }
}

// So many steps led to a node behind all branches that were passed over: to the last one, which begins if a step is left for it.
fn begin_last(code: &[u32], m: Machine, pc: u32, used: u32, left: u32) -> Walked
    requires { (used ≤ left) × (length code.now < 2 ^ 32) × Fits code.now pc }
    ensures { Onward code.now m pc used left result }
{
    if used == left {
        return come_to(m, pc, used);
    }
    let here = pc as usize;
    if code[here] != LAST {
        return come_to(m, pc, used);
    }
    let body = code[here + 1];
    come_to(m, body, used + 1)
}

// So many steps led to a node and a position, and another node is kept for later.
fn branch_off(work: &mut [u32], m: Machine, other: u32, pc: u32, at: u32, used: u32) -> Walked
    requires { 4 * m.height + 4 ≤ length work.old }
    ensures { (result.used ≡ used) × ((regs : List ℕ) → now_of regs work.new result.head ≡ go pc at regs (explore other m.at ∷ stack_of work.old m.height)) }
{
    let h = push_explore(work, m.height, other, m.at);
    Walked {
        used: used,
        head: Machine {
            pc: pc,
            at: at,
            height: h,
            live: true,
        },
    }
}

// Begins a branch, and keeps the one after it for later. One whose first item is a byte is decided here, in two steps: if the byte is not
// there, the next branch follows at once, and no frame is written only to be read again.
pub fn take_branch(code: &[u32], sub: &[u8], work: &mut [u32], m: Machine, left: u32) -> Walked
    requires pc_value { (get_or code.now m.pc 0 ≡ 5) × (m.live ≡ true) × (1 ≤ left) × (length sub.now < 2 ^ 32) × (length code.now < 2 ^ 32) }
    requires by_index { (regs first : List ℕ) × (t : Trace) × Ready code.now sub.now (length work.old) left first (now_of regs work.old m) t }
    ensures { (1 ≤ result.used) × (result.used ≤ left) × ((regs : List ℕ) → Leads code.now sub.now (now_of regs work.old m) result.used (now_of regs work.new result.head)) }
{
    let at = m.at as usize;
    let mut pc = m.pc;
    let mut used: u32 = 0;
    while 2 <= left - used {
        let here = pc as usize;
        let body = code[here + 1] as usize;
        if code[body] != BYTE {
            break;
        }
        let other = code[here + 2];
        if at < sub.len() {
            if charset::contains(code, body + 3, sub[at]) {
                let next = code[body + 1];
                return branch_off(work, m, other, next, m.at + 1, used + 2);
            }
        }
        used += 2;
        pc = other;
        if code[other as usize] != BRANCH {
            return begin_last(code, m, pc, used, left);
        }
    }
    if used == left {
        return come_to(m, pc, used);
    }
    let here = pc as usize;
    let body = code[here + 1];
    let other = code[here + 2];
    branch_off(work, m, other, body, m.at, used + 1)
}
