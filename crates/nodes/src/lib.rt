// The nodes that take a byte, test an assertion, open or close a group, begin the last branch, or are a reference: one function for each kind.
//
// A function carries its node out as the model does (`carried`), or falls back. It is one step, of the same cost whatever the subject; only a
// reference makes a step more for each byte that it looks at.
#![tactic(auto)]

ghost use Rattle.std.specs.Prelude.{◌≡◌, List, true, ℕ, ◌+◌, ◌*◌, ◌≤◌, ◌<◌, ◌^◌, length, get_or, drop};
ghost use Rattle.charset.specs.Class.{has};
ghost use Rattle.syntax.specs.Limits.{spans_length, registers};
ghost use Rattle.machine.specs.Moves.{takes};
ghost use Rattle.machine.specs.Words.{stack_of, now_of, carried};
ghost use Rattle.machine.specs.Ready.{RanBy, StackFits};

use machine::{Machine, Ran, fall_back, save_and_write};

mod assertions;
mod references;

pub use assertions::assertion_holds;
pub use references::{Compared, compare};

// Whether the byte item at `pc` has its byte at a position.
pub fn byte_holds(code: &[u32], sub: &[u8], pc: usize, at: usize) -> bool
    requires { pc + 11 ≤ length code.now }
    ensures { result ≡ takes sub.now (has (drop (pc + 3) code.now)) at }
{
    if at < sub.len() {
        return charset::contains(code, pc + 3, sub[at]);
    }
    false
}

// A byte of a set.
pub fn take_byte(
    code: &[u32],
    sub: &[u8],
    regs: &mut [u32],
    work: &mut [u32],
    m: Machine,
) -> Machine
    requires pc_in_bounds { (m.pc + 11 ≤ length code.now) × (length sub.now < 2 ^ 32) × (length regs.old ≡ registers) × (4 * m.height ≤ length work.old) }
    requires stack_fits { StackFits code.now (stack_of work.old m.height) }
    ensures { now_of regs.new work.new result ≡ carried 0 code.now sub.now regs.old work.old m }
{
    let pc = m.pc as usize;
    let at = m.at as usize;
    if at < sub.len() {
        if charset::contains(code, pc + 3, sub[at]) {
            let next = code[pc + 1];
            return Machine {
                pc: next,
                at: m.at + 1,
                height: m.height,
                live: true,
            };
        }
    }
    fall_back(code, regs, work, m.height)
}

// An assertion.
pub fn test_assertion(
    code: &[u32],
    sub: &[u8],
    regs: &mut [u32],
    work: &mut [u32],
    m: Machine,
) -> Machine
    requires pc_in_bounds { (m.pc + 4 ≤ length code.now) × (length regs.old ≡ registers) × (4 * m.height ≤ length work.old) }
    requires stack_fits { StackFits code.now (stack_of work.old m.height) }
    ensures { now_of regs.new work.new result ≡ carried 1 code.now sub.now regs.old work.old m }
{
    let pc = m.pc as usize;
    let next = code[pc + 1];
    let which = code[pc + 3];
    if assertion_holds(sub, which, m.at as usize) {
        return Machine {
            pc: next,
            at: m.at,
            height: m.height,
            live: true,
        };
    }
    fall_back(code, regs, work, m.height)
}

// A group opens: where, is kept in its registers.
pub fn open_group(code: &[u32], regs: &mut [u32], work: &mut [u32], m: Machine) -> Machine
    requires { (m.pc + 3 ≤ length code.now) × (get_or code.now (m.pc + 2) 0 + 2 ≤ length regs.old) × (4 * m.height + 4 ≤ length work.old) }
    ensures { (sub : List ℕ) → now_of regs.new work.new result ≡ carried 3 code.now sub regs.old work.old m }
{
    let pc = m.pc as usize;
    let body = code[pc + 1];
    let register = code[pc + 2];
    let h = save_and_write(regs, work, m.height, register, m.at, 0);
    Machine {
        pc: body,
        at: m.at,
        height: h,
        live: true,
    }
}

// A group closes: its span is set, from where it opened.
pub fn close_group(code: &[u32], regs: &mut [u32], work: &mut [u32], m: Machine) -> Machine
    requires { (m.pc + 4 ≤ length code.now) × (get_or code.now (m.pc + 2) 0 + 2 ≤ length regs.old) × (get_or code.now (m.pc + 3) 0 + 2 ≤ length regs.old) × (4 * m.height + 4 ≤ length work.old) }
    ensures { (sub : List ℕ) → now_of regs.new work.new result ≡ carried 4 code.now sub regs.old work.old m }
{
    let pc = m.pc as usize;
    let next = code[pc + 1];
    let register = code[pc + 2] as usize;
    let slot = code[pc + 3];
    let from = regs[register];
    let h = save_and_write(regs, work, m.height, slot, from, m.at);
    Machine {
        pc: next,
        at: m.at,
        height: h,
        live: true,
    }
}

// The last branch begins.
pub fn begin_last_branch(code: &[u32], m: Machine) -> Machine
    requires { m.pc + 2 ≤ length code.now }
    ensures { (sub regs work : List ℕ) → now_of regs work result ≡ carried 6 code.now sub regs work m }
{
    let pc = m.pc as usize;
    let body = code[pc + 1];
    Machine {
        pc: body,
        at: m.at,
        height: m.height,
        live: true,
    }
}

// A reference, if the steps that are left pay for the bytes that it compares: it goes on behind as many bytes as its span has, or falls back.
pub fn take_reference(
    code: &[u32],
    sub: &[u8],
    regs: &mut [u32],
    work: &mut [u32],
    m: Machine,
    left: u32,
) -> Ran
    requires pc_value { (get_or code.now m.pc 0 ≡ 11) × (m.live ≡ true) × (1 ≤ left) × (m.pc + 5 ≤ length code.now) × (get_or code.now (m.pc + 3) 0 + 2 ≤ spans_length) × (spans_length ≤ length regs.old) }
    requires sub_len_bound { (length sub.now < 2 ^ 32) × (length regs.old ≡ registers) × (4 * m.height ≤ length work.old) }
    requires stack_fits { StackFits code.now (stack_of work.old m.height) }
    ensures { RanBy code.now sub.now (now_of regs.old work.old m) left regs.new work.new result }
{
    let pc = m.pc as usize;
    let slot = code[pc + 3] as usize;
    let from = regs[slot];
    let to = regs[slot + 1];
    if from == machine::unset_position() {
        let fallen = fall_back(code, regs, work, m.height);
        return Ran::Made(1, fallen);
    }
    let n = to.saturating_sub(from);
    let folded = code[pc + 4] == 1;
    match compare(sub, n, from, m.at, left, folded) {
        Compared::Same => {
            let next = code[pc + 1];
            let on = Machine {
                pc: next,
                at: m.at + n,
                height: m.height,
                live: true,
            };
            Ran::Made(1 + n, on)
        }
        Compared::Unlike(k) => {
            let fallen = fall_back(code, regs, work, m.height);
            Ran::Made(1 + k, fallen)
        }
        Compared::TooMany => Ran::TooLong,
    }
}
