// Groups, branches and repeats, and a turn at any node.
ghost use Rattle.std.specs.Prelude.{◌≡◌, List, ℕ, ◌+◌, ◌≤◌, ◌<◌, ◌^◌, length, get_or, drop, Bool};
ghost use Rattle.machine.specs.Moves.{set2};
ghost use Rattle.machine.specs.Code.{repeat_at};
ghost use Rattle.turns.specs.Turns.{body_of, beginning, deciding, turn, Safe};
ghost use Rattle.turns.specs.Paces.{said_by, turn_as, branch_said};

use crate::items::{take_byte, take_reference, test_assertion};
use crate::{Lost, Step};
use repeats::{count_round, is_full};
use syntax::node::{AGAIN, ASSERTION, BRANCH, BYTE, CLOSE, LAST, OPEN, REFERENCE, REPEAT, RUN};

// The number at a position of the compiled rule, and 0 past its end.
fn number(code: &[u32], i: usize) -> u32
    ensures { result ≡ get_or code.now i 0 }
{
    if i < code.len() {
        return code[i];
    }
    0
}

// Two registers are written.
fn put_two(regs: &mut [u32], i: usize, x: u32, y: u32)
    requires { i + 2 ≤ length regs.old }
    ensures { regs.new ≡ set2 regs.old i x y }
{
    regs[i] = x;
    regs[i + 1] = y;
}

// A group opens: where, is kept in its registers.
fn open_group(code: &[u32], regs: &mut [u32], pc: usize, at: u32, read: usize) -> Result<Step, Lost>
    requires { (pc + 3 ≤ length code.now) × (get_or code.now (pc + 2) 0 + 2 ≤ length regs.old) }
    ensures { (sub choices : List ℕ) → said_by result regs.new choices ≡ turn_as 3 code.now sub pc at regs.old (drop read choices) }
{
    let body = code[pc + 1];
    let register = code[pc + 2] as usize;
    put_two(regs, register, at, 0);
    Ok(Step {
        more: 0,
        pc: body,
        at,
        read,
    })
}

// A group closes: its span is set, from where it opened.
fn close_group(
    code: &[u32],
    regs: &mut [u32],
    pc: usize,
    at: u32,
    read: usize,
) -> Result<Step, Lost>
    requires { (pc + 4 ≤ length code.now) × (get_or code.now (pc + 2) 0 + 2 ≤ length regs.old) × (get_or code.now (pc + 3) 0 + 2 ≤ length regs.old) }
    ensures { (sub choices : List ℕ) → said_by result regs.new choices ≡ turn_as 4 code.now sub pc at regs.old (drop read choices) }
{
    let next = code[pc + 1];
    let register = code[pc + 2] as usize;
    let slot = code[pc + 3] as usize;
    let from = regs[register];
    put_two(regs, slot, from, at);
    Ok(Step {
        more: 0,
        pc: next,
        at,
        read,
    })
}

// The body of the branch of a number, counted from the branch at `pc`, if there is one.
fn branch_body(code: &[u32], pc: u32, c: u32) -> Option<u32>
    ensures { branch_said result ≡ body_of code.now c pc }
{
    let mut q = pc;
    let mut k = c;
    while 0 < k {
        let i = q as usize;
        let kind = number(code, i);
        if kind != BRANCH {
            return None;
        }
        q = number(code, i + 2);
        k -= 1;
    }
    let i = q as usize;
    let kind = number(code, i);
    let body = number(code, i + 1);
    match kind {
        BRANCH => Some(body),
        LAST => Some(body),
        _ => None,
    }
}

// An alternation: the choice is read before the branch's step.
fn begin_branch(code: &[u32], choices: &[u8], pc: u32, at: u32, read: usize) -> Result<Step, Lost>
    ensures { (sub regs : List ℕ) → said_by result regs choices.now ≡ turn_as 5 code.now sub pc at regs (drop read choices.now) }
{
    if choices.len() <= read {
        return Err(Lost { steps: 0 });
    }
    let c = choices[read] as u32;
    match branch_body(code, pc, c) {
        None => Err(Lost { steps: 0 }),
        Some(body) => Ok(Step {
            more: 0,
            pc: body,
            at,
            read: read + 1,
        }),
    }
}

// A round of the repeat whose numbers stand at `q` begins, after `n`.
fn begin_round(
    code: &[u32],
    regs: &mut [u32],
    q: usize,
    n: u32,
    at: u32,
    read: usize,
) -> Result<Step, Lost>
    requires { (q + 6 ≤ length code.now) × (get_or code.now (q + 3) 0 + 2 ≤ length regs.old) }
    ensures { (choices : List ℕ) → said_by result regs.new choices ≡ beginning code.now (repeat_at code.now q) n at regs.old (drop read choices) }
{
    let register = code[q + 3] as usize;
    let body = code[q + 4];
    let rounds = count_round(n);
    put_two(regs, register, rounds, at);
    Ok(Step {
        more: 0,
        pc: body,
        at,
        read,
    })
}

// A decision after `n` rounds of the repeat whose numbers stand at `q`; `still`: the last round took no bytes. Where both ways are allowed the choice is read.
fn decide(
    code: &[u32],
    choices: &[u8],
    regs: &mut [u32],
    q: usize,
    n: u32,
    still: bool,
    at: u32,
    read: usize,
) -> Result<Step, Lost>
    requires { (q + 6 ≤ length code.now) × (get_or code.now (q + 3) 0 + 2 ≤ length regs.old) }
    ensures { said_by result regs.new choices.now ≡ deciding code.now q n still at regs.old (drop read choices.now) }
{
    let least = code[q];
    let most = code[q + 1];
    let next = code[q + 5];
    if n < least {
        return begin_round(code, regs, q, n, at, read);
    }
    if is_full(most, n) {
        return Ok(Step {
            more: 0,
            pc: next,
            at,
            read,
        });
    }
    if still {
        return Ok(Step {
            more: 0,
            pc: next,
            at,
            read,
        });
    }
    if choices.len() <= read {
        return Err(Lost { steps: 1 });
    }
    let c = choices[read];
    if c == 0 {
        return Ok(Step {
            more: 0,
            pc: next,
            at,
            read: read + 1,
        });
    }
    if c == 1 {
        return begin_round(code, regs, q, n, at, read + 1);
    }
    Err(Lost { steps: 1 })
}

// A round of the repeat whose node `pc` is ends.
fn end_round(
    code: &[u32],
    choices: &[u8],
    regs: &mut [u32],
    pc: usize,
    at: u32,
    read: usize,
) -> Result<Step, Lost>
    requires { (pc + 7 ≤ length code.now) × (get_or code.now (pc + 1 + 3) 0 + 2 ≤ length regs.old) }
    ensures { (sub : List ℕ) → said_by result regs.new choices.now ≡ turn_as 8 code.now sub pc at regs.old (drop read choices.now) }
{
    let q = pc + 1;
    let register = code[q + 3] as usize;
    let n = regs[register];
    let from = regs[register + 1];
    let still = from == at;
    decide(code, choices, regs, q, n, still, at, read)
}

// A turn at a node that is no end.
pub fn take_turn(
    code: &[u32],
    sub: &[u8],
    choices: &[u8],
    regs: &mut [u32],
    pc: u32,
    at: u32,
    read: usize,
) -> Result<Step, Lost>
    requires { Safe code.now sub.now pc at regs.old × (get_or code.now pc 0 ≡ 9 → ⊥) × (length sub.now < 2 ^ 31) }
    ensures { said_by result regs.new choices.now ≡ turn code.now sub.now pc at regs.old (drop read choices.now) }
{
    let p = pc as usize;
    let kind = code[p];
    match kind {
        BYTE => take_byte(code, sub, p, at, read),
        ASSERTION => test_assertion(code, sub, p, at, read),
        OPEN => open_group(code, regs, p, at, read),
        CLOSE => close_group(code, regs, p, at, read),
        BRANCH => begin_branch(code, choices, pc, at, read),
        REPEAT => decide(code, choices, regs, p + 2, 0, false, at, read),
        AGAIN => end_round(code, choices, regs, p, at, read),
        RUN => decide(code, choices, regs, p + 2, 0, false, at, read),
        REFERENCE => take_reference(code, sub, regs, p, at, read),
        _ => Err(Lost { steps: 0 }),
    }
}
