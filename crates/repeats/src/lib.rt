// A repeat's decisions: where it is entered and where a round ends, whether a round follows, the repeat is left, or both are to be tried.
//
// A decision is one step, of the same cost whatever the repeat, and keeps at most one choice for later. A round that took no bytes is followed by
// no other once the least rounds are made: so every walk ends.
#![tactic(auto)]

ghost use Rattle.std.specs.Prelude.{◌≡◌, List, ℕ, ◌+◌, ◌*◌, ◌≤◌, ◌<◌, ◌^◌, length, get_or};
ghost use Rattle.semantics.specs.Repeats.{either, is_full};
ghost use Rattle.machine.specs.Code.{most_of, greed_of};
ghost use Rattle.machine.specs.Moves.{bump, decided, decides};
ghost use Rattle.machine.specs.Words.{stack_of, now_of, Counted, carried};

use machine::{AGAIN, Counter, Machine, begin_over, push, push_explore};

// The greatest bound of a repeat.
const BOUND_LIMIT: u32 = 255;

// One round more, counted up to the greatest bound.
pub fn count_round(n: u32) -> u32
    ensures { result ≡ bump n }
{
    if n < BOUND_LIMIT {
        return n + 1;
    }
    BOUND_LIMIT
}

// Whether `n` rounds are the most that there may be.
pub fn is_full(most: u32, n: u32) -> bool
    ensures { result ≡ is_full (most_of most) n }
{
    if most == machine::unset_position() {
        return false;
    }
    most <= n
}

// A round and going on are both allowed: the one that the greed puts first is taken, and the other is kept for later.
fn offer_both(
    code: &[u32],
    regs: &mut [u32],
    work: &mut [u32],
    q: usize,
    k: Counter,
    body: u32,
    n: u32,
    at: u32,
    height: usize,
) -> Machine
    requires q_in_bounds { (q + 6 ≤ length code.now) × (4 * height + 8 ≤ length work.old) × (q < 2 ^ 32) × (body ≡ get_or code.now (q + 4) 0) }
    requires register_in_bounds { (k.register + 2 ≤ length regs.old) × (k.register ≡ get_or code.now (q + 3) 0) × Counted regs.old k }
    ensures { now_of regs.new work.new result ≡ decided code.now (either (greed_of (get_or code.now (q + 2) 0))) q n at regs.old (stack_of work.old height) }
{
    let greed = code[q + 2];
    let next = code[q + 5];
    let round = count_round(n);
    if greed == 0 {
        let kept = push_explore(work, height, next, at);
        return begin_over(regs, work, kept, k, body, round, at);
    }
    let deferred = push(work, height, AGAIN, q as u32, round, at);
    Machine {
        pc: next,
        at: at,
        height: deferred,
        live: true,
    }
}

// A decision after `n` rounds of the repeat whose numbers stand at `q`; `still`: the last round took no bytes.
fn decide(
    code: &[u32],
    regs: &mut [u32],
    work: &mut [u32],
    q: usize,
    k: Counter,
    n: u32,
    still: bool,
    at: u32,
    height: usize,
) -> Machine
    requires q_in_bounds { (q + 6 ≤ length code.now) × (4 * height + 8 ≤ length work.old) × (q < 2 ^ 32) }
    requires register_in_bounds { (k.register + 2 ≤ length regs.old) × (k.register ≡ get_or code.now (q + 3) 0) × Counted regs.old k }
    ensures { now_of regs.new work.new result ≡ decides code.now q n still at regs.old (stack_of work.old height) }
{
    let least = code[q];
    let body = code[q + 4];
    if n < least {
        let round = count_round(n);
        return begin_over(regs, work, height, k, body, round, at);
    }
    let most = code[q + 1];
    let next = code[q + 5];
    let onward = Machine {
        pc: next,
        at: at,
        height: height,
        live: true,
    };
    if is_full(most, n) {
        return onward;
    }
    if still {
        return onward;
    }
    offer_both(code, regs, work, q, k, body, n, at, height)
}

// The registers of the repeat whose numbers stand at `q`. They are read once, before a frame is written.
fn counter_of(code: &[u32], regs: &[u32], q: usize) -> Counter
    requires { (q + 6 ≤ length code.now) × (get_or code.now (q + 3) 0 + 2 ≤ length regs.now) }
    ensures { (result.register ≡ get_or code.now (q + 3) 0) × Counted regs.now result }
{
    let register = code[q + 3];
    let i = register as usize;
    let rounds = regs[i];
    let from = regs[i + 1];
    Counter {
        register: register,
        rounds: rounds,
        from: from,
    }
}

// A repeat is entered.
pub fn enter_repeat(code: &[u32], regs: &mut [u32], work: &mut [u32], m: Machine) -> Machine
    requires { (m.pc + 8 ≤ length code.now) × (get_or code.now (m.pc + 2 + 3) 0 + 2 ≤ length regs.old) × (4 * m.height + 8 ≤ length work.old) × (length code.now < 2 ^ 32) }
    ensures { (sub : List ℕ) → now_of regs.new work.new result ≡ carried 7 code.now sub regs.old work.old m }
{
    let q = m.pc as usize + 2;
    let k = counter_of(code, regs, q);
    decide(code, regs, work, q, k, 0, false, m.at, m.height)
}

// A round of a repeat is over.
pub fn end_round(code: &[u32], regs: &mut [u32], work: &mut [u32], m: Machine) -> Machine
    requires { (m.pc + 7 ≤ length code.now) × (get_or code.now (m.pc + 1 + 3) 0 + 2 ≤ length regs.old) × (4 * m.height + 8 ≤ length work.old) × (length code.now < 2 ^ 32) }
    ensures { (sub : List ℕ) → now_of regs.new work.new result ≡ carried 8 code.now sub regs.old work.old m }
{
    let q = m.pc as usize + 1;
    let k = counter_of(code, regs, q);
    let still = k.from == m.at;
    decide(code, regs, work, q, k, k.rounds, still, m.at, m.height)
}
