// Runs: a greedy repeat of one byte item takes its bytes in one loop, and goes on from the first end behind them at which the next node can.
//
// A run counts the steps that the plain walk makes, two for each byte and those of each end that is passed over, to the last one of the budget. It
// costs one look at each byte and at each of those ends, and writes one frame at most. The loops are those of `run_ends`.
#![tactic(auto)]

ghost use Rattle.std.specs.Prelude.{◌≡◌, List, true, ℕ, ◌+◌, ◌*◌, ◌≤◌, ◌<◌, ◌^◌, length, get_or};
ghost use Rattle.syntax.specs.Limits.{registers};
ghost use Rattle.semantics.specs.Walk.{Trace};
ghost use Rattle.machine.specs.Code.{Fits};
ghost use Rattle.machine.specs.Moves.{Now, go, below};
ghost use Rattle.machine.specs.Words.{stack_of, now_of};
ghost use Rattle.machine.specs.Ready.{Leads, RanBy, StackFits, Ready};

use machine::{Machine, Ran, fall_back, go_down};
use run_ends::{gate_of, missed_ends, run_length, run_steps};

// A run's own steps are made, and it goes on at `next` from each end from `high` down to `low`. Those where `next` fails at once are passed over
// here, before a frame is written for the ends that are left; no further than the steps that are left pay for. A single end is not looked at: `next` does that.
fn leave_run(
    code: &[u32],
    sub: &[u8],
    regs: &mut [u32],
    work: &mut [u32],
    next: u32,
    high: u32,
    low: u32,
    height: usize,
    steps: u32,
    left: u32,
) -> Ran
    requires low_le_high { (low ≤ high) × (1 ≤ steps) × (steps ≤ left) × (length code.now < 2 ^ 32) × (length regs.old ≡ registers) × (4 * height + 4 ≤ length work.old) }
    requires fits { Fits code.now next }
    requires stack_fits { StackFits code.now (stack_of work.old height) }
    ensures { (here : Now) → Leads code.now sub.now here steps (go next high regs.old (below next high low (stack_of work.old height)))
        → RanBy code.now sub.now here left regs.new work.new result }
{
    if high == low {
        let only = go_down(work, next, high, low, height);
        return Ran::Made(steps, only);
    }
    let Some(gate) = gate_of(code, next as usize) else {
        let made = go_down(work, next, high, low, height);
        return Ran::Made(steps, made);
    };
    let ends = (high - low) as usize + 1;
    let most = ends.min((left - steps) as usize + 1);
    let n = missed_ends(&code[gate.base..], sub, high as usize, most);
    let all = steps as u64 + (n as u64) * (gate.cost as u64);
    if (left as u64) < all {
        return Ran::TooLong;
    }
    if n < ends {
        let made = go_down(work, next, high - n as u32, low, height);
        return Ran::Made(all as u32, made);
    }
    let fallen = fall_back(code, regs, work, height);
    Ran::Made(all as u32, fallen)
}

// A run, if the steps that are left are enough for it: it goes on behind its bytes, or falls back if they are too few.
pub fn take_run(
    code: &[u32],
    sub: &[u8],
    regs: &mut [u32],
    work: &mut [u32],
    m: Machine,
    left: u32,
) -> Ran
    requires pc_value { (get_or code.now m.pc 0 ≡ 10) × (m.live ≡ true) × (1 ≤ left) × (length sub.now < 2 ^ 32) × (length code.now < 2 ^ 32) × (length regs.old ≡ registers) }
    requires by_index { (first : List ℕ) × (t : Trace) × Ready code.now sub.now (length work.old) left first (now_of regs.old work.old m) t }
    ensures { RanBy code.now sub.now (now_of regs.old work.old m) left regs.new work.new result }
{
    let pc = m.pc as usize;
    let k = run_length(code, sub, pc, m.at, left);
    let steps = run_steps(code[pc + 3], k);
    if (left as u64) < steps {
        return Ran::TooLong;
    }
    let least = code[pc + 2];
    if k < least {
        let fallen = fall_back(code, regs, work, m.height);
        return Ran::Made(steps as u32, fallen);
    }
    let next = code[pc + 7];
    leave_run(
        code,
        sub,
        regs,
        work,
        next,
        m.at + k,
        m.at + least,
        m.height,
        steps as u32,
        left,
    )
}
