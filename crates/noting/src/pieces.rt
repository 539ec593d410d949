// The work area of a listing: before `half` it is the machine's, and behind that stands the index of the rows.
ghost use Rattle.std.specs.Prelude.{◌≡◌, List, ℕ, ◌*◌, ◌≤◌, ◌<◌, ◌^◌, min, length, take, drop};
ghost use Rattle.syntax.specs.Limits.{registers, spans_length};
ghost use Rattle.semantics.specs.Walk.{Trace};
ghost use Rattle.machine.specs.Moves.{fall};
ghost use Rattle.machine.specs.Words.{stack_of, now_of};
ghost use Rattle.machine.specs.Ready.{until, StackFits, Ready, Agrees};

use index::SPANS_LENGTH;
use machine::{Machine, Stop};

// Walks on to the next end, in the machine's part.
pub fn run_below(
    code: &[u32],
    sub: &[u8],
    regs: &mut [u32],
    work: &mut [u32],
    half: usize,
    m: Machine,
    budget: u32,
) -> Stop
    requires regs_len { (length regs.old ≡ registers) × (length sub.now < 2 ^ 32) × (length code.now < 2 ^ 32) × (half ≤ length work.old) }
    requires by_index { (first : List ℕ) × (t : Trace) × Ready code.now sub.now half budget first (now_of regs.old (take half work.old) m) t }
    ensures by_index_2 { (first : List ℕ) (t : Trace) → Ready code.now sub.now half budget first (now_of regs.old (take half work.old) m) t
        → Agrees code.now sub.now half budget first regs.new (take half work.new) (until budget 0 t) result }
    ensures work_unchanged { drop half work.new ≡ drop half work.old }
{
    walker::run_to_end(code, sub, regs, &mut work[..half], m, budget)
}

// Falls back, in the machine's part.
pub fn fall_below(
    code: &[u32],
    regs: &mut [u32],
    work: &mut [u32],
    half: usize,
    height: usize,
) -> Machine
    requires regs_len { (length regs.old ≡ registers) × (4 * height ≤ half) × (half ≤ length work.old) }
    requires stack_fits { StackFits code.now (stack_of (take half work.old) height) }
    ensures result_after { now_of regs.new (take half work.new) result ≡ fall code.now regs.old (stack_of (take half work.old) height) }
    ensures work_unchanged { drop half work.new ≡ drop half work.old }
{
    machine::fall_back(code, regs, &mut work[..half], height)
}

// How many captures the groups of a rule have, and no more than a row has: those behind them are never set, and need not be hashed.
pub fn spans_of(groups: u32) -> usize
    ensures { result ≡ min (2 * groups) spans_length }
{
    (2 * groups as usize).min(SPANS_LENGTH)
}
