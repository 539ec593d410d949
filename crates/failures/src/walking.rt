// The plain walk from a start, and from all of them, for a rule whose walks reach no end and stay within the budget. Before each move the machine is
// ready for what is left of the walk, and what it told so far is what failed before that.
//
// No budget is asked for: a match has shown that there is enough. What is counted down is only more than the moves that are left.
ghost use Rattle.std.specs.Prelude.{◌≡◌, List, [], ℕ, ◌+◌, ◌*◌, ◌≤◌, ◌<◌, ◌^◌, length, get_or};
ghost use Rattle.std.proofs.Math.Option.{Option, none};
ghost use Rattle.syntax.specs.Limits.{registers};
ghost use Rattle.syntax.specs.Tree.{Rule};
ghost use Rattle.semantics.specs.Walk.{Trace};
ghost use Rattle.semantics.specs.Explanations.{Failure, failures};
ghost use Rattle.machine.specs.Code.{Fits};
ghost use Rattle.machine.specs.Moves.{go};
ghost use Rattle.machine.specs.Words.{stack_of, configuration_of, now_of};
ghost use Rattle.machine.specs.Ready.{StackFits};
ghost use Rattle.machine.specs.Theorem.{Stands, Clear};
ghost use Rattle.plain.specs.Telling.{leads};
ghost use Rattle.failures.specs.Accounts.{bests};
ghost use Rattle.greatest.specs.Leading.{kept_of, kept_by};
ghost use Rattle.greatest.specs.Best.{Finds};
ghost use Rattle.failures.specs.Walks.{Plain, Fruitless, Sized, Tried};

use greatest::{Best, blank, consider, lead, note_of, settle};
use machine::{Machine, start};
use plain::{Miss, Told, make_move, tell_missed, tell_refuted};
use syntax::node::REFUTE;

// What a move told, and where the machine stands after it.
#[derive(Clone, Copy, Debug, PartialEq, Eq)]
pub struct Turn {
    pub told: Told,
    pub head: Machine,
}

// What fails in the next move: at the inner end of a `(?!` that one, and else it may be an item.
fn tell(code: &[u32], sub: &[u8], regs: &[u32], m: Machine) -> Told
    requires regs_len { (length regs.now ≡ registers) × (length sub.now < 2 ^ 31) }
    requires fits { Fits code.now m.pc }
    ensures { Tried code.now sub.now regs.now m result }
{
    if code[m.pc as usize] == REFUTE {
        return Told::Refuted(tell_refuted(code, regs, m));
    }
    Told::Item(tell_missed(code, sub, regs, m))
}

// One move, with the note for a `(?!` that it may enter, and what failed in it.
pub fn try_next(
    code: &[u32],
    sub: &[u8],
    regs: &mut [u32],
    work: &mut [u32],
    m: Machine,
    note: u32,
) -> Turn
    requires fact { (get_or code.now m.pc 0 ≡ 9 → ⊥) × (length regs.old ≡ registers) × (4 * m.height + 8 ≤ length work.old) × (length sub.now < 2 ^ 31) × (length code.now < 2 ^ 32) × (m.height < 2 ^ 32) }
    requires fits { Fits code.now m.pc }
    requires stack_fits { StackFits code.now (stack_of work.old m.height) }
    ensures tried { Tried code.now sub.now regs.old m result.told }
    ensures head_after { now_of regs.new work.new result.head ≡ leads code.now sub.now note (configuration_of regs.old work.old m) }
{
    let told = tell(code, sub, regs, m);
    let head = make_move(code, sub, regs, work, m, note);
    Turn { told, head }
}

// What is kept after a move.
fn keep_on(kept: Option<Miss>, told: Told) -> Option<Miss>
    ensures { (start : ℕ) → kept_of start result ≡ kept_by start (kept_of start kept) told }
{
    match told {
        Told::Item(missed) => lead(kept, missed),
        Told::Refuted(refuted) => settle(kept, refuted),
    }
}

// What is kept of the walk from `begin`.
fn walk_start(
    code: &[u32],
    sub: &[u8],
    regs: &mut [u32],
    work: &mut [u32],
    entry: u32,
    begin: u32,
    budget: u32,
) -> Option<Miss>
    requires regs_len { (length regs.old ≡ registers) × (length sub.now < 2 ^ 31) × (length code.now < 2 ^ 32) }
    requires by_index { (first : List ℕ) × (t : Trace) × (final : Option Failure) × Plain code.now sub.now (bests begin) final (length work.old) budget first none (go entry begin regs.old []) t }
    ensures { (first : List ℕ) (t : Trace) (final : Option Failure) → Plain code.now sub.now (bests begin) final (length work.old) budget first none (go entry begin regs.old []) t
        → (regs.new ≡ first) × (kept_of begin result ≡ final) }
{
    let mut rest = budget;
    let mut head = start(entry, begin);
    let mut kept = None;
    while head.live {
        let note = note_of(kept, head.at);
        let turn = try_next(code, sub, regs, work, head, note);
        kept = keep_on(kept, turn.told);
        head = turn.head;
        rest -= 1;
    }
    kept
}

// The furthest failure and the closest attempt of the walks from all starts.
pub fn walk_all(
    code: &[u32],
    sub: &[u8],
    regs: &mut [u32],
    work: &mut [u32],
    entry: u32,
    budget: u32,
) -> Best
    requires sized { Sized code.now sub.now work.old budget × Clear regs.old }
    requires stands { (x : Rule) × Stands code.now x entry }
    requires fruitless { (x : Rule) → Stands code.now x entry → Fruitless sub.now x budget }
    ensures { ((x : Rule) → Stands code.now x entry → Finds (failures sub.now x) result) × (regs.new ≡ regs.old) }
{
    let mut best = None;
    let mut begin: u32 = 0;
    while begin as usize <= sub.len() {
        let kept = walk_start(code, sub, regs, work, entry, begin, budget);
        best = consider(best, begin, kept);
        begin += 1;
    }
    best.unwrap_or(blank())
}
