// The stack in the work area, four numbers for each frame, and the registers, whose every change is undone by a frame.
ghost use Rattle.std.specs.Prelude.{◌≡◌, List, ◌∷◌, ℕ, ◌+◌, ◌*◌, ◌≤◌, length, get_or};
ghost use Rattle.syntax.specs.Limits.{registers};
ghost use Rattle.machine.specs.Code.{repeat_at};
ghost use Rattle.machine.specs.Moves.{explore, set2, saved, go, go_set, begin, keep, cut_to, below, fall};
ghost use Rattle.machine.specs.Words.{frame_of, frame_at, stack_of, now_of, Counted};
ghost use Rattle.machine.specs.Ready.{StackFits, Undone};

use crate::{Counter, Machine};

// The kinds of frames.
const EXPLORE: u32 = 0;

pub const AGAIN: u32 = 1;

const STRETCH: u32 = 2;

const UNDO: u32 = 3;

// A frame goes onto the stack.
pub fn push(work: &mut [u32], height: usize, kind: u32, a: u32, b: u32, c: u32) -> usize
    requires { 4 * height + 4 ≤ length work.old }
    ensures { (result ≡ height + 1) × (stack_of work.new (height + 1) ≡ frame_of kind a b c ∷ stack_of work.old height)
        × ((j : ℕ) → 4 * height + 4 ≤ j → get_or work.new j 0 ≡ get_or work.old j 0) }
{
    let w = 4 * height;
    work[w] = kind;
    work[w + 1] = a;
    work[w + 2] = b;
    work[w + 3] = c;
    height + 1
}

// A node to go on at goes onto the stack. The fourth number of such a frame says nothing, and stays as it is.
pub fn push_explore(work: &mut [u32], height: usize, pc: u32, at: u32) -> usize
    requires { 4 * height + 4 ≤ length work.old }
    ensures { (result ≡ height + 1) × (stack_of work.new (height + 1) ≡ explore pc at ∷ stack_of work.old height) }
{
    let w = 4 * height;
    work[w] = EXPLORE;
    work[w + 1] = pc;
    work[w + 2] = at;
    height + 1
}

// Two registers are written.
fn write_pair(regs: &mut [u32], i: usize, x: u32, y: u32)
    requires { i + 2 ≤ length regs.old }
    ensures { regs.new ≡ set2 regs.old i x y }
{
    regs[i] = x;
    regs[i + 1] = y;
}

// Two registers that have `a` and `b` are written, and the frame that undoes it is pushed.
fn write_over(
    regs: &mut [u32],
    work: &mut [u32],
    height: usize,
    register: u32,
    a: u32,
    b: u32,
    x: u32,
    y: u32,
) -> usize
    requires { (register + 2 ≤ length regs.old) × (4 * height + 4 ≤ length work.old) × (a ≡ get_or regs.old register 0) × (b ≡ get_or regs.old (register + 1) 0) }
    ensures { (result ≡ height + 1) × (regs.new ≡ set2 regs.old register x y) × (stack_of work.new (height + 1) ≡ saved regs.old register ∷ stack_of work.old height) }
{
    let i = register as usize;
    let h = push(work, height, UNDO, a, register, b);
    write_pair(regs, i, x, y);
    h
}

// Two registers are written, and the frame that undoes it is pushed.
pub fn save_and_write(
    regs: &mut [u32],
    work: &mut [u32],
    height: usize,
    register: u32,
    x: u32,
    y: u32,
) -> usize
    requires { (register + 2 ≤ length regs.old) × (4 * height + 4 ≤ length work.old) }
    ensures { (result ≡ height + 1) × (regs.new ≡ set2 regs.old register x y) × (stack_of work.new (height + 1) ≡ saved regs.old register ∷ stack_of work.old height) }
{
    let i = register as usize;
    let a = regs[i];
    let b = regs[i + 1];
    write_over(regs, work, height, register, a, b, x, y)
}

// Round `n` of a repeat begins at its body. What its registers have was read before: a number that is read once more behind a store to another
// slice is loaded once more.
pub fn begin_over(
    regs: &mut [u32],
    work: &mut [u32],
    height: usize,
    k: Counter,
    body: u32,
    n: u32,
    at: u32,
) -> Machine
    requires { (k.register + 2 ≤ length regs.old) × (4 * height + 4 ≤ length work.old) × Counted regs.old k }
    ensures { now_of regs.new work.new result ≡ go_set k.register n at body at regs.old (stack_of work.old height) }
{
    let h = write_over(regs, work, height, k.register, k.rounds, k.from, n, at);
    Machine {
        pc: body,
        at: at,
        height: h,
        live: true,
    }
}

// Round `n` begins of the repeat whose numbers stand at `q`.
pub fn begin_round(
    code: &[u32],
    regs: &mut [u32],
    work: &mut [u32],
    q: usize,
    n: u32,
    at: u32,
    height: usize,
) -> Machine
    requires { (q + 6 ≤ length code.now) × (get_or code.now (q + 3) 0 + 2 ≤ length regs.old) × (4 * height + 4 ≤ length work.old) }
    ensures { now_of regs.new work.new result ≡ begin (repeat_at code.now q) n at regs.old (stack_of work.old height) }
{
    let register = code[q + 3];
    let body = code[q + 4];
    let h = save_and_write(regs, work, height, register, n, at);
    Machine {
        pc: body,
        at: at,
        height: h,
        live: true,
    }
}

// Goes on at a node from the position `high`, and keeps those below it, down to `low`, for later.
pub fn go_down(work: &mut [u32], pc: u32, high: u32, low: u32, height: usize) -> Machine
    requires { 4 * height + 4 ≤ length work.old }
    ensures { (regs : List ℕ) → now_of regs work.new result ≡ go pc high regs (below pc high low (stack_of work.old height)) }
{
    if low < high {
        let h = push(work, height, STRETCH, pc, high - 1, low);
        return Machine {
            pc: pc,
            at: high,
            height: h,
            live: true,
        };
    }
    Machine {
        pc: pc,
        at: high,
        height: height,
        live: true,
    }
}

// Undoes changes of registers until the frame on top is of another kind, or none is left: the height then. It is a loop of its own, with one test for
// each frame, since most frames that are taken off are such.
fn undo(regs: &mut [u32], work: &[u32], height: usize) -> usize
    requires regs_len { (length regs.old ≡ registers) × (4 * height ≤ length work.now) }
    requires by_index { (p : List ℕ) × StackFits p (stack_of work.now height) }
    ensures { Undone work.now height regs.old result regs.new }
{
    let mut h = height;
    while 0 < h {
        let w = 4 * h - 4;
        if work[w] < UNDO {
            return h;
        }
        let a = work[w + 1];
        let i = work[w + 2] as usize;
        let c = work[w + 3];
        write_pair(regs, i, a, c);
        h -= 1;
    }
    h
}

// Falls back: undoes changes of registers until a frame is found to go on with.
pub fn fall_back(code: &[u32], regs: &mut [u32], work: &mut [u32], height: usize) -> Machine
    requires regs_len { (length regs.old ≡ registers) × (4 * height ≤ length work.old) }
    requires stack_fits { StackFits code.now (stack_of work.old height) }
    ensures { now_of regs.new work.new result ≡ fall code.now regs.old (stack_of work.old height) }
{
    let top = undo(regs, work, height);
    if top == 0 {
        return Machine {
            pc: 0,
            at: 0,
            height: 0,
            live: false,
        };
    }
    let h = top - 1;
    let w = 4 * h;
    let kind = work[w];
    let a = work[w + 1];
    let b = work[w + 2];
    if kind == EXPLORE {
        return Machine {
            pc: a,
            at: b,
            height: h,
            live: true,
        };
    }
    let c = work[w + 3];
    if kind == AGAIN {
        let q = a as usize;
        return begin_round(code, regs, work, q, b, c, h);
    }
    go_down(work, a, b, c, h)
}

// The frame `i` is put on top of `h` others below it, if it undoes a change of registers.
fn keep_undo(work: &mut [u32], h: usize, i: usize) -> usize
    requires { (h ≤ i) × (4 * i + 4 ≤ length work.old) }
    ensures { (result ≤ h + 1) × (stack_of work.new result ≡ keep (frame_at work.old i) (stack_of work.old h))
        × ((j : ℕ) → 4 * i + 4 ≤ j → get_or work.new j 0 ≡ get_or work.old j 0) }
{
    let w = 4 * i;
    let kind = work[w];
    if kind < UNDO {
        return h;
    }
    let a = work[w + 1];
    let b = work[w + 2];
    let c = work[w + 3];
    push(work, h, kind, a, b, c)
}

// Gives up the choices above the height `mark`, and keeps what undoes changes of registers. A frame is looked at once for each held part that it lies in.
pub fn cut_to(work: &mut [u32], height: usize, mark: usize) -> usize
    requires { 4 * height ≤ length work.old }
    ensures { (result ≤ height) × (stack_of work.new result ≡ cut_to mark (stack_of work.old height)) }
{
    if height <= mark {
        return height;
    }
    let mut h = mark;
    for i in mark..height {
        h = keep_undo(work, h, i);
    }
    h
}
