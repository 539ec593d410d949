// The plain move of the machine, as an explanation walks it (02, request f): one node at a time, and which item failed there. A match goes the
// same way by `walker`, faster, and tells no item.
//
// `tell_missed` tells the failures of the next move, and `make_move` makes it. A node is carried out alone, whatever follows it: no branch and no end of
// a run is passed over, so that what each of them tries is told. A move costs the same whatever the subject, but for a run, which looks at its
// bytes, and a reference, which looks at those that it compares; both look twice, once to tell and once to move. An inner end of a held part or of looking
// ahead looks at the frames pushed since that was entered.
//
// Whether a `(?!` fails is seen only at its inner end. So it keeps a note of the explanation's where it is entered, and is told by that (`tell_refuted`).
#![tactic(auto)]

ghost use Rattle.std.specs.Prelude.{◌≡◌, List, not, ℕ, ◌+◌, ◌*◌, ◌≤◌, ◌<◌, ◌^◌, length, get_or, drop};
ghost use Rattle.syntax.specs.Limits.{spans_length, registers};
ghost use Rattle.machine.specs.Code.{repeat_at, Fits};
ghost use Rattle.machine.specs.Moves.{bytes_of};
ghost use Rattle.machine.specs.Words.{stack_of, configuration_of, now_of, moved_on, carried};
ghost use Rattle.machine.specs.Ready.{StackFits};
ghost use Rattle.plain.specs.Telling.{leads};
ghost use Rattle.plain.specs.Misses.{failed_if, missed_of, Tells, TellsLate, RefersAs};

use breaks::break_at;
use machine::{Machine, fall_back, go_down, push_explore};
use marks::{forbid, take_marked};
use nodes::{Compared, assertion_holds, byte_holds, compare};
use repeats::is_full;
use run_ends::run_length;
use syntax::node::{ASSERTION, BRANCH, BREAK, BYTE, FORBID, MARK, REFERENCE, RUN};
use walker::step;

// More steps than any run or reference makes: no budget cuts a move that is made here.
const ALL_STEPS: u32 = u32::MAX;

// An item that failed: where in the subject it was tried, and its place in the rule.
#[derive(Clone, Copy, Debug, PartialEq, Eq)]
pub struct Miss {
    pub at: u32,
    pub place: u32,
}

// A `(?!` that failed: the note that it kept where it was entered, and its place in the rule.
#[derive(Clone, Copy, Debug, PartialEq, Eq)]
pub struct Refuted {
    pub note: u32,
    pub place: u32,
}

// What a move tells: the item that failed in it, if one did; or, at its inner end, a `(?!` that failed.
#[derive(Clone, Copy, Debug, PartialEq, Eq)]
pub enum Told {
    Item(Option<Miss>),
    Refuted(Refuted),
}

// How many bytes the run at `pc` takes, all of them.
fn run_bytes(code: &[u32], sub: &[u8], pc: usize, at: u32) -> u32
    requires { (pc + 8 ≤ length code.now) × (get_or code.now (pc + 6) 0 + 11 ≤ length code.now) × (length sub.now < 2 ^ 31) }
    ensures { (result ≡ bytes_of code.now sub.now (repeat_at code.now (pc + 2)) 0 at) × (at + result < 2 ^ 32) }
{
    run_length(code, sub, pc, at, ALL_STEPS)
}

// The position behind the bytes of the reference at `pc`, if it holds at a position.
fn refer(code: &[u32], sub: &[u8], regs: &[u32], pc: usize, at: u32) -> Option<u32>
    requires { (pc + 5 ≤ length code.now) × (get_or code.now (pc + 3) 0 + 2 ≤ spans_length) × (spans_length ≤ length regs.now) × (length sub.now < 2 ^ 31) }
    ensures { RefersAs code.now sub.now regs.now pc at result }
{
    let slot = code[pc + 3] as usize;
    let from = regs[slot];
    let to = regs[slot + 1];
    if from == machine::unset_position() {
        return None;
    }
    let n = to.saturating_sub(from);
    let folded = code[pc + 4] == 1;
    match compare(sub, n, from, at, ALL_STEPS, folded) {
        Compared::Same => Some(at + n),
        Compared::Unlike(_k) => None,
        Compared::TooMany => None,
    }
}

// An item fails unless it holds.
fn miss_unless(holds: bool, at: u32, place: u32) -> Option<Miss>
    ensures { (start : ℕ) → missed_of start result ≡ failed_if (not holds) (record { start = start; at = at; place = place }) }
{
    if holds {
        return None;
    }
    Some(Miss { at, place })
}

// What the run at `m` tells: the byte behind its bytes failed, at the place of its body, unless the most rounds were made.
fn tell_run(code: &[u32], sub: &[u8], regs: &[u32], m: Machine) -> Option<Miss>
    requires { (get_or code.now m.pc 0 ≡ 10) × (m.pc + 8 ≤ length code.now) × (get_or code.now (m.pc + 6) 0 + 11 ≤ length code.now) × (length sub.now < 2 ^ 31) }
    ensures { Tells code.now sub.now regs.now m result }
{
    let pc = m.pc as usize;
    let k = run_bytes(code, sub, pc, m.at);
    let most = code[pc + 3];
    let body = code[pc + 6] as usize;
    let full = is_full(most, k);
    miss_unless(full, m.at + k, code[body + 2])
}

// What `\R` at `m` tells: the feed behind a return, or the return, which it tries twice if nothing else fits.
fn tell_break(code: &[u32], sub: &[u8], regs: &[u32], m: Machine) -> Option<Miss>
    requires { (get_or code.now m.pc 0 ≡ 12) × (m.pc + 3 ≤ length code.now) × (length sub.now < 2 ^ 31) }
    ensures { Tells code.now sub.now regs.now m result }
{
    let pc = m.pc as usize;
    let place = code[pc + 2];
    let found = break_at(sub, m.at as usize);
    if found.steps == 7 {
        return Some(Miss {
            at: m.at + 1,
            place,
        });
    }
    miss_unless(found.bytes == 2, m.at, place)
}

// What a `(?!` at `m` tells that fails: its note, and its place in the rule.
pub fn tell_refuted(code: &[u32], regs: &[u32], m: Machine) -> Refuted
    requires pc_value { (get_or code.now m.pc 0 ≡ 17) × (length regs.now ≡ registers) }
    requires fits { Fits code.now m.pc }
    ensures { TellsLate code.now regs.now m result }
{
    let pc = m.pc as usize;
    let register = code[pc + 2] as usize;
    let place = code[pc + 3];
    let note = regs[register + 1];
    Refuted { note, place }
}

// Which item fails in the move that the machine makes next, if one does: a byte item, an assertion or a reference, the byte at which a run stops, or one of
// `\R`'s. That a `(?!` fails is told by `tell_refuted`.
pub fn tell_missed(code: &[u32], sub: &[u8], regs: &[u32], m: Machine) -> Option<Miss>
    requires regs_len { (length regs.now ≡ registers) × (length sub.now < 2 ^ 31) }
    requires fits { Fits code.now m.pc }
    ensures { Tells code.now sub.now regs.now m result }
{
    let pc = m.pc as usize;
    match code[pc] {
        BYTE => {
            let has_byte = byte_holds(code, sub, pc, m.at as usize);
            miss_unless(has_byte, m.at, code[pc + 2])
        }
        ASSERTION => {
            let holds = assertion_holds(sub, code[pc + 3], m.at as usize);
            miss_unless(holds, m.at, code[pc + 2])
        }
        RUN => tell_run(code, sub, regs, m),
        REFERENCE => {
            let behind = refer(code, sub, regs, pc, m.at);
            miss_unless(behind.is_some(), m.at, code[pc + 2])
        }
        BREAK => tell_break(code, sub, regs, m),
        _ => None,
    }
}

// Begins a branch, and keeps the one after it for later.
fn begin_branch(code: &[u32], work: &mut [u32], m: Machine) -> Machine
    requires { (m.pc + 3 ≤ length code.now) × (4 * m.height + 4 ≤ length work.old) }
    ensures { (sub regs : List ℕ) → now_of regs work.new result ≡ carried 5 code.now sub regs work.old m }
{
    let pc = m.pc as usize;
    let body = code[pc + 1];
    let other = code[pc + 2];
    let h = push_explore(work, m.height, other, m.at);
    Machine {
        pc: body,
        at: m.at,
        height: h,
        live: true,
    }
}

// A run: it goes on behind its bytes, with the ends below kept for later, or falls back if the bytes are too few.
fn make_run(code: &[u32], sub: &[u8], regs: &mut [u32], work: &mut [u32], m: Machine) -> Machine
    requires pc_in_bounds { (m.pc + 8 ≤ length code.now) × (get_or code.now (m.pc + 6) 0 + 11 ≤ length code.now) × (length sub.now < 2 ^ 31) × (length regs.old ≡ registers) × (4 * m.height + 4 ≤ length work.old) }
    requires stack_fits { StackFits code.now (stack_of work.old m.height) }
    ensures { now_of regs.new work.new result ≡ carried 10 code.now sub.now regs.old work.old m }
{
    let pc = m.pc as usize;
    let k = run_bytes(code, sub, pc, m.at);
    let least = code[pc + 2];
    if k < least {
        return fall_back(code, regs, work, m.height);
    }
    let next = code[pc + 7];
    go_down(work, next, m.at + k, m.at + least, m.height)
}

// A reference: it goes on behind as many bytes as its span has, or falls back.
fn follow_reference(
    code: &[u32],
    sub: &[u8],
    regs: &mut [u32],
    work: &mut [u32],
    m: Machine,
) -> Machine
    requires pc_in_bounds { (m.pc + 5 ≤ length code.now) × (get_or code.now (m.pc + 3) 0 + 2 ≤ spans_length) × (length sub.now < 2 ^ 31) × (length regs.old ≡ registers) × (4 * m.height ≤ length work.old) }
    requires stack_fits { StackFits code.now (stack_of work.old m.height) }
    ensures { now_of regs.new work.new result ≡ carried 11 code.now sub.now regs.old work.old m }
{
    let pc = m.pc as usize;
    match refer(code, sub, regs, pc, m.at) {
        Some(behind) => Machine {
            pc: code[pc + 1],
            at: behind,
            height: m.height,
            live: true,
        },
        None => fall_back(code, regs, work, m.height),
    }
}

// `\R`: it goes on behind its bytes, or falls back.
fn make_break(code: &[u32], sub: &[u8], regs: &mut [u32], work: &mut [u32], m: Machine) -> Machine
    requires pc_value { (get_or code.now m.pc 0 ≡ 12) × (m.pc + 3 ≤ length code.now) × (length sub.now < 2 ^ 31) × (length regs.old ≡ registers) × (4 * m.height ≤ length work.old) }
    requires stack_fits { StackFits code.now (stack_of work.old m.height) }
    ensures { now_of regs.new work.new result ≡ moved_on code.now sub.now regs.old work.old m }
{
    let pc = m.pc as usize;
    let next = code[pc + 1];
    let found = break_at(sub, m.at as usize);
    if found.bytes == 0 {
        return fall_back(code, regs, work, m.height);
    }
    Machine {
        pc: next,
        at: m.at + found.bytes,
        height: m.height,
        live: true,
    }
}

// A node of a held part or of looking ahead. A `(?!` keeps the note where it is entered.
fn make_marked(
    code: &[u32],
    sub: &[u8],
    regs: &mut [u32],
    work: &mut [u32],
    kind: u32,
    m: Machine,
    note: u32,
) -> Machine
    requires kind_value { (kind ≡ get_or code.now m.pc 0) × (13 ≤ kind) × (length regs.old ≡ registers) × (4 * m.height + 8 ≤ length work.old) × (m.height < 2 ^ 32) }
    requires fits { Fits code.now m.pc }
    requires stack_fits { StackFits code.now (stack_of work.old m.height) }
    ensures { now_of regs.new work.new result ≡ leads code.now sub.now note (configuration_of regs.old work.old m) }
{
    if kind == FORBID {
        return forbid(code, regs, work, m, note);
    }
    take_marked(code, regs, work, kind, m)
}

// Makes the move: carries out the node at which the machine stands, which is not the rule's end, and no other. A `(?!` keeps the note where it is entered.
pub fn make_move(
    code: &[u32],
    sub: &[u8],
    regs: &mut [u32],
    work: &mut [u32],
    m: Machine,
    note: u32,
) -> Machine
    requires fact { (get_or code.now m.pc 0 ≡ 9 → ⊥) × (length regs.old ≡ registers) × (4 * m.height + 8 ≤ length work.old) × (length sub.now < 2 ^ 31) × (length code.now < 2 ^ 32) × (m.height < 2 ^ 32) }
    requires fits { Fits code.now m.pc }
    requires stack_fits { StackFits code.now (stack_of work.old m.height) }
    ensures { now_of regs.new work.new result ≡ leads code.now sub.now note (configuration_of regs.old work.old m) }
{
    let pc = m.pc as usize;
    let kind = code[pc];
    if kind == BRANCH {
        return begin_branch(code, work, m);
    }
    if kind == RUN {
        return make_run(code, sub, regs, work, m);
    }
    if kind == REFERENCE {
        return follow_reference(code, sub, regs, work, m);
    }
    if kind == BREAK {
        return make_break(code, sub, regs, work, m);
    }
    if MARK <= kind {
        return make_marked(code, sub, regs, work, kind, m, note);
    }
    step(code, sub, regs, work, kind, m)
}
