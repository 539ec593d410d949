// Walks rules from given starts and writes each end, with its captures and the steps up to it, and how the walk stopped.
//
// A line of input has five words: the flags, the budget and the start in decimal, the rule and the subject in hex.
// It gives a line for each end, 'end', the steps, the position and each group's span, 's-e' or '-'; and last 'done' or 'spent' and the steps,
// or, for a rule that is refused, the refusal's number, 'at' and its place.
#![tactic(auto)]

ghost use Rattle.std.specs.Prelude.{◌≡◌, List, ℕ, ◌+◌, ◌*◌, ◌≤◌, ◌<◌, ◌^◌, length};
ghost use Rattle.syntax.specs.Limits.{rule_limit, rule_area_need, group_limit, registers};
ghost use Rattle.syntax.specs.Tree.{Rule};
ghost use Rattle.machine.specs.Theorem.{Stands};
ghost use Rattle.semantics.specs.Walk.{Trace};
ghost use Rattle.machine.specs.Words.{now_of};
ghost use Rattle.machine.specs.Ready.{Ready};

use machine::{Machine, Stop};
use syntax::REGISTERS;
use vectors::{cut, decode, number, put, put_refusal};

// Both numbers of a group that is not set.
const UNSET: u32 = u32::MAX;

// A group's span, '-' where it is not set.
fn put_span(rt: &HostRuntime, from: u32, to: u32) {
    if from == UNSET {
        put(rt, " -");
        return;
    }
    put(rt, " ");
    put(rt, from);
    put(rt, "-");
    put(rt, to);
}

// One end of a walk, with the spans of a rule's groups from the registers.
fn put_end(rt: &HostRuntime, steps: u32, at: u32, regs: &[u32], groups: usize)
    requires { 2 * groups ≤ length regs.now }
{
    put(rt, "end ");
    put(rt, steps);
    put(rt, " ");
    put(rt, at);
    for i in 0..groups {
        put_span(rt, regs[2 * i], regs[2 * i + 1]);
    }
    put(rt, "\n");
}

// How a walk stopped.
fn put_stop(rt: &HostRuntime, how: &str, steps: u32) {
    put(rt, how);
    put(rt, steps);
    put(rt, "\n");
}

// All ends of a walk.
fn walk(
    rt: &HostRuntime,
    code: &[u32],
    sub: &[u8],
    regs: &mut [u32],
    work: &mut [u32],
    m: Machine,
    budget: u32,
    groups: usize,
)
    requires regs_len { (length regs.old ≡ registers) × (2 * groups ≤ length regs.old) × (length sub.now < 2 ^ 32) × (length code.now < 2 ^ 32) }
    requires by_index { (first : List ℕ) × (t : Trace) × Ready code.now sub.now (length work.old) budget first (now_of regs.old work.old m) t }
{
    let mut head = m;
    let mut left = budget;
    loop {
        let stop = walker::run_to_end(code, sub, regs, work, head, left);
        match stop {
            Stop::End(used, e) => {
                left -= used;
                let height = e.height;
                put_end(rt, budget - left, e.at, regs, groups);
                head = machine::fall_back(code, regs, work, height);
            }
            Stop::Nothing(used) => return put_stop(rt, "done ", budget - left + used),
            Stop::Spent => return put_stop(rt, "spent ", budget),
        }
    }
}

// The walk of a compiled rule from a start, with fresh registers.
fn walk_from(
    rt: &HostRuntime,
    code: &[u32],
    sub: &[u8],
    work: &mut [u32],
    entry: u32,
    groups: u32,
    start: usize,
    budget: u32,
)
    requires start_in_bounds { (start ≤ length sub.now) × (length sub.now < 2 ^ 32) × (length code.now < 2 ^ 32) × (8 * budget ≤ length work.old) × (groups ≤ group_limit) × (2 * budget < 2 ^ 32) }
    requires stands { (x : Rule) × Stands code.now x entry }
{
    let mut regs = [UNSET; REGISTERS];
    let m = machine::start(entry, start as u32);
    walk(rt, code, sub, &mut regs, work, m, budget, groups as usize);
}

// The walk of a rule from a start, or why there is none.
fn tell(
    rt: &HostRuntime,
    rule: &[u8],
    flags: u32,
    sub: &[u8],
    start: usize,
    budget: u32,
    area: &mut [u32],
    work: &mut [u32],
)
    requires { (length rule.now ≤ rule_limit) × (length area.old ≡ rule_area_need) × (length sub.now < 2 ^ 32) × (8 * budget ≤ length work.old) × (2 * budget < 2 ^ 32) }
{
    if sub.len() < start {
        put(rt, "no such start\n");
        return;
    }
    match reader::compile(rule, flags, false, area) {
        Ok(compiled) => walk_from(
            rt,
            area,
            sub,
            work,
            compiled.entry,
            compiled.groups,
            start,
            budget,
        ),
        Err(f) => put_refusal(rt, f),
    }
}

// The walk that a line asks for.
fn tell_line(rt: &HostRuntime, line: &[u8], area: &mut [u32], work: &mut [u32])
    requires { (length area.old ≡ rule_area_need) × (8 * 20000 ≤ length work.old) }
{
    if line.is_empty() {
        return;
    }
    let mut rule = [0u8; 1000];
    let mut sub = [0u8; 1000];
    let (flags, line) = cut(line, b' ');
    let (budget, line) = cut(line, b' ');
    let (start, line) = cut(line, b' ');
    let (rule_digits, sub_digits) = cut(line, b' ');
    let n = decode(rule_digits, &mut rule);
    let k = decode(sub_digits, &mut sub);
    tell(
        rt,
        &rule[..n],
        number(flags, 1000),
        &sub[..k],
        number(start, 20000) as usize,
        number(budget, 20000),
        area,
        work,
    );
}

fn tell_lines(rt: &HostRuntime, input: &[u8], area: &mut [u32], work: &mut [u32])
    requires { (length area.old ≡ rule_area_need) × (8 * 20000 ≤ length work.old) }
{
    let mut rest = input;
    while !rest.is_empty() {
        let (line, behind) = cut(rest, b'\n');
        tell_line(rt, line, area, work);
        rest = behind;
    }
}

fn main(rt: HostRuntime) {
    let mut buffer = vectors::input_buffer();
    let mut input = rt.stdin();
    let n = vectors::read_full(&mut input, &mut buffer);
    let mut area = [0u32; 16384];
    let mut work = [0u32; 160000];
    tell_lines(&rt, &buffer[..n], &mut area, &mut work);
}
