// The gateway program: it reads the rule in `rule.txt`, then standard input line by line, and answers each line with one of its own.
#![tactic(auto)]

mod input;
mod lines;
mod output;
mod rule_file;

ghost use Rattle.std.specs.Prelude.{◌≡◌, List, ℕ, ◌≤◌, length};
ghost use Rattle.syntax.specs.Limits.{rule_area_need};
ghost use Rattle.gateway_text.specs.Limits.{answer_room};
ghost use Rattle.gateway_answers.specs.Promises.{Standing};

use gateway_line::prepare;
use gateway_text::{write_refusal, write_unreadable};
use lines::answer_input;
use output::say_unwritten;
use rule_file::load;
use std::fs;

// One byte more than a rule may have: with so many, it is known to be too long.
const RULE_ROOM: usize = frame::RULE_LIMIT + 1;

// What the rule and every match is lent: 01, "Rows, room and what is left behind".
const RULE_AREA: usize = frame::RULE_AREA_NEED;

const WORK_AREA: usize = frame::WORK_PER_STEP * gateway_line::BUDGET as usize;

const RESULT_AREA: usize = index::ROW_LENGTH;

// One byte more than a line may have.
const LINE_ROOM: usize = gateway_line::HELD_LIMIT;

// Says that the rule file cannot be read.
fn say_unreadable(rt: &HostRuntime, out: &mut [u8])
    requires { answer_room ≤ length out.old }
{
    let n = write_unreadable(out, 0);
    say_unwritten(rt, rt.write_all(&out[..n]));
}

// Says why the rule is refused.
fn say_refusal(rt: &HostRuntime, f: syntax::Refusal, out: &mut [u8])
    requires { answer_room ≤ length out.old }
{
    let n = write_refusal(f, out, 0);
    say_unwritten(rt, rt.write_all(&out[..n]));
}

// Answers standard input by a rule that stands compiled.
fn serve(rt: &HostRuntime, code: &[u32], entry: u32, groups: u32, out: &mut [u8])
    requires by_index { (rule : List ℕ) × Standing rule code.now entry groups }
    requires code_len { (length code.now ≡ rule_area_need) × (answer_room ≤ length out.old) }
{
    let mut work_area = [0u32; WORK_AREA];
    let mut results = [0u32; RESULT_AREA];
    let mut line = [0u8; LINE_ROOM];
    let mut piece = io::large_buffer();
    let mut input = rt.stdin();
    let answered = answer_input(
        rt,
        &mut input,
        code,
        entry,
        groups,
        &mut piece,
        &mut line,
        &mut work_area,
        &mut results,
        out,
    );
    say_unwritten(rt, answered);
}

// Answers standard input by a rule, which is compiled once for all lines, or says why it is refused.
fn serve_or_refuse(rt: &HostRuntime, rule: &[u8], out: &mut [u8])
    requires { answer_room ≤ length out.old }
{
    let mut rule_area = [0u32; RULE_AREA];
    match prepare(rule, false, &mut rule_area) {
        Ok(compiled) => serve(rt, &rule_area, compiled.entry, compiled.groups, out),
        Err(f) => say_refusal(rt, f, out),
    }
}

fn main(rt: HostRuntime) {
    let mut out = io::large_buffer();
    let Ok(mut file) = fs::open(&rt, "rule.txt") else {
        say_unreadable(&rt, &mut out);
        return;
    };
    let mut rule = [0u8; RULE_ROOM];
    let loaded = load(&mut file, &mut rule);
    drop(file);
    match loaded {
        Ok(n) => serve_or_refuse(&rt, &rule[..n], &mut out),
        Err(_) => say_unreadable(&rt, &mut out),
    }
}
