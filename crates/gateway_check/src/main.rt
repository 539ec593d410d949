// The gateway's check (02, request m): it reads the rule in `rule.txt`, then standard input line by line, each with a proposal in front, and answers each
// line with one of its own: whether the choices that were sent make a reading of it.
#![tactic(auto)]

mod answering;
mod lines;
mod proposals;

use answering::{RULE_AREA, put_refusal, put_unreadable};
use frame::RULE_LIMIT;
use gateway_line::prepare;
use lines::{answer_input, write_out};
use office::{Lines, ROOM};
use std::fs;

// One byte more than a rule may have: with so many, it is known to be too long.
const RULE: usize = RULE_LIMIT + 1;

// Answers standard input by a rule, which is compiled once for all lines, or says why it is refused.
fn serve_or_refuse(rt: &HostRuntime, rule: &[u8], out: &mut [u8; ROOM]) {
    let mut area = [0u32; RULE_AREA];
    match prepare(rule, true, &mut area) {
        Ok(compiled) => answer_input(rt, &area, compiled.entry, compiled.groups, out),
        Err(f) => {
            let at = put_refusal(f, out);
            write_out(rt, out, at);
        }
    }
}

// Says that the rule file cannot be read.
fn say_unreadable(rt: &HostRuntime, out: &mut [u8; ROOM]) {
    let at = put_unreadable(out);
    write_out(rt, out, at);
}

fn main(rt: HostRuntime) {
    let mut out = io::large_buffer();
    let Ok(file) = fs::open(&rt, "rule.txt") else {
        say_unreadable(&rt, &mut out);
        return;
    };
    let mut rule = [0u8; RULE];
    match Lines::new(file).first(&mut rule) {
        Ok(n) => serve_or_refuse(&rt, &rule[..n], &mut out),
        Err(_) => say_unreadable(&rt, &mut out),
    }
}
