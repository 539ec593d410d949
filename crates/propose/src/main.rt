// Proposals for the box (02, request m): of each line of a file that a rule matches, the choices of the match.
#![tactic(auto)]

mod lines;
mod messages;

ghost use Rattle.std.specs.Prelude.{◌≤◌, length};
ghost use Rattle.propose.specs.Rules.{Holds};

use frame::{BUDGET_LIMIT, NAME_INDEX_NEED, RULE_LIMIT, prepare};
use lines::{CHOICES, RULE_AREA, Setting, WORK_AREA};
use office::{
    Lines, ROOM, arg_count, budget_at, fail, flags_at, flush, open, read_rule, say, say_refusal,
};
use std::fs::File;

// Where the arguments stand.
const RULE_FILE: usize = 1;

const LINES_FILE: usize = 2;

const FLAGS: usize = 3;

const BUDGET: usize = 4;

// One byte more than the longest rule: a rule that fills this is too long, whatever follows.
const RULE: usize = RULE_LIMIT + 1;

// Writes out what waits in the buffer. No proposal is lost in silence.
fn write_out(rt: &HostRuntime, out: &[u8; ROOM], at: usize) {
    if !flush(rt, out, at) {
        say(rt, b"propose: the proposals could not be written\n");
    }
}

// Proposes for the lines of a file, with a rule that stands compiled.
fn propose_lines(
    rt: &HostRuntime,
    lines: &mut Lines<File>,
    area: &[u32; RULE_AREA],
    setting: Setting,
    work: &mut [u32; WORK_AREA],
    ways: &mut [u8; CHOICES],
    proposal: &mut [u8; CHOICES],
)
    requires { Holds area.now setting.entry setting.budget }
{
    let mut out = io::large_buffer();
    let told = lines::tell_lines(rt, lines, area, setting, work, ways, proposal, &mut out);
    if let Some(e) = told.failed {
        fail(rt, b"propose: the lines could not be read to their end", e);
    }
    write_out(rt, &out, told.at);
}

// Proposes with a rule, if it is not refused. It is compiled once, and then held over all lines.
fn run(
    rt: &HostRuntime,
    rule: &[u8],
    flags: u32,
    budget: u32,
    area: &mut [u32; RULE_AREA],
    work: &mut [u32; WORK_AREA],
    ways: &mut [u8; CHOICES],
    proposal: &mut [u8; CHOICES],
)
    requires { length rule.now ≤ 1001 }
{
    let mut names = [0u8; NAME_INDEX_NEED];
    match prepare(rule, flags, true, 0, budget, area, work, false, &mut names) {
        Err(f) => say_refusal(rt, b"propose", f, rule),
        Ok(compiled) => {
            if let Some(file) = open(rt, b"propose", LINES_FILE) {
                let mut lines = Lines::new(file);
                let setting = Setting {
                    entry: compiled.entry,
                    budget,
                };
                propose_lines(rt, &mut lines, area, setting, work, ways, proposal);
            }
        }
    }
}

// With the flags and the budget, and the areas that are lent. The rule is the first line of its file, or all of it.
fn start(rt: &HostRuntime, flags: u32, budget: u32) {
    let mut buffer = [0u8; RULE];
    let Some((_file, rule)) = read_rule(rt, b"propose", RULE_FILE, &mut buffer) else {
        return;
    };
    let mut area = [0u32; RULE_AREA];
    let mut work = [0u32; WORK_AREA];
    let mut ways = [0u8; CHOICES];
    let mut proposal = [0u8; CHOICES];
    run(
        rt,
        rule,
        flags,
        budget,
        &mut area,
        &mut work,
        &mut ways,
        &mut proposal,
    );
}

fn main(rt: HostRuntime) {
    let count = arg_count(&rt);
    if count <= LINES_FILE || BUDGET + 1 < count {
        messages::usage(&rt);
        return;
    }
    let flags = flags_at(&rt, FLAGS);
    let budget = budget_at(&rt, BUDGET, BUDGET_LIMIT);
    let (Some(flags), Some(budget)) = (flags, budget) else {
        messages::usage(&rt);
        return;
    };
    start(&rt, flags, budget);
}
