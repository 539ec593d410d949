// What a node chooses, written down before its move, and whether the move falls back.
ghost use Rattle.std.specs.Prelude.{◌≡◌, ◌+◌, ◌≤◌, ◌<◌, ◌^◌, length, get_or, IfOk};
ghost use Rattle.syntax.specs.Limits.{registers};
ghost use Rattle.machine.specs.Code.{Fits};
ghost use Rattle.choosing.specs.Logs.{Within};

use crate::Unmade;
use crate::log::{Log, Way, put};
use machine::Machine;
use plain::tell_missed;
use repeats::is_full;
use run_ends::run_length;
use syntax::node;
use syntax::node::{BRANCH, END, REPEAT, RUN};

// The number of a greedy repeat's greed.
const GREEDY: u32 = 0;

// The bytes of a proposal: going on, and another round.
const GO_ON: u8 = 0;

const AGAIN: u8 = 1;

// More steps than any run makes.
const ALL_STEPS: u32 = u32::MAX;

// The first branch is begun, unless it is a further one, whose number stands there already.
fn note_branch(proposal: &mut [u8], ways: &mut [u8], log: Log) -> Result<Log, Unmade>
    requires { Within proposal.old ways.old log }
    ensures { IfOk result (Within proposal.new ways.new) }
{
    if log.resumed {
        return Ok(log);
    }
    put(proposal, ways, log, 0, Way::Next)
}

// A decision after so many rounds of the repeat whose numbers stand at `q`; `still`: the last one took no bytes. Where both ways are allowed, it is the one
// that the greed puts first.
fn note_decision(
    code: &[u32],
    q: usize,
    rounds: u32,
    still: bool,
    proposal: &mut [u8],
    ways: &mut [u8],
    log: Log,
) -> Result<Log, Unmade>
    requires { (q + 6 ≤ length code.now) × Within proposal.old ways.old log }
    ensures { IfOk result (Within proposal.new ways.new) }
{
    let least = code[q];
    let most = code[q + 1];
    let greed = code[q + 2];
    if rounds < least {
        return Ok(log);
    }
    if is_full(most, rounds) {
        return Ok(log);
    }
    if still {
        return Ok(log);
    }
    if greed == GREEDY {
        return put(proposal, ways, log, AGAIN, Way::Other);
    }
    put(proposal, ways, log, GO_ON, Way::Other)
}

// The decision at the end of a round of the repeat whose node `pc` is.
fn note_round(
    code: &[u32],
    regs: &[u32],
    pc: usize,
    at: u32,
    proposal: &mut [u8],
    ways: &mut [u8],
    log: Log,
) -> Result<Log, Unmade>
    requires { (pc + 7 ≤ length code.now) × (get_or code.now (pc + 1 + 3) 0 + 2 ≤ length regs.now) × Within proposal.old ways.old log }
    ensures { IfOk result (Within proposal.new ways.new) }
{
    let q = pc + 1;
    let register = code[q + 3] as usize;
    let rounds = regs[register];
    let from = regs[register + 1];
    note_decision(code, q, rounds, from == at, proposal, ways, log)
}

// So many rounds of a run: of each, going on is left.
fn note_rounds(proposal: &mut [u8], ways: &mut [u8], log: Log, rounds: u32) -> Result<Log, Unmade>
    requires { Within proposal.old ways.old log }
    ensures { IfOk result (Within proposal.new ways.new) }
{
    let mut on = log;
    for _ in 0..rounds {
        on = put(proposal, ways, on, AGAIN, Way::Other)?;
    }
    Ok(on)
}

// A run takes all its bytes, and each beyond the least is a choice. Behind the last one it goes on, which is a choice unless the most rounds are made: a
// further round would have been tried first, and failed.
fn note_run(
    code: &[u32],
    sub: &[u8],
    pc: usize,
    at: u32,
    proposal: &mut [u8],
    ways: &mut [u8],
    log: Log,
) -> Result<Log, Unmade>
    requires { (pc + 8 ≤ length code.now) × (get_or code.now (pc + 6) 0 + 11 ≤ length code.now) × (length sub.now < 2 ^ 31) × Within proposal.old ways.old log }
    ensures { IfOk result (Within proposal.new ways.new) }
{
    let taken = run_length(code, sub, pc, at, ALL_STEPS);
    let least = code[pc + 2];
    let most = code[pc + 3];
    if taken < least {
        return Ok(log);
    }
    let rounds = note_rounds(proposal, ways, log, taken - least)?;
    if is_full(most, taken) {
        return Ok(rounds);
    }
    put(proposal, ways, rounds, GO_ON, Way::Settled)
}

// What is chosen in the move from where the machine stands.
pub fn note_choice(
    code: &[u32],
    sub: &[u8],
    regs: &[u32],
    m: Machine,
    proposal: &mut [u8],
    ways: &mut [u8],
    log: Log,
) -> Result<Log, Unmade>
    requires regs_len { (length regs.now ≡ registers) × (length sub.now < 2 ^ 31) × Within proposal.old ways.old log }
    requires fits { Fits code.now m.pc }
    ensures { IfOk result (Within proposal.new ways.new) }
{
    let pc = m.pc as usize;
    let kind = code[pc];
    if kind == BRANCH {
        return note_branch(proposal, ways, log);
    }
    if kind == REPEAT {
        return note_decision(code, pc + 2, 0, false, proposal, ways, log);
    }
    if kind == node::AGAIN {
        return note_round(code, regs, pc, m.at, proposal, ways, log);
    }
    if kind == RUN {
        return note_run(code, sub, pc, m.at, proposal, ways, log);
    }
    Ok(log)
}

// Whether the move from where the machine stands falls back: at an end, by a run of too few bytes, or by an item that fails.
pub fn falls_back(code: &[u32], sub: &[u8], regs: &[u32], m: Machine) -> bool
    requires regs_len { (length regs.now ≡ registers) × (length sub.now < 2 ^ 31) }
    requires fits { Fits code.now m.pc }
{
    let pc = m.pc as usize;
    let kind = code[pc];
    if kind == END {
        return true;
    }
    if kind == RUN {
        let taken = run_length(code, sub, pc, m.at, ALL_STEPS);
        return taken < code[pc + 2];
    }
    tell_missed(code, sub, regs, m).is_some()
}
