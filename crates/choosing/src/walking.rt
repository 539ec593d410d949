// The plain walk from a row's start to the first end with that row, with what it chose written down.
ghost use Rattle.std.specs.Prelude.{◌≡◌, List, [], ℕ, ◌+◌, ◌*◌, ◌≤◌, ◌<◌, ◌^◌, length, get_or, IfOk};
ghost use Rattle.syntax.specs.Limits.{registers, row_length};
ghost use Rattle.semantics.specs.Walk.{Trace};
ghost use Rattle.machine.specs.Code.{Fits};
ghost use Rattle.machine.specs.Moves.{go};
ghost use Rattle.machine.specs.Words.{stack_of, now_of, moved_on};
ghost use Rattle.machine.specs.Ready.{StackFits, Ready};
ghost use Rattle.choosing.specs.Logs.{Within};
ghost use Rattle.choosing.specs.Walks.{Noted};

use crate::Unmade;
use crate::choices::{falls_back, note_choice};
use crate::log::{Log, Way, go_back, put};
use index::{ROW_LENGTH, write_row};
use machine::{Machine, fall_back, start};
use plain::make_move;
use syntax::node::{BRANCH, BREAK, END};

// Where the machine stands after a move, and the log then.
#[derive(Clone, Copy, Debug, PartialEq, Eq)]
pub struct Turn {
    pub head: Machine,
    pub log: Log,
}

// Makes the move from where the machine stands, which at an end is to fall back.
fn move_on(code: &[u32], sub: &[u8], regs: &mut [u32], work: &mut [u32], m: Machine) -> Machine
    requires pc_bound { (get_or code.now m.pc 0 < 12) × (length regs.old ≡ registers) × (4 * m.height + 8 ≤ length work.old) × (length sub.now < 2 ^ 31) × (length code.now < 2 ^ 32) × (m.height < 2 ^ 32) }
    requires fits { Fits code.now m.pc }
    requires stack_fits { StackFits code.now (stack_of work.old m.height) }
    ensures { now_of regs.new work.new result ≡ moved_on code.now sub.now regs.old work.old m }
{
    if code[m.pc as usize] == END {
        return fall_back(code, regs, work, m.height);
    }
    make_move(code, sub, regs, work, m, 0)
}

// Whether a machine that fell back stands at a branch that is not the last. Where nothing is left its node says nothing.
fn at_branch(code: &[u32], m: Machine) -> bool {
    let pc = m.pc as usize;
    if code.len() <= pc {
        return false;
    }
    code[pc] == BRANCH
}

// The log after a move that fell back or did not.
fn settle(
    code: &[u32],
    head: Machine,
    falls: bool,
    proposal: &mut [u8],
    ways: &mut [u8],
    log: Log,
) -> Result<Log, Unmade>
    requires { Within proposal.old ways.old log }
    ensures { IfOk result (Within proposal.new ways.new) }
{
    if falls {
        let more = at_branch(code, head);
        return go_back(proposal, ways, log, more);
    }
    Ok(Log {
        used: log.used,
        resumed: false,
    })
}

// A move, and what it chose.
fn take_turn(
    code: &[u32],
    sub: &[u8],
    regs: &mut [u32],
    work: &mut [u32],
    m: Machine,
    proposal: &mut [u8],
    ways: &mut [u8],
    log: Log,
) -> Result<Turn, Unmade>
    requires pc_bound { (get_or code.now m.pc 0 < 12) × (length regs.old ≡ registers) × (4 * m.height + 8 ≤ length work.old) × (length sub.now < 2 ^ 31) × (length code.now < 2 ^ 32) × (m.height < 2 ^ 32) }
    requires fits { Fits code.now m.pc }
    requires stack_fits { StackFits code.now (stack_of work.old m.height) }
    requires within { Within proposal.old ways.old log }
    ensures head_after { IfOk result (λ turn. now_of regs.new work.new turn.head ≡ moved_on code.now sub.now regs.old work.old m) }
    ensures within_2 { IfOk result (λ turn. Within proposal.new ways.new turn.log) }
{
    let falls = falls_back(code, sub, regs, m);
    let noted = note_choice(code, sub, regs, m, proposal, ways, log)?;
    let head = move_on(code, sub, regs, work, m);
    let settled = settle(code, head, falls, proposal, ways, noted)?;
    Ok(Turn { head, log: settled })
}

// Whether the machine stands at an end with this row.
fn is_there(kind: u32, m: Machine, regs: &[u32], wanted: &[u32]) -> bool
    requires { (length regs.now ≡ registers) × (length wanted.now ≡ row_length) }
{
    if kind != END {
        return false;
    }
    let mut row = [0u32; ROW_LENGTH];
    write_row(&mut row, 0, wanted[0], m.at, regs);
    row.as_slice() == wanted
}

// The two bytes of a start.
fn begin(proposal: &mut [u8], ways: &mut [u8], at: u32) -> Result<Log, Unmade>
    ensures { IfOk result (Within proposal.new ways.new) }
{
    let none = Log {
        used: 0,
        resumed: false,
    };
    let low = (at % 256) as u8;
    let high = (at / 256 % 256) as u8;
    let one = put(proposal, ways, none, low, Way::Settled)?;
    put(proposal, ways, one, high, Way::Settled)
}

// Walks from the start of a row to the first end with that row, with so many bytes written.
pub fn walk_to(
    code: &[u32],
    sub: &[u8],
    regs: &mut [u32],
    work: &mut [u32],
    entry: u32,
    budget: u32,
    wanted: &[u32],
    proposal: &mut [u8],
    ways: &mut [u8],
) -> Result<usize, Unmade>
    requires regs_len { (length regs.old ≡ registers) × (length wanted.now ≡ row_length) × (length sub.now < 2 ^ 31) × (length code.now < 2 ^ 32) }
    requires by_index { (first : List ℕ) × (t : Trace) × Ready code.now sub.now (length work.old) budget first (go entry (get_or wanted.now 0 0) regs.old []) t }
    ensures { Noted proposal.new result }
{
    let first = wanted[0];
    let mut rest = budget;
    let mut head = start(entry, first);
    let mut log = begin(proposal, ways, first)?;
    while head.live {
        if rest == 0 {
            return Err(Unmade::Exhausted);
        }
        let kind = code[head.pc as usize];
        if BREAK <= kind {
            return Err(Unmade::Unfound);
        }
        if is_there(kind, head, regs, wanted) {
            return Ok(log.used);
        }
        let turn = take_turn(code, sub, regs, work, head, proposal, ways, log)?;
        head = turn.head;
        log = turn.log;
        rest -= 1;
    }
    Err(Unmade::Unfound)
}
