// The nodes of held parts and of looking ahead (02, request l).
//
// Where such a part is entered, its registers take the height of the stack and the position. At its inner end the choices made since are given up, and the
// frames that undo changes of registers are kept: falling back is then what it is everywhere, and no frame of a new kind is needed. An inner end looks at
// the frames pushed since the part was entered, so that each frame is looked at once for each such part that it lies in.
#![tactic(auto)]

ghost use Rattle.std.specs.Prelude.{◌≡◌, List, ℕ, ◌+◌, ◌*◌, ◌≤◌, ◌<◌, ◌^◌, length, get_or};
ghost use Rattle.syntax.specs.Limits.{registers};
ghost use Rattle.machine.specs.Code.{Fits};
ghost use Rattle.machine.specs.Words.{stack_of, now_of, moved_on, carried};
ghost use Rattle.machine.specs.Ready.{StackFits};
ghost use Rattle.marks.specs.Notes.{forbidden};

use machine::{Machine, cut_to, fall_back, push_explore, save_and_write};
use syntax::node::{FORBID, KEEP, MARK, RETURN};

// A held part or looking ahead is entered.
fn enter_part(code: &[u32], regs: &mut [u32], work: &mut [u32], m: Machine) -> Machine
    requires { (m.pc + 3 ≤ length code.now) × (get_or code.now (m.pc + 2) 0 + 2 ≤ length regs.old) × (4 * m.height + 4 ≤ length work.old) × (m.height < 2 ^ 32) }
    ensures { (sub : List ℕ) → now_of regs.new work.new result ≡ carried 13 code.now sub regs.old work.old m }
{
    let pc = m.pc as usize;
    let body = code[pc + 1];
    let register = code[pc + 2];
    let mark = m.height as u32;
    let h = save_and_write(regs, work, m.height, register, mark, m.at);
    Machine {
        pc: body,
        at: m.at,
        height: h,
        live: true,
    }
}

// A held part has ended for the first time: its other ways are given up.
fn keep_first(code: &[u32], regs: &mut [u32], work: &mut [u32], m: Machine) -> Machine
    requires { (m.pc + 3 ≤ length code.now) × (get_or code.now (m.pc + 2) 0 + 2 ≤ length regs.old) × (4 * m.height ≤ length work.old) }
    ensures { (sub : List ℕ) → now_of regs.new work.new result ≡ carried 14 code.now sub regs.old work.old m }
{
    let pc = m.pc as usize;
    let next = code[pc + 1];
    let register = code[pc + 2] as usize;
    let mark = regs[register] as usize;
    let h = cut_to(work, m.height, mark);
    Machine {
        pc: next,
        at: m.at,
        height: h,
        live: true,
    }
}

// Looking ahead has found its end: its other ways are given up too, and the walk goes on where it began.
fn return_first(code: &[u32], regs: &mut [u32], work: &mut [u32], m: Machine) -> Machine
    requires { (m.pc + 3 ≤ length code.now) × (get_or code.now (m.pc + 2) 0 + 2 ≤ length regs.old) × (4 * m.height ≤ length work.old) }
    ensures { (sub : List ℕ) → now_of regs.new work.new result ≡ carried 15 code.now sub regs.old work.old m }
{
    let pc = m.pc as usize;
    let next = code[pc + 1];
    let register = code[pc + 2] as usize;
    let mark = regs[register] as usize;
    let at = regs[register + 1];
    let h = cut_to(work, m.height, mark);
    Machine {
        pc: next,
        at: at,
        height: h,
        live: true,
    }
}

// Negative looking ahead is entered: going on behind it is kept for when its inside has nothing left. It keeps a note: in a walk the position, which is not
// looked at again, and in an explanation what that needs to know once it fails.
pub fn forbid(code: &[u32], regs: &mut [u32], work: &mut [u32], m: Machine, note: u32) -> Machine
    requires { (m.pc + 4 ≤ length code.now) × (get_or code.now (m.pc + 2) 0 + 2 ≤ length regs.old) × (4 * m.height + 8 ≤ length work.old) × (m.height < 2 ^ 32) }
    ensures { now_of regs.new work.new result ≡ forbidden code.now regs.old (stack_of work.old m.height) m.pc m.at note }
{
    let pc = m.pc as usize;
    let body = code[pc + 1];
    let register = code[pc + 2];
    let next = code[pc + 3];
    let mark = m.height as u32;
    let kept = push_explore(work, m.height, next, m.at);
    let h = save_and_write(regs, work, kept, register, mark, note);
    Machine {
        pc: body,
        at: m.at,
        height: h,
        live: true,
    }
}

// Negative looking ahead has found an end, and fails: all since is undone.
fn refute(code: &[u32], regs: &mut [u32], work: &mut [u32], m: Machine) -> Machine
    requires pc_in_bounds { (m.pc + 4 ≤ length code.now) × (get_or code.now (m.pc + 2) 0 + 2 ≤ length regs.old) × (4 * m.height ≤ length work.old) × (length regs.old ≡ registers) }
    requires stack_fits { StackFits code.now (stack_of work.old m.height) }
    ensures { (sub : List ℕ) → now_of regs.new work.new result ≡ carried 17 code.now sub regs.old work.old m }
{
    let pc = m.pc as usize;
    let register = code[pc + 2] as usize;
    let mark = regs[register] as usize;
    let h = cut_to(work, m.height, mark);
    fall_back(code, regs, work, h)
}

// One node of a held part or of looking ahead.
pub fn take_marked(
    code: &[u32],
    regs: &mut [u32],
    work: &mut [u32],
    kind: u32,
    m: Machine,
) -> Machine
    requires kind_value { (kind ≡ get_or code.now m.pc 0) × (13 ≤ kind) × (length regs.old ≡ registers) × (4 * m.height + 8 ≤ length work.old) × (m.height < 2 ^ 32) }
    requires fits { Fits code.now m.pc }
    requires stack_fits { StackFits code.now (stack_of work.old m.height) }
    ensures { (sub : List ℕ) → now_of regs.new work.new result ≡ moved_on code.now sub regs.old work.old m }
{
    match kind {
        MARK => enter_part(code, regs, work, m),
        KEEP => keep_first(code, regs, work, m),
        RETURN => return_first(code, regs, work, m),
        FORBID => forbid(code, regs, work, m, m.at),
        _ => refute(code, regs, work, m),
    }
}
