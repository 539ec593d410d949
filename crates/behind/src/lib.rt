// What stands behind a group's end, and whether the group closes in vain.
//
// A group that is repeated closes once for each way through it, and mostly for nothing: the byte that follows is not there. To see that takes a look at a
// node or two; to close the group and fall back takes a frame that is written and read again. The walk alone looks there (`walker`).
#![tactic(auto)]

ghost use Rattle.std.specs.Prelude.{◌≡◌, ◌+◌, ◌≤◌, ◌<◌, ◌^◌, length, get_or};
ghost use Rattle.syntax.specs.Limits.{spans_length, registers};
ghost use Rattle.machine.specs.Code.{Fits};
ghost use Rattle.behind.specs.Behind.{Lacks, Told};

use machine::Machine;
use syntax::node::{AGAIN, BYTE, NODE_LENGTH};

// What stands behind a group's end: something whose byte is missing, so that the group closes in vain, and after how many steps; a byte item whose byte is
// there; or nothing of the kind.
#[derive(Clone, Copy, Debug, PartialEq, Eq)]
pub enum Behind {
    Missing(u32),
    There,
    NoByte,
}

// Whether the node behind a repeat is a byte item whose byte is missing. What is read is tested here, since nothing is known of a node that does not stand next.
fn look_onward(code: &[u32], sub: &[u8], onward: usize, at: usize) -> bool
    requires { (length code.now < 2 ^ 32) × (onward < 2 ^ 32) }
    ensures { Lacks code.now sub.now onward at result }
{
    if code.len() < onward + NODE_LENGTH {
        return false;
    }
    if code[onward] != BYTE {
        return false;
    }
    if sub.len() <= at {
        return true;
    }
    !charset::contains(code, onward + 3, sub[at])
}

// Looks behind a group's end where no byte item stands. If the group took no bytes, and a round ends there of which that is all, the repeat is left, unless a
// round is owed; the group then closes in vain if the byte behind the repeat is missing.
fn look_behind_round(code: &[u32], sub: &[u8], regs: &[u32], m: Machine, behind: usize) -> Behind
    requires pc_in_bounds { (m.pc + 4 ≤ length code.now) × (get_or code.now m.pc 0 ≡ 4) × (behind ≡ get_or code.now (m.pc + 1) 0) × (get_or code.now (m.pc + 2) 0 + 2 ≤ registers) × (get_or code.now (m.pc + 3) 0 + 2 ≤ spans_length) }
    requires regs_len { (length regs.now ≡ registers) × (length code.now < 2 ^ 32) }
    requires fits { Fits code.now behind }
    ensures { Told code.now sub.now regs.now m result }
{
    let pc = m.pc as usize;
    let opened = code[pc + 2] as usize;
    if regs[opened] != m.at {
        return Behind::NoByte;
    }
    if code[behind] != AGAIN {
        return Behind::NoByte;
    }
    let slot = code[pc + 3] as usize;
    let counter = code[behind + 4] as usize;
    if counter < slot + 2 {
        return Behind::NoByte;
    }
    if regs[counter + 1] != m.at {
        return Behind::NoByte;
    }
    if regs[counter] < code[behind + 1] {
        return Behind::NoByte;
    }
    let onward = code[behind + 6] as usize;
    if look_onward(code, sub, onward, m.at as usize) {
        return Behind::Missing(3);
    }
    Behind::NoByte
}

// Looks behind a group's end.
pub fn look_behind(code: &[u32], sub: &[u8], regs: &[u32], m: Machine) -> Behind
    requires pc_in_bounds { (m.pc + 4 ≤ length code.now) × (get_or code.now m.pc 0 ≡ 4) × (get_or code.now (m.pc + 2) 0 + 2 ≤ registers) × (get_or code.now (m.pc + 3) 0 + 2 ≤ spans_length) }
    requires regs_len { (length regs.now ≡ registers) × (length code.now < 2 ^ 32) }
    requires fits { Fits code.now (get_or code.now (m.pc + 1) 0) }
    ensures { Told code.now sub.now regs.now m result }
{
    let pc = m.pc as usize;
    let behind = code[pc + 1] as usize;
    if code[behind] != BYTE {
        return look_behind_round(code, sub, regs, m, behind);
    }
    let at = m.at as usize;
    if sub.len() <= at {
        return Behind::Missing(2);
    }
    if charset::contains(code, behind + 3, sub[at]) {
        return Behind::There;
    }
    Behind::Missing(2)
}
