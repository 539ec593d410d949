// The ends of one start.
ghost use Rattle.std.specs.Prelude.{◌≡◌, ◌*◌, ◌≤◌, ◌<◌, ◌^◌, length, take};
ghost use Rattle.syntax.specs.Limits.{spans_length, registers};
ghost use Rattle.machine.specs.Words.{now_of};
ghost use Rattle.noting.specs.Noting.{Course, Going, Listed};

use crate::noting::note;
use crate::pieces::{fall_below, run_below};
use machine::{Machine, Stop};

// How the ends of one start came out, with the rows so far: all are listed, after so many steps of this start; no row was left, after so
// many; or the steps are spent.
#[derive(Clone, Copy, Debug, PartialEq, Eq)]
pub enum Ends {
    Done(usize, u32),
    Full(usize, u32),
    Spent(usize),
}

// Lists the ends of one start, behind the rows of the earlier ones.
pub fn list_start(
    code: &[u32],
    sub: &[u8],
    regs: &mut [u32],
    work: &mut [u32],
    results: &mut [u32],
    start: u32,
    m: Machine,
    budget: u32,
    earlier: usize,
    spans: usize,
) -> Ends
    requires regs_len { (length regs.old ≡ registers) × (length sub.now < 2 ^ 32) × (length code.now < 2 ^ 32) × (16 * budget ≤ length work.old) × (spans ≤ spans_length) }
    requires going { (k : Course) × Going code.now sub.now budget start earlier k (8 * budget) (now_of regs.old (take (8 * budget) work.old) m) results.old budget earlier }
    ensures { (k : Course) → Going code.now sub.now budget start earlier k (8 * budget) (now_of regs.old (take (8 * budget) work.old) m) results.old budget earlier
        → Listed sub.now budget start k regs.new results.new result }
{
    let heads = budget as usize;
    let half = 8 * heads;
    let mut head = m;
    let mut left = budget;
    let mut rows = earlier;
    loop {
        match run_below(code, sub, regs, work, half, head, left) {
            Stop::End(used, e) => {
                left -= used;
                match note(
                    results, work, half, heads, spans, earlier, rows, start, e.at, regs,
                ) {
                    Some(n) => {
                        rows = n;
                        head = fall_below(code, regs, work, half, e.height);
                    }
                    None => return Ends::Full(rows, budget - left),
                }
            }
            Stop::Nothing(used) => {
                let unused = left - used;
                return Ends::Done(rows, budget - unused);
            }
            Stop::Spent => return Ends::Spent(rows),
        }
    }
}
