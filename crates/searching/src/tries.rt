// The first try of a search: the walk from where the match before ended, with the empty end barred there or not.
//
// A barred end costs its step and the walk goes on: the machine falls back from it, as a listing does from each of its ends. The loop keeps that what
// is left of the walk, barred ends taken as plain steps, answers what the search does. Where nothing is barred, one run to the first end is the whole try,
// and costs no loop.
ghost use Rattle.std.specs.Prelude.{◌≤◌, true, length};
ghost use Rattle.syntax.specs.Tree.{Rule};
ghost use Rattle.machine.specs.Theorem.{Stands, Clear};
ghost use Rattle.frame.specs.Inputs.{Held};
ghost use Rattle.searching.specs.Tries.{Tried};

use machine::{Stop, fall_back, start};
use walker::run_to_end;

// Walks from a start to the first end that is not there. The steps that are told are those of the whole walk.
fn run_past(
    code: &[u32],
    subject: &[u8],
    regs: &mut [u32],
    work: &mut [u32],
    entry: u32,
    budget: u32,
    from: u32,
) -> Stop
    requires { Held code.now subject.now work.old entry budget × Clear regs.old × (from ≤ length subject.now) }
    ensures { (x : Rule) → Stands code.now x entry → Tried subject.now x budget from true regs.old regs.new result }
{
    let mut head = start(entry, from);
    let mut left = budget;
    loop {
        match run_to_end(code, subject, regs, work, head, left) {
            Stop::End(used, e) => {
                let unused = left - used;
                if e.at != from {
                    return Stop::End(budget - unused, e);
                }
                let next = fall_back(code, regs, work, e.height);
                head = next;
                left = unused;
            }
            Stop::Nothing(used) => {
                let rest = left - used;
                return Stop::Nothing(budget - rest);
            }
            Stop::Spent => return Stop::Spent,
        }
    }
}

// Walks from a start to the first end that is allowed.
pub fn try_first(
    code: &[u32],
    subject: &[u8],
    regs: &mut [u32],
    work: &mut [u32],
    entry: u32,
    budget: u32,
    from: u32,
    barred: bool,
) -> Stop
    requires { Held code.now subject.now work.old entry budget × Clear regs.old × (from ≤ length subject.now) }
    ensures { (x : Rule) → Stands code.now x entry → Tried subject.now x budget from barred regs.old regs.new result }
{
    if barred {
        return run_past(code, subject, regs, work, entry, budget, from);
    }
    let m = start(entry, from);
    run_to_end(code, subject, regs, work, m, budget)
}
