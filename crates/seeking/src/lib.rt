// The starts of a line from one on, in their order, each walked up to its first end: the loop of a match, and of each search of successive matches
// behind its first try.
//
// A start that cannot begin is passed over, its steps counted, and one that fails on its straight way is seen to fail. The loop keeps that the starts that are left make the answer that all of them make. A walk
// that finds nothing leaves the registers as they were, so nothing is cleared between starts: one costs its walk and a look at the next one's byte. No row is
// written here: a match's groups stand in the registers, and the caller knows where its row goes.
#![tactic(auto)]

mod straight;

ghost use Rattle.std.specs.Prelude.{◌≡◌, List, [], ℕ, ◌≤◌, ◌<◌, ◌^◌, length};
ghost use Rattle.syntax.specs.Limits.{registers};
ghost use Rattle.syntax.specs.Tree.{Rule};
ghost use Rattle.semantics.specs.Walk.{Trace};
ghost use Rattle.semantics.specs.Answers.{Answer};
ghost use Rattle.machine.specs.Moves.{go};
ghost use Rattle.machine.specs.Ready.{until, Ready, Agrees};
ghost use Rattle.machine.specs.Theorem.{Stands, Clear};
ghost use Rattle.openings.specs.Openings.{Opens};
ghost use Rattle.frame.specs.Inputs.{between, Held};
ghost use Rattle.seeking.specs.Starts.{Near, Seeks, Answers, Leaves};

use machine::{Stop, start};
use skipping::next_start;
use straight::{fails_soon, looks_at};
use walker::run_to_end;

// What is told of the starts: a match, with its start, its end and the steps; or nothing is found, after so many steps; or the start at which the budget
// was used up, and the steps. The groups of a match stand in the registers.
#[derive(Clone, Copy, Debug, PartialEq, Eq)]
pub enum Sought {
    Found(u32, u32, u64),
    Nothing(u64),
    Spent(u32, u64),
}

// The walk of one start up to its first end, or what is seen of it without a walk.
fn try_start(
    code: &[u32],
    subject: &[u8],
    regs: &mut [u32],
    work: &mut [u32],
    entry: u32,
    begin: u32,
    budget: u32,
    looks: u32,
) -> Stop
    requires regs_len { (length regs.old ≡ registers) × (length subject.now < 2 ^ 32) × (length code.now < 2 ^ 32) × (looks ≤ budget) }
    requires by_index { (first : List ℕ) × (t : Trace) × Ready code.now subject.now (length work.old) budget first (go entry begin regs.old []) t }
    ensures { (first : List ℕ) (t : Trace) → Ready code.now subject.now (length work.old) budget first (go entry begin regs.old []) t
        → Agrees code.now subject.now (length work.old) budget first regs.new work.new (until budget 0 t) result }
{
    let used = fails_soon(code, subject, entry, begin, looks);
    if 0 < used {
        return Stop::Nothing(used);
    }
    let m = start(entry, begin);
    run_to_end(code, subject, regs, work, m, budget)
}

// The first match in a whole subject.
fn seek_within(
    code: &[u32],
    subject: &[u8],
    regs: &mut [u32],
    work: &mut [u32],
    set: &[u32; 8],
    any: bool,
    cost: u32,
    entry: u32,
    budget: u32,
    first: u32,
    before: u64,
    looks: u32,
) -> Sought
    requires held { Held code.now subject.now work.old entry budget × Clear regs.old × Opens code.now entry budget (record { cost = cost; any = any; set = set.now }) }
    requires near { Near subject.now first before × (looks ≤ budget) }
    ensures answers { (x : Rule) (a : Answer) → Stands code.now x entry → Seeks subject.now x budget a before first → Answers regs.new result a }
    ensures leaves { Leaves regs.old regs.new result }
{
    let mut begin = first;
    let mut steps = before;
    while begin as usize <= subject.len() {
        match try_start(code, subject, regs, work, entry, begin, budget, looks) {
            Stop::End(used, e) => return Sought::Found(begin, e.at, steps + used as u64),
            Stop::Nothing(used) => {
                let on = next_start(set, any, cost, subject, begin + 1, steps + used as u64);
                begin = on.start;
                steps = on.steps;
            }
            Stop::Spent => return Sought::Spent(begin, steps + budget as u64),
        }
    }
    Sought::Nothing(steps)
}

// The first match from the start `first` on, in a part of a text; `before` steps were taken. The part is named by its ends because a slice that is handed
// from one function to the next is copied as one number of 128 bits: where its halves have just been made, that copy waits until all that was stored
// before them has left for the memory, and for results of many lines that takes longer than a short match.
pub fn seek(
    code: &[u32],
    text: &[u8],
    from: usize,
    to: usize,
    regs: &mut [u32],
    work: &mut [u32],
    set: &[u32; 8],
    any: bool,
    cost: u32,
    entry: u32,
    budget: u32,
    first: u32,
    before: u64,
) -> Sought
    requires from_le_to { (from ≤ to) × (to ≤ length text.now) × Near (between text.now from to) first before }
    requires held { Held code.now (between text.now from to) work.old entry budget × Clear regs.old × Opens code.now entry budget (record { cost = cost; any = any; set = set.now }) }
    ensures answers { (x : Rule) (a : Answer) → Stands code.now x entry → Seeks (between text.now from to) x budget a before first → Answers regs.new result a }
    ensures leaves { Leaves regs.old regs.new result }
{
    let looks = looks_at(code, entry, budget);
    seek_within(
        code,
        &text[from..to],
        regs,
        work,
        set,
        any,
        cost,
        entry,
        budget,
        first,
        before,
        looks,
    )
}
