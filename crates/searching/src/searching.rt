// A search: the first try, and then the starts behind it, which are sought as a match seeks them. A start that cannot begin is passed over, its steps
// counted.
ghost use Rattle.std.specs.Prelude.{◌≤◌, length};
ghost use Rattle.syntax.specs.Tree.{Rule};
ghost use Rattle.semantics.specs.Scans.{search_from as searched};
ghost use Rattle.machine.specs.Theorem.{Stands, Clear};
ghost use Rattle.openings.specs.Openings.{Opens};
ghost use Rattle.frame.specs.Inputs.{Held};
ghost use Rattle.seeking.specs.Starts.{Answers};

use crate::tries::try_first;
use machine::Stop;
use seeking::{Sought, seek};
use skipping::next_start;

// The first match from `from` on, with the empty end barred there or not.
pub fn search(
    code: &[u32],
    subject: &[u8],
    regs: &mut [u32],
    work: &mut [u32],
    set: &[u32; 8],
    any: bool,
    cost: u32,
    entry: u32,
    budget: u32,
    from: u32,
    barred: bool,
) -> Sought
    requires held { Held code.now subject.now work.old entry budget × Clear regs.old × Opens code.now entry budget (record { cost = cost; any = any; set = set.now }) }
    requires from_in_bounds { from ≤ length subject.now }
    ensures { (x : Rule) → Stands code.now x entry → Answers regs.new result (searched subject.now x budget from barred) }
{
    match try_first(code, subject, regs, work, entry, budget, from, barred) {
        Stop::End(used, e) => Sought::Found(from, e.at, used as u64),
        Stop::Nothing(used) => {
            let on = next_start(set, any, cost, subject, from + 1, used as u64);
            seek(
                code,
                subject,
                0,
                subject.len(),
                regs,
                work,
                set,
                any,
                cost,
                entry,
                budget,
                on.start,
                on.steps,
            )
        }
        Stop::Spent => Sought::Spent(from, budget as u64),
    }
}
