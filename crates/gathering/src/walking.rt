// The starts of a listing, one after another.
ghost use Rattle.std.specs.Prelude.{◌≡◌, ◌*◌, ◌≤◌, ◌<◌, ◌^◌, length};
ghost use Rattle.syntax.specs.Limits.{subject_limit, budget_limit, spans_length};
ghost use Rattle.syntax.specs.Tree.{Rule};
ghost use Rattle.machine.specs.Theorem.{Stands, Clear};
ghost use Rattle.gathering.specs.Listing.{Lists};

use crate::Listing;
use noting::{Ends, list_start};
use openings::find_opening;
use skipping::pass_starts;

// Lists all starts, in their order.
pub fn list_starts(
    code: &[u32],
    sub: &[u8],
    regs: &mut [u32],
    work: &mut [u32],
    results: &mut [u32],
    entry: u32,
    budget: u32,
    spans: usize,
) -> Listing
    requires clear { Clear regs.old × (length sub.now ≤ subject_limit) × (length code.now < 2 ^ 32) × (16 * budget ≤ length work.old) × (spans ≤ spans_length) × (budget ≤ budget_limit) }
    requires stands { (x : Rule) × Stands code.now x entry }
    ensures { (x : Rule) → Stands code.now x entry → Lists sub.now x budget results.old results.new result }
{
    let open = find_opening(code, entry, budget, sub.len());
    let last = sub.len() as u32;
    let mut start: u32 = 0;
    let mut rows: usize = 0;
    let mut steps: u64 = 0;
    loop {
        let m = machine::start(entry, start);
        match list_start(
            code, sub, regs, work, results, start, m, budget, rows, spans,
        ) {
            Ends::Done(n, used) => {
                rows = n;
                if start == last {
                    return Listing::Complete(rows, steps + used as u64);
                }
                let on = pass_starts(
                    &open.set,
                    open.any,
                    open.cost,
                    sub,
                    start + 1,
                    steps + used as u64,
                );
                start = on.start;
                steps = on.steps;
            }
            Ends::Full(n, used) => return Listing::Full(n, steps + used as u64),
            Ends::Spent(n) => return Listing::Exhausted(start, n, steps + budget as u64),
        }
    }
}
