// A check on a rule that stands compiled: two bytes of start, the path of the choices behind them, and the row of a reading.
ghost use Rattle.std.specs.Prelude.{◌≡◌, ◌≤◌, length};
ghost use Rattle.syntax.specs.Limits.{row_length, subject_limit};
ghost use Rattle.syntax.specs.Tree.{Rule};
ghost use Rattle.semantics.specs.Proposals.{path_of, within};
ghost use Rattle.machine.specs.Theorem.{Stands, Clear};
ghost use Rattle.checking.specs.Verdicts.{Reports, Checks};

use crate::Verdict;
use card_format::two_bytes;
use following::{Followed, follow_path};
use index::{UNSET, write_row};
use syntax::REGISTERS;

// The path of the choices from a start that the line has; the registers are clear.
fn check_from(
    code: &[u32],
    entry: u32,
    subject: &[u8],
    budget: u32,
    start: u32,
    choices: &[u8],
    regs: &mut [u32],
    results: &mut [u32],
) -> Verdict
    requires { ((x : Rule) × Stands code.now x entry) × Clear regs.old × (length subject.now ≤ subject_limit) × (start ≤ length subject.now) × (row_length ≤ length results.old) }
    ensures { (x : Rule) → Stands code.now x entry → Reports results.old results.new result (within start budget (path_of subject.now x start choices.now)) }
{
    match follow_path(code, subject, choices, regs, entry, start, budget) {
        Followed::Arrived(at, steps) => {
            write_row(results, 0, start, at, regs);
            Verdict::Reading(steps as u64)
        }
        Followed::Missed(steps) => Verdict::Nothing(steps as u64),
        Followed::Spent => Verdict::Exhausted(start, budget as u64),
    }
}

// Checks the reading that a proposal tells, of a rule that stands compiled. Nothing is written but the row of a reading.
pub fn check_held(
    code: &[u32],
    entry: u32,
    subject: &[u8],
    budget: u32,
    proposal: &[u8],
    results: &mut [u32],
) -> Verdict
    requires { ((x : Rule) × Stands code.now x entry) × (length subject.now ≤ subject_limit) × (row_length ≤ length results.old) }
    ensures { Checks code.now subject.now proposal.now results.old results.new entry budget result }
{
    let all = proposal.len();
    if all < 2 {
        return Verdict::Nothing(0);
    }
    let start = two_bytes(proposal, 0);
    if subject.len() < start as usize {
        return Verdict::Nothing(0);
    }
    let mut regs = [UNSET; REGISTERS];
    check_from(
        code,
        entry,
        subject,
        budget,
        start,
        &proposal[2..all],
        &mut regs,
        results,
    )
}
