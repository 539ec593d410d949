// Successive matches: each search starts where the match before it ended, and where that one was empty, the next may not be empty at the same place.
// Each match has a row, one behind another.
//
// `match_all` is the call, which compiles its rule and clears what it was lent. `scan_held` is its inside, for a rule that stands compiled: it may be
// used for one line after another. A start is tried at most twice, once with the empty end barred, so that all searches together cost at most twice what a
// match that fails may cost; beside its steps a match costs its row and the clearing of its groups' registers. The bytes that the rule can begin with are
// found once, for all searches. How one search follows another stands in `scans`.
#![tactic(auto)]

ghost use Rattle.std.specs.Prelude.{◌≡◌, drop};
ghost use Rattle.syntax.specs.Tree.{Rule};
ghost use Rattle.semantics.specs.Calls.{work_area_need, scan_call};
ghost use Rattle.machine.specs.Theorem.{Stands};
ghost use Rattle.frame.specs.Inputs.{call_of, Returned, Held};
ghost use Rattle.gathering.specs.Listing.{listing_of};
ghost use Rattle.scans.specs.Scanning.{Scans};

use frame::{REGISTERS, RULE_AREA_NEED, WORK_PER_STEP, finish, prepare};
use gathering::Listing;
use index::{ROW_LENGTH, UNSET};
use scans::scan_searches;
use syntax::Refusal;

// The successive matches of a rule that stands compiled, one row each.
pub fn scan_held(
    code: &[u32],
    entry: u32,
    subject: &[u8],
    budget: u32,
    work: &mut [u32],
    results: &mut [u32],
) -> Listing
    requires { Held code.now subject.now work.old entry budget }
    ensures scans { (x : Rule) → Stands code.now x entry → Scans subject.now x budget results.old results.new result }
    ensures work_unchanged { drop (work_area_need budget) work.new ≡ drop (work_area_need budget) work.old }
{
    let mut regs = [UNSET; REGISTERS];
    let need = WORK_PER_STEP * budget as usize;
    scan_searches(
        code,
        subject,
        &mut regs,
        &mut work[..need],
        results,
        entry,
        budget,
    )
}

// Finds all successive matches of a rule in a subject, one row each, and fills the name index.
pub fn match_all(
    rule: &[u8],
    flags: u32,
    subject: &[u8],
    budget: u32,
    rule_area: &mut [u32],
    work_area: &mut [u32],
    results: &mut [u32],
    names: &mut [u8],
) -> Result<Listing, Refusal>
    ensures { Returned (scan_call (call_of rule.now flags subject.now budget rule_area.old work_area.old results.old names.old)) (listing_of result) rule_area.new work_area.new results.new names.new }
{
    let short = results.len() < ROW_LENGTH;
    let compiled = prepare(
        rule,
        flags,
        false,
        subject.len(),
        budget,
        rule_area,
        work_area,
        short,
        names,
    )?;
    let told = scan_held(
        &rule_area[..RULE_AREA_NEED],
        compiled.entry,
        subject,
        budget,
        work_area,
        results,
    );
    finish(rule_area, work_area, budget);
    Ok(told)
}
