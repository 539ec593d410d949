// A listing: the readings of all starts, each written as a row when it is met for the first time, in the order in which the walks meet them.
//
// `list_readings` is the call, which compiles its rule and clears what it was lent. `list_held` is its inside, for a rule that stands compiled, one line
// after another. How the starts are gone over stands in `gathering`, and what a listing answers.
#![tactic(auto)]

ghost use Rattle.std.specs.Prelude.{◌≡◌, drop};
ghost use Rattle.syntax.specs.Tree.{Rule};
ghost use Rattle.semantics.specs.Calls.{work_area_need, list_call};
ghost use Rattle.machine.specs.Theorem.{Stands};
ghost use Rattle.frame.specs.Inputs.{call_of, Returned, Held};
ghost use Rattle.gathering.specs.Listing.{listing_of, Lists};

use frame::{REGISTERS, RULE_AREA_NEED, WORK_PER_STEP, finish, prepare};
pub use gathering::Listing;
use gathering::list_starts;
use index::{ROW_LENGTH, UNSET};
use noting::spans_of;
use syntax::Refusal;

// Lists the readings of a rule that stands compiled and has so many groups, one row each.
pub fn list_held(
    code: &[u32],
    entry: u32,
    groups: u32,
    subject: &[u8],
    budget: u32,
    work: &mut [u32],
    results: &mut [u32],
) -> Listing
    requires { Held code.now subject.now work.old entry budget }
    ensures lists { (x : Rule) → Stands code.now x entry → Lists subject.now x budget results.old results.new result }
    ensures work_unchanged { drop (work_area_need budget) work.new ≡ drop (work_area_need budget) work.old }
{
    let mut regs = [UNSET; REGISTERS];
    let need = WORK_PER_STEP * budget as usize;
    let spans = spans_of(groups);
    list_starts(
        code,
        subject,
        &mut regs,
        &mut work[..need],
        results,
        entry,
        budget,
        spans,
    )
}

// Lists all readings of a rule on a subject, one row each, and fills the name index.
pub fn list_readings(
    rule: &[u8],
    flags: u32,
    subject: &[u8],
    budget: u32,
    rule_area: &mut [u32],
    work_area: &mut [u32],
    results: &mut [u32],
    names: &mut [u8],
) -> Result<Listing, Refusal>
    ensures { Returned (list_call (call_of rule.now flags subject.now budget rule_area.old work_area.old results.old names.old)) (listing_of result) rule_area.new work_area.new results.new names.new }
{
    let short = results.len() < ROW_LENGTH;
    let compiled = prepare(
        rule,
        flags,
        false,
        subject.len(),
        budget,
        rule_area,
        work_area,
        short,
        names,
    )?;
    let told = list_held(
        &rule_area[..RULE_AREA_NEED],
        compiled.entry,
        compiled.groups,
        subject,
        budget,
        work_area,
        results,
    );
    finish(rule_area, work_area, budget);
    Ok(told)
}
