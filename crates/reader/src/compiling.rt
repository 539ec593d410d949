// A rule's bytes to a compiled rule: read, then linked.
ghost use Rattle.std.specs.Prelude.{◌≤◌, length};
ghost use Rattle.syntax.specs.Limits.{rule_limit, rule_area_need, spans_length, level_limit};
ghost use Rattle.syntax.specs.Flags.{depot};
ghost use Rattle.linker.specs.Nodes.{Inside};
ghost use Rattle.lengths.specs.Measures.{Deep, Judges, Follows};
ghost use Rattle.reader.specs.Areas.{table_start};
ghost use Rattle.reader.specs.Compiles.{SaysWith, Compiles};

use crate::read_rule;
use lengths::{checkable, judge};
use linker::link;
use syntax::{Flags, Refusal, SPANS_LENGTH};

// How many numbers of the area a compiled rule takes at most, with the table of names behind it.
const RULE_AREA: usize = 16384;

// Where the table begins, two numbers for each group.
pub const TABLE_START: usize = RULE_AREA - SPANS_LENGTH;

// A compiled rule: where it is entered, and how many groups it has.
#[derive(Clone, Copy, Debug, PartialEq, Eq)]
pub struct Compiled {
    pub entry: u32,
    pub groups: u32,
}

// Whether the rule whose inside stands at p keeps to the depot profile, if it is asked for. This and the next stand apart: one function for both would
// be handed what it asks, and say no less.
fn judged(area: &[u32], p: usize, flags: u32) -> Result<(), Refusal>
    requires { Deep Inside area.now p level_limit }
    ensures { Judges (depot flags) area.now p result }
{
    if Flags(flags).in_depot() {
        return judge(area, p);
    }
    Ok(())
}

// Whether a check can follow the rule whose inside stands at p, if it is one that asks.
fn followed(area: &[u32], p: usize, checked: bool) -> Result<(), Refusal>
    requires { Deep Inside area.now p level_limit }
    ensures { Follows checked area.now p result }
{
    if checked {
        return checkable(area, p);
    }
    Ok(())
}

// Reads and links a rule, and leaves the names of its groups in the table. What the profile bars and what a check cannot follow is
// looked for before the rule is linked, but told only where every reference is to a group.
fn compile_into(
    rule: &[u8],
    flags: u32,
    checked: bool,
    area: &mut [u32],
    table: &mut [u32],
) -> Result<Compiled, Refusal>
    requires { (length rule.now ≤ rule_limit) × (table_start ≤ length area.old) × (spans_length ≤ length table.old) }
    ensures { SaysWith checked rule.now flags area.new table.new table_start result }
{
    let inside = read_rule(rule, flags, area, table)?;
    let groups = inside.cursor.opened;
    let profile = judged(area, inside.node, flags);
    let course = followed(area, inside.node, checked);
    let entry = link(rule, area, inside.node, groups, table)?;
    profile?;
    course?;
    Ok(Compiled { entry, groups })
}

// Compiles a rule into the first numbers of the area. The others are not even lent on. The table is made beside the area, since no two parts of one slice
// can be lent at a time. A rule that is compiled for a check must be one that a check can follow; `checked` is the truth value of which `Compiles` speaks.
pub fn compile(
    rule: &[u8],
    flags: u32,
    checked: bool,
    area: &mut [u32],
) -> Result<Compiled, Refusal>
    requires { (length rule.now ≤ rule_limit) × (rule_area_need ≤ length area.old) }
    ensures { Compiles checked rule.now flags area.old area.new result }
{
    let mut table = [0; SPANS_LENGTH];
    let compiled = compile_into(rule, flags, checked, &mut area[..TABLE_START], &mut table);
    area[TABLE_START..RULE_AREA].copy_from_slice(&table);
    compiled
}
